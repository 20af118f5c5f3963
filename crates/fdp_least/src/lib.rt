//! The least of many keys, known at once.
#![tactic(auto)]

mod least;

pub use least::Least;
