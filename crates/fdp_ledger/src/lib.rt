//! What a flash counted and holds, by the history of its drive.
#![tactic(auto)]

mod counts;

pub use counts::{Counts, counts_of};
