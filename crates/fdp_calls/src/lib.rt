//! Calls of a flash that follow one another, and those of one page.
#![tactic(auto)]

mod media;

pub use media::{MediaError, fetch, program};
