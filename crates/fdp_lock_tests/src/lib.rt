//! A value that records, of the smallest kind, and threads that take turns with it.
#![tactic(auto)]

mod tally;
#[cfg(test)]
mod tests;
mod worker;

pub use tally::Tally;
pub use worker::{Load, linger, work, work_both, work_four};
