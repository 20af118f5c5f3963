//! Queue pairs, and the entries that commands have in them.
#![tactic(auto)]

mod entry;
mod queue_pair;
mod work;

pub use entry::work_of;
pub use queue_pair::{Full, QueuePair};
pub use work::Work;

#[cfg(test)]
mod tests;
