//! The journal of the current system area, read page by page into a state.
#![tactic(auto)]

mod journal;
mod record;
mod replayed;

pub use journal::replay;
pub use replayed::{Refusal, ReplayFault, Replayed};
