//! The journal of a drive: a record for each saved change, one page each, behind the checkpoint of the current system area.
#![tactic(auto)]

mod appended;
mod journal;

pub use appended::Appended;
pub use journal::Journal;
