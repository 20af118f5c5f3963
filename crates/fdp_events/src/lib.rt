//! The events that a drive keeps: which kinds it keeps for each handle, and what an event holds.
#![tactic(auto)]

mod event;
mod masks;

pub use event::{handle_event, identifier_event, is_host, reallocated_event};
pub use masks::{no_reports, reports, set_reports};
