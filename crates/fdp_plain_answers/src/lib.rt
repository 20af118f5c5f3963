//! What the plain drive answers and tells: refusals, the data of replies, the events of an entry.
#![tactic(auto)]

mod bytes;
mod closings;
mod configurations;
mod data;
mod events;
mod handle_status;
mod kept_events;
mod log;
mod openings;
mod pages;
mod reallocations;
mod refusals;
mod telling;
mod transfer;

pub use data::data_of;
pub use kept_events::push_kept;
pub use refusals::refusal;
pub use telling::{event, totals, usage};
pub use transfer::dword0_of;
