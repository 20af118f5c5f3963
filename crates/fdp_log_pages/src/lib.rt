//! The log pages of a drive, in part or whole, and how long they are. Nothing here takes memory.
#![tactic(auto)]

mod configurations;
mod events;
mod usages;
mod view;

pub use view::LogView;
