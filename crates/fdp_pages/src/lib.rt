//! The pages of data of a drive: whose they are, which unit each handle fills, and what relocation does with them.
#![tactic(auto)]

mod laws;
mod leaving;
mod pages;
mod taking;

pub use fdp_collector::{Lost, Step};
pub use laws::{live_pages_follow_owners, live_pages_follow_units, open_units_are_held};
pub use pages::Pages;
