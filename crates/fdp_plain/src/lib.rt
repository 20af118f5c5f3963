//! The plain drive: it takes a list of entries one by one, and refuses each that is no step after those before it.
#![tactic(auto)]

mod again;
mod commit;
mod copied;
mod laws;
mod made;
mod naming;
mod pages;
mod plain;
mod prepare;
mod refused;
mod reopen;
mod reserve;
mod step;
mod take;
mod telling;

pub use laws::runs_go_on;
pub use plain::Plain;
pub use refused::Refused;
