//! The data units of a drive: what each is to its reclaim group, its next page, and how many of its pages are live.
#![tactic(auto)]

mod data_unit;
mod group_units;
mod laws;
mod state;
mod tally;
mod units;

pub use data_unit::DataUnit;
pub use laws::{full_units_are_live, units_are_counted_once};
pub use state::UnitState;
pub use units::Units;
