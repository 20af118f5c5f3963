//! Small drives for tests and tables of tests. Each configuration is valid.
#![tactic(auto)]

mod large;
mod small;

pub use large::{drive_t, small_drive_t};
pub use small::{drive_s, empty_drive_s};
