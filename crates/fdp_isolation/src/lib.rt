//! Isolation: what the whole pages of a unit have in common, after each step of a drive.
#![tactic(auto)]

mod laws;

pub use laws::{
    found_drives_are_kept_apart, fresh_drives_are_kept_apart, stops_leave_data_isolated,
    what_is_drawn_or_found_reads_apart, what_is_kept_apart_is_isolated,
};
