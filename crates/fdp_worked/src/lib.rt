//! Worked rows of the definitions: whole histories, and what is printed of them, computed.
#![tactic(auto)]

mod image;
mod rows;

pub use image::{drives_are_valid, image_is_orderly};
pub use rows::{
    closed_units_are_printed, image_has_live_pages, image_is_printed, image_run_is_marked,
    image_runs_on_legally, invalid_identifier_is_printed,
};
