//! What a run finds in an image, and how it begins with that.
#![tactic(auto)]

mod found;
mod order;
mod reopened;
mod tables;
mod told;

pub use fdp_locations::toil_is_what_can_be_won;
pub use fdp_opening::{
    Lost, OpenFault, Opened, Pages, PagesFault, Step, find_pages, open_state, take_map,
};
pub use found::{fresh_drives_are_found, images_are_found, loaded_states_can_begin};
pub use order::found_drives_are_in_order;
pub use reopened::{openings_keep_order, openings_keep_tables};
pub use tables::{blank_pages_hold_nothing, opened_tables_are_led};
pub use told::owners_tell_cells;
