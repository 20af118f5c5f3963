//! The saving of a drive: one change, and its checkpoint, over a flash.
#![tactic(auto)]

mod laws;
mod saved;
mod saver;

pub use laws::{
    a_checkpoint_leaves_room_for_a_journal, a_flash_without_an_area_is_that_of_a_new_saver,
    an_image_is_that_of_a_saver_of_its_area, an_image_reads_as_one_of_its_areas,
    data_pages_may_change, only_the_last_call_fails,
    while_there_is_no_doubt_the_area_is_what_is_read,
};
pub use saved::Saved;
pub use saver::Saver;
