//! Opening a flash: the state that a drive left there, or why there is none.
#![tactic(auto)]

mod area;
mod blocks;
mod fields;
mod keys;
mod laws;
mod opened;
mod opening;
mod place;

pub use blocks::says_block;
pub use fdp_checkpoint::{LookFailed, look_at_data};
pub use fdp_state::list_at;
pub use laws::{
    a_sound_area_is_what_the_image_reads_as, an_image_that_reads_is_taken,
    an_image_with_a_bad_page_is_not_sound, blocks_that_are_kept_stand_apart,
    what_an_image_reads_as_is_sound,
};
pub use opened::{OpenFault, Opened};
pub use opening::open_state;
