//! Checkpoints of the drive, read from its system areas and written there.
#![tactic(auto)]

mod collect;
mod count;
mod erasing;
mod fault;
mod filling;
mod freezing;
mod keeping;
mod laws;
mod reading;
mod sealing;
mod slicing;
mod target;
mod writing;

pub use count::page_count;
pub use fault::{CheckpointFault, ContentFault, FoundCheckpoint};
pub use fdp_areas::{Current, LookFailed, find_current, find_used, look_at_data};
pub use freezing::freeze;
pub use laws::{
    a_seal_says_its_state_with_the_kept_changes, a_slice_leaves_the_current_area,
    bad_checkpoint_is_none_of_the_image, checkpoint_is_that_of_the_image, slices_make_a_checkpoint,
};
pub use reading::{read, read_content};
pub use sealing::seal;
pub use slicing::slice;
pub use target::{Target, VERSION};
pub use writing::write;
