//! The outline of a drive, as a checkpoint has it beside the pages of the blocks.
#![tactic(auto)]

mod apply;
mod fresh;
mod groups;
mod keep;
mod laws;
mod lookups;
mod moved_block;
mod named;
mod outline;
mod spaces;

pub use fresh::fresh_summary;
pub use laws::{
    an_outline_is_saved, an_outline_says_the_reading, an_outline_with_its_pages_has_room,
    events_keep_an_outline,
};
pub use moved_block::MovedBlock;
pub use outline::Outline;
pub use spaces::space_at;
