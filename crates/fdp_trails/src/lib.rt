//! How a relocation pass follows the history, what its move moves, and when a reclaim group has no room.
#![tactic(auto)]

mod groups;
mod laws;
mod moves;
mod room;
mod toil;

pub use groups::{all_passes_follow_entries, due_copies_are_next};
pub use laws::{copies_follow_the_trail, empty_units_are_erasable, passes_follow_entries};
pub use moves::{moves_follow_the_pass, owners_move};
pub use room::{
    crowded_groups_are_over_budget, held_units_are_few, live_pages_are_stored_or_going,
};
pub use toil::{moves_keep_toil, toil_falls_by_passes, toil_is_what_can_be_won};
