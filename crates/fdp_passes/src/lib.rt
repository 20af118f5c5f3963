//! The relocation of a reclaim group: its targets, the pass under way, and what its next step is.
#![tactic(auto)]

mod due;
mod group_passes;
mod lane;
mod place;
mod room;
mod target;

pub use due::{Due, next_step};
pub use group_passes::GroupPasses;
pub use lane::Lane;
pub use place::{Place, next_place};
pub use room::suffices;
pub use target::{go_on, has_place, open_page, use_target};
