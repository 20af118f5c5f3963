//! The state of a drive in memory, as the journal behind its checkpoint is applied to it.
#![tactic(auto)]

mod apply;
mod fits;
mod index;
mod lists;
mod loaded;
mod make;
mod moved_blocks;
mod moved_list;
mod moves;
mod names;
mod owners;
mod parts;
mod rows;

pub use fdp_outline::space_at;
pub use fdp_replay::{ReplayFault, replay};
pub use fits::is_handle_list;
pub use loaded::LoadedState;
pub use names::full_budget;
pub use rows::list_at;
