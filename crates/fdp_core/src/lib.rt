//! The drive on one thread: a group of reclaim units that serves commands step by step, relocates data behind them, and keeps the
//! history.
#![tactic(auto)]

mod answer;
mod group;
mod laws;
mod loaded;

pub use answer::{Begun, Placed};
pub use fdp_loading::{Done, OpenFault, Room, Stage, Ticket};
pub use fdp_relocation::Advance;
pub use group::Group;
pub use laws::a_saving_is_one_call;
pub use loaded::NotLoaded;
