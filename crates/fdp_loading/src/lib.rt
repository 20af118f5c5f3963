//! A drive is opened: its run begins with what stands on a flash, and is saved.
#![tactic(auto)]

mod found;
mod fresh;
mod laws;
mod loaded;
mod loading;

pub use fdp_keeper::{Done, OpenFault, Room, Stage, Ticket};
pub use fdp_ledger::{Counts, counts_of};
pub use laws::an_image_that_stands_for_a_history_opens;
pub use loaded::Loaded;
pub use loading::load;
