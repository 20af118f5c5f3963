//! Sessions of a drive: the traces of several queues, served by hosts beside one another, with collectors beside them.
#![tactic(auto)]

mod session;

pub use fdp_board::{Group, NotLoaded, OpenFault};
pub use fdp_crews::{End, Receipt};
pub use session::{SessionEnd, run_session};
