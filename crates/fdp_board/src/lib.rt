//! A drive behind the lock of its workers.
#![tactic(auto)]

mod before;
mod beginning;
mod board;
mod record;

pub use beginning::Beginning;
pub use board::Board;
pub use fdp_workers::{Group, NotLoaded, OpenFault};
