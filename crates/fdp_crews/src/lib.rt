//! Crews: the hosts and the collectors of a drive, on threads of their own, from the making of its lock to its end.
#![tactic(auto)]

mod crews;
mod hiring;
mod leaving;
mod rooms;
mod shift;
mod sweeper;
mod worker;

pub use fdp_workers::{End, Group, Receipt};
pub use shift::{Shift, serve_traces};
