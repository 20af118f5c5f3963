//! Hosts and collectors: workers on threads of their own that take turns with a drive.
#![tactic(auto)]

mod boxed;
mod collectors;
mod ends;
mod hosts;
mod laws;
mod pairs;
mod receipt;
mod steps;
mod stop;
mod turns;

pub use collectors::{collector, sweep};
pub use ends::{CollectorEnd, End, HostEnd};
pub use fdp_core::{Advance, Begun, Done, Group, NotLoaded, OpenFault, Placed, Room, Ticket};
pub use hosts::{host, serve, serve_trace};
pub use laws::{entries_of_others_leave_a_queue, histories_are_records, snapshots_have_the_sums};
pub use receipt::Receipt;
pub use steps::Steps;
pub use stop::Stop;
