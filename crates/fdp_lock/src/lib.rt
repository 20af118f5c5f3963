//! A lock of turns over a value that records.
#![tactic(auto)]

mod boxed;
mod close;
mod lock;
mod plays;
mod seat;
mod share;
mod turn;
mod view;

pub use boxed::Boxed;
pub use fdp_base::Recorded;
pub use lock::{GroupLock, NotMade};
pub use seat::Seat;
pub use turn::Turn;
