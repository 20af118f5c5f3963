//! A board that shows the length of a record and the sums of what its entries add.
#![tactic(auto)]

mod bell;
mod gauge;
mod known;

pub use bell::Sight;
pub use gauge::{Gauge, Pass, Teller};
