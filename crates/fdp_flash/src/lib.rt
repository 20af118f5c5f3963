//! The flash of the drive: pages that are blank, torn or whole, and the calls that read, program and erase them.
#![tactic(auto)]

mod answer;
mod area;
mod cell;
mod flash;
mod layout;
mod memory;
mod plan;

pub use answer::{Fetched, Operation, Seen, Wrote};
pub use area::erase_area;
pub use cell::Cell;
pub use flash::Flash;
pub use memory::{FlashMem, Recorded};
pub use plan::{Fate, Outcome, Plan};
