//! Where pages stand after an entry, what relocation copied, and what the entry counts.
#![tactic(auto)]

mod totals;
mod trail;

pub use totals::count;
pub use trail::trace;
