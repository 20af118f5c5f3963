//! The steps of relocation, with the calls of the flash that they make.
#![tactic(auto)]

mod copy_step;
mod copying;
mod erasing;
mod laws;
mod step;

pub use erasing::erase_victim;
pub use laws::live_pages_outlast_a_step;
pub use step::{Lost, Step, advance};
