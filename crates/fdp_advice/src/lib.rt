//! What a fault of a run means: for its line, which stays as it is, a sentence that tells what was found, where, and what to do.
#![tactic(auto)]

mod advice;
mod form;
mod heard;
mod usage;
mod values;

pub use advice::advise;
pub use heard::Heard;
