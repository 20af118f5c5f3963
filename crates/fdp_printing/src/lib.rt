//! The output of a run, and its history, printed piece by piece.
#![tactic(auto)]

mod closing;
mod completions;
mod history;
mod pieces;
mod print;
mod telling;

pub use closing::{Closing, Placement};
pub use history::push_entry;
pub use pieces::Cut;
pub use print::{print_output, print_record};
pub use telling::{Telling, closing_of};
