//! Reads the record of a run: its output and its printed history. What is read is printed again, and compared.
#![tactic(auto)]

mod carried;
mod cut;
mod data;
mod entries;
mod entry;
mod fault;
mod fields;
mod first;
mod frame;
mod front;
mod lines;
mod names;
mod next;
mod place;
mod record;

pub use fault::RecordFault;
pub use lines::{line_at, same_lines};
pub use place::Place;
pub use record::{Printed, read_record};
