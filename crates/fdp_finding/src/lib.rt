//! What a run is asked for: its words, its configuration and its traces or streams, or records, and the faults of a run with their lines.
#![tactic(auto)]

mod asked;
mod command_line;
mod fault;
mod image;
mod laws;
mod line;
mod no_record;
mod no_stream;
mod no_trace;
mod reading;
mod records;
mod traces;

pub use asked::{Form, MOST_RECORDS, MOST_TRACES};
pub use fault::Fault;
pub use image::ImageFault;
pub use laws::limits_are_those_of_the_documents;
pub use line::{write_fault, write_parts};
pub use no_record::NoRecord;
pub use no_stream::NoStream;
pub use no_trace::NoTrace;
pub use reading::{Audited, Task, Wanted, find};
pub use records::number_among;
