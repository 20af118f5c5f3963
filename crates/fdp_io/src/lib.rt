//! The outside of the drive: a bench that holds the texts that a run reads and the flash of its drive, and a sink that takes what it prints.
#![tactic(auto)]

mod bench;
mod bench_file;
mod bench_mem;
mod calls;
mod flash_of;
mod gate;
mod names;
mod sink;
mod sink_mem;
mod sink_writer;

pub use bench::{Bench, NotTaken, TextRead};
pub use bench_file::{BenchFile, read_rest};
pub use bench_mem::BenchMem;
pub use gate::{Gate, OpenGate, Point};
pub use sink::{Sink, SinkEnd, SinkFailed, write_all};
pub use sink_mem::SinkMem;
pub use sink_writer::SinkWriter;
