//! Commands of hosts as binary streams: frames with submission queue entries, read in pieces and written.
#![tactic(auto)]

mod asked;
mod carried;
mod command;
mod data;
mod encode;
mod fault;
mod fields;
mod frames;
mod front;
mod laws;
mod next;
mod payload;
mod reader;
mod room;
mod typed;

pub use asked::{Asked, asked_of};
pub use command::command_of;
pub use encode::{NotCarried, encode_command};
pub use fault::{FeedError, StreamFault, StreamFaultKind};
pub use fields::write_in;
pub use front::{Front, entry_of};
pub use laws::{
    a_stream_is_not_broken, frames_are_well_formed, one_command_a_frame, one_fault, one_reading,
    streams_are_well_formed,
};
pub use reader::StreamReader;
pub use room::data_in;
