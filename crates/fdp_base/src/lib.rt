//! The words of the drive: commands, replies, the entries of its history, its configuration.
#![tactic(auto)]

mod codes;
mod command;
mod config;
mod entry;
mod event;
mod kinds;
mod limits;
mod payload;
mod recorded;
mod repeat;
mod sequence;
mod spare;
mod status;
mod text;

pub use codes::{
    AdminOpcode, Directive, Feature, IoOpcode, LogPage, ReceiveOperation, SendOperation,
};
pub use command::{
    Command, Create, Dealloc, Delete, Flush, GetFdp, GetLog, HandleStatus, HandleUpdate, Other,
    Range, Read, SetEvents, SetFdp, Write, Zero,
};
pub use config::{Class, DriveConfig, Geometry, NamespaceConfig};
pub use entry::{
    Aside, BlockName, Copied, Entry, Erased, Host, Moved, Placed, Reply, Retired, Shut, Spot,
    Started, Totals, Worn,
};
pub use event::{Event, EventFlags, EventKind};
pub use limits::{
    LONGEST_CONFIG, LONGEST_LINE, LONGEST_TRACE, MOST_COMMAND_BLOCKS, MOST_DWORDS,
    MOST_ENTRY_BLOCKS, MOST_ENTRY_EVENT_TYPES, MOST_ENTRY_PIDS, MOST_ENTRY_RANGES, MOST_HANDLES,
    MOST_NAMESPACES, MOST_PAGES, MOST_PIDS, MOST_QUEUE_DEPTH, MOST_RANGES, MOST_STEPS,
    MOST_TRACE_BLOCKS, MOST_TRACE_COMMANDS,
};
pub use payload::Payload;
pub use recorded::{Mark, Recorded, Snapshot};
pub use repeat::has_repeat;
pub use sequence::{BlockNames, Bytes, Classes, EventTypes, HandleList, Pids, Ranges, Sequence};
pub use spare::DataSpare;
pub use status::{Status, status_codes_are_the_standards};
pub use text::hex_digit;
