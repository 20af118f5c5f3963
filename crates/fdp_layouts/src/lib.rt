//! The layouts of queue entries, log pages, statuses and ranges: bytes in and out, with one meaning.
#![tactic(auto)]

mod bad_frame;
mod coded;
mod completion;
mod configurations;
mod events;
mod frame;
mod group_bits;
mod handle_status;
mod number;
mod range;
mod span;
mod statistics;
mod submission;
mod table;
mod usage;

pub use bad_frame::BadFrame;
pub use coded::Coded;
pub use completion::{Cqe, RetryDelay, StatusCodeType, StatusField};
pub use configurations::{Attributes, ConfigDesc, ConfigHead, RuhClass};
pub use events::{EventDesc, EventHead, ReallocatedDesc};
pub use frame::Frame;
pub use group_bits::GroupBits;
pub use handle_status::{RuhStatusDesc, RuhStatusHead};
pub use range::DsmRange;
pub use statistics::Stats;
pub use submission::{EntryFlags, Fuse, Psdt, Sqe};
pub use usage::{RuhUse, RuhUseHead, Usage};
