//! The bytes of the log pages and of the reclaim unit handle status, piece by piece, each by its layout.
#![tactic(auto)]

mod configurations;
mod events;
mod handle_status;
mod statistics;
mod usage;

pub use configurations::{class_frame, configurations_head, descriptor_head, push_descriptor};
pub use events::{event_frame, events_head};
pub use handle_status::{status_frame, status_head};
pub use statistics::{statistics_log, sums_frame};
pub use usage::{usage_frame, usage_head};
