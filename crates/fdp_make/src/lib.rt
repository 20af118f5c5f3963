//! The generated load: the drive that serves it, its traces, and the line that sums its run up.
#![tactic(auto)]

mod given;
mod laws;
mod line;
mod load;
mod summary;
mod writes;

pub use laws::{
    each_queue_has_its_trace, generated_traces_can_be_served, orderly_runs_find_whole_blocks,
    unwritten_blocks_read_as_found,
};
pub use line::push_summary;
pub use load::{config, traces};
pub use summary::{Summary, summary_of};
