//! Where data stands: what a drive keeps of its pages, and what a history says of them.
#![tactic(auto)]

pub use fdp_pages::{Lost, Pages, Step};
pub use fdp_trails::toil_is_what_can_be_won;
