//! Where the blocks of each namespace stand, and how many of them each reclaim group stores.
#![tactic(auto)]

mod counts;
mod lists;
mod map;
mod mapped;

pub use lists::{PageList, vacant_list};
pub use map::Map;
pub use mapped::Mapped;
