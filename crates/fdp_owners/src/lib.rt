//! Who points to each page of data: the way back from a page to its block.
#![tactic(auto)]

mod laws;
mod owner;
mod owners;

pub use laws::{
    live_pages_are_used, owners_are_handed_over, owners_keep_pointers_apart, owners_point,
};
pub use owner::{Holder, Owner};
pub use owners::Owners;
