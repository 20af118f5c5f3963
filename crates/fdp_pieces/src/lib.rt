//! Pieces of bytes that are put into a part of what they make together.
#![tactic(auto)]

mod parts;

pub use parts::{is_outside, put_piece};
