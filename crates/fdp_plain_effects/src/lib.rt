//! What an entry changes in the tables of the plain drive.
#![tactic(auto)]

mod again;
mod apply;
mod blocks;
mod completed;
mod create;
mod entries;
mod feature;
mod going;
mod make;
mod update;
mod write;

pub use again::begin_again;
pub use apply::{Made, change};
pub use make::{make_blocks_of, make_going, make_space_of};
