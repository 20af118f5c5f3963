//! Each number of an entry is one of its type: what a printed entry tells of it.
#![tactic(auto)]

mod bits;
mod commands;
mod entries;

pub use entries::are_ranged;
