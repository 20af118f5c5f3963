//! Relocation in a group of a drive, step by step, over its book, its flash, and what saves the drive.
#![tactic(auto)]

mod advance;

pub use advance::{Advance, collect};
pub use fdp_keeper::{
    Book, Done, FirstStep, Keeper, NextPage, OpenFault, Replies, Room, Saved, Stage, Ticket,
    WritePlace, toil_is_what_can_be_won,
};
