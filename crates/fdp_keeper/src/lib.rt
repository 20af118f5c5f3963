//! What a drive keeps to save itself, and the calls that save a change or the drive.
#![tactic(auto)]

mod change_room;
mod firm;
mod keeper;
mod move_change;
mod moves;
mod page_set;
mod saved_move;
mod saving;
mod targets;

pub use fdp_book::{
    Book, Done, FirstStep, Lost, NextPage, OpenFault, Opened, Pages, PagesFault, Replies, Room,
    Stage, Step, Ticket, WritePlace, find_pages, open_state, toil_is_what_can_be_won,
};
pub use fdp_durability::Saved;
pub use keeper::Keeper;
