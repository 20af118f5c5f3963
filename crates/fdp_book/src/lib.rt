//! The history of a drive with the tables that follow it: what a command comes to, step by step, and the steps of relocation, which
//! alone are given a flash.
#![tactic(auto)]

mod book;
mod changes;
mod extent;
mod first_step;
mod flight;
mod log;
mod next_page;
mod room;
mod stage;
mod tables;
mod ticket;
mod write_names;
mod write_place;

pub use book::{Book, Page};
pub use changes::lists::{CommandLists, lists_of};
pub use fdp_found::{
    Lost, OpenFault, Opened, Pages, PagesFault, Step, find_pages, open_state,
    toil_is_what_can_be_won,
};
pub use first_step::FirstStep;
pub use next_page::NextPage;
pub use room::{Replies, Room};
pub use stage::Stage;
pub use tables::totals_behind;
pub use ticket::{Done, Ticket};
pub use write_place::WritePlace;
