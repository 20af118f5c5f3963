//! What an opening finds of the pages of data: which units are used, and whose pages are.
#![tactic(auto)]

mod blocks;
mod fault;
mod opening;
mod taking;
mod units;

pub use fault::PagesFault;
pub use fdp_pages::{Lost, Pages, Step};
pub use fdp_recovery::{OpenFault, Opened, open_state};
pub use opening::find_pages;
pub use taking::take_map;
