//! The readings that the points of a history make, and what each change of the cells and of the history leaves of them.
#![tactic(auto)]

mod commanded;
mod drawn;
mod fits;
mod kept;
mod lasting;
mod saved;

pub use commanded::saved_commands_are_drawn;
pub use drawn::{
    drawn_pages_were_used, drawn_readings_are_valid, drawn_readings_tell_the_table,
    led_pages_hold_their_blocks,
};
pub use fdp_locations::{Lost, Pages, Step};
pub use fits::saved_changes_fit;
pub use kept::{
    calls_keep_named_pages, calls_of_data_keep_system_pages, named_pages_keep_a_reading,
    system_pages_keep_an_image,
};
pub use lasting::{entries_that_leave_nothing_keep_a_reading, later_totals_keep_a_reading};
pub use saved::{
    a_saved_move_is_drawn, a_saved_shut_is_drawn, a_saved_write_is_drawn, changes_forget_totals,
    copies_of_blocks_have_known_handles,
};
