//! Laws of the printed text of a history: it tells which history it is.
#![tactic(auto)]

mod laws;

pub use laws::{
    one_block_a_line, one_command_a_line, one_entry_a_print, one_frame_a_print, one_history_a_print,
};
