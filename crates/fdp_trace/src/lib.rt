//! The texts of the drive: traces that are read, completions that are printed.
#![tactic(auto)]

mod command_text;
mod command_word;
mod commands;
mod completion;
mod data;
mod decimal;
mod entry_text;
mod fault;
mod hex;
mod laws;
mod limits;
mod line;
mod lists;
mod number;
mod own_data;
mod spelled;
mod trace;
mod words;

pub use command_text::{print_command, printed_is_read, push_number, push_word};
pub use commands::field;
pub use completion::{print_completion, push_status};
pub use data::push_data;
pub use decimal::{push_decimal, push_wide_decimal};
pub use fault::{FaultKind, LineError, TraceFault};
pub use hex::push_hex;
pub use laws::{lines_spell_the_spelled, no_line_spells_an_entry};
pub use limits::MOST_AMOUNT;
pub use line::read_command;
pub use number::{number_of_digits, within};
pub use own_data::push_own_data;
pub use spelled::is_spelled;
pub use trace::read_trace;
pub use words::next_word;
