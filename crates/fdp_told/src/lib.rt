//! What the print of a legal history tells: all of it.
#![tactic(auto)]

mod laws;

pub use laws::{legal_histories_are_told, traces_are_spelled, traces_give_the_commands};
