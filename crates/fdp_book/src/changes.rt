//! The changes that save what a drive is about to do: of a write, and of each other command that is saved.

pub mod command;
mod created;
mod kinds;
pub mod lists;
mod updated;
pub mod write;
