//! Whether an entry may follow what stands, and under which rule it falls.
#![tactic(auto)]

mod completion;
mod ends;
mod entry;
mod hosts;
mod pages;
mod passes;
mod replies;
mod rule;
mod success;
mod unit_blocks;
mod writes;

pub use entry::judge;
pub use rule::{Rule, falls_under_one_rule, rule_of};
