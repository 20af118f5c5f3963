//! What a run of a drive began with, kept for proofs alone.
#![tactic(auto)]

mod kept;
mod origin;

pub use kept::{Began, Kept};
pub use origin::Origin;
