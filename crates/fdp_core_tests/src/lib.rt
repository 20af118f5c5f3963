//! Commands of several queues, played step by step on a drive over any flash, and their history taken by the plain drive.
#![tactic(auto)]

mod formed;
mod noted;
mod player;
mod replaying;

pub use player::Player;
pub use replaying::replay;
