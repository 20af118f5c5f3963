//! Rows of moves on a drive over a flash in memory, and what they come to. `rows.rt` says which rows there are, `moves.rt` how a move reads.
#![tactic(auto)]

mod answers;
mod contents;
mod damage;
mod drive;
mod every;
mod heard;
mod images;
mod judged;
mod listed;
mod moves;
mod numbers;
mod play;
mod played;
mod rows;
mod script;
mod seeded;
mod stops;
mod tally;
mod texts;
mod units;

pub use drive::{Advance, Drive, Opened};
pub use script::play_script;
