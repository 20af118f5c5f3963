//! What came of moves.
use crate::answers::Answers;
use crate::play::Came;
use crate::tally::Tally;
use crate::texts::{advance_text, reply_text};
use std::alloc::{AllocError, Global};

/// The answers to moves, and how often they came to something.
#[derive(Drop)]
pub struct Heard {
    pub answers: Answers,
    pub tally: Tally,
}

impl Heard {
    pub fn new(alloc: Global) -> Heard {
        Heard {
            answers: Answers::new(alloc),
            tally: Tally::new(),
        }
    }

    /// What came of a move on a drive with blocks of this size: what completed a command, what a step of relocation came to, or `-`.
    pub fn hear(&mut self, alloc: Global, block: u32, came: &Came) -> Result<(), AllocError> {
        self.tally.note(came);
        match came {
            Came::Nothing => self.answers.push(alloc, "-"),
            Came::Done(reply) => {
                let word = reply_text(alloc, reply, block)?;
                self.answers.push(alloc, &word)
            }
            Came::Advanced(advance) => self.answers.push(alloc, advance_text(*advance)),
        }
    }
}
