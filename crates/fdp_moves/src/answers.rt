//! Answers to moves, one behind another.
use crate::texts::push_word;
use std::alloc::{AllocError, Global};

/// Words, of which several like ones in a row stand as one, with their number behind it.
#[derive(Drop)]
pub struct Answers {
    text: String,
    last: String,
    /// How often the last word came.
    times: u64,
}

impl Answers {
    pub fn new(alloc: Global) -> Answers {
        Answers {
            text: String::new(alloc),
            last: String::new(alloc),
            times: 0,
        }
    }

    pub fn is_empty(&self) -> bool {
        self.times == 0
    }

    pub fn push(&mut self, alloc: Global, word: &str) -> Result<(), AllocError> {
        if self.times > 0 && self.last.as_str() == word {
            self.times = self.times.saturating_add(1);
            return Ok(());
        }
        self.end_run(alloc)?;
        self.last = String::from_str(alloc, word)?;
        self.times = 1;
        Ok(())
    }

    /// Puts the last word behind the others.
    fn end_run(&mut self, alloc: Global) -> Result<(), AllocError> {
        match self.times {
            0 => Ok(()),
            1 => push_word(&mut self.text, &self.last),
            times => {
                let word = format!(in alloc; "{}*{times}", self.last)?;
                push_word(&mut self.text, &word)
            }
        }
    }

    pub fn into_text(mut self, alloc: Global) -> Result<String, AllocError> {
        self.end_run(alloc)?;
        let Answers {
            text,
            last: _,
            times: _,
        } = self;
        Ok(text)
    }
}
