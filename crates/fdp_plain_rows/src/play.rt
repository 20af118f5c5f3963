//! Plays rows on a drive.
use crate::lines::entries_of;
use fdp_base::Entry;
use fdp_plain::{Plain, Refused};
use std::alloc::{AllocError, Global};
use std::fmt;

/// What came of the entries of a row.
#[derive(Clone, Copy, Debug, PartialEq, Eq)]
pub enum Answer {
    /// Each was taken.
    Taken,
    /// The last is no step, under this rule; those before it were taken.
    Refused { why: u8 },
    /// Another than the last is no step.
    RefusedEarly { why: u8 },
    /// There was no memory to take one.
    NoMemory,
    /// The row is none of a table.
    Unread,
    /// So many entries were taken since the run began.
    Counted(usize),
}

impl fmt::Display for Answer {
    fn fmt<W: fmt::Write>(&self, f: &mut fmt::Formatter<W>) -> fmt::Result {
        match self {
            Answer::Taken => Ok(()),
            Answer::Refused { why } => write!(f, " ! {why}"),
            Answer::RefusedEarly { why } => write!(f, " ! {why} before its last entry"),
            Answer::NoMemory => write!(f, " ! no memory"),
            Answer::Unread => write!(f, " ! no row"),
            Answer::Counted(count) => write!(f, " {count}"),
        }
    }
}

/// Plays a row where each before it was taken, and answers what came of it, or what came before.
pub fn play_next(
    alloc: Global,
    plain: &mut Plain,
    answer: Answer,
    row: &str,
) -> Result<Answer, AllocError> {
    if answer == Answer::Taken {
        play(alloc, plain, row)
    } else {
        Ok(answer)
    }
}

/// Takes the entries of a row, up to the first that is refused.
pub fn play(alloc: Global, plain: &mut Plain, row: &str) -> Result<Answer, AllocError> {
    let position = plain.totals().position.wrapping_add(1);
    match entries_of(alloc, position, row)? {
        Some(entries) => Ok(take_all(alloc, plain, entries.as_slice())),
        None => Ok(Answer::Unread),
    }
}

fn take_all(alloc: Global, plain: &mut Plain, entries: &[Entry]) -> Answer {
    for (place, entry) in entries.iter().enumerate() {
        if let Err(refused) = plain.take(alloc, entry) {
            return answer_of(refused, place + 1 == entries.len());
        }
    }
    Answer::Taken
}

fn answer_of(refused: Refused, is_last: bool) -> Answer {
    match refused {
        Refused::Illegal { why, .. } if is_last => Answer::Refused { why },
        Refused::Illegal { why, .. } => Answer::RefusedEarly { why },
        Refused::NoMemory => Answer::NoMemory,
    }
}
