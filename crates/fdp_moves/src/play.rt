//! Plays moves on a drive.
use crate::drive::{Advance, Drive};
use crate::heard::Heard;
use crate::moves::{Move, move_of};
use crate::numbers::{Range, plain_number};
use crate::seeded::{Overwrites, Seeded, overwrite, play_seeded};
use fdp_base::{Command, Reply};
use fdp_trace::read_trace;
use std::alloc::{AllocError, Global};

/// The most places of one write, those that make room included.
const MOST_PLACES: u16 = 1000;

/// What came of a move.
#[derive(Debug, Drop)]
pub enum Came {
    /// No command was completed.
    Nothing,
    Done(Reply),
    Advanced(Advance),
}

/// Makes the moves of a row: those that words say, those for each number of a range, those that a generator chooses, or one command.
pub fn play<D: Drive>(
    alloc: Global,
    drive: &mut D,
    row: &str,
    heard: &mut Heard,
) -> Result<(), AllocError> {
    let (word, rest) = row.split_once(' ').unwrap_or((row, ""));
    match word {
        "each" => play_each(alloc, drive, rest, heard),
        "do" => play_command(alloc, drive, rest, heard),
        "seed" => play_seed(alloc, drive, rest, true, heard),
        "hosts" => play_seed(alloc, drive, rest, false, heard),
        "overwrites" => play_overwrites(alloc, drive, rest, false, heard),
        "skewed" => play_overwrites(alloc, drive, rest, true, heard),
        _ => play_moves(alloc, drive, row, 0, heard),
    }
}

fn play_each<D: Drive>(
    alloc: Global,
    drive: &mut D,
    rest: &str,
    heard: &mut Heard,
) -> Result<(), AllocError> {
    let Some(range) = Range::of(rest) else {
        return heard.answers.push(alloc, "no row");
    };
    for each in range.first..range.end {
        if range.has(each) {
            play_moves(alloc, drive, range.rest, each, heard)?;
        }
    }
    Ok(())
}

/// A queue, and a command in the form of a trace: it is played whole.
fn play_command<D: Drive>(
    alloc: Global,
    drive: &mut D,
    rest: &str,
    heard: &mut Heard,
) -> Result<(), AllocError> {
    match command_of(alloc, rest) {
        Some((queue, command)) => {
            drive.reserve()?;
            let reply = make_whole(alloc, drive, queue, command)?;
            let block = drive.config().block;
            heard.hear(alloc, block, &completed(reply))
        }
        None => heard.answers.push(alloc, "no row"),
    }
}

/// A queue, and the one command of a trace.
fn command_of(alloc: Global, rest: &str) -> Option<(u8, Command)> {
    let (queue, trace) = rest.split_once(' ')?;
    let queue = u8::try_from(plain_number(queue)?).ok()?;
    let mut commands = read_trace(alloc, trace.as_bytes()).ok()?;
    Some((queue, commands.pop()?))
}

fn play_seed<D: Drive>(
    alloc: Global,
    drive: &mut D,
    rest: &str,
    relocates: bool,
    heard: &mut Heard,
) -> Result<(), AllocError> {
    let (seed, rest) = rest.split_once(' ').unwrap_or((rest, ""));
    let (moves, identifiers) = rest.split_once(' ').unwrap_or((rest, ""));
    let (Some(seed), Some(moves)) = (plain_number(seed), plain_number(moves)) else {
        return heard.answers.push(alloc, "no row");
    };
    let seeded = Seeded {
        seed,
        moves,
        identifiers,
        relocates,
    };
    play_seeded(alloc, drive, seeded, heard)
}

fn play_overwrites<D: Drive>(
    alloc: Global,
    drive: &mut D,
    rest: &str,
    skewed: bool,
    heard: &mut Heard,
) -> Result<(), AllocError> {
    let (seed, count) = rest.split_once(' ').unwrap_or((rest, ""));
    let (Some(seed), Some(count)) = (plain_number(seed), plain_number(count)) else {
        return heard.answers.push(alloc, "no row");
    };
    let writes = Overwrites {
        seed,
        count,
        skewed,
    };
    overwrite(alloc, drive, writes, heard)
}

fn play_moves<D: Drive>(
    alloc: Global,
    drive: &mut D,
    words: &str,
    each: u64,
    heard: &mut Heard,
) -> Result<(), AllocError> {
    let block = drive.config().block;
    for word in words.split_whitespace() {
        match move_of(word, each) {
            Some(made) => {
                let came = make(alloc, drive, made)?;
                heard.hear(alloc, block, &came)?;
            }
            None => heard.answers.push(alloc, "no move")?,
        }
    }
    Ok(())
}

/// Makes a move, each step of it with memory that is taken before it.
pub fn make<D: Drive>(alloc: Global, drive: &mut D, made: Move) -> Result<Came, AllocError> {
    drive.reserve()?;
    match made {
        Move::Start(queue, asked) => Ok(completed(drive.start(alloc, queue, asked.command())?)),
        Move::Place(queue) => Ok(completed(drive.place(queue))),
        Move::Commit(queue) => Ok(completed(drive.commit(queue))),
        Move::Whole(queue, asked) => {
            let reply = make_whole(alloc, drive, queue, asked.command())?;
            Ok(completed(reply))
        }
        Move::Collect(rg) => match drive.collect(rg) {
            Some(advance) => Ok(Came::Advanced(advance)),
            None => Ok(Came::Nothing),
        },
    }
}

fn completed(reply: Option<Reply>) -> Came {
    match reply {
        Some(reply) => Came::Done(reply),
        None => Came::Nothing,
    }
}

/// The reply to a command: that of its first step, or for a write that of its last, once it has no places left, or may not be placed.
fn make_whole<D: Drive>(
    alloc: Global,
    drive: &mut D,
    queue: u8,
    command: Command,
) -> Result<Option<Reply>, AllocError> {
    let began = drive.start(alloc, queue, command)?;
    if began.is_some() {
        return Ok(began);
    }
    for _ in 0..MOST_PLACES {
        drive.reserve()?;
        let ended = drive.place(queue);
        if ended.is_some() {
            return Ok(ended);
        }
        drive.reserve()?;
        let committed = drive.commit(queue);
        if committed.is_some() {
            return Ok(committed);
        }
    }
    Ok(None)
}
