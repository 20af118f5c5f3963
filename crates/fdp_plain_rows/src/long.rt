//! Histories that are too long to be written out. Each ends at the first row that is not taken.
use crate::play::{Answer, play_next};
use fdp_plain::Plain;
use std::alloc::{AllocError, Global};

/// Closes 33 units that are partly written, each of which makes an event. A unit is erased before it is written again.
pub fn close_units(alloc: Global, plain: &mut Plain) -> Result<Answer, AllocError> {
    let mut answer = Answer::Taken;
    for turn in 0..33_u32 {
        if turn >= 12 {
            answer = erase(alloc, plain, answer, turn % 12)?;
        }
        answer = close_unit(alloc, plain, answer, turn % 12)?;
    }
    Ok(answer)
}

fn close_unit(
    alloc: Global,
    plain: &mut Plain,
    answer: Answer,
    unit: u32,
) -> Result<Answer, AllocError> {
    let write = format!(in alloc; "write 1 0 1 1 at {unit}.0 -> done")?;
    let answer = play_next(alloc, plain, answer, write.as_str())?;
    play_next(alloc, plain, answer, "update 1 0 -> done")
}

fn erase(
    alloc: Global,
    plain: &mut Plain,
    answer: Answer,
    unit: u32,
) -> Result<Answer, AllocError> {
    let erased = format!(in alloc; "erased {unit}")?;
    play_next(alloc, plain, answer, erased.as_str())
}

/// Eight blocks are written once and moved from unit to unit, so often; eight others are written anew at each turn. Each turn
/// takes 35 entries, the first 34, behind the 12 of the blocks that are moved.
pub fn relocate(alloc: Global, plain: &mut Plain, turns: u32) -> Result<Answer, AllocError> {
    let mut answer = write_cold(alloc, plain)?;
    for turn in 0..turns {
        answer = overwrite(alloc, plain, answer, turn)?;
        answer = move_unit(alloc, plain, answer, turn)?;
    }
    Ok(answer)
}

/// The blocks that are moved.
fn write_cold(alloc: Global, plain: &mut Plain) -> Result<Answer, AllocError> {
    let first = "write 1 40 4 40 at 6.0-3 -> done";
    let answer = play_next(alloc, plain, Answer::Taken, first)?;
    play_next(alloc, plain, answer, "write 1 44 4 44 at 6.4-7 -> done")
}

/// A unit is filled, and the one that the turn before filled is erased.
fn overwrite(
    alloc: Global,
    plain: &mut Plain,
    answer: Answer,
    turn: u32,
) -> Result<Answer, AllocError> {
    let mut answer = answer;
    for page in 0..8_u32 {
        answer = write_page(alloc, plain, answer, turn, page)?;
    }
    if turn == 0 {
        Ok(answer)
    } else {
        erase(alloc, plain, answer, (turn - 1) % 6)
    }
}

fn write_page(
    alloc: Global,
    plain: &mut Plain,
    answer: Answer,
    turn: u32,
    page: u32,
) -> Result<Answer, AllocError> {
    let unit = turn % 6;
    let write = format!(in alloc; "write 1 {page} 1 {turn} at {unit}.{page} -> done")?;
    play_next(alloc, plain, answer, write.as_str())
}

/// All pages of the unit of the moved blocks are copied to the next, and the unit is erased.
fn move_unit(
    alloc: Global,
    plain: &mut Plain,
    answer: Answer,
    turn: u32,
) -> Result<Answer, AllocError> {
    let (from, to) = (6 + turn % 6, 6 + (turn % 6 + 1) % 6);
    let mut answer = answer;
    for page in 0..8_u32 {
        answer = copy_page(alloc, plain, answer, page, from, to)?;
    }
    let blocks = "moved 0 1.40 1.41 1.42 1.43 1.44 1.45 1.46 1.47";
    answer = play_next(alloc, plain, answer, blocks)?;
    erase(alloc, plain, answer, from)
}

fn copy_page(
    alloc: Global,
    plain: &mut Plain,
    answer: Answer,
    page: u32,
    from: u32,
    to: u32,
) -> Result<Answer, AllocError> {
    let copied = format!(in alloc; "copied {from}.{page} {to}.{page}")?;
    play_next(alloc, plain, answer, copied.as_str())
}
