use crate::image::{fill, set, with_checkpoint};
use crate::reopen::{reopened, stopped};
use fdp_base::Sequence;
use fdp_flash::{Cell, Outcome, Plan};
use std::alloc::{AllocError, Global};
use std::mem;

/// What a row changes beside the image.
#[derive(Clone, Copy)]
pub struct Asked {
    /// The data units of the configuration.
    pub units: u32,
    /// The call of the opening that fails.
    pub failing: Option<u64>,
}

/// The words of one change.
#[derive(Clone, Copy)]
pub struct Words<'a> {
    pub first: &'a str,
    pub second: &'a str,
    pub third: &'a str,
    pub fourth: &'a str,
    pub fifth: &'a str,
}

/// The words of a text, empty ones where there are no more.
pub fn words_of(text: &str) -> Words<'_> {
    let mut words = text.split_whitespace();
    Words {
        first: words.next().unwrap_or(""),
        second: words.next().unwrap_or(""),
        third: words.next().unwrap_or(""),
        fourth: words.next().unwrap_or(""),
        fifth: words.next().unwrap_or(""),
    }
}

/// The number that a word spells, or 0.
fn number_in(word: &str) -> u64 {
    word.parse::<u64>().unwrap_or(0)
}

/// Makes one change of an image.
pub fn make_edit(
    alloc: Global,
    cells: &mut Vec<Cell>,
    asked: &mut Asked,
    words: &Words<'_>,
) -> Result<(), AllocError> {
    match words.first {
        "page" => change_page(alloc, cells, words),
        "second" => {
            let old = mem::replace(cells, Vec::new(alloc));
            *cells = with_checkpoint(
                alloc,
                old,
                Plan::empty(alloc),
                1,
                number_in(words.second),
                6,
            )?;
            Ok(())
        }
        "stop" => {
            let old = mem::replace(cells, Vec::new(alloc));
            let plan = stopped(alloc, number_in(words.second), outcome_in(words.third));
            *cells = with_checkpoint(alloc, old, plan, 1, 2, 6)?;
            Ok(())
        }
        "reopen" => {
            let old = mem::replace(cells, Vec::new(alloc));
            *cells = reopened(alloc, old, number_in(words.second), outcome_in(words.third))?;
            Ok(())
        }
        "clear" => {
            for cell in cells.iter_mut() {
                *cell = Cell::Blank;
            }
            Ok(())
        }
        "full" => fill(alloc, cells),
        "units" => {
            asked.units = u32::try_from(number_in(words.second)).unwrap_or(0);
            Ok(())
        }
        "fail" => {
            asked.failing = Some(number_in(words.second));
            Ok(())
        }
        _ => Ok(()),
    }
}

fn outcome_in(word: &str) -> Outcome {
    match word {
        "blank" => Outcome::Blank,
        "torn" => Outcome::Torn,
        _ => Outcome::Whole,
    }
}

fn change_page(alloc: Global, cells: &mut Vec<Cell>, words: &Words<'_>) -> Result<(), AllocError> {
    let page = number_in(words.second) as usize;
    if page >= cells.len() {
        return Ok(());
    }
    let other = number_in(words.fourth) as usize;
    let cell = match words.third {
        "blank" => Cell::Blank,
        "torn" => Cell::Torn,
        "as" => match cells.get(other) {
            Some(cell) => cell.copied()?,
            None => Cell::Blank,
        },
        _ => with_byte(alloc, &cells[page], words)?,
    };
    set(cells, page, cell);
    Ok(())
}

/// A page with one byte changed, of its spare or of its block.
fn with_byte(alloc: Global, cell: &Cell, words: &Words<'_>) -> Result<Cell, AllocError> {
    let at = number_in(words.fourth) as usize;
    let value = u8::try_from(number_in(words.fifth)).unwrap_or(0);
    match cell {
        Cell::Whole { spare, bytes } => {
            let mut spare = *spare;
            let mut copy = Vec::new(alloc);
            copy.extend_from_slice(bytes.as_slice())?;
            if words.third == "spare" && at < 32 {
                spare[at] = value;
            }
            if words.third == "byte" && at < copy.len() {
                copy[at] = value;
            }
            Ok(Cell::Whole {
                spare,
                bytes: Sequence::from_vec(copy),
            })
        }
        _ => cell.copied(),
    }
}
