//! Images of which a page is changed, opened.
ghost use Rattle.fdp_base.specs.Config.{IsValidConfig};

use crate::drive::{Drive, Opened};
use crate::images::{is_right, open_cells};
use crate::numbers::{Range, plain_number};
use crate::played::{Left, count_before};
use fdp_base::{DriveConfig, Entry, Sequence};
use fdp_flash::{Cell, Plan};
use std::alloc::{AllocError, Global};

/// What is done to a page.
#[derive(Clone, Copy)]
pub enum Damage {
    Blank,
    Torn,
    /// A byte of its spare, or of its block, has another value.
    Spare(usize, u8),
    Byte(usize, u8),
}

impl Damage {
    /// `blank`, `torn`, `spare PLACE VALUE` or `byte PLACE VALUE`.
    pub fn of(text: &str) -> Option<Damage> {
        let (word, rest) = text.split_once(' ').unwrap_or((text, ""));
        match word {
            "blank" => Some(Damage::Blank),
            "torn" => Some(Damage::Torn),
            "spare" | "byte" => {
                let (place, value) = rest.split_once(' ')?;
                let place = plain_number(place)? as usize;
                let value = u8::try_from(plain_number(value)?).ok()?;
                Some(if word == "spare" {
                    Damage::Spare(place, value)
                } else {
                    Damage::Byte(place, value)
                })
            }
            _ => None,
        }
    }
}

/// Damages each of these pages in turn, opens what is left, and tells what came of it: a line for pages that follow one another and of which the same
/// came.
pub fn damage_text<D: Drive>(
    alloc: Global,
    config: &DriveConfig,
    left: &Left,
    pages: Range,
    damage: Damage,
) -> Result<String, AllocError>
    requires { IsValidConfig config.now }
{
    let mut lines = Lines::new(alloc);
    for page in pages.first..pages.end {
        if pages.has(page) {
            let cells = damaged(alloc, left.flash.cells(), page, damage)?;
            let answer = answer_of::<D>(alloc, config, &cells, &left.entries)?;
            lines.push(alloc, page, named(alloc, page, answer)?)?;
        }
    }
    lines.into_text(alloc)
}

/// What an image opens to.
fn answer_of<D: Drive>(
    alloc: Global,
    config: &DriveConfig,
    cells: &[Cell],
    history: &[Entry],
) -> Result<String, AllocError>
    requires { IsValidConfig config.now }
{
    let opened: Opened<D> = open_cells(alloc, config, cells, Plan::empty(alloc))?;
    match opened {
        Opened::Drive(mut drive) => {
            let count = count_before(&drive);
            let right = is_right(alloc, config, &mut drive, history, count)?;
            let word = if right { "right" } else { "WRONG" };
            format!(in alloc; "{count} of {} entries, {word}", history.len())
        }
        Opened::Fault(why) => Ok(why),
    }
}

/// An answer that names a page as bad names that page as such.
fn named(alloc: Global, page: u64, answer: String) -> Result<String, AllocError> {
    let itself = format!(in alloc; "page {page} is bad")?;
    if answer == itself {
        String::from_str(alloc, "that page is bad")
    } else {
        Ok(answer)
    }
}

/// Copies of cells, of which one page is damaged.
fn damaged(
    alloc: Global,
    cells: &[Cell],
    page: u64,
    damage: Damage,
) -> Result<Vec<Cell>, AllocError> {
    let mut copies = Vec::new(alloc);
    for (number, cell) in cells.iter().enumerate() {
        copies.push(if number as u64 == page {
            damaged_cell(alloc, cell, damage)?
        } else {
            cell.copied()?
        })?;
    }
    Ok(copies)
}

/// A page once it is damaged. One that is not whole has no bytes to be changed.
fn damaged_cell(alloc: Global, cell: &Cell, damage: Damage) -> Result<Cell, AllocError> {
    match (damage, cell) {
        (Damage::Blank, _) => Ok(Cell::Blank),
        (Damage::Torn, _) => Ok(Cell::Torn),
        (Damage::Spare(place, value), Cell::Whole { spare, bytes }) => {
            let mut changed = *spare;
            if place < changed.len() {
                changed[place] = value;
            }
            Ok(Cell::Whole {
                spare: changed,
                bytes: bytes.clone()?,
            })
        }
        (Damage::Byte(place, value), Cell::Whole { spare, bytes }) => {
            let mut block = Vec::from_slice(alloc, bytes.as_slice())?;
            if place < block.len() {
                block[place] = value;
            }
            Ok(Cell::Whole {
                spare: *spare,
                bytes: Sequence::from_vec(block),
            })
        }
        (Damage::Spare(_, _) | Damage::Byte(_, _), Cell::Blank | Cell::Torn) => cell.copied(),
    }
}

/// Lines for pages, of which several with one answer stand in one.
#[derive(Drop)]
struct Lines {
    text: String,
    answer: String,
    first: u64,
    last: u64,
}

impl Lines {
    fn new(alloc: Global) -> Lines {
        Lines {
            text: String::new(alloc),
            answer: String::new(alloc),
            first: 0,
            last: 0,
        }
    }

    fn push(&mut self, alloc: Global, page: u64, answer: String) -> Result<(), AllocError> {
        if self.answer != answer {
            self.end_line(alloc)?;
            self.answer = answer;
            self.first = page;
        }
        self.last = page;
        Ok(())
    }

    fn end_line(&mut self, alloc: Global) -> Result<(), AllocError> {
        if self.answer.is_empty() {
            return Ok(());
        }
        if !self.text.is_empty() {
            self.text.push_str("\n  ")?;
        }
        let line = format!(in alloc; "{} to {}: {}", self.first, self.last, self.answer)?;
        self.text.push_str(&line)
    }

    fn into_text(mut self, alloc: Global) -> Result<String, AllocError> {
        self.end_line(alloc)?;
        let Lines {
            text,
            answer: _,
            first: _,
            last: _,
        } = self;
        Ok(text)
    }
}
