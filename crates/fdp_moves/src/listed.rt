//! Entries of a history that are listed.
use crate::texts::{entry_text, push_word, start_text};
use fdp_base::{Entry, Totals};
use std::alloc::{AllocError, Global};

/// Where writes were started, one behind another.
pub fn starts_text(alloc: Global, entries: &[Entry]) -> Result<String, AllocError> {
    let mut text = String::new(alloc);
    for entry in entries {
        if let Some(word) = start_text(alloc, entry)? {
            push_word(&mut text, &word)?;
        }
    }
    Ok(text)
}

/// A line for each of the first passes: its entries, up to the erase or what else ended it.
pub fn passes_text(alloc: Global, entries: &[Entry], most: u64) -> Result<String, AllocError> {
    let mut text = String::new(alloc);
    let mut passes = 0u64;
    let mut begins = true;
    for entry in entries {
        if passes < most {
            if let Some(word) = entry_text(alloc, entry)? {
                push_part(&mut text, begins, &word)?;
                begins = ends_pass(entry);
                if begins {
                    passes = passes.saturating_add(1);
                }
            }
        }
    }
    Ok(text)
}

/// Puts the text of an entry behind those of its pass, or on a line of its own.
fn push_part(text: &mut String, begins: bool, word: &str) -> Result<(), AllocError> {
    if !text.is_empty() {
        text.push_str(if begins { "\n  " } else { ", " })?;
    }
    text.push_str(word)
}

/// What an entry is to the passes of relocation.
#[derive(Clone, Copy, PartialEq, Eq)]
enum Part {
    Copies,
    Moves,
    Erases,
    Loses,
    Other,
}

fn part_of(entry: &Entry) -> Part {
    match entry {
        Entry::Copied(_) => Part::Copies,
        Entry::Moved(_) => Part::Moves,
        Entry::Erased(_) => Part::Erases,
        Entry::Retired(_) | Entry::Aside(_) | Entry::Worn(_) | Entry::Shut(_) => Part::Loses,
        Entry::Host(_) | Entry::Started(_) | Entry::Placed(_) | Entry::Reopened => Part::Other,
    }
}

fn ends_pass(entry: &Entry) -> bool {
    let part = part_of(entry);
    part == Part::Erases || part == Part::Loses
}

/// Whether an entry tells of a lost unit, a handle that was shut or a worn group.
pub fn is_loss(entry: &Entry) -> bool {
    part_of(entry) == Part::Loses
}

/// The sums of a history, and how many pages were copied and how many passes moved them.
pub fn sums_text(alloc: Global, entries: &[Entry], totals: Totals) -> Result<String, AllocError> {
    let mut copied = 0u64;
    let mut moved = 0u64;
    for entry in entries {
        match part_of(entry) {
            Part::Copies => copied = copied.saturating_add(1),
            Part::Moves => moved = moved.saturating_add(1),
            Part::Erases | Part::Loses | Part::Other => {}
        }
    }
    format!(in alloc;
        "{} blocks of the host, {} of the media, {copied} copied, {moved} moves, {} erases",
        totals.host_blocks, totals.media_blocks, totals.erases
    )
}

/// The entries that tell of a loss.
pub fn losses_text(alloc: Global, entries: &[Entry]) -> Result<String, AllocError> {
    let mut text = String::new(alloc);
    for entry in entries {
        if is_loss(entry) {
            if let Some(word) = entry_text(alloc, entry)? {
                push_part(&mut text, false, &word)?;
            }
        }
    }
    Ok(text)
}
