//! Replies, and the entries of relocation, as texts.
use crate::drive::Advance;
use fdp_base::{Entry, Moved, Reply, Spot, Status};
use fdp_flash::Outcome;
use std::alloc::{AllocError, Global};

/// Puts a word behind others.
pub fn push_word(text: &mut String, word: &str) -> Result<(), AllocError> {
    if !text.is_empty() {
        text.push(' ')?;
    }
    text.push_str(word)
}

/// What a call that fails leaves of a page.
pub fn outcome_text(outcome: Outcome) -> &'static str {
    match outcome {
        Outcome::Blank => "blank",
        Outcome::Whole => "whole",
        Outcome::Torn => "torn",
    }
}

/// The outcome that a word names.
pub fn outcome_of(word: &str) -> Option<Outcome> {
    match word {
        "blank" => Some(Outcome::Blank),
        "whole" => Some(Outcome::Whole),
        "torn" => Some(Outcome::Torn),
        _ => None,
    }
}

/// What a step of relocation came to.
pub fn advance_text(advance: Advance) -> &'static str {
    match advance {
        Advance::Nothing => "nothing",
        Advance::Copied => "copied",
        Advance::Moved => "moved",
        Advance::Erased => "erased",
        Advance::Starved => "starved",
        Advance::Fault => "fault",
    }
}

/// The reply to a command: `ok` where it succeeds, with dword 0 behind it if that is not 0, or for a read the number of each block; else the
/// status, with `+` behind it where the change was made all the same.
pub fn reply_text(alloc: Global, reply: &Reply, block: u32) -> Result<String, AllocError> {
    if reply.status != Status::SUCCESS {
        let sign = if reply.applied { "+" } else { "" };
        return format!(in alloc; "{}{sign}", reply.status);
    }
    let bytes = reply.bytes.as_slice();
    if bytes.is_empty() || block == 0 {
        return done_text(alloc, reply.dw0);
    }
    if bytes.len() % (block as usize) == 0 {
        blocks_text(alloc, bytes, block)
    } else {
        bytes_text(alloc, bytes)
    }
}

fn done_text(alloc: Global, dw0: u32) -> Result<String, AllocError> {
    if dw0 == 0 {
        String::from_str(alloc, "ok")
    } else {
        format!(in alloc; "ok={dw0}")
    }
}

fn blocks_text(alloc: Global, bytes: &[u8], block: u32) -> Result<String, AllocError> {
    let mut text = String::new(alloc);
    for bytes in bytes.chunks(block.max(1) as usize) {
        if !text.is_empty() {
            text.push(',')?;
        }
        let word = block_text(alloc, bytes)?;
        text.push_str(&word)?;
    }
    Ok(text)
}

/// Bytes that are no blocks, two hexadecimal digits each.
fn bytes_text(alloc: Global, bytes: &[u8]) -> Result<String, AllocError> {
    let mut text = String::new(alloc);
    for byte in bytes {
        let word = format!(in alloc; "{byte:02x}")?;
        text.push_str(&word)?;
    }
    Ok(text)
}

/// The number that a block has over and over, or `?` if it has none.
fn block_text(alloc: Global, block: &[u8]) -> Result<String, AllocError> {
    match number_in(block) {
        Some(number) => format!(in alloc; "{number}"),
        None => String::from_str(alloc, "?"),
    }
}

/// The number that a block has over and over, low byte first, if it has one.
pub fn number_in(block: &[u8]) -> Option<u32> {
    let first = number_of(block);
    for four in block.chunks(4) {
        if number_of(four) != first {
            return None;
        }
    }
    Some(first)
}

/// The number of the first four bytes.
fn number_of(bytes: &[u8]) -> u32 {
    match bytes {
        [a, b, c, d, ..] => u32::from_le_bytes([*a, *b, *c, *d]),
        _ => 0,
    }
}

/// An entry that tells of relocation, of a unit or of a handle, and nothing for another.
pub fn entry_text(alloc: Global, entry: &Entry) -> Result<Option<String>, AllocError> {
    let text = match entry {
        Entry::Copied(copied) => copied_text(alloc, copied.from, copied.to)?,
        Entry::Moved(moved) => moved_text(alloc, moved)?,
        Entry::Erased(erased) => format!(in alloc; "erased {}", erased.unit)?,
        Entry::Retired(retired) => format!(in alloc; "retired {}", retired.unit)?,
        Entry::Aside(aside) => format!(in alloc; "aside {}", aside.unit)?,
        Entry::Shut(shut) => format!(in alloc; "shut {}.{}", shut.rg, shut.ruh)?,
        Entry::Worn(worn) => format!(in alloc; "worn {}", worn.rg)?,
        Entry::Host(_) | Entry::Started(_) | Entry::Placed(_) | Entry::Reopened => return Ok(None),
    };
    Ok(Some(text))
}

fn copied_text(alloc: Global, from: Spot, to: Spot) -> Result<String, AllocError> {
    format!(in alloc;
        "copied {}.{} {}.{}",
        from.unit, from.page, to.unit, to.page
    )
}

fn moved_text(alloc: Global, moved: &Moved) -> Result<String, AllocError> {
    let mut text = format!(in alloc; "moved {}", moved.rg)?;
    for block in moved.blocks.as_slice() {
        let word = format!(in alloc; "{}:{}", block.nsid, block.lba)?;
        push_word(&mut text, &word)?;
    }
    Ok(text)
}

/// Where a write was started: `GROUP.HANDLE`, with `-` behind it where the placement identifier is invalid.
pub fn start_text(alloc: Global, entry: &Entry) -> Result<Option<String>, AllocError> {
    match entry.as_started() {
        Some(started) => {
            let (rg, ruh) = (started.rg, started.ruh);
            let sign = if started.pid_valid { "" } else { "-" };
            Ok(Some(format!(in alloc; "{rg}.{ruh}{sign}")?))
        }
        None => Ok(None),
    }
}
