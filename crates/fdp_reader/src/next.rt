//! The next entry of a printed history: what is read is printed, and compared.

ghost use Rattle.std.specs.Prelude.{◌≡◌, IfOk, bytes_eq};
ghost use Rattle.fdp_base.specs.Config.{IsValidConfig};
ghost use Rattle.fdp_reader.specs.Framing.{IsGivenBy};
ghost use Rattle.fdp_reader.specs.Next.{Begins, IsNext, IsReadOf};

use crate::first::read_first;
use crate::frame::read_given;
use crate::lines::same_lines;
use fdp_base::{Command, DriveConfig, Entry};
use fdp_printing::push_entry;
use fdp_trace::LineError;
use std::alloc::{AllocError, Global};

/// What a text begins with.
#[derive(Debug, Drop)]
pub enum Next {
    /// The lines of an entry, of so many bytes.
    Entry {
        position: u64,
        entry: Entry,
        len: usize,
    },
    /// No entry; so many bytes at the front, of whole lines, begin one.
    Stop {
        len: usize,
    },
}

/// The entry with which a text begins, if its lines are just those that are printed of it.
pub fn next_entry(alloc: Global, config: &DriveConfig, text: &[u8]) -> Result<Next, AllocError>
    requires { IsValidConfig config.now }
    ensures { IfOk result (IsNext config.now text.now) }
{
    let given = read_given(alloc, config, text)?;
    next_with(alloc, config, text, given)
}

/// The same where this command is given for an entry on the first line.
fn next_with(
    alloc: Global,
    config: &DriveConfig,
    text: &[u8],
    given: Option<Command>,
) -> Result<Next, AllocError>
    requires valid { IsValidConfig config.now }
    requires gives { IsGivenBy config.now.block text.now given }
    ensures { IfOk result (IsNext config.now text.now) }
{
    match read_first(alloc, config, text, given) {
        Ok((position, entry)) => compared(alloc, config, text, position, entry),
        Err(LineError::Fault(_)) => Ok(Next::Stop { len: 0 }),
        Err(LineError::Memory) => Err(AllocError),
    }
}

/// The entry that was read of a text, where the text begins with its print.
fn compared(
    alloc: Global,
    config: &DriveConfig,
    text: &[u8],
    position: u64,
    entry: Entry,
) -> Result<Next, AllocError>
    requires valid { IsValidConfig config.now }
    requires read { IsReadOf config.now text.now position entry }
    ensures { IfOk result (IsNext config.now text.now) }
{
    let mut printed = Vec::new(alloc);
    push_entry(config.block, position, &entry, &mut printed)?;
    let lines = printed.as_slice();
    if begins(text, lines) {
        let len = lines.len();
        return Ok(Next::Entry {
            position,
            entry,
            len,
        });
    }
    let len = same_lines(lines, text);
    Ok(Next::Stop { len })
}

/// Whether a text begins with another.
fn begins(text: &[u8], front: &[u8]) -> bool
    ensures { Begins text.now front.now result }
{
    let len = front.len();
    if len > text.len() {
        return false;
    }
    is_same(&text[..len], front)
}

fn is_same(left: &[u8], right: &[u8]) -> bool
    ensures { result ≡ bytes_eq left.now right.now }
{
    left == right
}
