//! Entries by the words of their lines, without the bytes of a reply.

ghost use Rattle.std.specs.Prelude.{◌≡◌, bytes_eq};
ghost use Rattle.fdp_trace.specs.Words.{words_of};
ghost use Rattle.fdp_prints.specs.Reader.{begins_entry, command_in, copied_in, entry_in, host_in, moved_in, placed_entry, placed_in, shut_in, started_in, taken};
ghost use Rattle.fdp_reader.specs.Yielding.{Yields};

use crate::fields::{
    dword_field, field_8, field_16, field_32, field_64, flag, spot_field, status_field,
};
use crate::names::names;
use fdp_base::{
    Aside, Bytes, Command, Copied, Entry, Erased, Host, Moved, Placed, Reply, Retired, Shut,
    Started, Worn,
};
use fdp_trace::{FaultKind, LineError, next_word, read_command};
use std::alloc::Global;

/// The position of a line, and its entry; this command is given for it where no line says its command.
#[tactic(auto, unfolding(fdp_prints::specs::Reader::placed_entry))]
pub fn placed_entry(
    alloc: Global,
    line: &[u8],
    given: Option<Command>,
) -> Result<(u64, Entry), LineError>
    ensures { Yields result (placed_entry given (words_of line.now)) }
{
    let (position, rest) = field_64(line)?;
    let entry = entry(alloc, rest, given)?;
    Ok((position, entry))
}

/// The entry of a line, from its word on.
#[tactic(auto, unfolding(fdp_prints::specs::Reader::entry_in))]
fn entry(alloc: Global, line: &[u8], given: Option<Command>) -> Result<Entry, LineError>
    ensures { Yields result (entry_in given (words_of line.now)) }
{
    let Some((word, rest)) = next_word(line) else {
        return Err(LineError::Fault(FaultKind::Count));
    };
    if is_text(word, b"host") {
        host(alloc, rest, given)
    } else if is_text(word, b"started") {
        started(alloc, rest, given)
    } else if is_text(word, b"placed") {
        Ok(placed(rest)?)
    } else if is_text(word, b"copied") {
        Ok(copied(rest)?)
    } else if is_text(word, b"moved") {
        moved(alloc, rest)
    } else if is_text(word, b"erased") {
        let (unit, _) = field_32(rest)?;
        Ok(Entry::Erased(Erased { unit }))
    } else if is_text(word, b"retired") {
        let (unit, _) = field_32(rest)?;
        Ok(Entry::Retired(Retired { unit }))
    } else if is_text(word, b"aside") {
        let (unit, _) = field_32(rest)?;
        Ok(Entry::Aside(Aside { unit }))
    } else if is_text(word, b"shut") {
        Ok(shut(rest)?)
    } else if is_text(word, b"worn") {
        let (rg, _) = field_16(rest)?;
        Ok(Entry::Worn(Worn { rg }))
    } else if is_text(word, b"reopened") {
        Ok(Entry::Reopened)
    } else {
        Err(LineError::Fault(FaultKind::Word))
    }
}

#[tactic(auto, unfolding(fdp_prints::specs::Reader::host_in))]
fn host(alloc: Global, line: &[u8], given: Option<Command>) -> Result<Entry, LineError>
    ensures { Yields result (host_in given (words_of line.now)) }
{
    let (queue, rest) = field_8(line)?;
    let (number, rest) = field_16(rest)?;
    let (applied, rest) = flag(rest)?;
    let (status, rest) = status_field(rest)?;
    let (dw0, rest) = dword_field(rest)?;
    let (moment, rest) = field_64(rest)?;
    let command = command(alloc, rest, given)?;
    let bytes = Bytes::from_vec(Vec::new(alloc));
    Ok(Entry::Host(Host {
        queue,
        number,
        command,
        reply: Reply {
            status,
            dw0,
            bytes,
            applied,
        },
        moment,
    }))
}

#[tactic(auto, unfolding(fdp_prints::specs::Reader::started_in))]
fn started(alloc: Global, line: &[u8], given: Option<Command>) -> Result<Entry, LineError>
    ensures { Yields result (started_in given (words_of line.now)) }
{
    let (queue, rest) = field_8(line)?;
    let (number, rest) = field_16(rest)?;
    let (rg, rest) = field_16(rest)?;
    let (ruh, rest) = field_8(rest)?;
    let (pid_valid, rest) = flag(rest)?;
    let command = command(alloc, rest, given)?;
    Ok(Entry::Started(Started {
        queue,
        number,
        command,
        rg,
        ruh,
        pid_valid,
    }))
}

#[tactic(auto, unfolding(fdp_prints::specs::Reader::placed_in))]
fn placed(line: &[u8]) -> Result<Entry, FaultKind>
    ensures { result ≡ placed_in (words_of line.now) }
{
    let (ticket, rest) = field_64(line)?;
    let (index, rest) = field_32(rest)?;
    let (unit, rest) = field_32(rest)?;
    let (page, _) = field_32(rest)?;
    Ok(Entry::Placed(Placed {
        ticket,
        index,
        unit,
        page,
    }))
}

#[tactic(auto, unfolding(fdp_prints::specs::Reader::copied_in))]
fn copied(line: &[u8]) -> Result<Entry, FaultKind>
    ensures { result ≡ copied_in (words_of line.now) }
{
    let (from, rest) = spot_field(line)?;
    let (to, _) = spot_field(rest)?;
    Ok(Entry::Copied(Copied { from, to }))
}

#[tactic(auto, unfolding(fdp_prints::specs::Reader::moved_in))]
fn moved(alloc: Global, line: &[u8]) -> Result<Entry, LineError>
    ensures { Yields result (moved_in (words_of line.now)) }
{
    let (rg, rest) = field_16(line)?;
    let blocks = names(alloc, rest)?;
    Ok(Entry::Moved(Moved { rg, blocks }))
}

#[tactic(auto, unfolding(fdp_prints::specs::Reader::shut_in))]
fn shut(line: &[u8]) -> Result<Entry, FaultKind>
    ensures { result ≡ shut_in (words_of line.now) }
{
    let (rg, rest) = field_16(line)?;
    let (ruh, _) = field_8(rest)?;
    Ok(Entry::Shut(Shut { rg, ruh }))
}

/// The command of a line, or the one that is given where an entry stands there.
#[tactic(auto, unfolding(fdp_prints::specs::Reader::command_in))]
fn command(alloc: Global, line: &[u8], given: Option<Command>) -> Result<Command, LineError>
    ensures { Yields result (command_in given (words_of line.now)) }
{
    if begins_entry(line) {
        return Ok(taken(given)?);
    }
    read_command(alloc, line)
}

fn begins_entry(line: &[u8]) -> bool
    ensures { result ≡ begins_entry (words_of line.now) }
{
    match next_word(line) {
        Some((word, _)) => is_text(word, b"entry"),
        None => false,
    }
}

fn taken(given: Option<Command>) -> Result<Command, FaultKind>
    ensures { result ≡ taken given }
{
    match given {
        Some(command) => Ok(command),
        None => Err(FaultKind::Word),
    }
}

fn is_text(text: &[u8], word: &[u8]) -> bool
    ensures { result ≡ bytes_eq text.now word.now }
{
    text == word
}
