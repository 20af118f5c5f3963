//! The command that a text says in a frame: its first line has the entry, the lines below it the data.

ghost use Rattle.std.specs.Prelude.{◌≡◌, IfOk, MatchBool, Some, bytes_eq, drop, length};
ghost use Rattle.fdp_base.specs.Geometry.{IsBlockSize};
ghost use Rattle.fdp_binary.specs.declared.asked.Asked.TheVariants as asks;
ghost use Rattle.fdp_binary.specs.Asked.{IsAsked};
ghost use Rattle.fdp_binary.specs.Lookup.{kind_in};
ghost use Rattle.fdp_binary.specs.Saying.{Says};
ghost use Rattle.fdp_layouts.specs.Frame.{Fits};
ghost use Rattle.fdp_layouts.specs.Submission.{sqe, sqe_numbers};
ghost use Rattle.fdp_output.specs.CommandText.{is_spelled};
ghost use Rattle.fdp_prints.specs.Reader.{command_words_in, data_read};
ghost use Rattle.fdp_queues.specs.Entry.{entry_bytes};
ghost use Rattle.fdp_trace.specs.Words.{words_of};
ghost use Rattle.fdp_reader.specs.Framing.{GivenBy, IsGivenBy, work_in};
ghost use Rattle.fdp_reader.specs.Yielding.{YieldsBy};

use crate::carried::{make_unlike, read_data};
use crate::cut::{after, before};
use crate::data::push_bytes;
use crate::fields::flag;
use fdp_base::{Command, DriveConfig};
use fdp_binary::{Asked, Front, asked_of, command_of, entry_of};
use fdp_trace::{FaultKind, LineError, is_spelled, next_word};
use std::alloc::{AllocError, Global};

/// Bytes of an entry.
const ENTRY: usize = 64;

/// The command of a frame whose entry stands on the first line of a text, with the data below; none where there is no entry, or where a line would
/// say its command. It takes memory for the data.
pub fn read_given(
    alloc: Global,
    config: &DriveConfig,
    text: &[u8],
) -> Result<Option<Command>, AllocError>
    requires { IsBlockSize config.now.block }
    ensures { IfOk result (IsGivenBy config.now.block text.now) }
{
    let behind = after(text, b'\n');
    match work(alloc, command_part(before(text, b'\n'))) {
        Ok((admin, bytes)) => given_by(alloc, config.block, admin, bytes.as_slice(), behind),
        Err(LineError::Fault(_)) => Ok(None),
        Err(LineError::Memory) => Err(AllocError),
    }
}

/// The command of a line, from its first word on.
#[tactic(auto, unfolding(fdp_prints::specs::Reader::command_words_in))]
fn command_part(line: &[u8]) -> &[u8]
    ensures { words_of result.now ≡ command_words_in (words_of line.now) }
{
    let Some((_, rest)) = next_word(line) else {
        return line;
    };
    let Some((word, rest)) = next_word(rest) else {
        return rest;
    };
    if is_text(word, b"host") {
        skip_words(rest, 6)
    } else {
        skip_words(rest, 5)
    }
}

fn skip_words(line: &[u8], count: usize) -> &[u8]
    ensures { words_of result.now ≡ drop count (words_of line.now) }
{
    let mut rest = line;
    for _ in 0..count {
        let Some((_, others)) = next_word(rest) else {
            return rest;
        };
        rest = others;
    }
    rest
}

/// The queue of an entry, and its bytes.
#[tactic(auto, unfolding(crate::specs::Framing::work_in, crate::specs::Framing::digits_in))]
fn work(alloc: Global, line: &[u8]) -> Result<(bool, Vec<u8>), LineError>
    ensures { YieldsBy (λ x. (x.0, x.1.items)) result (work_in (words_of line.now)) }
{
    let Some((word, rest)) = next_word(line) else {
        return Err(LineError::Fault(FaultKind::Count));
    };
    if !is_text(word, b"entry") {
        return Err(LineError::Fault(FaultKind::Word));
    }
    let (admin, rest) = flag(rest)?;
    let Some((digits, _)) = next_word(rest) else {
        return Err(LineError::Fault(FaultKind::Count));
    };
    let mut bytes = Vec::new(alloc);
    push_bytes(ENTRY, digits, &mut bytes)?;
    Ok((admin, bytes))
}

/// The command that these bytes say with the data behind, where they are an entry of one that no line says.
fn given_by(
    alloc: Global,
    block: u32,
    admin: bool,
    bytes: &[u8],
    behind: &[u8],
) -> Result<Option<Command>, AllocError>
    requires block { IsBlockSize block }
    requires whole { length bytes.now ≡ ENTRY }
    ensures { IfOk result (GivenBy block admin bytes.now behind.now) }
{
    let Some(entry) = entry_of(bytes) else {
        return Ok(None);
    };
    let asked = asked_of(admin, &entry);
    if is_create(asked) {
        return Ok(None);
    }
    let front = Front {
        admin,
        len: 0,
        entry,
    };
    framed(alloc, block, &front, asked, bytes, behind)
}

/// The command that an entry says with the data behind, where no line says it.
fn framed(
    alloc: Global,
    block: u32,
    front: &Front,
    asked: Option<Asked>,
    bytes: &[u8], // proof
    behind: &[u8],
) -> Result<Option<Command>, AllocError>
    requires block { IsBlockSize block }
    requires asks { IsAsked front.now.admin front.now.entry asked }
    requires kept { asked ≡ Some asks.Create → ⊥ }
    requires fits { Fits sqe (sqe_numbers front.now.entry) }
    requires is { bytes.now ≡ entry_bytes front.now.entry }
    ensures { IfOk result (GivenBy block front.now.admin bytes.now behind.now) }
{
    let _bytes = bytes;
    let mut body = read_data(alloc, block, asked, &front.entry, behind)?;
    let command = command_of(alloc, block, front, asked, body.as_slice())?;
    if !is_spelled(&command) {
        return Ok(Some(command));
    }
    drop(command);
    if !is_write(asked) {
        return Ok(None);
    }
    make_unlike(block, &mut body)?;
    let other = command_of(alloc, block, front, asked, body.as_slice())?;
    Ok(Some(other))
}

fn is_write(asked: Option<Asked>) -> bool
    ensures { MatchBool result (asked ≡ Some asks.Write) (asked ≡ Some asks.Write → ⊥) }
{
    asked == Some(Asked::Write)
}

fn is_create(asked: Option<Asked>) -> bool
    ensures { MatchBool result (asked ≡ Some asks.Create) (asked ≡ Some asks.Create → ⊥) }
{
    asked == Some(Asked::Create)
}

fn is_text(text: &[u8], word: &[u8]) -> bool
    ensures { result ≡ bytes_eq text.now word.now }
{
    text == word
}
