//! The commands of lines, from the words behind the first. Those without a list take no memory.

ghost use Rattle.std.specs.Prelude.{◌≡◌, ◌≤◌, ℕ, IfOk, codes};
ghost use Rattle.fdp_trace.specs.Words.{words_of};
ghost use Rattle.fdp_trace.specs.Reader.Reading.{Gives, Reads, field};
ghost use Rattle.fdp_trace.specs.Reader.Commands.{field_8, field_16, field_32, field_64, field_count, choice, directive, class_of, write_of, read_of, zero_of, dealloc_of, flush_of, delete_of, status_of, update_of, log_of, set_fdp_of, set_events_of, create_of, spelled, listed};

use crate::command_word::{CommandWord, is_text};
use crate::fault::{FaultKind, LineError};
use crate::limits::MOST_AMOUNT;
use crate::lists::{event_types, identifiers, ranges};
use crate::number::within;
use crate::words::next_word;
use fdp_base::{
    Command, Create, Dealloc, Delete, Directive, Flush, GetFdp, GetLog, HandleStatus, HandleUpdate,
    Payload, Read, ReceiveOperation, SendOperation, SetEvents, SetFdp, Write, Zero,
};
use std::alloc::Global;

/// The number of the next word, within bounds, and the words after it.
#[tactic(auto, unfolding(crate::specs::Reader::Reading::field))]
pub fn field(line: &[u8], low: u64, high: u64) -> Result<(u64, &[u8]), FaultKind>
    ensures gives { Reads (λ x. (x.0, words_of x.1.now)) result (field low high (words_of line.now)) }
    ensures bounds { IfOk result (λ x. (low ≤ x.0) × (x.0 ≤ high)) }
{
    match next_word(line) {
        Some((word, rest)) => {
            let number = within(word, low, high)?;
            Ok((number, rest))
        }
        None => Err(FaultKind::Count),
    }
}

fn field_8(line: &[u8]) -> Result<(u8, &[u8]), FaultKind>
    ensures { Reads (λ x. (x.0, words_of x.1.now)) result (field_8 (words_of line.now)) }
{
    let (number, rest) = field(line, 0, 0xff)?;
    Ok((number as u8, rest))
}

fn field_16(line: &[u8]) -> Result<(u16, &[u8]), FaultKind>
    ensures { Reads (λ x. (x.0, words_of x.1.now)) result (field_16 (words_of line.now)) }
{
    let (number, rest) = field(line, 0, 0xffff)?;
    Ok((number as u16, rest))
}

pub fn field_32(line: &[u8]) -> Result<(u32, &[u8]), FaultKind>
    ensures { Reads (λ x. (x.0, words_of x.1.now)) result (field_32 (words_of line.now)) }
{
    let (number, rest) = field(line, 0, 0xffff_ffff)?;
    Ok((number as u32, rest))
}

pub fn field_64(line: &[u8]) -> Result<(u64, &[u8]), FaultKind>
    ensures { Reads (λ x. (x.0, words_of x.1.now)) result (field_64 (words_of line.now)) }
{
    let (number, rest) = field(line, 0, u64::MAX)?;
    Ok((number, rest))
}

fn field_count(line: &[u8]) -> Result<(u32, &[u8]), FaultKind>
    ensures { Reads (λ x. (x.0, words_of x.1.now)) result (field_count (words_of line.now)) }
{
    let (number, rest) = field(line, 1, MOST_AMOUNT)?;
    Ok((number as u32, rest))
}

#[tactic(auto, unfolding(crate::specs::Reader::Commands::choice))]
fn is_on(line: &[u8]) -> Result<(bool, &[u8]), FaultKind>
    ensures { Reads (λ x. (x.0, words_of x.1.now)) result (choice (codes "on") (words_of line.now)) }
{
    match next_word(line) {
        Some((word, rest)) => Ok((is_text(word, b"on"), rest)),
        None => Err(FaultKind::Count),
    }
}

#[tactic(auto, unfolding(crate::specs::Reader::Commands::directive))]
fn directive(line: &[u8]) -> Result<(u8, u16), FaultKind>
    ensures { result ≡ directive (words_of line.now) }
{
    match next_word(line) {
        Some((_, rest)) => {
            let (pid, _) = field_16(rest)?;
            Ok((Directive::DataPlacement.code(), pid))
        }
        None => Ok((Directive::Absent.code(), 0)),
    }
}

#[tactic(auto, unfolding(crate::specs::Reader::Commands::class_of))]
fn class(line: &[u8]) -> u8
    ensures { class_of (words_of line.now) ≡ Ok result }
{
    match next_word(line) {
        Some((word, _)) if is_text(word, b"host") => 1,
        _ => 0,
    }
}

#[tactic(auto, unfolding(crate::specs::Reader::Commands::write_of))]
fn write(line: &[u8]) -> Result<Command, FaultKind>
    ensures { result ≡ write_of (words_of line.now) }
{
    let (nsid, rest) = field_32(line)?;
    let (slba, rest) = field_64(rest)?;
    let (count, rest) = field_count(rest)?;
    let (seed, rest) = field_32(rest)?;
    let (dtype, dspec) = directive(rest)?;
    let payload = Payload::Pattern(seed);
    Ok(Command::Write(Write {
        nsid,
        slba,
        count,
        dtype,
        dspec,
        payload,
    }))
}

#[tactic(auto, unfolding(crate::specs::Reader::Commands::read_of))]
fn read(line: &[u8]) -> Result<Command, FaultKind>
    ensures { result ≡ read_of (words_of line.now) }
{
    let (nsid, rest) = field_32(line)?;
    let (slba, rest) = field_64(rest)?;
    let (count, _) = field_count(rest)?;
    Ok(Command::Read(Read { nsid, slba, count }))
}

#[tactic(auto, unfolding(crate::specs::Reader::Commands::zero_of))]
fn zero(line: &[u8]) -> Result<Command, FaultKind>
    ensures { result ≡ zero_of (words_of line.now) }
{
    let (nsid, rest) = field_32(line)?;
    let (slba, rest) = field_64(rest)?;
    let (count, _) = field_count(rest)?;
    Ok(Command::Zero(Zero { nsid, slba, count }))
}

#[tactic(auto, unfolding(crate::specs::Reader::Commands::dealloc_of))]
fn dealloc(alloc: Global, line: &[u8]) -> Result<Command, LineError>
    ensures { Gives listed result (dealloc_of (words_of line.now)) }
{
    let (nsid, rest) = field_32(line)?;
    let ranges = ranges(alloc, rest)?;
    let deallocate = true;
    Ok(Command::Dealloc(Dealloc {
        nsid,
        deallocate,
        ranges,
    }))
}

#[tactic(auto, unfolding(crate::specs::Reader::Commands::flush_of))]
fn flush(line: &[u8]) -> Result<Command, FaultKind>
    ensures { result ≡ flush_of (words_of line.now) }
{
    let (nsid, _) = field_32(line)?;
    Ok(Command::Flush(Flush { nsid }))
}

#[tactic(auto, unfolding(crate::specs::Reader::Commands::delete_of))]
fn delete(line: &[u8]) -> Result<Command, FaultKind>
    ensures { result ≡ delete_of (words_of line.now) }
{
    let (nsid, _) = field_32(line)?;
    Ok(Command::Delete(Delete { nsid }))
}

#[tactic(auto, unfolding(crate::specs::Reader::Commands::status_of))]
fn status(line: &[u8]) -> Result<Command, FaultKind>
    ensures { result ≡ status_of (words_of line.now) }
{
    let (nsid, rest) = field_32(line)?;
    let (dwords, _) = field_count(rest)?;
    Ok(Command::Status(HandleStatus {
        nsid,
        mo: ReceiveOperation::HandleStatus.code(),
        dwords,
    }))
}

#[tactic(auto, unfolding(crate::specs::Reader::Commands::update_of))]
fn update(alloc: Global, line: &[u8]) -> Result<Command, LineError>
    ensures { Gives listed result (update_of (words_of line.now)) }
{
    let (nsid, rest) = field_32(line)?;
    let pids = identifiers(alloc, rest)?;
    let mo = SendOperation::HandleUpdate.code();
    Ok(Command::Update(HandleUpdate { nsid, mo, pids }))
}

#[tactic(auto, unfolding(crate::specs::Reader::Commands::log_of))]
fn log(line: &[u8]) -> Result<Command, FaultKind>
    ensures { result ≡ log_of (words_of line.now) }
{
    let (lid, rest) = field_8(line)?;
    let (offset, rest) = field_64(rest)?;
    let (dwords, rest) = field_count(rest)?;
    let lsp = class(rest);
    let group = 1;
    Ok(Command::Log(GetLog {
        lid,
        lsp,
        group,
        offset,
        dwords,
    }))
}

#[tactic(auto, unfolding(crate::specs::Reader::Commands::set_fdp_of))]
fn set_fdp(line: &[u8]) -> Result<Command, FaultKind>
    ensures { result ≡ set_fdp_of (words_of line.now) }
{
    let (enable, rest) = is_on(line)?;
    let (index, _) = field_8(rest)?;
    Ok(Command::SetFdp(SetFdp {
        group: 1,
        enable,
        index,
    }))
}

#[tactic(auto, unfolding(crate::specs::Reader::Commands::set_events_of))]
fn set_events(alloc: Global, line: &[u8]) -> Result<Command, LineError>
    ensures { Gives listed result (set_events_of (words_of line.now)) }
{
    let (nsid, rest) = field_32(line)?;
    let (handle, rest) = field_16(rest)?;
    let (enable, rest) = is_on(rest)?;
    let types = event_types(alloc, rest)?;
    Ok(Command::SetEvents(SetEvents {
        nsid,
        handle,
        enable,
        types,
    }))
}

#[tactic(auto, unfolding(crate::specs::Reader::Commands::create_of))]
fn create(alloc: Global, line: &[u8]) -> Result<Command, LineError>
    ensures { Gives listed result (create_of (words_of line.now)) }
{
    let (size, rest) = field_64(line)?;
    let list = identifiers(alloc, rest)?;
    let given = !list.as_slice().is_empty();
    Ok(Command::Create(Create { size, given, list }))
}

/// The command of a line of this word, with the words behind it.
pub fn spelled(alloc: Global, word: CommandWord, line: &[u8]) -> Result<Command, LineError>
    ensures { Gives listed result (spelled word (words_of line.now)) }
{
    match word {
        CommandWord::Write => Ok(write(line)?),
        CommandWord::Read => Ok(read(line)?),
        CommandWord::Zero => Ok(zero(line)?),
        CommandWord::Dealloc => dealloc(alloc, line),
        CommandWord::Flush => Ok(flush(line)?),
        CommandWord::Status => Ok(status(line)?),
        CommandWord::Update => update(alloc, line),
        CommandWord::Log => Ok(log(line)?),
        CommandWord::SetFdp => Ok(set_fdp(line)?),
        CommandWord::GetFdp => Ok(Command::GetFdp(GetFdp { group: 1 })),
        CommandWord::SetEvents => set_events(alloc, line),
        CommandWord::Create => create(alloc, line),
        CommandWord::Delete => Ok(delete(line)?),
    }
}
