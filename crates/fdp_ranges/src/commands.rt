//! The numbers of a command, looked at one by one.

ghost use Rattle.std.specs.Prelude.{All};
ghost use Rattle.fdp_trace.specs.Typed.{IsTyped, IsTypedCreate, IsTypedDealloc, IsTypedEvents, IsTypedLog, IsTypedOther, IsTypedPayload, IsTypedRange, IsTypedRead, IsTypedSetting, IsTypedStatus, IsTypedUpdate, IsTypedWrite, IsTypedZero};

use crate::bits::{have_bytes, have_shorts, is_byte, is_long, is_short, is_word};
use fdp_base::{
    Command, Create, Dealloc, GetLog, HandleStatus, HandleUpdate, Other, Payload, Range, Read,
    SetEvents, SetFdp, Write, Zero,
};

/// Each number of a command is one of its type.
pub(crate) fn is_command(command: &Command)
    ensures { IsTyped command.now }
{
    match command {
        Command::Write(write) => is_written(write),
        Command::Read(read) => is_read(*read),
        Command::Zero(zero) => is_zero(*zero),
        Command::Dealloc(dealloc) => is_dealloc(dealloc),
        Command::Flush(flush) => is_word(flush.nsid),
        Command::Delete(delete) => is_word(delete.nsid),
        Command::Status(status) => is_status(*status),
        Command::Update(update) => is_update(update),
        Command::Log(log) => is_log(*log),
        Command::SetFdp(set) => is_setting(*set),
        Command::GetFdp(get) => is_short(get.group),
        Command::SetEvents(set) => are_events(set),
        Command::Create(create) => is_create(create),
        Command::Other(other) => is_other(*other),
    }
}

fn is_written(write: &Write)
    ensures { IsTypedWrite write.now }
{
    is_word(write.nsid);
    is_long(write.slba);
    is_word(write.count);
    is_byte(write.dtype);
    is_short(write.dspec);
    is_payload(&write.payload);
}

fn is_payload(payload: &Payload)
    ensures { IsTypedPayload payload.now }
{
    match payload {
        Payload::Pattern(seed) => is_word(*seed),
        Payload::Bytes(bytes) => have_bytes(bytes.as_slice()),
    }
}

fn is_read(read: Read)
    ensures { IsTypedRead read }
{
    is_word(read.nsid);
    is_long(read.slba);
    is_word(read.count);
}

fn is_zero(zero: Zero)
    ensures { IsTypedZero zero }
{
    is_word(zero.nsid);
    is_long(zero.slba);
    is_word(zero.count);
}

fn is_dealloc(dealloc: &Dealloc)
    ensures { IsTypedDealloc dealloc.now }
{
    is_word(dealloc.nsid);
    are_ranges(dealloc.ranges.as_slice());
}

fn are_ranges(ranges: &[Range])
    ensures { All IsTypedRange ranges.now }
{
    for range in ranges {
        is_range(*range);
    }
}

fn is_range(range: Range)
    ensures { IsTypedRange range }
{
    is_long(range.slba);
    is_word(range.length);
}

fn is_status(status: HandleStatus)
    ensures { IsTypedStatus status }
{
    is_word(status.nsid);
    is_byte(status.mo);
    is_word(status.dwords);
}

fn is_update(update: &HandleUpdate)
    ensures { IsTypedUpdate update.now }
{
    is_word(update.nsid);
    is_byte(update.mo);
    have_shorts(update.pids.as_slice());
}

fn is_log(log: GetLog)
    ensures { IsTypedLog log }
{
    is_byte(log.lid);
    is_byte(log.lsp);
    is_short(log.group);
    is_long(log.offset);
    is_word(log.dwords);
}

fn is_setting(set: SetFdp)
    ensures { IsTypedSetting set }
{
    is_short(set.group);
    is_byte(set.index);
}

fn are_events(set: &SetEvents)
    ensures { IsTypedEvents set.now }
{
    is_word(set.nsid);
    is_short(set.handle);
    have_bytes(set.types.as_slice());
}

fn is_create(create: &Create)
    ensures { IsTypedCreate create.now }
{
    is_long(create.size);
    have_shorts(create.list.as_slice());
}

fn is_other(other: Other)
    ensures { IsTypedOther other }
{
    is_byte(other.opcode);
    is_byte(other.flags);
    is_byte(other.feature);
}
