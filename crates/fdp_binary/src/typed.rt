//! What the types of numbers say of them: a proof knows it of a number that the code reads. No function here does anything.

ghost use Rattle.std.specs.Prelude.{◌<◌, ◌^◌};
ghost use Rattle.fdp_binary.specs.Carrying.{AreTypedPids, AreTypedRanges, IsTyped, IsTypedPayload};

use fdp_base::{Command, GetLog, HandleStatus, HandleUpdate, Payload, Range, SetFdp};

/// The numbers of a command are within their types.
pub fn see_numbers(command: &Command)
    ensures { IsTyped command.now }
{
    match command {
        Command::Write(write) => see_write(&write.payload, write.dspec),
        Command::Status(status) => see_status(*status),
        Command::Update(update) => see_update(update),
        Command::Dealloc(dealloc) => see_ranges(dealloc.ranges.as_slice()),
        Command::Log(log) => see_log(*log),
        Command::SetFdp(set) => see_set(*set),
        Command::GetFdp(get) => see_half(get.group),
        Command::SetEvents(set) => see_half(set.handle),
        Command::Read(_)
        | Command::Zero(_)
        | Command::Flush(_)
        | Command::Delete(_)
        | Command::Create(_)
        | Command::Other(_) => {}
    }
}

fn see_write(payload: &Payload, dspec: u16)
    ensures payload { IsTypedPayload payload.now }
    ensures dspec { dspec < 2 ^ 16 }
{
    match payload {
        Payload::Pattern(seed) => see_word(*seed),
        Payload::Bytes(_) => {}
    }
}

fn see_update(update: &HandleUpdate)
    ensures mo { update.now.mo < 2 ^ 8 }
    ensures pids { AreTypedPids update.now.pids }
{
    see_byte(update.mo);
    see_pids(update.pids.as_slice());
}

fn see_pids(pids: &[u16])
    ensures { AreTypedPids pids.now }
{}

fn see_ranges(ranges: &[Range])
    ensures { AreTypedRanges ranges.now }
{
    for range in ranges {
        see_range(*range);
    }
}

fn see_range(range: Range)
    ensures length { range.length < 2 ^ 32 }
    ensures slba { range.slba < 2 ^ 64 }
{}

fn see_byte(n: u8)
    ensures { n < 2 ^ 8 }
{}

fn see_half(n: u16)
    ensures { n < 2 ^ 16 }
{}

fn see_word(n: u32)
    ensures { n < 2 ^ 32 }
{}

fn see_status(status: HandleStatus)
    ensures mo { status.mo < 2 ^ 8 }
    ensures dwords { status.dwords < 2 ^ 32 }
{}

fn see_log(log: GetLog)
    ensures lid { log.lid < 2 ^ 8 }
    ensures group { log.group < 2 ^ 16 }
    ensures dwords { log.dwords < 2 ^ 32 }
{}

fn see_set(set: SetFdp)
    ensures group { set.group < 2 ^ 16 }
    ensures index { set.index < 2 ^ 8 }
{}
