//! Whether a command has a frame.

ghost use Rattle.std.specs.Prelude.{◌≡◌, ◌≤◌, MatchBool};
ghost use Rattle.fdp_base.specs.Geometry.{IsBlockSize, IsWithin};
ghost use Rattle.fdp_base.specs.declared.command.Command.TheVariants as commands;
ghost use Rattle.fdp_base.specs.declared.payload.Payload.TheVariants as payloads;
ghost use Rattle.fdp_binary.specs.Carrying.{IsCarried, IsCarriedPayload, SaysOther, entry_made};

use crate::asked::asked_of;
use crate::fields::other_in;
use crate::payload::pattern_of;
use fdp_base::{
    Command, MOST_ENTRY_BLOCKS, MOST_ENTRY_EVENT_TYPES, MOST_ENTRY_PIDS, MOST_ENTRY_RANGES, Other,
    Payload,
};
use fdp_layouts::Sqe;
use fdp_queues::work_of;

/// Whether each value and each count of a command fits its field, and its entry says it back. It looks at the bytes of a
/// write once.
pub fn is_carried(command: &Command, block: u32) -> bool
    requires { IsBlockSize block }
    ensures { MatchBool result (IsCarried block command.now) (IsCarried block command.now → ⊥) }
{
    match command {
        Command::Write(write) => {
            is_count(write.count)
                && write.dtype < 16
                && is_carried_payload(&write.payload, write.count, block)
        }
        Command::Read(read) => is_count(read.count),
        Command::Zero(zero) => is_count(zero.count),
        Command::Dealloc(dealloc) => is_within(dealloc.ranges.as_slice().len(), MOST_ENTRY_RANGES),
        Command::Update(update) => is_within(update.pids.as_slice().len(), MOST_ENTRY_PIDS),
        Command::Status(status) => status.dwords >= 1,
        Command::Log(log) => log.dwords >= 1 && log.lsp < 128,
        Command::SetEvents(set) => set.types.as_slice().len() <= MOST_ENTRY_EVENT_TYPES,
        Command::Other(other) => is_said_back(other),
        Command::Flush(_) | Command::Delete(_) | Command::SetFdp(_) | Command::GetFdp(_) => true,
        Command::Create(_) => false,
    }
}

/// Whether so many blocks fit their field.
fn is_count(count: u32) -> bool
    ensures { MatchBool result (IsWithin 1 MOST_ENTRY_BLOCKS count) (IsWithin 1 MOST_ENTRY_BLOCKS count → ⊥) }
{
    1 <= count && count <= MOST_ENTRY_BLOCKS
}

fn is_within(count: usize, most: usize) -> bool
    ensures { MatchBool result (IsWithin 1 most count) (IsWithin 1 most count → ⊥) }
{
    1 <= count && count <= most
}

/// Whether a payload is said as it stands.
fn is_carried_payload(payload: &Payload, count: u32, block: u32) -> bool
    requires block { IsBlockSize block }
    requires some { 1 ≤ count }
    requires few { count ≤ MOST_ENTRY_BLOCKS }
    ensures { MatchBool result (IsCarriedPayload block count payload.now) (IsCarriedPayload block count payload.now → ⊥) }
{
    match payload {
        Payload::Pattern(_) => true,
        Payload::Bytes(bytes) => is_no_pattern(bytes.as_slice(), count, block),
    }
}

/// Whether the bytes are those of so many blocks, and no pattern.
fn is_no_pattern(bytes: &[u8], count: u32, block: u32) -> bool
    requires block { IsBlockSize block }
    requires some { 1 ≤ count }
    requires few { count ≤ MOST_ENTRY_BLOCKS }
    ensures { MatchBool result (IsCarriedPayload block count (payloads.Bytes bytes.now)) (IsCarriedPayload block count (payloads.Bytes bytes.now) → ⊥) }
{
    if bytes.len() != (count * block) as usize {
        return false;
    }
    pattern_of(block, count, bytes).is_none()
}

/// Whether the entry of a command that is not served says that command.
fn is_said_back(other: &Other) -> bool
    ensures { MatchBool result (SaysOther other.now (entry_made (commands.Other other.now))) (SaysOther other.now (entry_made (commands.Other other.now)) → ⊥) }
{
    let command = Command::Other(*other);
    let entry = work_of(&command, 0).sqe;
    says_other(other, &entry)
}

/// Whether an entry asks for no command that is served, and says this one.
fn says_other(other: &Other, entry: &Sqe) -> bool
    ensures { MatchBool result (SaysOther other.now entry.now) (SaysOther other.now entry.now → ⊥) }
{
    asked_of(other.admin, entry).is_none() && other_in(other.admin, entry) == *other
}
