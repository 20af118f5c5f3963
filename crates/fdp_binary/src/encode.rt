ghost use Rattle.std.specs.Prelude.{◌≡◌, ◌++◌, ◌*◌, IfErr, OnErr, OnOk, length, false};
ghost use Rattle.fdp_base.specs.Geometry.{IsBlockSize};
ghost use Rattle.fdp_layouts.specs.Frame.{Fits};
ghost use Rattle.fdp_layouts.specs.Submission.{sqe, sqe_numbers};
ghost use Rattle.fdp_queues.specs.Data.{data_of, payload_data};
ghost use Rattle.fdp_queues.specs.Entry.{entry_bytes};
ghost use Rattle.fdp_binary.specs.Carrying.{Extends, IsCarried, IsTyped};
ghost use Rattle.fdp_binary.specs.Frames.{AddsFrame, IsRefused};
ghost use Rattle.fdp_binary.specs.Front.{head};

use crate::carried::is_carried;
use crate::data::{PID, RANGE, push_pids, push_ranges};
use crate::front::push_front;
use crate::payload::push_pattern;
use crate::typed::see_numbers;
use fdp_base::{Command, Payload};
use fdp_queues::{Work, work_of};
use std::alloc::AllocError;

/// Why a command was not appended as a frame.
#[derive(Clone, Copy, Debug, PartialEq, Eq)]
pub enum NotCarried {
    /// It has no frame.
    Uncarried,
    NoMemory,
}

/// Appends the frame of a command, with zero in all that a reader ignores. An `Err` leaves the bytes as they were. It
/// takes time that grows with the data.
pub fn encode_command(command: &Command, block: u32, into: &mut Vec<u8>) -> Result<(), NotCarried>
    requires { IsBlockSize block }
    ensures ok { OnOk result (AddsFrame block command.now into.old.items into.new.items) }
    ensures err { IfErr result (IsRefused block command.now) }
    ensures same { OnErr result (into.new.items ≡ into.old.items) }
{
    if !is_carried(command, block) {
        return Err(NotCarried::Uncarried);
    }
    see_numbers(command); // proof
    let before = into.len();
    match push_frame(command, block, &work_of(command, 0), into) {
        Ok(()) => Ok(()),
        Err(AllocError) => {
            into.truncate(before);
            Err(NotCarried::NoMemory)
        }
    }
}

/// Appends head, entry and data.
fn push_frame(
    command: &Command,
    block: u32,
    work: &Work,
    into: &mut Vec<u8>,
) -> Result<(), AllocError>
    requires block { IsBlockSize block }
    requires carried { IsCarried block command.now }
    ensures ok { OnOk result (into.new.items ≡ into.old.items ++ head work.now.admin (length (data_of block command.now)) ++ entry_bytes work.now.sqe ++ data_of block command.now) }
    ensures fits { OnOk result (Fits sqe (sqe_numbers work.now.sqe)) }
    ensures err { OnErr result (Extends into.old.items into.new.items) }
{
    match command {
        Command::Write(write) => {
            push_front(work.admin, write.count * block, &work.sqe, into)?;
            push_payload(&write.payload, write.count, block, into)
        }
        Command::Dealloc(dealloc) => {
            let ranges = dealloc.ranges.as_slice();
            push_front(work.admin, (RANGE * ranges.len()) as u32, &work.sqe, into)?;
            push_ranges(ranges, into)
        }
        Command::Update(update) => {
            let pids = update.pids.as_slice();
            push_front(work.admin, (PID * pids.len()) as u32, &work.sqe, into)?;
            push_pids(pids, into)
        }
        Command::SetEvents(set) => {
            let types = set.types.as_slice();
            push_front(work.admin, types.len() as u32, &work.sqe, into)?;
            into.extend_from_slice(types)
        }
        Command::Read(_)
        | Command::Zero(_)
        | Command::Flush(_)
        | Command::Delete(_)
        | Command::Status(_)
        | Command::Log(_)
        | Command::SetFdp(_)
        | Command::GetFdp(_)
        | Command::Create(_)
        | Command::Other(_) => push_front(work.admin, 0, &work.sqe, into),
    }
}

/// Appends the data of a write.
fn push_payload(
    payload: &Payload,
    count: u32,
    block: u32,
    into: &mut Vec<u8>,
) -> Result<(), AllocError>
    requires { IsBlockSize block }
    ensures ok { OnOk result (into.new.items ≡ into.old.items ++ payload_data block count payload.now) }
    ensures err { OnErr result (Extends into.old.items into.new.items) }
{
    match payload {
        Payload::Pattern(seed) => push_pattern(*seed, count, block, into),
        Payload::Bytes(bytes) => into.extend_from_slice(bytes.as_slice()),
    }
}
