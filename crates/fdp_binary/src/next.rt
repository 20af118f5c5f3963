ghost use Rattle.std.specs.Prelude.{◌≡◌, ◌≤◌, IfOk, MatchResult, length};
ghost use Rattle.std.specs.List.{sum_by};
ghost use Rattle.fdp_base.specs.CommandKinds.{blocks_read};
ghost use Rattle.fdp_base.specs.Geometry.{IsBlockSize};
ghost use Rattle.fdp_binary.specs.Reader.{IsNext, IsPassed};
ghost use Rattle.fdp_binary.specs.Streams.{Lacks};

use crate::asked::{Asked, asked_of};
use crate::command::command_of;
use crate::fault::StreamFaultKind;
use crate::front::{FRONT, Front, front_of};
use crate::room::{data_in, has_room, reads_in};
use fdp_base::Command;
use std::alloc::{AllocError, Global};

/// What stands behind the frames so far.
#[derive(Drop)]
pub enum Next {
    /// Less than a whole frame, with no fault so far.
    Short,
    /// A frame with this fault.
    Bad(StreamFaultKind),
    /// A frame with so many bytes of data.
    Whole { command: Command, len: usize },
}

/// A head and an entry without a fault, and the kind that the entry asks for.
#[derive(Clone, Copy, Debug)]
pub struct Passed {
    pub front: Front,
    pub asked: Option<Asked>,
}

/// What the bytes begin with that stand behind the frames of these commands, which read so many blocks.
pub fn next_frame(
    alloc: Global,
    block: u32,
    commands: &[Command],
    blocks: u64,
    bytes: &[u8],
) -> Result<Next, AllocError>
    requires block { IsBlockSize block }
    requires counted { blocks ≡ sum_by blocks_read commands.now }
    ensures { IfOk result (IsNext block commands.now bytes.now) }
{
    if bytes.len() < FRONT {
        return Ok(Next::Short);
    }
    match judge(block, commands, blocks, bytes) {
        Err(kind) => Ok(Next::Bad(kind)),
        Ok(passed) => {
            let len = passed.front.len as usize;
            if bytes.len() - FRONT < len {
                return Ok(Next::Short);
            }
            let body = &bytes[FRONT..FRONT + len];
            let command = command_of(alloc, block, &passed.front, passed.asked, body)?;
            Ok(Next::Whole { command, len })
        }
    }
}

/// Whether the frame that begins here may follow, as its head and its entry tell.
fn judge(
    block: u32,
    commands: &[Command],
    blocks: u64,
    bytes: &[u8],
) -> Result<Passed, StreamFaultKind>
    requires block { IsBlockSize block }
    requires counted { blocks ≡ sum_by blocks_read commands.now }
    requires there { FRONT ≤ length bytes.now }
    ensures { MatchResult result (IsPassed block commands.now bytes.now) (Lacks block commands.now bytes.now) }
{
    let Some(front) = front_of(bytes) else {
        return Err(StreamFaultKind::Head);
    };
    let asked = asked_of(front.admin, &front.entry);
    if asked == Some(Asked::Create) {
        return Err(StreamFaultKind::Create);
    }
    if front.len != data_in(block, asked, &front.entry) {
        return Err(StreamFaultKind::Length);
    }
    if !has_room(commands, blocks, reads_in(asked, &front.entry)) {
        return Err(StreamFaultKind::Many);
    }
    Ok(Passed { front, asked })
}
