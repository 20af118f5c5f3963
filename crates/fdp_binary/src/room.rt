ghost use Rattle.std.specs.Prelude.{◌≡◌, MatchBool, length};
ghost use Rattle.std.specs.List.{sum_by};
ghost use Rattle.fdp_base.specs.CommandKinds.{blocks_read};
ghost use Rattle.fdp_base.specs.Geometry.{IsBlockSize};
ghost use Rattle.fdp_binary.specs.Asked.{data_in, reads_in};
ghost use Rattle.fdp_binary.specs.Streams.{HasRoom};

use crate::asked::Asked;
use crate::data::{PID, RANGE};
use crate::fields::{blocks_in, pids_in, ranges_in, types_in};
use fdp_base::{Command, MOST_TRACE_BLOCKS, MOST_TRACE_COMMANDS};
use fdp_layouts::Sqe;

/// How many bytes of data an entry has.
pub fn data_in(block: u32, asked: Option<Asked>, entry: &Sqe) -> u32
    requires { IsBlockSize block }
    ensures { result ≡ data_in block asked entry.now }
{
    match asked {
        Some(Asked::Write) => blocks_in(entry) * block,
        Some(Asked::Dealloc) => RANGE as u32 * ranges_in(entry),
        Some(Asked::Update) => PID as u32 * pids_in(entry),
        Some(Asked::SetEvents) => types_in(entry),
        Some(Asked::Read)
        | Some(Asked::Zero)
        | Some(Asked::Flush)
        | Some(Asked::Status)
        | Some(Asked::Log)
        | Some(Asked::SetFdp)
        | Some(Asked::GetFdp)
        | Some(Asked::Create)
        | Some(Asked::Delete)
        | None => 0,
    }
}

/// How many blocks an entry reads.
pub fn reads_in(asked: Option<Asked>, entry: &Sqe) -> u32
    ensures { result ≡ reads_in asked entry.now }
{
    match asked {
        Some(Asked::Read) => blocks_in(entry),
        Some(Asked::Write)
        | Some(Asked::Zero)
        | Some(Asked::Dealloc)
        | Some(Asked::Flush)
        | Some(Asked::Status)
        | Some(Asked::Update)
        | Some(Asked::Log)
        | Some(Asked::SetFdp)
        | Some(Asked::GetFdp)
        | Some(Asked::SetEvents)
        | Some(Asked::Create)
        | Some(Asked::Delete)
        | None => 0,
    }
}

/// Whether a command that reads `more` blocks may follow commands that read `blocks`.
pub fn has_room(commands: &[Command], blocks: u64, more: u32) -> bool
    requires { blocks ≡ sum_by blocks_read commands.now }
    ensures { MatchBool result (HasRoom commands.now more) (HasRoom commands.now more → ⊥) }
{
    commands.len() < MOST_TRACE_COMMANDS
        && blocks <= MOST_TRACE_BLOCKS
        && u64::from(more) <= MOST_TRACE_BLOCKS - blocks
}
