ghost use Rattle.std.specs.Prelude.{◌≡◌, Some, IfOk, length};
ghost use Rattle.fdp_base.specs.Geometry.{IsBlockSize};
ghost use Rattle.fdp_binary.specs.declared.asked.Asked.TheVariants as kinds;
ghost use Rattle.fdp_binary.specs.Asked.{IsAsked, data_in};
ghost use Rattle.fdp_binary.specs.Saying.{Says};
ghost use Rattle.fdp_binary.specs.Fields.{read_in, zero_in};

use crate::asked::Asked;
use crate::data::{pids_of, ranges_of};
use crate::fields::{
    blocks_in, deallocates, group_in, log_in, other_in, set_events_in, set_fdp_in, slba_in,
    status_in, update_in, write_in,
};
use crate::front::Front;
use crate::payload::payload_of;
use fdp_base::{Command, Dealloc, Delete, EventTypes, Flush, GetFdp, Read, Zero};
use fdp_layouts::Sqe;
use std::alloc::{AllocError, Global};

/// The command that an entry says with data of its length.
pub fn command_of(
    alloc: Global,
    block: u32,
    front: &Front,
    asked: Option<Asked>,
    body: &[u8],
) -> Result<Command, AllocError>
    requires block { IsBlockSize block }
    requires asked { IsAsked front.now.admin front.now.entry asked }
    requires kept { asked ≡ Some kinds.Create → ⊥ }
    requires sized { length body.now ≡ data_in block asked front.now.entry }
    ensures { IfOk result (λ command. Says block front.now.admin front.now.entry body.now command) }
{
    let entry = &front.entry;
    match asked {
        None => Ok(Command::Other(other_in(front.admin, entry))),
        Some(Asked::Write) => {
            let payload = payload_of(alloc, block, blocks_in(entry), body)?;
            Ok(Command::Write(write_in(entry, payload)))
        }
        Some(Asked::Read) => Ok(Command::Read(read_in(entry))),
        Some(Asked::Zero) => Ok(Command::Zero(zero_in(entry))),
        Some(Asked::Dealloc) => Ok(Command::Dealloc(Dealloc {
            nsid: entry.nsid,
            deallocate: deallocates(entry),
            ranges: ranges_of(alloc, body)?,
        })),
        Some(Asked::Flush) => Ok(Command::Flush(Flush { nsid: entry.nsid })),
        Some(Asked::Status) => Ok(Command::Status(status_in(entry))),
        Some(Asked::Update) => {
            let pids = pids_of(alloc, body)?;
            Ok(Command::Update(update_in(entry, pids)))
        }
        Some(Asked::Log) => Ok(Command::Log(log_in(entry))),
        Some(Asked::SetFdp) => Ok(Command::SetFdp(set_fdp_in(entry))),
        Some(Asked::GetFdp) => Ok(Command::GetFdp(GetFdp {
            group: group_in(entry),
        })),
        Some(Asked::SetEvents) => {
            let types = EventTypes::from_vec(Vec::from_slice(alloc, body)?);
            Ok(Command::SetEvents(set_events_in(entry, types)))
        }
        Some(Asked::Delete) => Ok(Command::Delete(Delete { nsid: entry.nsid })),
        // A create is a fault before its data are looked at.
        Some(Asked::Create) => unreachable!(),
    }
}

fn read_in(entry: &Sqe) -> Read
    ensures { result ≡ read_in entry.now }
{
    Read {
        nsid: entry.nsid,
        slba: slba_in(entry),
        count: blocks_in(entry),
    }
}

fn zero_in(entry: &Sqe) -> Zero
    ensures { result ≡ zero_in entry.now }
{
    Zero {
        nsid: entry.nsid,
        slba: slba_in(entry),
        count: blocks_in(entry),
    }
}
