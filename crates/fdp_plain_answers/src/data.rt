ghost use Rattle.fdp_base.specs.declared.command.Command.TheVariants as commands;
ghost use Rattle.fdp_rules.specs.Answer.{data_of};
ghost use Rattle.fdp_rules.specs.Refusal.{refusal_of};
ghost use Rattle.fdp_rules.specs.Room.{size_of};
ghost use Rattle.fdp_tables.specs.State.{plain_of, point_kept};
ghost use Rattle.std.specs.Prelude.{◌≡◌, ◌+◌, ◌≤◌, IfOk, None};

use crate::handle_status::handle_status;
use crate::log::log_page;
use crate::transfer::{bytes_read, transfer};
use fdp_base::{Command, GetLog, HandleStatus, MOST_DWORDS, Read};
use fdp_tables::Standing;
use std::alloc::{AllocError, Global};

/// The data of a read.
fn read_data(kept: &Standing, alloc: Global, read: &Read) -> Result<Vec<u8>, AllocError>
    requires { read.now.slba + read.now.count ≤ size_of (plain_of kept.now) read.now.nsid }
    ensures { IfOk result (λ bytes. bytes.items ≡ data_of kept.now.config (point_kept kept.now) (commands.Read read.now)) }
{
    bytes_read(kept, alloc, read.nsid, read.slba, read.count)
}

/// The data of a status.
fn status_data(kept: &Standing, alloc: Global, status: &HandleStatus) -> Result<Vec<u8>, AllocError>
    requires few { status.now.dwords ≤ MOST_DWORDS }
    ensures { IfOk result (λ bytes. bytes.items ≡ data_of kept.now.config (point_kept kept.now) (commands.Status status.now)) }
{
    let descriptors = handle_status(kept, alloc, status.nsid)?;
    let bytes = transfer(alloc, 0, status.dwords, descriptors.as_slice())?;
    Ok(bytes)
}

/// The data of a log.
fn log_data(kept: &Standing, alloc: Global, log: &GetLog) -> Result<Vec<u8>, AllocError>
    requires few { log.now.dwords ≤ MOST_DWORDS }
    ensures { IfOk result (λ bytes. bytes.items ≡ data_of kept.now.config (point_kept kept.now) (commands.Log log.now)) }
{
    let page = log_page(kept, alloc, log.lid, log.lsp)?;
    let bytes = transfer(alloc, log.offset, log.dwords, page.as_slice())?;
    Ok(bytes)
}

/// The data of the success of a command that is not refused.
pub fn data_of(kept: &Standing, alloc: Global, command: &Command) -> Result<Vec<u8>, AllocError>
    requires accepted { refusal_of kept.now.config (point_kept kept.now) command.now ≡ None }
    ensures { IfOk result (λ bytes. bytes.items ≡ data_of kept.now.config (point_kept kept.now) command.now) }
{
    match command {
        Command::Read(read) => read_data(kept, alloc, read),
        Command::Status(status) => status_data(kept, alloc, status),
        Command::Log(log) => log_data(kept, alloc, log),
        Command::Write(_)
        | Command::Zero(_)
        | Command::Dealloc(_)
        | Command::Flush(_)
        | Command::Delete(_)
        | Command::Update(_)
        | Command::SetFdp(_)
        | Command::GetFdp(_)
        | Command::SetEvents(_)
        | Command::Create(_)
        | Command::Other(_) => Ok(Vec::new(alloc)),
    }
}
