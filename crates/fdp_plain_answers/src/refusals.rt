ghost use Rattle.fdp_commands.specs.Lengths.{IsLogLength};
ghost use Rattle.fdp_rules.specs.Refusal.{refusal_of};
ghost use Rattle.fdp_tables.specs.State.{point_kept};
ghost use Rattle.std.specs.Prelude.{IfOk, ◌≡◌};

use crate::log::log_page;
use fdp_base::{Command, Status};
use fdp_tables::Standing;
use std::alloc::{AllocError, Global};

/// The status with which a command is refused, if it is. Only for a log it takes memory.
pub fn refusal(
    kept: &Standing,
    alloc: Global,
    command: &Command,
) -> Result<Option<Status>, AllocError>
    ensures { IfOk result (λ status. status ≡ refusal_of kept.now.config (point_kept kept.now) command.now) }
{
    let bytes = log_length(kept, alloc, command)?;
    Ok(fdp_commands::refusal(kept, command, bytes))
}

/// The length of the log that a command asks for.
fn log_length(kept: &Standing, alloc: Global, command: &Command) -> Result<u64, AllocError>
    ensures { IfOk result (λ bytes. IsLogLength kept.now.config (point_kept kept.now) command.now bytes) }
{
    match command {
        Command::Log(log) => {
            let page = log_page(kept, alloc, log.lid, log.lsp)?;
            Ok(page.len() as u64)
        }
        Command::Write(_)
        | Command::Read(_)
        | Command::Zero(_)
        | Command::Dealloc(_)
        | Command::Flush(_)
        | Command::Delete(_)
        | Command::Status(_)
        | Command::Update(_)
        | Command::SetFdp(_)
        | Command::GetFdp(_)
        | Command::SetEvents(_)
        | Command::Create(_)
        | Command::Other(_) => Ok(0),
    }
}
