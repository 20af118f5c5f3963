ghost use Rattle.fdp_base.specs.CommandKinds.{is_saved};
ghost use Rattle.fdp_base.specs.declared.status.TheConstants.Status as statuses;
ghost use Rattle.fdp_rules.specs.Answer.{data_of, dword0_of, IsSuccess};
ghost use Rattle.fdp_rules.specs.Refusal.{refusal_of};
ghost use Rattle.fdp_tables.specs.State.{plain_of, point_kept};
ghost use Rattle.std.specs.Prelude.{◌≡◌, Decides, IfOk, None, true};

use fdp_base::{Command, Reply, Status};
use fdp_plain_answers::{data_of, dword0_of};
use fdp_tables::Standing;
use std::alloc::{AllocError, Global};

/// Whether a reply is the success of a command that is not refused. It makes the data that the reply should have.
pub(crate) fn is_success(
    kept: &Standing,
    alloc: Global,
    command: &Command,
    reply: &Reply,
) -> Result<bool, AllocError>
    requires accepted { refusal_of kept.now.config (point_kept kept.now) command.now ≡ None }
    ensures { IfOk result (λ answer. Decides answer (IsSuccess true kept.now.config (point_kept kept.now) command.now reply.now)) }
{
    let data = data_of(kept, alloc, command)?;
    Ok(is_success_with(kept, command, reply, data.as_slice()))
}

/// Whether a reply is the success of a command with these data.
fn is_success_with(kept: &Standing, command: &Command, reply: &Reply, bytes: &[u8]) -> bool
    requires { bytes.now ≡ data_of kept.now.config (point_kept kept.now) command.now }
    ensures { Decides result (IsSuccess true kept.now.config (point_kept kept.now) command.now reply.now) }
{
    is_success_but_for_data(kept, command, reply) && reply.bytes.as_slice() == bytes
}

fn is_success_but_for_data(kept: &Standing, command: &Command, reply: &Reply) -> bool
    ensures { Decides result ((reply.now.status ≡ statuses.SUCCESS) × (reply.now.dw0 ≡ dword0_of (plain_of kept.now) command.now) × (reply.now.applied ≡ is_saved command.now)) }
{
    reply.status == Status::SUCCESS
        && reply.dw0 == dword0_of(kept, command)
        && reply.applied == command.is_saved()
}
