ghost use Rattle.fdp_base.specs.CommandKinds.{is_write, IsWellFormed};
ghost use Rattle.fdp_base.specs.declared.status.Status.{Status};
ghost use Rattle.fdp_plain_judge.specs.Judging.{IsPlaceFor};
ghost use Rattle.fdp_rules.specs.Answer.{bare};
ghost use Rattle.fdp_rules.specs.Room.{handles_of};
ghost use Rattle.fdp_rules.specs.Step.{IsQueue, IsStarted};
ghost use Rattle.fdp_tables.specs.State.{plain_of, point_kept};
ghost use Rattle.std.specs.Prelude.{◌≡◌, IsTrue, Contains, Decides, IfOk, None, Some, false};

use crate::pages::is_handle;
use crate::replies::is_bare;
use fdp_base::{Command, Reply, Status};
use fdp_commands::{is_well_formed, roomiest};
use fdp_plain_answers::refusal;
use fdp_tables::{Standing, is_write};
use std::alloc::{AllocError, Global};

/// Whether a write may be let go, for a handle of a group.
pub(crate) fn is_started(
    kept: &Standing,
    alloc: Global,
    queue: u8,
    command: &Command,
    rg: u16,
    ruh: u8,
    pid_valid: bool,
) -> Result<bool, AllocError>
    ensures { IfOk result (λ answer. Decides answer (IsStarted kept.now.config (point_kept kept.now) queue command.now rg ruh pid_valid)) }
{
    let refusal = refusal(kept, alloc, command)?;
    Ok(
        is_startable(kept, queue, command, refusal)
            && is_handle(kept, rg, ruh)
            && is_place_for(kept, command.nsid(), rg, ruh, pid_valid),
    )
}

pub(crate) fn is_queue(kept: &Standing, queue: u8) -> bool
    ensures { Decides result (IsQueue kept.now.config queue) }
{
    1 <= queue && queue <= kept.config().queues
}

fn is_startable(kept: &Standing, queue: u8, command: &Command, refusal: Option<Status>) -> bool
    ensures { Decides result (IsQueue kept.now.config queue × IsWellFormed kept.now.config command.now × IsTrue (is_write command.now) × (refusal ≡ None)) }
{
    is_queue(kept, queue)
        && is_well_formed(kept.config(), command)
        && is_write(command)
        && refusal.is_none()
}

/// Whether a valid or an invalid placement identifier may lead to a handle of a group.
fn is_place_for(kept: &Standing, nsid: u32, rg: u16, ruh: u8, pid_valid: bool) -> bool
    ensures { Decides result (IsPlaceFor kept.now nsid rg ruh pid_valid) }
{
    if pid_valid {
        lists(kept, nsid, ruh)
    } else {
        rg == roomiest(kept) && u16::from(ruh) == kept.first_handle(nsid)
    }
}

fn lists(kept: &Standing, nsid: u32, ruh: u8) -> bool
    ensures { Decides result (Contains (handles_of (plain_of kept.now) nsid) ruh) }
{
    kept.handles_of(nsid).contains(&u16::from(ruh))
}

/// Whether a reply is this refusal.
pub(crate) fn is_refused(refusal: Option<Status>, reply: &Reply) -> bool
    ensures { Decides result ((status : Status) × (refusal ≡ Some status) × (reply.now ≡ bare status false)) }
{
    match refusal {
        Some(status) => is_bare(reply, status, false),
        None => false,
    }
}
