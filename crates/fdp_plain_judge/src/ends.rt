ghost use Rattle.fdp_base.specs.CommandKinds.{blocks_written};
ghost use Rattle.fdp_base.specs.declared.status.TheConstants.Status as statuses;
ghost use Rattle.fdp_commands.specs.Targets.{target_at};
ghost use Rattle.fdp_plain_judge.specs.Judging.{IsWritten};
ghost use Rattle.fdp_rules.specs.Answer.{bare};
ghost use Rattle.fdp_rules.specs.Room.{is_over_budget};
ghost use Rattle.fdp_rules.specs.Sites.{is_there};
ghost use Rattle.fdp_rules.specs.Step.{exceeds_budget, HasEachPage, IsEnd, IsNewMoment, IsOnTarget, IsWriteFault, MaySucceed};
ghost use Rattle.fdp_tables.specs.State.{going_of, plain_of, point_kept};
ghost use Rattle.std.specs.Prelude.{◌≡◌, ◌+◌, ◌<◌, ◌⊎◌, IsTrue, IsFalse, Decides, Some, false, true};

use crate::replies::{is_bare, is_new_moment, is_write_fault};
use fdp_base::{Reply, Status};
use fdp_commands::{Destination, target};
use fdp_tables::{KeptGoing, Standing};

/// Whether a going write exceeds the budget of its group.
fn exceeds_budget(kept: &Standing, going: &KeptGoing) -> bool
    ensures { result ≡ exceeds_budget kept.now.config (plain_of kept.now) (going_of going.now) }
{
    match going.command.as_write() {
        Some(write) => is_over_budget(kept, going.rg, write.nsid, write.slba, write.count),
        None => false,
    }
}

/// Whether a write of these blocks into a group exceeds its budget.
fn is_over_budget(kept: &Standing, rg: u16, nsid: u32, slba: u64, count: u32) -> bool
    ensures { result ≡ is_over_budget kept.now.config (plain_of kept.now) rg nsid slba count }
{
    let others = kept.stored_outside(rg, nsid, slba, u64::from(count));
    u128::from(kept.budget(rg)) < others + u128::from(count)
}

/// Whether each page of a going write stands somewhere.
fn has_each_page(kept: &Standing, going: &KeptGoing) -> bool
    ensures { Decides result (HasEachPage (point_kept kept.now).trail (going_of going.now)) }
{
    for index in 0..going.command.blocks_written() {
        if kept.site(going.ticket, index).is_none() {
            return false;
        }
    }
    true
}

/// Whether a going write goes where it was started for.
fn is_on_target(kept: &Standing, going: &KeptGoing) -> bool
    ensures { Decides result (IsOnTarget kept.now.config (plain_of kept.now) (going_of going.now)) }
{
    match going.command.as_write() {
        Some(write) => {
            let target = target(kept, going.roomiest, write.nsid, write.pid());
            leads_to(target, going)
        }
        None => false,
    }
}

/// Whether a going write may succeed.
fn may_succeed(kept: &Standing, going: &KeptGoing) -> bool
    ensures { Decides result (MaySucceed kept.now.config (point_kept kept.now) (going_of going.now)) }
{
    kept.is_there(going)
        && !exceeds_budget(kept, going)
        && is_whole(kept, going)
        && is_on_target(kept, going)
}

/// Whether all pages of a going write were placed and stand somewhere.
fn is_whole(kept: &Standing, going: &KeptGoing) -> bool
    ensures { Decides result ((going.now.placed ≡ blocks_written going.now.command) × HasEachPage (point_kept kept.now).trail (going_of going.now)) }
{
    going.placed == going.command.blocks_written() && has_each_page(kept, going)
}

/// Whether a reply is the end of a going write.
pub(crate) fn is_end(kept: &Standing, going: &KeptGoing, reply: &Reply, moment: u64) -> bool
    ensures { Decides result (IsEnd true kept.now.config (point_kept kept.now) (going_of going.now) reply.now moment) }
{
    is_end_for_want(kept, going, reply)
        || is_end_in_place(kept, going, reply, moment)
        || is_early_end(kept, going, reply, moment)
}

/// Whether a reply tells that the namespace is gone, or the group is full, and that is so.
fn is_end_for_want(kept: &Standing, going: &KeptGoing, reply: &Reply) -> bool
    ensures { Decides result (
        (IsFalse (is_there (plain_of kept.now) (going_of going.now)) × (reply.now ≡ bare statuses.INVALID_NAMESPACE false))
        ⊎ (IsTrue (is_there (plain_of kept.now) (going_of going.now)) × IsTrue (exceeds_budget kept.now.config (plain_of kept.now) (going_of going.now)) × (reply.now ≡ bare statuses.CAPACITY_EXCEEDED false))) }
{
    if kept.is_there(going) {
        exceeds_budget(kept, going) && is_bare(reply, Status::CAPACITY_EXCEEDED, false)
    } else {
        is_bare(reply, Status::INVALID_NAMESPACE, false)
    }
}

/// Whether a reply tells of the success of a write that may succeed, or of its failure in its place.
fn is_end_in_place(kept: &Standing, going: &KeptGoing, reply: &Reply, moment: u64) -> bool
    ensures { Decides result (MaySucceed kept.now.config (point_kept kept.now) (going_of going.now)
        × (IsWritten reply.now ⊎ (IsNewMoment (plain_of kept.now) moment × IsWriteFault reply.now))) }
{
    may_succeed(kept, going) && is_outcome(kept, reply, moment)
}

fn is_outcome(kept: &Standing, reply: &Reply, moment: u64) -> bool
    ensures { Decides result (IsWritten reply.now ⊎ (IsNewMoment (plain_of kept.now) moment × IsWriteFault reply.now)) }
{
    is_bare(reply, Status::SUCCESS, true) || (is_new_moment(kept, moment) && is_write_fault(reply))
}

/// Whether a reply tells of a failure before all pages were placed.
fn is_early_end(kept: &Standing, going: &KeptGoing, reply: &Reply, moment: u64) -> bool
    ensures { Decides result (IsTrue (is_there (plain_of kept.now) (going_of going.now)) × (going.now.placed < blocks_written going.now.command)
        × IsNewMoment (plain_of kept.now) moment × (reply.now ≡ bare statuses.WRITE_FAULT false)) }
{
    kept.is_there(going)
        && going.placed < going.command.blocks_written()
        && is_new_moment(kept, moment)
        && is_bare(reply, Status::WRITE_FAULT, false)
}

/// Whether a target is where a going write was started for.
fn leads_to(target: Destination, going: &KeptGoing) -> bool
    ensures { Decides result (target_at target ≡ record { rg = going.now.rg; ruh = going.now.ruh; valid = going.now.pid_valid }) }
{
    target.rg == going.rg && target.ruh == going.ruh && target.valid == going.pid_valid
}
