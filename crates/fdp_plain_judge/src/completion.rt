ghost use Rattle.fdp_base.specs.CommandKinds.{is_write};
ghost use Rattle.fdp_rules.specs.Answer.{IsSuccess};
ghost use Rattle.fdp_rules.specs.Refusal.{refusal_of};
ghost use Rattle.fdp_rules.specs.Step.{IsHost, IsMediaError, IsNewMoment, IsPlainReply, IsWriteReply};
ghost use Rattle.fdp_tables.specs.State.{plain_of, point_kept};
ghost use Rattle.std.specs.Prelude.{◌≡◌, ◌⊎◌, Decides, IfOk, MatchBool, None, true};

use crate::hosts::is_queue;
use crate::replies::{is_bare, is_media_error, is_new_moment};
use crate::success::is_success;
use crate::writes::is_write_reply;
use fdp_base::{Command, Reply};
use fdp_commands::is_well_formed;
use fdp_plain_answers::refusal;
use fdp_tables::{Standing, is_write};
use std::alloc::{AllocError, Global};

/// Whether a command may be completed so. Only want of memory keeps it from an answer.
pub(crate) fn is_host(
    kept: &Standing,
    alloc: Global,
    queue: u8,
    number: u16,
    command: &Command,
    reply: &Reply,
    moment: u64,
) -> Result<bool, AllocError>
    ensures { IfOk result (λ answer. Decides answer (IsHost true kept.now.config (point_kept kept.now) queue number command.now reply.now moment)) }
{
    let replied = is_reply(kept, alloc, queue, number, command, reply, moment)?;
    Ok(is_queue(kept, queue) && is_well_formed(kept.config(), command) && replied)
}

/// Whether a reply answers a command.
fn is_reply(
    kept: &Standing,
    alloc: Global,
    queue: u8,
    number: u16,
    command: &Command,
    reply: &Reply,
    moment: u64,
) -> Result<bool, AllocError>
    ensures { IfOk result (λ answer. Decides answer (MatchBool (is_write command.now)
        (IsWriteReply true kept.now.config (point_kept kept.now) queue number command.now reply.now moment)
        (IsPlainReply true kept.now.config (point_kept kept.now) command.now reply.now moment))) }
{
    if is_write(command) {
        is_write_reply(kept, alloc, queue, number, command, reply, moment)
    } else {
        is_plain_reply(kept, alloc, command, reply, moment)
    }
}

/// Whether a reply answers a command that is no write: as its refusal, its success, or a media error.
fn is_plain_reply(
    kept: &Standing,
    alloc: Global,
    command: &Command,
    reply: &Reply,
    moment: u64,
) -> Result<bool, AllocError>
    ensures { IfOk result (λ answer. Decides answer (IsPlainReply true kept.now.config (point_kept kept.now) command.now reply.now moment)) }
{
    match refusal(kept, alloc, command)? {
        Some(status) => Ok(is_bare(reply, status, false)),
        None => is_accepted_reply(kept, alloc, command, reply, moment),
    }
}

/// Whether a reply answers a command that is not refused.
fn is_accepted_reply(
    kept: &Standing,
    alloc: Global,
    command: &Command,
    reply: &Reply,
    moment: u64,
) -> Result<bool, AllocError>
    requires accepted { refusal_of kept.now.config (point_kept kept.now) command.now ≡ None }
    ensures { IfOk result (λ answer. Decides answer (IsSuccess true kept.now.config (point_kept kept.now) command.now reply.now
        ⊎ (IsNewMoment (plain_of kept.now) moment × IsMediaError command.now reply.now))) }
{
    let succeeded = is_success(kept, alloc, command, reply)?;
    Ok(succeeded || is_failure(kept, command, reply, moment))
}

/// Whether a reply is a media error that a command may get, with a moment of its own.
fn is_failure(kept: &Standing, command: &Command, reply: &Reply, moment: u64) -> bool
    ensures { Decides result (IsNewMoment (plain_of kept.now) moment × IsMediaError command.now reply.now) }
{
    is_new_moment(kept, moment) && is_media_error(command, reply)
}
