ghost use Rattle.fdp_rules.specs.PlainState.{Going};
ghost use Rattle.fdp_rules.specs.Step.{IsGoing, IsWriteReply};
ghost use Rattle.fdp_tables.specs.State.{going_of, plain_of, point_kept};
ghost use Rattle.std.specs.Prelude.{◌≡◌, Decides, IfOk, MatchOption, true};

use crate::ends::is_end;
use crate::hosts::is_refused;
use fdp_base::{Command, Reply};
use fdp_plain_answers::refusal;
use fdp_tables::{KeptGoing, Standing};
use std::alloc::{AllocError, Global};

/// The write that is going in a queue with this number and this command.
pub(crate) fn going_as<'a>(
    kept: &'a Standing,
    queue: u8,
    number: u16,
    command: &Command,
) -> Option<&'a KeptGoing>
    ensures { MatchOption result
        ((g : Going) → IsGoing (plain_of kept.now) queue number command.now g → ⊥)
        (λ going. IsGoing (plain_of kept.now) queue number command.now (going_of going.now)) }
{
    match kept.going_in(queue) {
        Some(going) => named(going, number, command),
        None => None,
    }
}

/// Whether a reply answers a write: as the end of the one that is going, or as the refusal of another. Only want of memory
/// keeps it from an answer.
pub(crate) fn is_write_reply(
    kept: &Standing,
    alloc: Global,
    queue: u8,
    number: u16,
    command: &Command,
    reply: &Reply,
    moment: u64,
) -> Result<bool, AllocError>
    ensures { IfOk result (λ answer. Decides answer (IsWriteReply true kept.now.config (point_kept kept.now) queue number command.now reply.now moment)) }
{
    match going_as(kept, queue, number, command) {
        Some(going) => Ok(is_end(kept, going, reply, moment)),
        None => {
            let refusal = refusal(kept, alloc, command)?;
            Ok(is_refused(refusal, reply))
        }
    }
}

/// A going write, where it has this number and this command.
fn named<'a>(going: &'a KeptGoing, number: u16, command: &Command) -> Option<&'a KeptGoing>
    ensures { MatchOption result
        ((going.now.number ≡ number) × (going.now.command ≡ command.now) → ⊥)
        (λ found. (found.now ≡ going.now) × (going.now.number ≡ number) × (going.now.command ≡ command.now)) }
{
    if is_named(going, number, command) {
        Some(going)
    } else {
        None
    }
}

fn is_named(going: &KeptGoing, number: u16, command: &Command) -> bool
    ensures { Decides result ((going.now.number ≡ number) × (going.now.command ≡ command.now)) }
{
    going.number == number && is_same(&going.command, command)
}

/// Whether two commands are the same.
fn is_same(a: &Command, b: &Command) -> bool
    ensures { Decides result (a.now ≡ b.now) }
{
    a == b
}
