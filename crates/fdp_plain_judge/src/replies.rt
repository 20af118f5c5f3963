ghost use Rattle.fdp_base.specs.CommandKinds.{is_read, is_saved};
ghost use Rattle.fdp_rules.specs.Answer.{bare};
ghost use Rattle.fdp_rules.specs.Step.{IsMediaError, IsNewMoment, IsWriteFault};
ghost use Rattle.fdp_tables.specs.State.{plain_of};
ghost use Rattle.std.specs.Prelude.{◌≡◌, Decides, false, true};

use fdp_base::{Command, Reply, Status};
use fdp_tables::{Standing, is_read};

/// Whether no media error of this run carries a moment.
pub(crate) fn is_new_moment(kept: &Standing, moment: u64) -> bool
    ensures { Decides result (IsNewMoment (plain_of kept.now) moment) }
{
    for earlier in kept.media() {
        if *earlier == moment {
            return false;
        }
    }
    true
}

/// Whether a reply is this status alone, without data, with its change made or not.
pub(crate) fn is_bare(reply: &Reply, status: Status, applied: bool) -> bool
    ensures { Decides result (reply.now ≡ bare status applied) }
{
    reply.status == status
        && reply.dw0 == 0
        && reply.bytes.as_slice().is_empty()
        && reply.applied == applied
}

pub(crate) fn is_write_fault(reply: &Reply) -> bool
    ensures { Decides result (IsWriteFault reply.now) }
{
    is_bare(reply, Status::WRITE_FAULT, false) || is_bare(reply, Status::WRITE_FAULT, true)
}

/// Whether a reply is a media error that a command may get.
pub(crate) fn is_media_error(command: &Command, reply: &Reply) -> bool
    ensures { Decides result (IsMediaError command.now reply.now) }
{
    (is_read(command) && is_bare(reply, Status::UNRECOVERED_READ_ERROR, false))
        || (command.is_saved() && is_write_fault(reply))
}
