ghost use Rattle.std.specs.Prelude.{◌≡◌, ◌<◌, Some};
ghost use Rattle.fdp_base.specs.CommandKinds.{IsWellFormed};
ghost use Rattle.fdp_relocation.specs.fdp_book.Book.{point_in, state_in};
ghost use Rattle.fdp_relocation.specs.fdp_book.Stages.{IsFree};
ghost use Rattle.fdp_core.specs.Answers.{EndsAtOnce};
ghost use Rattle.fdp_core.specs.Stops.{OutlastsStops};
ghost use Rattle.fdp_rules.specs.Refusal.{refusal_of};
ghost use Rattle.fdp_rules.specs.Step.{IsQueue};

use super::Group;
use fdp_base::{Command, Status};
use fdp_flash::Flash;
use fdp_relocation::{Done, Room};

impl<F: Flash> Group<F> {
    /// Completes a command with its refusal. It changes nothing, but that a write which is refused ends what its queue had going.
    pub(super) fn refuse(
        &mut self,
        queue: u8,
        number: u16,
        command: Command,
        status: Status,
        room: Room,
    ) -> Done
        requires queue { IsQueue self.old.book.config queue }
        requires formed { IsWellFormed self.old.book.config command }
        requires free { IsFree (state_in self.old.book) queue number }
        requires refused { refusal_of self.old.book.config (point_in self.old.book) command ≡ Some status }
        requires spare { 0 < self.old.book.spare }
        ensures step { EndsAtOnce F.state self.old self.new queue number command result }
        ensures stops { OutlastsStops F.state self.old self.new }
    {
        self.book.known(); // proof
        let (_, replies) = room.end(status, false);
        let moment = self.flash.moment();
        self.book.begin();
        let done = self.book.complete(queue, number, command, replies, moment);
        self.book.known(); // proof
        done
    }
}
