ghost use Rattle.std.specs.Prelude.{◌≡◌, ◌<◌, Bool, IsFalse, None, false};
ghost use Rattle.fdp_base.specs.CommandKinds.{IsWellFormed, is_saved, is_write};
ghost use Rattle.fdp_relocation.specs.fdp_book.Book.{point_in};
ghost use Rattle.fdp_core.specs.Answers.{EndsAtOnce};
ghost use Rattle.fdp_core.specs.Stops.{OutlastsStops};
ghost use Rattle.fdp_rules.specs.Answer.{IsSuccess};
ghost use Rattle.fdp_rules.specs.Refusal.{refusal_of};
ghost use Rattle.fdp_rules.specs.Step.{IsQueue};

use super::Group;
use fdp_base::Command;
use fdp_flash::Flash;
use fdp_relocation::{Done, Replies};

impl<F: Flash> Group<F> {
    /// Completes a command that is not refused, and neither read nor saved, with its success. It changes nothing.
    pub(super) fn succeed(
        &mut self,
        queue: u8,
        number: u16,
        command: Command,
        replies: Replies,
    ) -> Done
        requires queue { IsQueue self.old.book.config queue }
        requires formed { IsWellFormed self.old.book.config command }
        requires accepted { refusal_of self.old.book.config (point_in self.old.book) command ≡ None }
        requires other { is_write command ≡ false }
        requires unsaved { IsFalse (is_saved command) }
        requires success { (told : Bool) → IsSuccess told self.old.book.config (point_in self.old.book) command replies.history }
        requires same { replies.answer ≡ replies.history }
        requires spare { 0 < self.old.book.spare }
        ensures step { EndsAtOnce F.state self.old self.new queue number command result }
        ensures stops { OutlastsStops F.state self.old self.new }
    {
        self.book.known(); // proof
        let moment = self.flash.moment();
        self.book.begin();
        let done = self.book.complete(queue, number, command, replies, moment);
        self.book.known(); // proof
        done
    }
}
