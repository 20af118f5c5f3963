ghost use Rattle.std.specs.Prelude.{◌≡◌, ◌<◌, false};
ghost use Rattle.fdp_relocation.specs.fdp_book.Book.{state_in};
ghost use Rattle.fdp_relocation.specs.fdp_book.Steps.{IsFlying};
ghost use Rattle.fdp_relocation.specs.fdp_book.Tickets.{IsTicketOf};
ghost use Rattle.fdp_core.specs.Answers.{EndsAlone};
ghost use Rattle.fdp_core.specs.Ending.{Ends, MayEnd};
ghost use Rattle.fdp_rules.specs.Answer.{bare};
ghost use Rattle.fdp_rules.specs.Change.{is_media_error, is_status};
ghost use Rattle.fdp_base.specs.declared.status.TheConstants.Status as statuses;
ghost use Rattle.fdp_core.specs.Stops.{IsSafeNow, Outlasts, OutlastsStops, UsesNoMore};
ghost use Rattle.fdp_rules.specs.PlainState.{Going};

use super::Group;
use fdp_base::Status;
use fdp_flash::Flash;
use fdp_relocation::{Done, Ticket};

impl<F: Flash> Group<F> {
    /// A step ends a going write with this status, and changes nothing else.
    pub(super) fn end_alone(&mut self, ticket: Ticket, status: Status) -> Done
        requires going { IsFlying self.old.book ticket }
        requires spare { 0 < self.old.book.spare }
        requires fine { is_media_error status ≡ false }
        requires failed { is_status status statuses.SUCCESS ≡ false }
        requires may { (g : Going) → IsTicketOf (state_in self.old.book) ticket g → MayEnd F.state self.old g status }
        ensures step { (g : Going) → IsTicketOf (state_in self.old.book) ticket g → EndsAlone F.state self.old self.new ticket g (bare status false) result }
        ensures stops { OutlastsStops F.state self.old self.new }
    {
        self.book.begin();
        self.end(ticket, status)
    }

    /// A going write ends with this status within a step.
    pub(super) fn end(&mut self, ticket: Ticket, status: Status) -> Done
        requires going { IsFlying self.old.book ticket }
        requires room { 0 < self.old.book.room }
        requires failed { is_status status statuses.SUCCESS ≡ false }
        requires may { (g : Going) → IsTicketOf (state_in self.old.book) ticket g → MayEnd F.state self.old g status }
        ensures step { (g : Going) → IsTicketOf (state_in self.old.book) ticket g → Ends F.state self.old self.new ticket g status result }
        ensures stops { Outlasts F.state self.old self.new }
        ensures uses { UsesNoMore self.old.book self.new.book (F.state self.old.flash) }
        ensures safe { IsSafeNow (F.state self.new.flash) self.new.book self.new.keeper }
    {
        let moment = self.flash.moment();
        self.book.known(); // proof
        let done = self.book.end(ticket, status, moment);
        self.book.known(); // proof
        done
    }
}
