ghost use Rattle.std.specs.Prelude.{◌<◌};
ghost use Rattle.fdp_relocation.specs.fdp_book.Book.{point_in, state_in};
ghost use Rattle.fdp_relocation.specs.fdp_book.Steps.{IsReady};
ghost use Rattle.fdp_relocation.specs.fdp_book.Tickets.{IsTicketOf};
ghost use Rattle.fdp_core.specs.Answers.{Commits, SavesWrite};
ghost use Rattle.fdp_core.specs.Stops.{OutlastsStops};
ghost use Rattle.fdp_rules.specs.PlainState.{Going};
ghost use Rattle.fdp_rules.specs.Step.{MaySucceed};

use super::Group;
use fdp_base::Status;
use fdp_flash::Flash;
use fdp_relocation::{Done, Saved, Ticket};

impl<F: Flash> Group<F> {
    /// Ends a write whose pages are placed. It makes the checks again, saves the change, and puts its blocks where they stand. While nothing is
    /// in doubt and the system area has room, the saving is one call of the flash.
    pub fn commit(&mut self, ticket: Ticket) -> Done
        requires ticket { IsReady self.old.book ticket }
        requires spare { 0 < self.old.book.spare }
        ensures step { (g : Going) → IsTicketOf (state_in self.old.book) ticket g → Commits F.state self.old self.new ticket g result }
        ensures stops { OutlastsStops F.state self.old self.new }
    {
        match self.book.verdict(&ticket) {
            Ok(()) => self.save_write(ticket),
            Err(status) => self.end_alone(ticket, status),
        }
    }

    /// Saves a write that may succeed, and makes its change: not where the saving did not get as far as its record.
    fn save_write(&mut self, ticket: Ticket) -> Done
        requires ticket { IsReady self.old.book ticket }
        requires may { (g : Going) → IsTicketOf (state_in self.old.book) ticket g → MaySucceed self.old.book.config (point_in self.old.book) g }
        requires spare { 0 < self.old.book.spare }
        ensures step { (g : Going) → IsTicketOf (state_in self.old.book) ticket g → SavesWrite F.state self.old self.new ticket g result }
        ensures stops { OutlastsStops F.state self.old self.new }
    {
        self.can_save();
        let saved = self.keeper.save_write(&mut self.flash, &self.book, &ticket);
        let moment = self.flash.moment();
        self.book.begin();
        match saved {
            Saved::Done => {
                let done = self.book.commit(ticket, Status::SUCCESS, moment);
                self.book.known(); // proof
                done
            }
            Saved::Doubtful { moment: _ } => {
                let done = self.book.commit(ticket, Status::WRITE_FAULT, moment);
                self.book.known(); // proof
                done
            }
            Saved::Unsaved { moment: _ } => {
                let done = self.book.end(ticket, Status::WRITE_FAULT, moment);
                self.book.known(); // proof
                done
            }
        }
    }
}
