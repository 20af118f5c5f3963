ghost use Rattle.std.specs.Prelude.{◌≡◌, ◌<◌, false, []};
ghost use Rattle.fdp_rules.specs.Step.{IsQueue};
ghost use Rattle.fdp_book.specs.Steps.{Completes};
ghost use Rattle.fdp_readings.specs.fdp_pages.Steps.{ChangesOwners};

use super::Book;
use super::end::push_host;
use super::forget::end_in;
use crate::room::Replies;
use crate::tables::count;
use crate::ticket::Done;
use fdp_base::Command;

impl Book {
    /// Completes a command that changes nothing: a read, or a command that is refused. A write that was still going in the
    /// queue of a refused write is forgotten. Whether the answer may follow is for the caller to say.
    pub fn complete(
        &mut self,
        queue: u8,
        number: u16,
        command: Command,
        replies: Replies,
        moment: u64,
    ) -> Done
        requires queue { IsQueue self.old.config queue }
        requires unapplied { replies.history.applied ≡ false }
        requires same { replies.answer ≡ replies.history }
        requires room { 0 < self.old.room }
        ensures step { Completes self.old self.new [] queue number command replies.history moment result }
        ensures pages { ChangesOwners self.old.pages self.new.pages }
    {
        let _ = self.log.position(); // proof: the sums are small
        end_in(&mut self.tables, queue, &command);
        count(&mut self.tables.outline, 0, 0);
        push_host(&mut self.log, queue, number, command, replies, moment)
    }
}
