//! The changes by which what a drive is about to do is saved, and made.

ghost use Rattle.std.specs.Prelude.{◌≡◌, ℕ, [], IsTrue};
ghost use Rattle.fdp_base.specs.declared.command.Command.TheVariants as commands;
ghost use Rattle.fdp_base.specs.declared.command.Write.{Write};
ghost use Rattle.fdp_base.specs.declared.entry.Reply.{Reply};
ghost use Rattle.fdp_base.specs.Geometry.{IsWithin};
ghost use Rattle.std.specs.Prelude.{length};
ghost use Rattle.fdp_book.specs.Book.{point_in, state_in};
ghost use Rattle.fdp_book.specs.Changes.{AreListsOf, AreNumbersOf, CanBeSaved, IsChangeOfEntry};
ghost use Rattle.fdp_book.specs.Steps.{IsReady};
ghost use Rattle.fdp_book.specs.Tickets.{IsTicketOf};
ghost use Rattle.fdp_readings.specs.Changes.{completed};
ghost use Rattle.fdp_records.specs.Borrowed.{change_of};
ghost use Rattle.fdp_records.specs.Limits.{is_within_limits};
ghost use Rattle.fdp_rules.specs.PlainState.{Going};
ghost use Rattle.fdp_rules.specs.Step.{MaySucceed};

use super::Book;
use crate::changes::command::command_change;
use crate::changes::lists::CommandLists;
use crate::changes::write::{put_numbers, write_change};
use crate::ticket::Ticket;
use arrayvec::ArrayVec;
use fdp_base::Command;
use fdp_records::ChangeRef;

impl Book {
    /// The change by which a going write that may succeed is saved, with the numbers of its pages, which are put in this list. It looks at
    /// each of its pages.
    pub fn change_of_write<'a>(
        &self,
        ticket: &Ticket,
        numbers: &'a mut ArrayVec<u32, 64>,
    ) -> ChangeRef<'a>
        requires ready { IsReady self.now ticket.now }
        requires may { (g : Going) → IsTicketOf (state_in self.now) ticket.now g → MaySucceed self.now.config (point_in self.now) g }
        ensures entry { (g : Going) (w : Write) (reply : Reply) (moment : ℕ) → IsTicketOf (state_in self.now) ticket.now g → g.command ≡ commands.Write w → IsTrue reply.applied → IsChangeOfEntry self.now.config (point_in self.now) (completed ticket.now.queue ticket.now.number (commands.Write w) reply moment) (change_of result) [] }
        ensures limits { IsTrue (is_within_limits (change_of result)) }
    {
        self.known(); // proof
        self.list_numbers(ticket, numbers);
        write_change(numbers.as_slice(), self, ticket)
    }

    /// Lists the numbers of the pages of a going write that may succeed.
    fn list_numbers(&self, ticket: &Ticket, numbers: &mut ArrayVec<u32, 64>)
        requires ready { IsReady self.now ticket.now }
        requires may { (g : Going) → IsTicketOf (state_in self.now) ticket.now g → MaySucceed self.now.config (point_in self.now) g }
        ensures numbers { (g : Going) → IsTicketOf (state_in self.now) ticket.now g → AreNumbersOf self.now g numbers.new.items }
        ensures few { IsWithin 1 64 (length numbers.new.items) }
    {
        self.known(); // proof
        let pages = self.pages_of_write(ticket);
        put_numbers(numbers, &self.config, pages);
    }

    /// The change by which a command other than a write that may take effect is saved, with these lists. Of an update it looks at each of its
    /// placement identifiers, of a setting of events at each of its types.
    pub fn change_of_command<'a>(
        &self,
        lists: &'a CommandLists,
        command: &'a Command,
    ) -> ChangeRef<'a>
        requires can { CanBeSaved self.now command.now }
        requires lists { AreListsOf command.now lists.now }
        ensures entry { (queue number : ℕ) (reply : Reply) (moment : ℕ) → IsTrue reply.applied → IsChangeOfEntry self.now.config (point_in self.now) (completed queue number command.now reply moment) (change_of result) [] }
        ensures limits { IsTrue (is_within_limits (change_of result)) }
    {
        self.known(); // proof
        self.numbered(); // proof
        let generation = self.tables.outline.summary().generation;
        command_change(lists, self, generation, command)
    }
}
