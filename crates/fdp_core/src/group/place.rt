ghost use Rattle.std.specs.Prelude.{◌<◌};
ghost use Rattle.fdp_relocation.specs.fdp_book.Book.{state_in};
ghost use Rattle.fdp_relocation.specs.fdp_book.Steps.{IsWaiting};
ghost use Rattle.fdp_relocation.specs.fdp_book.Tickets.{ComesTo, IsTicketOf, WantsUnit};
ghost use Rattle.fdp_core.specs.Answers.{Places};
ghost use Rattle.fdp_core.specs.Stops.{OutlastsStops};
ghost use Rattle.fdp_rules.specs.PlainState.{Going};

use super::Group;
use super::pass::PassEnd;
use crate::answer::Placed;
use fdp_base::{Spot, Status};
use fdp_calls::{MediaError, program};
use fdp_flash::Flash;
use fdp_relocation::{NextPage, Ticket, WritePlace};

impl<F: Flash> Group<F> {
    /// Programs the next page of a going write; where that wants a unit it makes a relocation pass in its group instead, or ends the one
    /// under way. A flash failure ends the write with Write Fault. A pass copies each page of a unit at most once; all else takes a constant
    /// time.
    pub fn place(&mut self, ticket: Ticket) -> Placed
        requires ticket { IsWaiting self.old.book ticket }
        requires spare { 0 < self.old.book.spare }
        ensures step { (g : Going) → IsTicketOf (state_in self.old.book) ticket g → Places F.state self.old self.new ticket g result }
        ensures stops { OutlastsStops F.state self.old self.new }
    {
        match self.book.next_page(&ticket) {
            NextPage::Gone => Placed::Ended(self.end_alone(ticket, Status::INVALID_NAMESPACE)),
            NextPage::WantsUnit => self.make_room(ticket),
            NextPage::At { spot, index, spare } => self.place_at(ticket, spot, index, &spare),
        }
    }

    /// Makes a relocation pass in the group of a write that wants a unit there.
    fn make_room(&mut self, ticket: Ticket) -> Placed
        requires ticket { IsWaiting self.old.book ticket }
        requires wants { (g : Going) → IsTicketOf (state_in self.old.book) ticket g → WantsUnit self.old.book g }
        requires spare { 0 < self.old.book.spare }
        ensures step { (g : Going) → IsTicketOf (state_in self.old.book) ticket g → Places F.state self.old self.new ticket g result }
        ensures stops { OutlastsStops F.state self.old self.new }
    {
        self.book.known(); // proof
        let rg = self.book.group(&ticket);
        self.book.crowded(rg); // proof
        self.book.begin();
        match self.make_pass(rg) {
            PassEnd::Made => Placed::More(ticket),
            PassEnd::Nothing => Placed::Ended(self.end(ticket, Status::CAPACITY_EXCEEDED)),
            PassEnd::Starved => Placed::Ended(self.end(ticket, Status::CAPACITY_EXCEEDED)),
            PassEnd::Fault => Placed::Ended(self.end(ticket, Status::WRITE_FAULT)),
        }
    }

    /// Programs a page of a going write.
    fn place_at(&mut self, ticket: Ticket, spot: Spot, index: u32, spare: &[u8; 32]) -> Placed
        requires ticket { IsWaiting self.old.book ticket }
        requires next { (g : Going) → IsTicketOf (state_in self.old.book) ticket g → ComesTo self.old.book ticket g (NextPage.At spot index spare.now) }
        requires spare { 0 < self.old.book.spare }
        ensures step { (g : Going) → IsTicketOf (state_in self.old.book) ticket g → Places F.state self.old self.new ticket g result }
        ensures stops { OutlastsStops F.state self.old self.new }
    {
        self.can_save();
        let payload = self.book.payload(&ticket);
        let programmed = program(
            &mut self.flash,
            spot,
            spare,
            payload,
            index,
            &mut self.block,
        );
        match programmed {
            Ok(()) => {
                self.book.begin();
                let last = self.book.place(&ticket, spot);
                self.book.known(); // proof
                if last {
                    Placed::Ready(ticket)
                } else {
                    Placed::More(ticket)
                }
            }
            Err(MediaError) => {
                let moment = self.flash.moment();
                let WritePlace { rg, ruh } = self.book.place_of_write(&ticket);
                // Whether the saving fails or not, the handle is shut.
                let _saved = self.keeper.save_shut(&mut self.flash, &self.book, rg, ruh);
                self.book.begin();
                let status = Status::WRITE_FAULT;
                let done = self.book.end_shut(ticket, spot, status, moment);
                self.book.known(); // proof
                Placed::Ended(done)
            }
        }
    }
}
