ghost use Rattle.std.specs.Prelude.{◌≡◌, ◌+◌, ◌<◌, ◌^◌, ◌==◌, ◌≤◌, ℕ, None, Some, length, slice_index};
ghost use Rattle.fdp_base.specs.CommandKinds.{blocks_written, write_of};
ghost use Rattle.fdp_rules.specs.PlainState.{Going};
ghost use Rattle.fdp_book.specs.declared.flight.Flight.{Flight};
ghost use Rattle.fdp_book.specs.Book.{state_in};
ghost use Rattle.fdp_book.specs.Steps.{IsFlying, IsWaiting, Places};
ghost use Rattle.fdp_book.specs.Flown.{HasPageMore, IsFlightAt, IsUnfinished};
ghost use Rattle.fdp_book.specs.Places.{IsFreeSpot, IsPlaceFor};
ghost use Rattle.fdp_units.specs.UnitTable.{IsGroup};
ghost use Rattle.fdp_book.specs.Held.{going_of};
ghost use Rattle.fdp_rules.specs.Sites.{is_there as is_going_there};
ghost use Rattle.fdp_readings.specs.fdp_locations.Written.{next_spare};
ghost use Rattle.fdp_book.specs.Tickets.{ComesTo, IsNextSpot, IsTicketOf};
ghost use Rattle.fdp_base.specs.declared.command.Write.{Write};

use super::Book;
use super::forget::is_there;
use crate::flight::Flight;
use crate::next_page::NextPage;
use crate::tables::count;
use crate::ticket::Ticket;
use fdp_base::{DataSpare, Entry, Payload, Placed, Spot};
use fdp_owners::{Holder, Owner};

impl Book {
    /// What a going write comes to next: its end, or the place and the spare bytes of its next page. It takes a constant time.
    pub fn next_page(&self, ticket: &Ticket) -> NextPage
        requires { IsWaiting self.now ticket.now }
        ensures { (g : Going) → IsTicketOf (state_in self.now) ticket.now g → ComesTo self.now ticket.now g result }
    {
        self.known(); // proof
        let flight = self.flight(ticket);
        if !self.is_there(flight) {
            return NextPage::Gone;
        }
        match self.next_spot(flight.rg, flight.ruh) {
            Some(spot) => NextPage::At {
                spot,
                index: flight.pages.len() as u32,
                spare: self.next_spare(flight).encode(),
            },
            None => NextPage::WantsUnit,
        }
    }

    /// The group that the write of a ticket goes to.
    pub fn group(&self, ticket: &Ticket) -> u16
        requires { IsFlying self.now ticket.now }
        ensures { (g : Going) → IsTicketOf (state_in self.now) ticket.now g → result ≡ g.rg }
    {
        self.flight(ticket).rg
    }

    /// What the write of a ticket carries.
    pub fn payload(&self, ticket: &Ticket) -> &Payload
        requires { IsWaiting self.now ticket.now }
        ensures { (g : Going) (w : Write) → IsTicketOf (state_in self.now) ticket.now g → write_of g.command ≡ Some w → result.now ≡ w.payload }
    {
        self.flight(ticket).payload()
    }

    /// The next page of a going write was programmed here. Says whether that was its last.
    pub fn place(&mut self, ticket: &Ticket, spot: Spot) -> bool
        requires waiting { IsWaiting self.old ticket.now }
        requires next { (g : Going) → IsTicketOf (state_in self.old) ticket.now g → IsNextSpot self.old ticket.now g spot }
        requires room { 0 < self.old.room }
        ensures { (g : Going) → IsTicketOf (state_in self.old) ticket.now g → Places self.old self.new ticket.now g spot result }
    {
        self.tables.pages.joined(); // proof
        let _ = self.log.position(); // proof: the sums are small
        let flight = self.flight(ticket);
        let (rg, ruh) = (flight.rg, flight.ruh);
        let index = flight.pages.len() as u32;
        let owner = Owner {
            holder: Holder::Flight(ticket.queue),
            spare: self.next_spare(flight),
        };
        self.tables.pages.place(rg, ruh, spot, owner);
        self.log.push(Entry::Placed(Placed {
            ticket: ticket.position,
            index,
            unit: spot.unit,
            page: spot.page,
        }));
        count(&mut self.tables.outline, 1, 0);
        push_page(&mut self.tables.flights[usize::from(ticket.queue)], spot)
    }

    /// The write of a ticket.
    pub(super) fn flight(&self, ticket: &Ticket) -> &Flight
        requires { IsFlying self.now ticket.now }
        ensures { IsFlightAt self.now ticket.now result.now }
    {
        match &self.tables.flights[usize::from(ticket.queue)] {
            Some(flight) => flight,
            // A ticket is that of a write that is going.
            None => unreachable!(),
        }
    }

    /// Whether the namespace of a write is there, and is the one that it was when the write was started.
    pub(super) fn is_there(&self, flight: &Flight) -> bool
        ensures { result ≡ is_going_there (state_in self.now) (going_of flight.now) }
    {
        is_there(&self.tables.outline, flight)
    }

    /// Where the next page of a handle goes, unless it wants a unit and fewer than three of its group are free.
    fn next_spot(&self, rg: u16, ruh: u8) -> Option<Spot>
        requires group { IsGroup self.now.pages.units rg }
        requires handle { ruh < length self.now.pages.handles.classes }
        ensures { IsPlaceFor self.now rg ruh result }
    {
        match self.tables.pages.next_page(rg, ruh) {
            Some(spot) => Some(spot),
            None => self.free_spot(rg),
        }
    }

    /// The first page of the unit that a handle without one may take: the lowest free one, where three at least are free.
    fn free_spot(&self, rg: u16) -> Option<Spot>
        requires { IsGroup self.now.pages.units rg }
        ensures { IsFreeSpot self.now rg result }
    {
        if self.tables.pages.units().free_count(rg) < 3 {
            None
        } else {
            self.tables.pages.first_page(rg)
        }
    }

    /// What the spare bytes of the next page of a write say.
    fn next_spare(&self, flight: &Flight) -> DataSpare
        requires index { length flight.now.pages.items < 64 }
        requires lba { flight.now.extent.slba ≤ 262144 }
        ensures { (w : Write) → write_of flight.now.room.command ≡ Some w → result ≡ next_spare (state_in self.now) (going_of flight.now) w }
    {
        let index = flight.pages.len();
        DataSpare {
            ruh: flight.ruh,
            rg: flight.rg,
            generation: self.tables.outline.summary().generation,
            ticket: flight.ticket,
            nsid: flight.extent.nsid,
            index: index as u16,
            lba: flight.extent.slba + index as u64,
        }
    }
}

/// A page more of a flight is placed. Says whether that was its last.
fn push_page(flight: &mut Option<Flight>, spot: Spot) -> bool
    requires { IsUnfinished flight.old }
    ensures page { (f : Flight) → flight.old ≡ Some f → HasPageMore f spot flight.new }
    ensures last { (f : Flight) → flight.old ≡ Some f → result ≡ (length f.pages.items + 1 == blocks_written f.room.command) }
{
    match flight {
        Some(flight) => {
            flight.pages.push(spot);
            flight.pages.len() == flight.extent.count as usize
        }
        // A ticket is that of a write that is going.
        None => unreachable!(),
    }
}
