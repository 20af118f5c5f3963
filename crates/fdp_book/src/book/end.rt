ghost use Rattle.std.specs.Prelude.{◌≡◌, ◌<◌, [], ◌∷◌, ◌++◌, false, length, slice_set, IsSome, None, Some, ◌+◌};
ghost use Rattle.fdp_base.specs.declared.entry.Entry.TheVariants as entries;
ghost use Rattle.fdp_rules.specs.Answer.{bare};
ghost use Rattle.fdp_rules.specs.PlainState.{Going};
ghost use Rattle.fdp_book.specs.Book.{state_in};
ghost use Rattle.fdp_book.specs.Shutting.{IsNextOfHandle, Shuts, ShutsAndEnds};
ghost use Rattle.fdp_book.specs.Steps.{Completes, IsFlying, IsWaiting};
ghost use Rattle.fdp_book.specs.Held.{flight_in};
ghost use Rattle.fdp_book.specs.Logged.{IsLogged};
ghost use Rattle.fdp_book.specs.Tickets.{IsNextSpot, IsTicketOf};
ghost use Rattle.fdp_readings.specs.fdp_pages.Steps.{ChangesOwners};

use super::Book;
use super::forget::forget;
use crate::flight::Flight;
use crate::log::Log;
use crate::room::Replies;
use crate::tables::{count, make};
use crate::ticket::{Done, Ticket};
use fdp_base::{Command, Entry, Host, Reply, Shut, Spot, Status};
use fdp_records::ChangeRef;

impl Book {
    /// A going write ends with this status, and changes nothing. Whether that answer may follow is for the caller to say.
    pub fn end(&mut self, ticket: Ticket, status: Status, moment: u64) -> Done
        requires going { IsFlying self.old ticket }
        requires room { 0 < self.old.room }
        ensures pages { ChangesOwners self.old.pages self.new.pages }
        ensures step { (g : Going) → IsTicketOf (state_in self.old) ticket g → Completes self.old self.new [] ticket.queue g.number g.command (bare status false) moment result }
    {
        let _ = self.log.position(); // proof: the sums are small
        let queue = ticket.give_up();
        let flight = forget(&mut self.tables, queue).unwrap();
        count(&mut self.tables.outline, 0, 0);
        let (command, replies) = flight.room.end(status, false);
        push_host(
            &mut self.log,
            queue,
            flight.number,
            command,
            replies,
            moment,
        )
    }

    /// A going write ends with this status and changes nothing, since its next page was not programmed: that page is used for nothing,
    /// and its handle has no unit any more.
    pub fn end_shut(&mut self, ticket: Ticket, spot: Spot, status: Status, moment: u64) -> Done
        requires waiting { IsWaiting self.old ticket }
        requires next { (g : Going) → IsTicketOf (state_in self.old) ticket g → IsNextSpot self.old ticket g spot }
        requires room { 1 < self.old.room }
        ensures { (g : Going) → IsTicketOf (state_in self.old) ticket g → ShutsAndEnds self.old self.new ticket g spot status moment result }
    {
        let flight = self.flight(&ticket);
        let (rg, ruh) = (flight.rg, flight.ruh);
        self.shut(&ticket, rg, ruh, spot);
        self.end(ticket, status, moment)
    }

    /// The next page of a handle was not programmed.
    fn shut(&mut self, ticket: &Ticket, rg: u16, ruh: u8, spot: Spot)
        requires waiting { IsWaiting self.old ticket.now }
        requires next { (g : Going) → IsTicketOf (state_in self.old) ticket.now g → IsNextOfHandle self.old ticket.now g rg ruh spot }
        requires room { 0 < self.old.room }
        ensures { (g : Going) → IsTicketOf (state_in self.old) ticket.now g → Shuts self.old self.new ticket.now g rg ruh spot }
    {
        let _ = ticket; // proof
        let _ = self.log.position(); // proof: the sums are small
        self.tables.pages.joined(); // proof
        self.tables.pages.shut(rg, ruh, spot);
        let change = ChangeRef::Shut { rg, ruh };
        make(&mut self.tables.outline, &self.config, change, &[]);
        self.log.push(Entry::Shut(Shut { rg, ruh }));
    }
}

/// The flight in a queue, which is gone from there.
pub(super) fn take_flight(flights: &mut Vec<Option<Flight>>, queue: u8) -> Flight
    requires { IsSome (flight_in flights.old.items queue) }
    ensures flight { flight_in flights.old.items queue ≡ Some result }
    ensures rest { flights.new.items ≡ slice_set flights.old.items queue None }
{
    flights[usize::from(queue)].take().unwrap()
}

/// The Host entry of a command, as a step of its own, and the answer to it.
pub(super) fn push_host(
    log: &mut Log,
    queue: u8,
    number: u16,
    command: Command,
    replies: Replies,
    moment: u64,
) -> Done
    requires room { 0 < log.old.room }
    ensures log { IsLogged log.old log.new (entries.Host (record { queue = queue; number = number; command = command; reply = replies.history; moment = moment }) ∷ []) }
    ensures done { result ≡ record { position = log.new.before + length log.new.entries; moment = moment; reply = replies.answer } }
{
    let Replies { history, answer } = replies;
    log.push(Entry::Host(Host {
        queue,
        number,
        command,
        reply: history,
        moment,
    }));
    done(log, moment, answer)
}

/// The answer to the command whose Host entry is the last.
pub(super) fn done(log: &Log, moment: u64, reply: Reply) -> Done
    ensures { result ≡ record { position = log.now.before + length log.now.entries; moment = moment; reply = reply } }
{
    Done {
        position: log.position(),
        moment,
        reply,
    }
}
