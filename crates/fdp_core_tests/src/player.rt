ghost use Rattle.std.specs.Prelude.{◌≡◌, ◌<◌, ◌≤◌, None, IfOk, Ok, OnErr, OnOk};
ghost use Rattle.fdp_rules.specs.PlainState.{Going};
ghost use Rattle.fdp_core.specs.fdp_book.Book.{state_in};
ghost use Rattle.fdp_core.specs.Steps.{MayBegin};
ghost use Rattle.fdp_core.specs.fdp_book.Tickets.{IsTicketOf};
ghost use Rattle.fdp_core.specs.fdp_book.declared.stage.Stage.TheVariants as stages;
ghost use Rattle.fdp_core.specs.fdp_book.declared.ticket.Ticket.{Ticket as ATicket};
ghost use Rattle.fdp_core_tests.specs.Played.{CameToBegin, CameToCollect, CameToCommit, CameToPlace, IsTicketFor, MayCollect, MayGoOn, MayPlay, ended, ticket_in, with_spare};

use crate::formed::{has_spare, may_play};
use crate::noted::Noted;
use fdp_base::{Command, Entry, MOST_STEPS};
use fdp_core::{Advance, Begun, Done, Group, Placed, Room, Stage, Ticket};
use fdp_flash::Flash;
use std::alloc::{AllocError, Global};
use std::marker::Model;

/// The rows of a player: one for each queue that a drive may have, and row 0, which stays empty.
const ROWS: usize = 17;

/// A drive, and for each queue the write that it started last. It begins commands and goes on with their writes, relocates between
/// their steps, and asks the drive before each step whether it may make it.
#[derive(Drop)]
pub struct Player<F: Flash> {
    group: Group<F>,
    noted: Vec<Option<Noted>>,
    /// The number of the next command.
    next: u16,
}

impl<F: Flash> Model for Player<F> {
    ghost use Rattle.std.specs.Prelude.{◌≡◌, length};
    ghost use Rattle.fdp_core_tests.specs.Played.{Played};

    ghost Value = { Played F };

    ghost view = { λ player. record { group = player.group; noted = player.noted.items; next = player.next } };

    ghost invariant = { λ player. length player.noted.items ≡ 17 };
}

impl<F: Flash + Drop> Player<F> {
    /// Plays on a drive.
    pub fn new(alloc: Global, group: Group<F>) -> Result<Player<F>, AllocError>
        ensures { IfOk result (λ player. player.group ≡ group) }
    {
        let noted = vec![in alloc; None; ROWS]?;
        Ok(Player {
            group,
            noted,
            next: 0,
        })
    }
}

impl<F: Flash> Player<F> {
    /// Takes the memory for a step, if the drive may make one.
    pub fn reserve(&mut self) -> Result<(), AllocError>
        ensures ok { OnOk result (self.old.group.book.spent < MOST_STEPS → 1 ≤ self.new.group.book.spare) }
        ensures kept { self.new ≡ record self.old { group = with_spare self.old.group self.new.group.book.spare } }
        ensures err { OnErr result (self.new ≡ self.old) }
    {
        let _ = &self.next; // proof
        if self.group.spent() < MOST_STEPS {
            self.group.reserve(1)
        } else {
            Ok(())
        }
    }

    /// The first step of a command of a queue, under the next number: what it came to if it is completed. A write that the queue
    /// had before is forgotten. It does nothing where there is no memory for a step, the queue is none of the drive, or the command is not
    /// well formed.
    pub fn start(
        &mut self,
        alloc: Global,
        queue: u8,
        command: Command,
    ) -> Result<Option<Done>, AllocError>
        ensures begun { MayPlay self.old.group queue self.old.next command → IfOk result (λ came. CameToBegin F.state self.old.group self.new queue self.old.next command came) }
        ensures nothing { (MayPlay self.old.group queue self.old.next command → ⊥) → (result ≡ Ok None) × (self.new ≡ self.old) }
        ensures err { OnErr result (self.new ≡ self.old) }
    {
        if !may_play(&self.group, queue, self.next, &command) {
            return Ok(None);
        }
        let room = Room::new(alloc, &command, self.group.config())?;
        Ok(self.begin(queue, command, room))
    }

    /// Places the next page of the write of a queue, or makes room for it: what it came to if it ends the write. It does nothing where no
    /// write of the queue waits for that, or there is no memory for a step.
    pub fn place(&mut self, queue: u8) -> Option<Done>
        ensures placed { (ticket : ATicket) (g : Going) → MayGoOn self.old queue stages.Waiting ticket → IsTicketOf (state_in self.old.group.book) ticket g → CameToPlace F.state self.old.group self.new.group ticket g result }
        ensures nothing { ((ticket : ATicket) → MayGoOn self.old queue stages.Waiting ticket → ⊥) → (result ≡ None) × (self.new ≡ self.old) }
        ensures noted { self.new.noted ≡ self.old.noted }
    {
        match self.ticket_at(queue, Stage::Waiting) {
            Some(ticket) => placed(self.group.place(ticket)),
            None => None,
        }
    }

    /// Commits the write of a queue, whose pages are placed, and says what it came to. It does nothing where no write of the queue
    /// is ready for that, or there is no memory for a step.
    pub fn commit(&mut self, queue: u8) -> Option<Done>
        ensures committed { (ticket : ATicket) (g : Going) → MayGoOn self.old queue stages.Ready ticket → IsTicketOf (state_in self.old.group.book) ticket g → CameToCommit F.state self.old.group self.new.group ticket g result }
        ensures nothing { ((ticket : ATicket) → MayGoOn self.old queue stages.Ready ticket → ⊥) → (result ≡ None) × (self.new ≡ self.old) }
        ensures noted { self.new.noted ≡ self.old.noted }
    {
        match self.ticket_at(queue, Stage::Ready) {
            Some(ticket) => Some(self.group.commit(ticket)),
            None => None,
        }
    }

    /// The next step of relocation in a group. It does nothing where the drive has no such group, or there is no memory for a step.
    pub fn collect(&mut self, rg: u16) -> Option<Advance>
        ensures collected { MayCollect self.old.group rg → CameToCollect F.state self.old.group self.new.group rg result }
        ensures nothing { (MayCollect self.old.group rg → ⊥) → (result ≡ None) × (self.new ≡ self.old) }
        ensures noted { self.new.noted ≡ self.old.noted }
    {
        let _ = &self.next; // proof
        if rg < self.group.config().groups && has_spare(&self.group) {
            Some(self.group.collect(rg))
        } else {
            None
        }
    }

    /// The drive that is played on.
    pub fn group(&self) -> &Group<F>
        ensures { result.now ≡ self.now.group }
    {
        let _ = &self.next; // proof
        &self.group
    }

    /// The flash and the history.
    pub fn finish(self) -> (F, Vec<Entry>)
        ensures flash { result.0 ≡ self.group.flash }
        ensures entries { result.1.items ≡ self.group.book.entries }
    {
        let Player {
            group,
            noted: _,
            next: _,
        } = self;
        group.finish()
    }

    /// The first step of a command.
    fn begin(&mut self, queue: u8, command: Command, room: Room) -> Option<Done>
        requires may { MayBegin self.old.group queue self.old.next command room }
        requires row { queue < 17 }
        requires spare { 0 < self.old.group.book.spare }
        ensures { CameToBegin F.state self.old.group self.new queue self.old.next command result }
    {
        let number = self.next;
        self.next = number.wrapping_add(1);
        match self.group.start(queue, number, command, room) {
            Begun::Ended(done) => Some(done),
            Begun::Going(ticket) => {
                self.noted[usize::from(queue)] = Some(Noted::of(ticket));
                None
            }
        }
    }

    /// The ticket of the write of a queue, if it has come so far and the drive may make a step.
    fn ticket_at(&self, queue: u8, stage: Stage) -> Option<Ticket>
        ensures { IsTicketFor self.now queue stage result }
    {
        if !has_spare(&self.group) {
            return None;
        }
        let ticket = self.known(queue)?;
        if self.group.stage(&ticket) == stage {
            Some(ticket)
        } else {
            let _queue = ticket.give_up();
            None
        }
    }

    /// The ticket of the write that a queue started last.
    fn known(&self, queue: u8) -> Option<Ticket>
        ensures { result ≡ ticket_in self.now.noted queue }
    {
        let _ = &self.next; // proof
        match self.noted.get(usize::from(queue)) {
            Some(Some(noted)) => Some(noted.ticket(queue)),
            Some(None) | None => None,
        }
    }
}

/// What placing a page came to if it ended the write; the ticket of one that goes on is noted.
fn placed(placed: Placed) -> Option<Done>
    ensures { result ≡ ended placed }
{
    match placed {
        Placed::More(next) | Placed::Ready(next) => {
            let _queue = next.give_up();
            None
        }
        Placed::Ended(done) => Some(done),
    }
}
