ghost use Rattle.std.specs.Prelude.{◌≡◌, []};
ghost use Rattle.fdp_board.specs.Board.{AreCharged, EmptiedAreTold, HasServedNothing, IsRoomySince, IsSafeSince, IsUnfailing, StepsAreTold};
ghost use Rattle.fdp_gauge.specs.Passes.{told_of};
ghost use Rattle.fdp_workers.specs.Marks.{counts_of};

use crate::before::sums_before;
use crate::beginning::Beginning;
use crate::record::Record;
use fdp_base::{Command, Entry, MOST_STEPS, Mark, Recorded, Snapshot, Totals};
use fdp_flash::Flash;
use fdp_gauge::{Gauge, Pass, Teller};
use fdp_workers::{Advance, Begun, Done, Group, Placed, Room, Steps, Ticket};
use std::alloc::AllocError;
use std::marker::Model;
use std::sync::Wait;

/// A drive behind the lock of its workers, and the one who tells a gauge its record.
#[derive(Drop)]
pub struct Board<F: Flash> {
    group: Group<F>,
    teller: Teller,
    /// The sums before the history.
    before: Totals,
}

impl<F: Flash> Model for Board<F> {
    ghost use Rattle.fdp_board.specs.Board.{BoardSeen, IsBoard};
    ghost use Rattle.fdp_gauge.specs.Passes.{told_of};

    ghost Value = { BoardSeen F };

    ghost view = { λ b. record { group = b.group; gauge = b.teller.place.table_id; told = told_of b.teller } };

    ghost invariant = { λ b. IsBoard F.state b.group b.before (told_of b.teller) };
}

impl<F: Flash> Board<F> {
    /// The board of a drive that has served nothing yet, whose teller has told nothing. It looks at each entry of the history once.
    pub fn new(group: Group<F>, teller: Teller) -> Board<F>
        requires untold { told_of teller ≡ [] }
        requires unserved { HasServedNothing F.state group }
        ensures { result ≡ record { group = group; gauge = teller.place.table_id; told = [] } }
    {
        let before = sums_before(group.totals(), group.entries());
        Board {
            group,
            teller,
            before,
        }
    }

    /// The drive, and the teller.
    pub fn into_parts(self) -> (Group<F>, Teller)
        ensures group { result.0 ≡ self.group }
        ensures teller { (result.1.place.table_id ≡ self.gauge) × (told_of result.1 ≡ self.told) }
        ensures safe { IsSafeSince self.group.handed.moment (F.state self.group.flash) self.group.book }
        ensures roomy { IsRoomySince self.group.handed (F.state self.group.flash) self.group.book }
        ensures charged { AreCharged self.group.handed.moment (F.state self.group.flash) self.group.book.entries }
        ensures unfailing { IsUnfailing self.group.handed (F.state self.group.flash) }
        ensures steps { StepsAreTold self.group.book }
        ensures emptied { EmptiedAreTold (F.state self.group.flash) self.group.book }
    {
        let Board {
            group,
            teller,
            before: _,
        } = self;
        (group, teller)
    }

    /// How many entries the history has, and what they add to the sums.
    pub fn counts(&self) -> Snapshot
        ensures { result ≡ counts_of self.now.group.book.entries }
    {
        let totals = self.group.totals();
        Snapshot {
            length: self.group.entries().len() as u64,
            host_blocks: totals.host_blocks - self.before.host_blocks,
            media_blocks: totals.media_blocks - self.before.media_blocks,
            erases: totals.erases - self.before.erases,
        }
    }
}

impl<F: Flash> Recorded for Board<F> {
    ghost use Rattle.fdp_board.specs.Board.{began_with, items_of};
    ghost use Rattle.fdp_workers.specs.Marks.{mark_in};

    type Origin = Beginning;

    type Item = (Entry, Mark);

    ghost origin = { began_with F.state };

    ghost entries = { λ b. items_of b.group };

    ghost mark = { mark_in };

    fn length(&self) -> u64 {
        let _ = &self.before; // proof
        self.group.entries().len() as u64
    }
}

impl<F: Flash> Steps for Board<F> {
    ghost use Rattle.fdp_workers.specs.Marks.{entry_in};

    ghost run = { λ o. o.run };

    ghost entry = { entry_in };

    ghost spent = { λ b. b.group.book.spent };

    ghost spare = { λ b. b.group.book.spare };

    fn known(&self) {
        let _ = &self.before; // proof
        let _few = self.group.entries(); // proof
        let _bound = self.group.spent(); // proof
    }

    fn is_spent(&self) -> bool {
        let _ = &self.before; // proof
        self.group.spent() == MOST_STEPS
    }

    fn reserve(&mut self) -> Result<(), AllocError> {
        let _ = &self.before; // proof
        let _bound = self.group.spent(); // proof
        self.group.reserve(1)
    }

    fn start(&mut self, queue: u8, number: u16, command: Command, room: Room) -> Begun {
        let _ = &self.before; // proof
        self.group.start(queue, number, command, room)
    }

    fn place(&mut self, ticket: Ticket) -> Placed {
        let _ = &self.before; // proof
        self.group.place(ticket)
    }

    fn commit(&mut self, ticket: Ticket) -> Done {
        let _ = &self.before; // proof
        self.group.commit(ticket)
    }

    fn abandon(&mut self, ticket: Ticket) {
        let _ = &self.before; // proof
        self.group.abandon(ticket);
    }

    fn collect(&mut self, rg: u16) -> Advance {
        let _ = &self.before; // proof
        self.group.collect(rg)
    }

    fn publish<R: Wait>(&mut self, rt: &R, gauge: &Gauge, pass: &mut Pass) {
        let snapshot = self.counts();
        let record = Record { group: &self.group };
        gauge.publish(rt, &mut self.teller, &record, snapshot);
        gauge.meet(rt, &mut self.teller, pass);
    }
}
