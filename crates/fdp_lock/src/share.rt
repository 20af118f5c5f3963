//! Seats of one lock: a new one, what one tells another, and their numbers.
ghost use Rattle.std.specs.Prelude.{◌≡◌, ◌+◌, ◌<◌, []};
ghost use mathlib.Core.List.{IsPrefix};
ghost use Rattle.fdp_base.specs.Records.{longer};

use crate::lock::{GroupLock, TAKEN};
use crate::plays::{Name, Note, Part};
use crate::seat::Seat;
use fdp_base::Recorded;

impl<V: Recorded> GroupLock<V> {
    ghost use Rattle.fdp_lock.specs.Seats.{turns_of, number_of, parts_of, given_of, seen_of, made_of, HoldsNoTurn, IsSeatOf, IsNew, KeepsPlace, IsUnchanged};

    /// Gives one part of the first seat to a new seat with this number. The first seat is the one with the number 0.
    pub fn split(&self, seat: &mut Seat<V>, number: u8) -> Seat<V>
        requires of_lock { IsSeatOf V.origin self.now seat.old }
        requires no_turn { HoldsNoTurn seat.old }
        requires first { number_of seat.old ≡ 0 }
        requires two_parts { 1 < parts_of seat.old }
        requires fresh { given_of seat.old < number }
        ensures new { IsNew V.origin self.now number seat.old result }
        ensures part { parts_of seat.new + 1 ≡ parts_of seat.old }
        ensures given { given_of seat.new ≡ number }
        ensures rest { IsUnchanged seat.old seat.new }
    {
        let next = u64::from(number);
        self.table
            .shared
            .compare_exchange::<Name>(&mut seat.token, TAKEN, next, next);
        let token = self.table.shared.split_seat::<Part>(&mut seat.token);
        seat.parts -= 1;
        seat.given = number;
        Seat {
            token,
            number,
            parts: 1,
            turns: 0,
            given: 0,
        }
    }

    /// Tells the taker what the giver has seen.
    pub fn meet(&self, giver: &mut Seat<V>, taker: &mut Seat<V>)
        requires giver_of { IsSeatOf V.origin self.now giver.old }
        requires taker_of { IsSeatOf V.origin self.now taker.old }
        requires giver_free { HoldsNoTurn giver.old }
        requires taker_free { HoldsNoTurn taker.old }
        ensures seen { seen_of taker.new ≡ longer (seen_of taker.old) (seen_of giver.old) }
        ensures own_begins { IsPrefix (seen_of taker.old) (seen_of taker.new) }
        ensures theirs_begins { IsPrefix (seen_of giver.old) (seen_of taker.new) }
        ensures taker { KeepsPlace taker.old taker.new }
        ensures taker_rest { (turns_of taker.new ≡ turns_of taker.old) × (made_of taker.new ≡ made_of taker.old) × HoldsNoTurn taker.new }
        ensures giver { KeepsPlace giver.old giver.new × IsUnchanged giver.old giver.new }
    {
        let note = self.table.shared.split_seat::<Note>(&mut giver.token);
        self.absorb(&mut taker.token, note);
    }
}
