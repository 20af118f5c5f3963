//! The end of a lock.
ghost use Rattle.std.specs.Prelude.{◌≡◌, ◌≢◌, ℕ, ◌<◌, [], sum_by, All};
ghost use mathlib.Core.List.{IsPrefix};
ghost use Rattle.fdp_base.specs.Records.{carrying};

use crate::lock::{GroupLock, TAKEN};
use crate::plays::{Both, Learn};
use crate::seat::Seat;
use crate::view::{Stage, Token};
use fdp_base::Recorded;

impl<V: Recorded> GroupLock<V> {
    ghost use Rattle.fdp_lock.specs.Seats.{number_of, parts_of, seats_of, lock_origin, HoldsNoTurn, IsSeatOf, GoesOn};
    ghost use Rattle.fdp_lock.specs.Gathers.{Ends, Gathered, IsAtRest, takes_in};

    /// Ends the lock, and gives its value back. All parts have to be among the seats.
    pub fn close(self, seats: Vec<Seat<V>>) -> V
        requires of_lock { All (λ s. IsSeatOf V.origin self s) seats.items }
        requires no_turn { All (λ s. HoldsNoTurn s) seats.items }
        requires all_parts { sum_by (λ s. parts_of s) seats.items ≡ seats_of self }
        ensures origin { V.origin result ≡ lock_origin V.origin self }
        ensures goes_on { All (λ s. GoesOn V.origin V.entries V.mark s result) seats.items }
        ensures no_others { (q : ℕ) → q ≢ 0 → All (λ s. number_of s ≢ q) seats.items → carrying V.mark q (V.entries result) ≡ [] }
    {
        let token = self.gather(seats);
        self.unlock(token)
    }

    // One seat that has all that these have.
    fn gather(&self, mut seats: Vec<Seat<V>>) -> Token<V>
        requires of_lock { All (λ s. IsSeatOf V.origin self.now s) seats.items }
        requires no_turn { All (λ s. HoldsNoTurn s) seats.items }
        requires all_parts { sum_by (λ s. parts_of s) seats.items ≡ seats_of self.now }
        ensures gathered { Gathered V.mark self.now.table.shared.table_id (lock_origin V.origin self.now) seats.items result }
    {
        let Some(last) = seats.pop() else {
            // All seats come back, and there is one at least.
            unreachable!()
        };
        let Seat { mut token, .. } = last;
        while let Some(seat) = seats.pop() {
            let Seat { token: other, .. } = seat;
            self.absorb(&mut token, other);
        }
        token
    }

    // The first has then seen what both have, and has the parts and entries of both.
    pub(crate) fn absorb(&self, token: &mut Token<V>, other: Token<V>)
        requires table { (token.old.table_id ≡ self.now.table.shared.table_id) × (other.table_id ≡ self.now.table.shared.table_id) }
        requires rests { IsAtRest token.old × IsAtRest other × (0 < token.old.me.0.parts) }
        ensures table { token.new.table_id ≡ token.old.table_id }
        ensures absorbed { token.new.me ≡ (takes_in token.old.me.0 other.me.0, []) }
        ensures seen { IsPrefix token.old.me.0.seen token.new.me.0.seen × IsPrefix other.me.0.seen token.new.me.0.seen }
    {
        self.table.shared.join_seat::<Both>(token, other);
        self.table.shared.load::<Learn>(token, TAKEN);
    }

    fn unlock(self, token: Token<V>) -> V
        requires table { token.table_id ≡ self.table.shared.table_id }
        requires rests { IsAtRest token }
        requires all_parts { token.me.0.parts ≡ seats_of self }
        ensures { Ends V.origin V.entries V.mark token.me.0 result }
    {
        let GroupLock { gate: _, table } = self;
        let mut closed = table.close_with(token);
        let value = closed.take(0);
        closed.free();
        match value {
            Some(value) => value,
            // No seat is out, so the value is at home.
            None => unreachable!(),
        }
    }
}
