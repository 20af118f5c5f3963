ghost use Rattle.std.specs.Prelude.{◌≡◌, ◌≢◌, ℕ, ◌+◌, ◌^◌, ◌<◌, ◌≤◌, [], ◌∷◌, ◌++◌, length, drop, IfOk, IfErr, IfSome, IfNone};
ghost use mathlib.Core.List.{IsPrefix};
ghost use Rattle.fdp_base.specs.Records.{carrying, CarriesNone, CarriesOnly};

use crate::plays::{Give, Take};
use crate::seat::Seat;
use crate::turn::Turn;
use crate::view::{About, OneTurn, Stage, Token, View};
use atomic_table::{Refused, Table};
use fdp_base::Recorded;
use std::alloc::Global;
use std::snapshot::Snapshot;
use std::sync::{Mutex, MutexGuard, Wait};
use std::thread;
use std::time::Duration;

// The word of the table: 1 while the value is out, and else 0.
pub(crate) const TAKEN: usize = 0;

// How often a seat that finds the gate shut looks at it before it waits there.
const LOOKS: u8 = 20;

// The microseconds that it sleeps between two looks.
const NAP: u64 = 100;

/// A lock of turns over a value that records. A turn hands out the value to one seat at a time. Seats wait before a
/// gate, which lets the thread that runs go on; so turns have no order.
#[derive(Drop)]
pub struct GroupLock<V: Recorded> {
    pub(crate) gate: Mutex<()>,
    pub(crate) table: Table<Option<V>, View<V::Origin, V::Item>, About<V>, OneTurn, Global>,
    ghost shape: { (table.shared.table_id.words ≡ 1) × (table.shared.table_id.slots ≡ 1) × (0 < table.shared.key.seats) },
}

/// There was no memory for a lock. The value comes back.
#[derive(Drop)]
pub struct NotMade<V> {
    pub value: V,
}

impl<V: Recorded> GroupLock<V> {
    ghost use Rattle.fdp_lock.specs.Rule.{own};
    ghost use Rattle.fdp_lock.specs.Seats.{turns_of, number_of, seen_of, made_of, seats_of, HasOrigin, HoldsTurn, HoldsNoTurn, IsSeatOf, IsFirst, GoesOn, KeepsPlace};
    ghost use Rattle.fdp_lock.specs.Steps.{holding, telling, resting, Finds};

    /// A lock over a value, and its first seat, which has all of the `seats` parts.
    pub fn new(alloc: Global, value: V, seats: u8) -> Result<(GroupLock<V>, Seat<V>), NotMade<V>>
        requires some_seat { 0 < seats }
        requires unmarked { CarriesNone V.mark (V.entries value) }
        ensures seats { IfOk result (λ made. seats_of made.0 ≡ seats) }
        ensures first { IfOk result (λ made. IsFirst V.origin V.entries made.0 value seats made.1) }
        ensures refused { IfErr result (λ refused. refused.value ≡ value) }
    {
        let about = About {
            value: Snapshot::of(&value),
            seats,
        };
        let mut slots = match Vec::with_capacity(alloc, 1) {
            Ok(slots) => slots,
            Err(_) => return Err(NotMade { value }),
        };
        slots.push_reserved(Some(value));
        match Table::new(alloc, &[0], slots, &about) {
            Ok((table, token)) => Ok((
                GroupLock {
                    gate: Mutex::new(()),
                    table,
                },
                Seat {
                    token,
                    number: 0,
                    parts: seats,
                    turns: 0,
                    given: 0,
                },
            )),
            Err(Refused { slots }) => Err(NotMade {
                value: only_value(slots),
            }),
        }
    }

    /// Waits for the seat's turn, and hands out the value.
    pub fn enter<R: Wait>(&self, rt: &R, seat: &mut Seat<V>) -> Turn<'_, V>
        requires of_lock { IsSeatOf V.origin self.now seat.old }
        requires no_turn { HoldsNoTurn seat.old }
        requires few { turns_of seat.old < 2 ^ 40 }
        ensures value { GoesOn V.origin V.entries V.mark seat.old result.value }
        ensures seen { seen_of seat.new ≡ V.entries result.value }
        ensures turn { HoldsTurn seat.new }
        ensures turns { turns_of seat.new ≡ turns_of seat.old + 1 }
        ensures made { made_of seat.new ≡ made_of seat.old }
        ensures place { KeepsPlace seat.old seat.new }
    {
        let gate = self.pass(rt);
        seat.turns += 1;
        Turn {
            value: self.take(rt, &mut seat.token),
            gate,
        }
    }

    // Goes through the gate. Who finds it shut sleeps first, with nobody to wake it, so that the thread that runs makes many turns: each wait at the gate
    // itself has a leave wake someone, and moves the value to another processor.
    fn pass<R: Wait>(&self, rt: &R) -> MutexGuard<'_, ()> {
        for _ in 0..LOOKS {
            if let Some(gate) = self.gate.try_lock() {
                return gate;
            }
            self.table
                .shared
                .park_timeout(rt, TAKEN, 1, Duration::from_micros(NAP));
        }
        self.gate.lock(rt)
    }

    fn take<R: Wait>(&self, rt: &R, token: &mut Token<V>) -> V
        requires table { token.old.table_id ≡ self.now.table.shared.table_id }
        requires idle { (token.old.me.0.stage ≡ Stage.Idle) × (token.old.me.1 ≡ []) × (0 < token.old.me.0.parts) }
        ensures table { token.new.table_id ≡ token.old.table_id }
        ensures taken { token.new.me ≡ (holding (V.entries result) token.old.me.0, (0, None) ∷ []) }
        ensures finds { Finds V.origin V.entries V.mark result token.old.me.0 }
    {
        // Who is through the gate finds the value at home, and makes one round.
        for _ in rt.forever() {
            if let Some(value) = self.try_take(token) {
                return value;
            }
            thread::yield_now();
        }
        // The loop ends by its return alone.
        unreachable!()
    }

    // The value, where it is at home.
    fn try_take(&self, token: &mut Token<V>) -> Option<V>
        requires table { token.old.table_id ≡ self.now.table.shared.table_id }
        requires idle { (token.old.me.0.stage ≡ Stage.Idle) × (token.old.me.1 ≡ []) × (0 < token.old.me.0.parts) }
        ensures table { token.new.table_id ≡ token.old.table_id }
        ensures idle { IfNone result (token.new.me ≡ token.old.me) }
        ensures taken { IfSome result (λ x. token.new.me ≡ (holding (V.entries x) token.old.me.0, (0, None) ∷ [])) }
        ensures finds { IfSome result (λ x. Finds V.origin V.entries V.mark x token.old.me.0) }
    {
        if self.table.shared.swap::<Take>(token, TAKEN, 1) != 0 {
            return None;
        }
        self.table.shared.exchange(token, 0, None)
    }

    /// Ends the turn: the value goes back.
    pub fn leave(&self, turn: Turn<'_, V>, seat: &mut Seat<V>)
        requires of_lock { IsSeatOf V.origin self.now seat.old }
        requires turn { HoldsTurn seat.old }
        requires same_origin { HasOrigin seat.old (V.origin turn.value) }
        requires goes_on { IsPrefix (seen_of seat.old) (V.entries turn.value) }
        requires own_entries { CarriesOnly V.mark (number_of seat.old) (drop (length (seen_of seat.old)) (V.entries turn.value)) }
        ensures seen { seen_of seat.new ≡ V.entries turn.entry.value }
        ensures made { made_of seat.new ≡ made_of seat.old ++ carrying V.mark (number_of seat.old) (drop (length (seen_of seat.old)) (V.entries turn.entry.value)) }
        ensures no_turn { HoldsNoTurn seat.new }
        ensures turns { turns_of seat.new ≡ turns_of seat.old }
        ensures place { KeepsPlace seat.old seat.new }
    {
        let Turn { value, gate } = turn;
        self.put(&mut seat.token, value);
        // After the value is back, so that who comes through the gate finds it at home.
        drop(gate);
    }

    // Puts the value into its slot before the word says that it is at home.
    fn put(&self, token: &mut Token<V>, value: V)
        requires table { token.old.table_id ≡ self.now.table.shared.table_id }
        requires turn { (token.old.me.0.stage ≡ Stage.Holding) × (token.old.me.1 ≡ (0, None) ∷ []) × (0 < token.old.me.0.parts) }
        requires same_origin { token.old.me.0.origin ≡ Some (V.origin value) }
        requires goes_on { IsPrefix token.old.me.0.seen (V.entries value) }
        requires own_entries { (number : ℕ) × (token.old.me.0.made ≡ (number, own token.old.me.0.made) ∷ []) × CarriesOnly V.mark number (drop (length token.old.me.0.seen) (V.entries value)) }
        ensures table { token.new.table_id ≡ token.old.table_id }
        ensures put { token.new.me ≡ (resting (telling V.mark (V.entries value) token.old.me.0), []) }
    {
        let before = self.table.shared.exchange(token, 0, Some(value));
        // The slot is empty while its value is out.
        let None = before else { unreachable!() };
        self.table.shared.store::<Give>(token, TAKEN, 0);
    }
}

// The value of the one slot.
fn only_value<V>(mut slots: Vec<Option<V>>) -> V
    requires { (x : V) × (slots.items ≡ Some x ∷ []) }
    ensures { slots.items ≡ Some result ∷ [] }
{
    let last = slots.pop();
    slots.destroy_empty();
    match last {
        Some(Some(value)) => value,
        // No seat is out, so the value is at home.
        Some(None) | None => unreachable!(),
    }
}
