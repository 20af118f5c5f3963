//! What a seat knows of the lock, and the rule of the lock's table.
use atomic_table::{Seat, TableRule};
use fdp_base::Recorded;
use std::collections::LinkedList;
use std::snapshot::Snapshot;

/// Whether a seat has a turn.
pub enum Stage {
    Idle,
    Holding,
}

/// What a seat knows. No value of it is made.
pub struct View<O, I> {
    pub stage: Stage,
    pub parts: u64,
    /// The number that it gave last, and the one that it gives next.
    pub given: u64,
    pub next: u64,
    /// The origin of the lock's value. A view with no part may have none.
    pub origin: Option<O>,
    pub seen: LinkedList<I>,
    /// What another seat has seen and told.
    pub told: LinkedList<I>,
    /// The entries that were made under each of its numbers.
    pub made: LinkedList<(u64, LinkedList<I>)>,
}

/// A seat of the table.
pub(crate) type Token<V> = Seat<Option<V>, View<<V as Recorded>::Origin, <V as Recorded>::Item>>;

/// What the table is told when it is made: the value that it begins with, and the number of seats.
#[derive(Drop)]
pub struct About<V> {
    pub value: Snapshot<V>,
    pub seats: u8,
}

/// The rule of the table.
pub struct OneTurn;

impl<V: Recorded> TableRule<Option<V>, View<V::Origin, V::Item>, About<V>> for OneTurn {
    ghost use Rattle.fdp_lock.specs.Rule.{Held, first_view};

    ghost holds = { λ key. Held V.origin V.entries V.mark (V.origin key.value.value) key.seats };

    ghost first = { λ key. first_view (V.origin key.value.value) (V.entries key.value.value) key.seats };
}
