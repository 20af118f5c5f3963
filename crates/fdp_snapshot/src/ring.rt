ghost use Rattle.std.specs.Prelude.{◌≡◌, ◌≤◌, ◌∷◌, ◌++◌, [], IfOk, length, slice_get};
ghost use Rattle.fdp_rules.specs.Events.{latest};

use circular_buffer::HeapCircularBuffer;
use fdp_base::Event;
use std::alloc::{AllocError, Global};
use std::marker::Model;

/// How many events of a class are kept.
pub const MOST_EVENTS: usize = 32;

/// The latest 32 events of a class. Contracts see them as a list, the oldest first.
#[derive(Debug, Drop)]
pub struct EventRing {
    ring: HeapCircularBuffer<Event>,
}

impl Model for EventRing {
    ghost use Rattle.std.specs.Prelude.{List};
    ghost use Rattle.fdp_base.specs.declared.event.Event.{Event as Kept};
    ghost use Rattle.fdp_snapshot.specs.Ring.{IsOf32};

    ghost Value = { List Kept };

    ghost view = { λ k. k.ring.items };

    ghost invariant = { λ k. IsOf32 k.ring };
}

impl EventRing {
    /// No event yet. Beside this and `of_slice` no call takes memory.
    pub fn new(alloc: Global) -> Result<EventRing, AllocError>
        ensures { IfOk result (λ k. k ≡ []) }
    {
        EventRing::of_slice(alloc, &[])
    }

    /// These events, at most 32.
    pub fn of_slice(alloc: Global, events: &[Event]) -> Result<EventRing, AllocError>
        requires { length events.now ≤ 32 }
        ensures { IfOk result (λ k. k ≡ events.now) }
    {
        let mut ring = HeapCircularBuffer::with_capacity(alloc, MOST_EVENTS)?;
        ring.fill_from_slice(events);
        Ok(EventRing { ring })
    }

    /// Puts an event behind the others; the oldest of 32 goes.
    pub fn push(&mut self, event: Event)
        ensures { self.new ≡ latest (self.old ++ event ∷ []) }
    {
        self.ring.push_back(event);
    }

    /// How many there are.
    pub fn len(&self) -> usize
        ensures len { result ≡ length self.now }
        ensures few { result ≤ 32 }
    {
        self.ring.len()
    }

    /// The event with an index, the oldest with 0.
    pub fn get(&self, index: usize) -> Option<Event>
        ensures { result ≡ slice_get self.now index }
    {
        self.ring.get(index).copied()
    }

    /// The events in two pieces, one behind the other.
    pub fn pieces(&self) -> (&[Event], &[Event])
        ensures { result.0.now ++ result.1.now ≡ self.now }
    {
        self.ring.as_slices()
    }
}
