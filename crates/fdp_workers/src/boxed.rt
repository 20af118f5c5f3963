//! A drive on the heap is a drive as the workers see it.
use crate::steps::Steps;
use fdp_base::Command;
use fdp_core::{Advance, Begun, Done, Placed, Room, Ticket};
use fdp_gauge::{Gauge, Pass};
use fdp_lock::Boxed;
use std::alloc::AllocError;
use std::sync::Wait;

impl<V: Steps> Steps for Boxed<V> {
    ghost run = { V.run };

    ghost entry = { V.entry };

    ghost spent = { V.spent };

    ghost spare = { V.spare };

    fn known(&self) {
        self.value.known();
    }

    fn is_spent(&self) -> bool {
        self.value.is_spent()
    }

    fn reserve(&mut self) -> Result<(), AllocError> {
        self.value.reserve()
    }

    fn start(&mut self, queue: u8, number: u16, command: Command, room: Room) -> Begun {
        self.value.start(queue, number, command, room)
    }

    fn place(&mut self, ticket: Ticket) -> Placed {
        self.value.place(ticket)
    }

    fn commit(&mut self, ticket: Ticket) -> Done {
        self.value.commit(ticket)
    }

    fn abandon(&mut self, ticket: Ticket) {
        self.value.abandon(ticket);
    }

    fn collect(&mut self, rg: u16) -> Advance {
        self.value.collect(rg)
    }

    fn publish<R: Wait>(&mut self, rt: &R, gauge: &Gauge, pass: &mut Pass) {
        self.value.publish(rt, gauge, pass);
    }
}
