ghost use Rattle.std.specs.Prelude.{◌≡◌, ◌↔◌, ◌≢◌, ◌+◌, ◌<◌, IsTrue, OnOk, length, map};
ghost use mathlib.Core.List.{IsPrefix};
ghost use Rattle.fdp_gauge.specs.Passes.{seen_of, IsPassOf};
ghost use Rattle.fdp_rules.specs.PlainState.{Going};
ghost use Rattle.fdp_core.specs.fdp_book.Tickets.{IsTicketOf};
ghost use Rattle.fdp_workers.specs.Run.{IsHistory, state_by};
ghost use Rattle.fdp_workers.specs.Turns.{AddsNone, Begins, Completes, IsFlying, IsReady, IsWaiting, MayBegin, Places};
ghost use Rattle.fdp_base.specs.declared.limits.TheConstants.{MOST_STEPS};

use fdp_base::{Command, Recorded};
use fdp_core::{Advance, Begun, Done, Placed, Room, Ticket};
use fdp_gauge::{Gauge, Pass};
use std::alloc::AllocError;
use std::sync::Wait;

/// A drive that records, as the workers on its lock see it: one call is one step, and what it does is told by the record alone.
pub trait Steps: Recorded {
    ghost use Rattle.std.specs.Prelude.{ℕ};
    ghost use Rattle.fdp_base.specs.declared.entry.Entry.{Entry};
    ghost use Rattle.fdp_workers.specs.Run.{Run};

    /// What the drive began with.
    ghost run: { Self.Origin → Run };

    /// The entry of the history that an item of the record is.
    ghost entry: { Self.Item → Entry };

    /// The steps that were made, and those for which there is room.
    ghost spent: { Self → ℕ };

    ghost spare: { Self → ℕ };

    /// The record is the history, with the marks of its entries.
    fn known(&self)
        ensures { IsHistory (run (Self.origin self.now)) entry Self.mark (Self.entries self.now) };

    /// Whether no further step may be made.
    fn is_spent(&self) -> bool
        ensures { IsTrue result ↔ spent self.now ≡ MOST_STEPS };

    /// Takes the memory for a step.
    fn reserve(&mut self) -> Result<(), AllocError>
        requires left { spent self.old ≢ MOST_STEPS }
        ensures ok { OnOk result (0 < spare self.new) }
        ensures origin { Self.origin self.new ≡ Self.origin self.old }
        ensures entries { Self.entries self.new ≡ Self.entries self.old };

    /// The first step of a command.
    fn start(&mut self, queue: u8, number: u16, command: Command, room: Room) -> Begun
        requires may { MayBegin (run (Self.origin self.old)) (map entry (Self.entries self.old)) queue number command room }
        requires spare { 0 < spare self.old }
        ensures origin { Self.origin self.new ≡ Self.origin self.old }
        ensures step { Begins (run (Self.origin self.old)) entry Self.mark (Self.entries self.old) (Self.entries self.new) queue number command result };

    /// The next step of a write that still has pages to be placed.
    fn place(&mut self, ticket: Ticket) -> Placed
        requires ticket { IsWaiting (run (Self.origin self.old)) (map entry (Self.entries self.old)) ticket }
        requires spare { 0 < spare self.old }
        ensures origin { Self.origin self.new ≡ Self.origin self.old }
        ensures step { (g : Going) → IsTicketOf (state_by (run (Self.origin self.old)) (map entry (Self.entries self.old))) ticket g → Places (run (Self.origin self.old)) entry Self.mark (Self.entries self.old) (Self.entries self.new) ticket g result };

    /// Ends a write whose pages are placed.
    fn commit(&mut self, ticket: Ticket) -> Done
        requires ticket { IsReady (run (Self.origin self.old)) (map entry (Self.entries self.old)) ticket }
        requires spare { 0 < spare self.old }
        ensures origin { Self.origin self.new ≡ Self.origin self.old }
        ensures step { (g : Going) → IsTicketOf (state_by (run (Self.origin self.old)) (map entry (Self.entries self.old))) ticket g → Completes (run (Self.origin self.old)) entry Self.mark (Self.entries self.old) (Self.entries self.new) ticket.queue g.number g.command result };

    /// Gives a ticket up. It is no step.
    fn abandon(&mut self, ticket: Ticket)
        requires ticket { IsFlying (run (Self.origin self.old)) (map entry (Self.entries self.old)) ticket }
        ensures same { self.new ≡ self.old };

    /// A step of relocation in a group.
    fn collect(&mut self, rg: u16) -> Advance
        requires group { rg < (run (Self.origin self.old)).config.groups }
        requires spare { 0 < spare self.old }
        ensures origin { Self.origin self.new ≡ Self.origin self.old }
        ensures step { AddsNone Self.mark (Self.entries self.old) (Self.entries self.new) };

    /// Shows the record on the gauge, and to this pass.
    fn publish<R: Wait>(&mut self, rt: &R, gauge: &Gauge, pass: &mut Pass)
        requires of_gauge { gauge.now.cell.table.shared.table_id ≡ (run (Self.origin self.old)).gauge }
        requires pass { IsPassOf gauge.now pass.old }
        ensures origin { Self.origin self.new ≡ Self.origin self.old }
        ensures entries { Self.entries self.new ≡ Self.entries self.old }
        ensures of_gauge { IsPassOf gauge.now pass.new }
        ensures goes_on { IsPrefix (seen_of pass.old) (seen_of pass.new) }
        ensures shown { IsPrefix (map Self.mark (Self.entries self.new)) (seen_of pass.new) };
}
