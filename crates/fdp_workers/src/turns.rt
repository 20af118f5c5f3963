//! Single turns of a host: each makes one step.
ghost use Rattle.std.specs.Prelude.{◌≡◌, ◌+◌, ◌<◌, MatchResult, IfErr, OnOk};
ghost use Rattle.fdp_base.specs.CommandKinds.{IsWellFormed, blocks_written};
ghost use Rattle.fdp_core.specs.fdp_book.Room.{room_for};
ghost use Rattle.fdp_lock.specs.Seats.{turns_of};
ghost use Rattle.fdp_rules.specs.PlainState.{Going};
ghost use Rattle.fdp_workers.specs.declared.stop.Stop.TheVariants.{Turns};
ghost use Rattle.fdp_workers.specs.Hosting.{BeginsAt, EndsAt, IsFlyingAt, IsIdleAt, IsPost, IsSpent, KeepsPost, PlacesAt, StopsAt, WaitsAt, run_of};
ghost use Rattle.fdp_workers.specs.Queues.{Progress};
ghost use Rattle.fdp_base.specs.declared.limits.TheConstants.{MOST_STEPS};

use crate::steps::Steps;
use crate::stop::Stop;
use fdp_base::Command;
use fdp_core::{Begun, Done, Placed, Room, Ticket};
use fdp_gauge::{Gauge, Pass};
use fdp_lock::{GroupLock, Seat, Turn};
use std::sync::Wait;

/// Takes the memory for a further step.
pub(crate) fn take_room<V: Steps>(value: &mut V) -> Result<(), Stop>
    ensures origin { V.origin value.new ≡ V.origin value.old }
    ensures entries { V.entries value.new ≡ V.entries value.old }
    ensures room { OnOk result (0 < V.spare value.new) }
    ensures cause { IfErr result (λ stop. stop ≡ Turns → V.spent value.new ≡ MOST_STEPS) }
{
    if value.is_spent() {
        return Err(Stop::Turns);
    }
    value.reserve()?;
    Ok(())
}

/// The turn of the first step of a command. Where that completes the command, the record is shown.
pub(crate) fn begin<V: Steps, R: Wait>(
    rt: &R,
    lock: &GroupLock<V>,
    gauge: &Gauge,
    seat: &mut Seat<V>,
    pass: &mut Pass,
    number: u16,
    command: Command,
    room: Room,
) -> Result<Begun, Stop>
    requires post { IsPost (run_of V.origin V.run lock.now) gauge.now seat.old pass.old }
    requires formed { IsWellFormed (run_of V.origin V.run lock.now).config command }
    requires room { room ≡ room_for command (run_of V.origin V.run lock.now).config }
    requires idle { (p : Progress) × IsIdleAt V.origin V.run V.entry V.mark lock.now p seat.old }
    ensures post { KeepsPost gauge.now seat.old seat.new pass.old pass.new }
    ensures turns { turns_of seat.new ≡ turns_of seat.old + 1 }
    ensures begun { (p : Progress) → IsIdleAt V.origin V.run V.entry V.mark lock.now p seat.old →
        MatchResult result
        (λ b. BeginsAt V.origin V.run V.entry V.mark lock.now p number command seat.new pass.new b)
        (λ stop. StopsAt V.origin V.run V.entry V.mark lock.now p number command seat.new) }
    ensures cause { IfErr result (λ stop. stop ≡ Turns → IsSpent V.origin V.entries V.spent lock.now seat.new) }
{
    let mut turn = lock.enter(rt, seat);
    turn.value.known(); // proof
    if let Err(stop) = take_room(&mut turn.value) {
        lock.leave(turn, seat);
        return Err(stop);
    }
    let queue = seat.number();
    match turn.value.start(queue, number, command, room) {
        Begun::Ended(done) => {
            turn.value.publish(rt, gauge, pass);
            turn.value.known(); // proof
            lock.leave(turn, seat);
            Ok(Begun::Ended(done))
        }
        Begun::Going(ticket) => {
            turn.value.known(); // proof
            lock.leave(turn, seat);
            Ok(Begun::Going(ticket))
        }
    }
}

/// The turn of a step of a write whose pages are not all placed. Where that ends the write, the record is shown.
pub(crate) fn place<V: Steps, R: Wait>(
    rt: &R,
    lock: &GroupLock<V>,
    gauge: &Gauge,
    seat: &mut Seat<V>,
    pass: &mut Pass,
    ticket: Ticket,
) -> Result<Placed, Stop>
    requires post { IsPost (run_of V.origin V.run lock.now) gauge.now seat.old pass.old }
    requires waits { (p : Progress) × (x : Going) × WaitsAt V.origin V.run V.entry V.mark lock.now p ticket x seat.old }
    ensures post { KeepsPost gauge.now seat.old seat.new pass.old pass.new }
    ensures turns { turns_of seat.new ≡ turns_of seat.old + 1 }
    ensures placed { (p : Progress) (x : Going) → WaitsAt V.origin V.run V.entry V.mark lock.now p ticket x seat.old →
        MatchResult result
        (λ b. PlacesAt V.origin V.run V.entry V.mark lock.now p x seat.new pass.new b)
        (λ stop. StopsAt V.origin V.run V.entry V.mark lock.now p x.number x.command seat.new) }
    ensures cause { IfErr result (λ stop. stop ≡ Turns → IsSpent V.origin V.entries V.spent lock.now seat.new) }
{
    let mut turn = lock.enter(rt, seat);
    turn.value.known(); // proof
    if let Err(stop) = take_room(&mut turn.value) {
        turn.value.abandon(ticket);
        lock.leave(turn, seat);
        return Err(stop);
    }
    match turn.value.place(ticket) {
        Placed::Ended(done) => {
            turn.value.publish(rt, gauge, pass);
            turn.value.known(); // proof
            lock.leave(turn, seat);
            Ok(Placed::Ended(done))
        }
        Placed::More(next) => {
            turn.value.known(); // proof
            lock.leave(turn, seat);
            Ok(Placed::More(next))
        }
        Placed::Ready(next) => {
            turn.value.known(); // proof
            lock.leave(turn, seat);
            Ok(Placed::Ready(next))
        }
    }
}

/// The turn that ends a write whose pages are placed. The record is shown.
pub(crate) fn end<V: Steps, R: Wait>(
    rt: &R,
    lock: &GroupLock<V>,
    gauge: &Gauge,
    seat: &mut Seat<V>,
    pass: &mut Pass,
    ticket: Ticket,
) -> Result<Done, Stop>
    requires post { IsPost (run_of V.origin V.run lock.now) gauge.now seat.old pass.old }
    requires ready { (p : Progress) × (x : Going) × IsFlyingAt V.origin V.run V.entry V.mark lock.now p ticket x (blocks_written x.command) seat.old }
    ensures post { KeepsPost gauge.now seat.old seat.new pass.old pass.new }
    ensures turns { turns_of seat.new ≡ turns_of seat.old + 1 }
    ensures ended { (p : Progress) (x : Going) → IsFlyingAt V.origin V.run V.entry V.mark lock.now p ticket x (blocks_written x.command) seat.old →
        MatchResult result
        (λ done. EndsAt V.origin V.run V.entry V.mark lock.now p x.number x.command seat.new pass.new done)
        (λ stop. StopsAt V.origin V.run V.entry V.mark lock.now p x.number x.command seat.new) }
    ensures cause { IfErr result (λ stop. stop ≡ Turns → IsSpent V.origin V.entries V.spent lock.now seat.new) }
{
    let mut turn = lock.enter(rt, seat);
    turn.value.known(); // proof
    if let Err(stop) = take_room(&mut turn.value) {
        turn.value.abandon(ticket);
        lock.leave(turn, seat);
        return Err(stop);
    }
    let done = turn.value.commit(ticket);
    turn.value.publish(rt, gauge, pass);
    turn.value.known(); // proof
    lock.leave(turn, seat);
    Ok(done)
}
