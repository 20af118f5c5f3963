//! Hosts: each serves the commands of one queue.
ghost use Rattle.std.specs.Prelude.{◌≡◌, ◌+◌, ◌≤◌, ◌<◌, [], All, IfErr, IfOk, MatchResult, OnOk, length, vec_capacity};
ghost use mathlib.Core.List.{IsPrefix};
ghost use Rattle.fdp_base.specs.CommandKinds.{IsWellFormed};
ghost use Rattle.fdp_base.specs.Config.{IsValidConfig};
ghost use Rattle.fdp_gauge.specs.Passes.{IsPassOf};
ghost use Rattle.fdp_gauge.specs.Passes as passes;
ghost use Rattle.fdp_lock.specs.Seats.{turns_of, number_of, seen_of, made_of, HoldsNoTurn, IsSeatOf, KeepsPlace};
ghost use Rattle.fdp_rules.specs.PlainState.{Going};
ghost use Rattle.fdp_workers.specs.declared.ends.End.TheVariants as ends;
ghost use Rattle.fdp_workers.specs.declared.stop.Stop.TheVariants.{Turns};
ghost use Rattle.fdp_workers.specs.Hosting.{EndsAt, Expects, IsFlyingAt, IsIdleAt, IsPost, IsShown, IsSpent, KeepsPost, ServesTrace, StopsAt, WaitsAt, run_of};
ghost use Rattle.fdp_workers.specs.Pairs.{IsIdlePair, IsReaped};
ghost use Rattle.fdp_workers.specs.Queues.{Progress, Serves, ServesWhole, so_far};

use crate::ends::{End, HostEnd};
use crate::pairs::{complete, deliver};
use crate::receipt::Receipt;
use crate::steps::Steps;
use crate::stop::Stop;
use crate::turns::{begin, end, place};
use fdp_base::{Command, DriveConfig, MOST_TRACE_COMMANDS};
use fdp_core::{Begun, Done, Placed, Room, Ticket};
use fdp_gauge::{Gauge, Pass};
use fdp_io::{Gate, Point};
use fdp_layouts::Cqe;
use fdp_lock::{GroupLock, Seat};
use fdp_queues::QueuePair;
use std::alloc::{AllocError, Global};
use std::sync::Wait;

/// Places the pages of a write and ends it, a turn for each step.
fn end_write<V: Steps, G: Gate, R: Wait>(
    rt: &R,
    lock: &GroupLock<V>,
    gauge: &Gauge,
    gate: &G,
    seat: &mut Seat<V>,
    pass: &mut Pass,
    ticket: Ticket,
) -> Result<Done, Stop>
    requires post { IsPost (run_of V.origin V.run lock.now) gauge.now seat.old pass.old }
    requires flies { (p : Progress) × (x : Going) × WaitsAt V.origin V.run V.entry V.mark lock.now p ticket x seat.old }
    ensures post { KeepsPost gauge.now seat.old seat.new pass.old pass.new }
    ensures ended { (p : Progress) (x : Going) → WaitsAt V.origin V.run V.entry V.mark lock.now p ticket x seat.old →
        MatchResult result
        (λ done. EndsAt V.origin V.run V.entry V.mark lock.now p x.number x.command seat.new pass.new done)
        (λ stop. StopsAt V.origin V.run V.entry V.mark lock.now p x.number x.command seat.new) }
    ensures cause { IfErr result (λ stop. stop ≡ Turns → IsSpent V.origin V.entries V.spent lock.now seat.new) }
{
    let queue = seat.number();
    let mut ticket = ticket;
    loop {
        let placed = match place(rt, lock, gauge, seat, pass, ticket) {
            Ok(placed) => placed,
            Err(stop) => return Err(stop),
        };
        gate.at(queue, Point::Placed);
        match placed {
            Placed::More(next) => ticket = next,
            Placed::Ready(next) => {
                gate.at(queue, Point::BeforeCommit);
                return end(rt, lock, gauge, seat, pass, next);
            }
            Placed::Ended(done) => return Ok(done),
        }
    }
}

/// Serves one command: makes its first step, and where it is a write those that follow, each in a turn of its own. The memory for it is taken before
/// the first turn. A command is begun once; a write is given up only where there is no memory, or no further step may be made.
pub fn serve<V: Steps, G: Gate, R: Wait>(
    rt: &R,
    alloc: Global,
    lock: &GroupLock<V>,
    gauge: &Gauge,
    gate: &G,
    config: &DriveConfig,
    seat: &mut Seat<V>,
    pass: &mut Pass,
    number: u16,
    command: Command,
) -> Result<Done, Stop>
    requires post { IsPost (run_of V.origin V.run lock.now) gauge.now seat.old pass.old }
    requires config { config.now ≡ (run_of V.origin V.run lock.now).config }
    requires formed { IsWellFormed config.now command }
    requires idle { (p : Progress) × IsIdleAt V.origin V.run V.entry V.mark lock.now p seat.old }
    ensures post { KeepsPost gauge.now seat.old seat.new pass.old pass.new }
    ensures served { (p : Progress) → IsIdleAt V.origin V.run V.entry V.mark lock.now p seat.old →
        MatchResult result
        (λ done. EndsAt V.origin V.run V.entry V.mark lock.now p number command seat.new pass.new done)
        (λ stop. StopsAt V.origin V.run V.entry V.mark lock.now p number command seat.new) }
    ensures cause { IfErr result (λ stop. stop ≡ Turns → IsSpent V.origin V.entries V.spent lock.now seat.new) }
{
    let room = match Room::new(alloc, &command, config) {
        Ok(room) => room,
        Err(AllocError) => return Err(Stop::NoMemory),
    };
    gate.at(seat.number(), Point::Begun);
    let begun = match begin(rt, lock, gauge, seat, pass, number, command, room) {
        Ok(begun) => begun,
        Err(stop) => return Err(stop),
    };
    match begun {
        Begun::Ended(done) => Ok(done),
        Begun::Going(ticket) => end_write(rt, lock, gauge, gate, seat, pass, ticket),
    }
}

/// A command that was served through its queue pair: how it was completed, and its completion as it was reaped.
#[derive(Drop)]
struct Exchanged {
    done: Done,
    completion: Cqe,
}

/// Submits a command to the pair of its queue, serves it under the number that the fetched entry names, and reaps its completion.
fn exchange<V: Steps, G: Gate, R: Wait>(
    rt: &R,
    alloc: Global,
    lock: &GroupLock<V>,
    gauge: &Gauge,
    gate: &G,
    config: &DriveConfig,
    seat: &mut Seat<V>,
    pass: &mut Pass,
    pair: &mut QueuePair,
    number: u16,
    command: Command,
) -> Result<Exchanged, Stop>
    requires post { IsPost (run_of V.origin V.run lock.now) gauge.now seat.old pass.old }
    requires config { config.now ≡ (run_of V.origin V.run lock.now).config }
    requires formed { IsWellFormed config.now command }
    requires idle { (p : Progress) × IsIdleAt V.origin V.run V.entry V.mark lock.now p seat.old }
    requires pair { IsIdlePair config.now.queue_depth number number pair.old }
    ensures post { KeepsPost gauge.now seat.old seat.new pass.old pass.new }
    ensures served { (p : Progress) → IsIdleAt V.origin V.run V.entry V.mark lock.now p seat.old →
        MatchResult result
        (λ e. EndsAt V.origin V.run V.entry V.mark lock.now p number command seat.new pass.new e.done)
        (λ stop. StopsAt V.origin V.run V.entry V.mark lock.now p number command seat.new) }
    ensures cause { IfErr result (λ stop. stop ≡ Turns → IsSpent V.origin V.entries V.spent lock.now seat.new) }
    ensures pair { OnOk result (IsIdlePair config.now.queue_depth (number + 1) (number + 1) pair.new) }
    ensures reaped { IfOk result (λ e. IsReaped config.now.queue_depth (number_of seat.new) number e.done.reply e.completion) }
{
    let named = deliver(pair, &command, number);
    match serve(
        rt, alloc, lock, gauge, gate, config, seat, pass, named, command,
    ) {
        Ok(done) => {
            let completion = complete(pair, seat.number(), named, &done.reply);
            Ok(Exchanged { done, completion })
        }
        Err(stop) => Err(stop),
    }
}

/// Serves the commands of a trace one after another. There is room for their receipts.
fn serve_all<V: Steps, G: Gate, R: Wait>(
    rt: &R,
    alloc: Global,
    lock: &GroupLock<V>,
    gauge: &Gauge,
    gate: &G,
    config: &DriveConfig,
    seat: &mut Seat<V>,
    pass: &mut Pass,
    pair: &mut QueuePair,
    trace: Vec<Command>,
    receipts: &mut Vec<Receipt>,
) -> Result<(), Stop>
    requires post { IsPost (run_of V.origin V.run lock.now) gauge.now seat.old pass.old }
    requires config { config.now ≡ (run_of V.origin V.run lock.now).config }
    requires formed { All (IsWellFormed config.now) trace.items }
    requires few { length trace.items ≤ MOST_TRACE_COMMANDS }
    requires idle { IsIdleAt V.origin V.run V.entry V.mark lock.now (so_far trace.items 0 []) seat.old }
    requires pair { IsIdlePair config.now.queue_depth 0 0 pair.old }
    requires room { length trace.items ≤ vec_capacity receipts.old }
    requires none { receipts.old.items ≡ [] }
    ensures post { KeepsPost gauge.now seat.old seat.new pass.old pass.new }
    ensures serves { ServesTrace V.origin V.run V.entry V.mark lock.now trace.items receipts.new.items seat.new pass.new result }
    ensures cause { IfErr result (λ stop. stop ≡ Turns → IsSpent V.origin V.entries V.spent lock.now seat.new) }
{
    for (number, command) in trace.into_iter().enumerate() {
        match exchange(
            rt,
            alloc,
            lock,
            gauge,
            gate,
            config,
            seat,
            pass,
            pair,
            number as u16,
            command,
        ) {
            Ok(exchanged) => receipts.push_reserved(Receipt {
                number: number as u16,
                position: exchanged.done.position,
            }),
            Err(stop) => return Err(stop),
        }
        gate.at(seat.number(), Point::Ended);
    }
    Ok(())
}

/// Serves the commands of a trace one after another in the queue of its seat, each through the queue pair of this queue. Each turn makes one step,
/// and adds an entry but where there is no memory for the step or no further step may be made; then a write may be left going. A command ends in a
/// turn that shows the record.
pub fn serve_trace<V: Steps, G: Gate, R: Wait>(
    rt: &R,
    alloc: Global,
    lock: &GroupLock<V>,
    gauge: &Gauge,
    gate: &G,
    config: &DriveConfig,
    seat: &mut Seat<V>,
    pass: &mut Pass,
    trace: Vec<Command>,
    receipts: &mut Vec<Receipt>,
) -> Result<(), Stop>
    requires post { IsPost (run_of V.origin V.run lock.now) gauge.now seat.old pass.old }
    requires config { config.now ≡ (run_of V.origin V.run lock.now).config }
    requires valid { IsValidConfig config.now }
    requires formed { All (IsWellFormed config.now) trace.items }
    requires few { length trace.items ≤ MOST_TRACE_COMMANDS }
    requires idle { IsIdleAt V.origin V.run V.entry V.mark lock.now (so_far trace.items 0 []) seat.old }
    requires none { receipts.old.items ≡ [] }
    ensures post { KeepsPost gauge.now seat.old seat.new pass.old pass.new }
    ensures serves { ServesTrace V.origin V.run V.entry V.mark lock.now trace.items receipts.new.items seat.new pass.new result }
    ensures cause { IfErr result (λ stop. stop ≡ Turns → IsSpent V.origin V.entries V.spent lock.now seat.new) }
{
    if trace.is_empty() {
        return Ok(());
    }
    let mut pair = QueuePair::new(alloc, config.queue_depth)?;
    receipts.reserve(trace.len())?;
    serve_all(
        rt, alloc, lock, gauge, gate, config, seat, pass, &mut pair, trace, receipts,
    )
}

/// Serves the commands of a trace one after another in the queue of its seat, as [`serve_trace`] does, and gives back what it was lent.
pub fn host<V: Steps, G: Gate, R: Wait>(
    rt: &R,
    alloc: Global,
    lock: &GroupLock<V>,
    gauge: &Gauge,
    gate: &G,
    config: &DriveConfig,
    seat: Seat<V>,
    pass: Pass,
    trace: Vec<Command>,
) -> HostEnd<V>
    requires of_lock { IsSeatOf V.origin lock.now seat × HoldsNoTurn seat }
    requires new { (turns_of seat ≡ 0) × (made_of seat ≡ []) }
    requires post { IsPost (run_of V.origin V.run lock.now) gauge.now seat pass }
    requires config { config.now ≡ (run_of V.origin V.run lock.now).config }
    requires valid { IsValidConfig config.now }
    requires formed { All (IsWellFormed config.now) trace.items }
    requires few { length trace.items ≤ MOST_TRACE_COMMANDS }
    ensures post { KeepsPost gauge.now seat result.seat pass result.pass }
    ensures of_lock { IsSeatOf V.origin lock.now result.seat × HoldsNoTurn result.seat }
    ensures serves { Expects (run_of V.origin V.run lock.now) V.entry V.mark (Serves (run_of V.origin V.run lock.now) (number_of result.seat) trace.items result.receipts.items) result.seat }
    ensures whole { result.end ≡ ends.Whole → Expects (run_of V.origin V.run lock.now) V.entry V.mark (ServesWhole (run_of V.origin V.run lock.now) (number_of result.seat) trace.items) result.seat }
    ensures shown { result.end ≡ ends.Whole → 0 < length trace.items → IsShown V.mark result.seat result.pass }
    ensures turns { turns_of result.seat ≤ length (seen_of result.seat) + 1 }
    ensures cause { result.end ≡ ends.Turns → IsSpent V.origin V.entries V.spent lock.now result.seat × (length result.receipts.items < length trace.items) }
{
    let mut seat = seat;
    let mut pass = pass;
    let mut receipts = Vec::new(alloc);
    match serve_trace(
        rt,
        alloc,
        lock,
        gauge,
        gate,
        config,
        &mut seat,
        &mut pass,
        trace,
        &mut receipts,
    ) {
        Ok(()) => HostEnd {
            seat,
            pass,
            receipts,
            end: End::Whole,
        },
        Err(Stop::NoMemory) => HostEnd {
            seat,
            pass,
            receipts,
            end: End::NoMemory,
        },
        Err(Stop::Turns) => HostEnd {
            seat,
            pass,
            receipts,
            end: End::Turns,
        },
    }
}
