ghost use Rattle.std.specs.Prelude.{◌≡◌, ◌≢◌, ◌⊎◌, ◌+◌, ◌≤◌, ◌∷◌, [], All, List, length, map, vec_capacity};
ghost use mathlib.Core.List.{IsPrefix};
ghost use Rattle.fdp_base.specs.declared.command.Command.{Command};
ghost use Rattle.fdp_base.specs.Config.{IsValidConfig};
ghost use Rattle.fdp_base.specs.Records.{CarriesNone};
ghost use Rattle.fdp_crews.specs.Crews.{IsTrace};
ghost use Rattle.fdp_crews.specs.Rooms.{HasRooms, IsHead};
ghost use Rattle.fdp_crews.specs.Shifts.{IsShift};
ghost use Rattle.fdp_gauge.specs.Passes.{IsPassOf};
ghost use Rattle.fdp_lock.specs.Seats.{parts_of, seats_of, seen_of, lock_origin};
ghost use Rattle.fdp_workers.specs.declared.ends.End.TheVariants as ends;
ghost use Rattle.fdp_workers.specs.Hosting.{run_of};
ghost use Rattle.fdp_base.specs.declared.limits.TheConstants.{MOST_STEPS};

use crate::crews::run_crews;
use crate::hiring::{hire_collectors, hire_hosts};
use crate::leaving::{dismiss_collectors, dismiss_hosts};
use crate::rooms::Rooms;
use fdp_base::{Command, DriveConfig};
use fdp_gauge::{Gauge, Pass};
use fdp_io::Gate;
use fdp_lock::{Boxed, GroupLock, NotMade, Seat};
use fdp_workers::{End, Receipt, Steps};
use std::alloc::Global;
use std::sync::Wait;
use std::thread::Threads;

/// What crews give back: the drive, their passes, the receipts of each host, and how the hosts ended.
#[derive(Drop)]
pub struct Shift<V> {
    pub value: V,
    pub passes: Vec<Pass>,
    pub receipts: Vec<Vec<Receipt>>,
    pub end: End,
}

/// Serves these traces, each by a host on a thread of its own, the first in queue 1, with so many collectors beside them, which take at most so many
/// turns each. The drive is behind a lock and on the heap as long as they work.
pub fn serve_traces<V: Steps + Send, G: Gate + Sync, R: Threads + Wait + Sync>(
    rt: &R,
    alloc: Global,
    value: V,
    gauge: &Gauge,
    pass: Pass,
    mut passes: Vec<Pass>,
    gate: &G,
    config: &DriveConfig,
    traces: Vec<Vec<Command>>,
    collectors: u8,
    turns: u32,
) -> Shift<V>
    requires gauge { gauge.now.cell.table.shared.table_id ≡ (V.run (V.origin value)).gauge }
    requires of_gauge { IsPassOf gauge.now pass }
    requires none { passes.items ≡ [] }
    requires room { length traces.items + collectors + 1 ≤ vec_capacity passes }
    requires config { config.now ≡ (V.run (V.origin value)).config }
    requires valid { IsValidConfig config.now }
    requires unmarked { CarriesNone V.mark (V.entries value) }
    requires traces { All (λ t. IsTrace config.now t.items) traces.items }
    requires queues { length traces.items ≤ config.now.queues }
    requires few { collectors ≤ 8 }
    ensures origin { V.origin result.value ≡ V.origin value }
    ensures goes_on { IsPrefix (V.entries value) (V.entries result.value) }
    ensures shift { IsShift (V.run (V.origin value)) (map (λ t. t.items) traces.items) (map (λ r. r.items) result.receipts.items) (map V.entry (V.entries result.value)) (V.spent result.value) result.end }
    ensures of_gauge { All (λ p. IsPassOf gauge.now p) result.passes.items }
{
    let hosts = traces.len() as u8;
    let Ok(rooms) = Rooms::new(alloc, hosts, collectors) else {
        return rest(alloc, value, pass, passes);
    };
    let boxed = match Boxed::new(alloc, value) {
        Ok(boxed) => boxed,
        Err(refused) => return rest(alloc, refused.value, pass, passes),
    };
    match GroupLock::new(alloc, boxed, 1 + hosts + collectors) {
        Ok((lock, seat)) => unboxed(serve_on(
            rt, alloc, lock, seat, gauge, pass, passes, gate, config, rooms, traces, collectors,
            turns,
        )),
        Err(NotMade { value }) => rest(alloc, value.into_inner(), pass, passes),
    }
}

/// The same with the drive off the heap.
fn unboxed<V>(shift: Shift<Boxed<V>>) -> Shift<V>
    ensures { result ≡ shift }
{
    let Shift {
        value,
        passes,
        receipts,
        end,
    } = shift;
    Shift {
        value: value.into_inner(),
        passes,
        receipts,
        end,
    }
}

/// What is given back where memory is wanting at the beginning: no step was made.
fn rest<V: Steps>(alloc: Global, value: V, pass: Pass, mut passes: Vec<Pass>) -> Shift<V>
    requires unmarked { CarriesNone V.mark (V.entries value) }
    requires none { passes.items ≡ [] }
    requires room { 1 ≤ vec_capacity passes }
    ensures value { result.value ≡ value }
    ensures shift { (traces : List (List Command)) → IsShift (V.run (V.origin value)) traces (map (λ r. r.items) result.receipts.items) (map V.entry (V.entries value)) (V.spent value) result.end }
    ensures passes { result.passes.items ≡ pass ∷ [] }
{
    value.known(); // proof
    passes.push_reserved(pass);
    Shift {
        value,
        passes,
        receipts: Vec::new(alloc),
        end: End::NoMemory,
    }
}

fn serve_on<V: Steps + Send, G: Gate + Sync, R: Threads + Wait + Sync>(
    rt: &R,
    alloc: Global,
    lock: GroupLock<V>,
    mut seat: Seat<V>,
    gauge: &Gauge,
    mut pass: Pass,
    mut passes: Vec<Pass>,
    gate: &G,
    config: &DriveConfig,
    rooms: Rooms<V>,
    traces: Vec<Vec<Command>>,
    collectors: u8,
    turns: u32,
) -> Shift<V>
    requires head { IsHead V.origin lock (seen_of seat) 0 (parts_of seat) seat }
    requires parts { parts_of seat ≡ length traces.items + collectors + 1 }
    requires all_parts { seats_of lock ≡ parts_of seat }
    requires gauge { gauge.now.cell.table.shared.table_id ≡ (run_of V.origin V.run lock).gauge }
    requires of_gauge { IsPassOf gauge.now pass }
    requires none { passes.items ≡ [] }
    requires room { length traces.items + collectors + 1 ≤ vec_capacity passes }
    requires config { config.now ≡ (run_of V.origin V.run lock).config }
    requires valid { IsValidConfig config.now }
    requires rooms { HasRooms (length traces.items) collectors rooms }
    requires traces { All (λ t. IsTrace config.now t.items) traces.items }
    requires queues { length traces.items ≤ config.now.queues }
    requires few { collectors ≤ 8 }
    ensures origin { V.origin result.value ≡ lock_origin V.origin lock }
    ensures goes_on { IsPrefix (seen_of seat) (V.entries result.value) }
    ensures shift { IsShift (run_of V.origin V.run lock) (map (λ t. t.items) traces.items) (map (λ r. r.items) result.receipts.items) (map V.entry (V.entries result.value)) (V.spent result.value) result.end }
    ensures of_gauge { All (λ p. IsPassOf gauge.now p) result.passes.items }
{
    let Rooms {
        workers,
        sweepers,
        mut seats,
        mut receipts,
    } = rooms;
    let workers = hire_hosts(alloc, &lock, gauge, &mut seat, &mut pass, traces, workers);
    let sweepers = hire_collectors(
        &lock, gauge, &mut seat, &mut pass, collectors, turns, sweepers,
    );
    let (workers, sweepers) = run_crews(rt, alloc, &lock, gauge, gate, config, workers, sweepers);
    seats.push_reserved(seat);
    passes.push_reserved(pass);
    let end = dismiss_hosts(workers, &mut seats, &mut passes, &mut receipts);
    dismiss_collectors(sweepers, &mut seats, &mut passes);
    let value = lock.close(seats);
    value.known(); // proof
    let end = end_of(&value, end);
    Shift {
        value,
        passes,
        receipts,
        end,
    }
}

/// How a session ends whose hosts ended so: for want of steps only where the drive has made all that it may make.
fn end_of<V: Steps>(value: &V, hosts: End) -> End
    ensures whole { result ≡ ends.Whole → hosts ≡ ends.Whole }
    ensures left { result ≢ ends.Whole → hosts ≢ ends.Whole }
    ensures spent { result ≡ ends.Turns → V.spent value.now ≡ MOST_STEPS }
    ensures memory { result ≡ ends.NoMemory → (hosts ≡ ends.NoMemory) ⊎ (V.spent value.now ≢ MOST_STEPS) }
{
    match hosts {
        End::Whole => End::Whole,
        End::Turns if value.is_spent() => End::Turns,
        End::Turns | End::NoMemory => End::NoMemory,
    }
}
