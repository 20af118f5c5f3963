//! Hosts and collectors get their seats and passes.
ghost use Rattle.std.specs.Prelude.{◌≡◌, ◌+◌, ◌<◌, ◌≤◌, [], All, List, length, map, vec_capacity};
ghost use Rattle.fdp_base.specs.Numbers.{numbers_from};
ghost use Rattle.fdp_crews.specs.Crews.{IsDueFor, IsTrace, MaySweep};
ghost use Rattle.fdp_crews.specs.Rooms.{IsHead};
ghost use Rattle.fdp_gauge.specs.Passes.{IsPassOf};
ghost use Rattle.fdp_lock.specs.Seats.{number_of, parts_of, given_of, seen_of};
ghost use Rattle.fdp_workers.specs.Hosting.{run_of};

use crate::sweeper::Sweeper;
use crate::worker::Worker;
use fdp_base::{Command, Recorded};
use fdp_gauge::{Gauge, Pass};
use fdp_lock::{GroupLock, Seat};
use fdp_workers::{End, Steps};
use std::alloc::Global;

/// The number of the first collector, above that of every queue.
const FIRST_COLLECTOR: u8 = 17;

/// A host for each of these traces, the first for queue 1: each gets a part of the lock, and a pass.
pub fn hire_hosts<V: Steps>(
    alloc: Global,
    lock: &GroupLock<V>,
    gauge: &Gauge,
    seat: &mut Seat<V>,
    pass: &mut Pass,
    traces: Vec<Vec<Command>>,
    mut workers: Vec<Worker<V>>,
) -> Vec<Worker<V>>
    requires head { IsHead V.origin lock.now (seen_of seat.old) 0 (parts_of seat.old) seat.old }
    requires parts { length traces.items < parts_of seat.old }
    requires of_gauge { IsPassOf gauge.now pass.old }
    requires gauge { gauge.now.cell.table.shared.table_id ≡ (run_of V.origin V.run lock.now).gauge }
    requires traces { All (λ t. IsTrace (run_of V.origin V.run lock.now).config t.items) traces.items }
    requires queues { length traces.items ≤ (run_of V.origin V.run lock.now).config.queues }
    requires few { length traces.items ≤ 16 }
    requires none { workers.items ≡ [] }
    requires room { length traces.items ≤ vec_capacity workers }
    ensures due { All (λ w. IsDueFor V.origin V.run lock.now gauge.now (map (λ t. t.items) traces.items) w) result.items }
    ensures numbers { map (λ w. number_of w.seat) result.items ≡ numbers_from 1 (length traces.items) }
    ensures count { length result.items ≡ length traces.items }
    ensures parts { parts_of seat.new + length traces.items ≡ parts_of seat.old }
    ensures head { IsHead V.origin lock.now (seen_of seat.old) 16 (parts_of seat.new) seat.new }
    ensures of_gauge { IsPassOf gauge.now pass.new }
{
    for (at, trace) in traces.into_iter().enumerate() {
        let worker = Worker {
            seat: lock.split(seat, at as u8 + 1),
            pass: gauge.split(pass),
            trace,
            receipts: Vec::new(alloc),
            end: End::NoMemory,
        };
        workers.push_reserved(worker);
    }
    workers
}

/// So many collectors: each gets a part of the lock, and a pass.
pub fn hire_collectors<V: Recorded>(
    lock: &GroupLock<V>,
    gauge: &Gauge,
    seat: &mut Seat<V>,
    pass: &mut Pass,
    collectors: u8,
    turns: u32,
    mut sweepers: Vec<Sweeper<V>>,
) -> Vec<Sweeper<V>>
    requires head { IsHead V.origin lock.now (seen_of seat.old) 16 (parts_of seat.old) seat.old }
    requires parts { collectors < parts_of seat.old }
    requires few { collectors ≤ 8 }
    requires of_gauge { IsPassOf gauge.now pass.old }
    requires none { sweepers.items ≡ [] }
    requires room { collectors ≤ vec_capacity sweepers }
    ensures may { All (λ w. MaySweep V.origin lock.now gauge.now w) result.items }
    ensures count { length result.items ≡ collectors }
    ensures parts { parts_of seat.new + collectors ≡ parts_of seat.old }
    ensures head { IsHead V.origin lock.now (seen_of seat.old) 24 (parts_of seat.new) seat.new }
    ensures of_gauge { IsPassOf gauge.now pass.new }
{
    for at in 0..collectors {
        let sweeper = Sweeper {
            seat: lock.split(seat, FIRST_COLLECTOR + at),
            pass: gauge.split(pass),
            turns,
        };
        sweepers.push_reserved(sweeper);
    }
    sweepers
}
