//! Collectors: each makes steps of relocation, beside the hosts.
ghost use Rattle.std.specs.Prelude.{◌≡◌, ◌≢◌, ◌+◌, ◌^◌, ◌≤◌, ◌<◌};
ghost use mathlib.Core.List.{IsPrefix};
ghost use Rattle.fdp_gauge.specs.Passes.{seen_of, IsPassOf};
ghost use Rattle.fdp_lock.specs.Seats.{turns_of, HoldsNoTurn, IsSeatOf};
ghost use Rattle.fdp_workers.specs.declared.ends.End.TheVariants as ends;
ghost use Rattle.fdp_workers.specs.Hosting.{AddsNothing, run_of};

use crate::ends::{CollectorEnd, End};
use crate::steps::Steps;
use crate::stop::Stop;
use crate::turns::take_room;
use fdp_core::Advance;
use fdp_gauge::{Gauge, Pass, Sight};
use fdp_io::{Gate, Point};
use fdp_lock::{GroupLock, Seat};
use std::alloc::AllocError;
use std::sync::Wait;

/// Makes steps of relocation over the groups in rotation, each in a turn of its own, and at most so many turns. Where no group has work, it sleeps until
/// the gauge shows a record in another stretch, or that no more is told; it ends where no group has work behind that. It ends early where there is no
/// memory, or no further step may be made.
pub fn collector<V: Steps, G: Gate, R: Wait>(
    rt: &R,
    lock: &GroupLock<V>,
    gauge: &Gauge,
    gate: &G,
    seat: Seat<V>,
    pass: Pass,
    groups: u16,
    turns: u32,
) -> CollectorEnd<V>
    requires of_lock { IsSeatOf V.origin lock.now seat × HoldsNoTurn seat }
    requires new { turns_of seat ≡ 0 }
    requires of_gauge { IsPassOf gauge.now pass }
    requires groups { groups ≡ (run_of V.origin V.run lock.now).config.groups }
    requires some { 0 < groups }
    ensures of_lock { IsSeatOf V.origin lock.now result.seat × HoldsNoTurn result.seat }
    ensures nothing { AddsNothing seat result.seat }
    ensures of_gauge { IsPassOf gauge.now result.pass }
    ensures goes_on { IsPrefix (seen_of pass) (seen_of result.pass) }
    ensures turns { turns_of result.seat ≤ turns }
    ensures end { result.end ≢ ends.Turns }
{
    let mut seat = seat;
    let mut pass = pass;
    match sweep(rt, lock, gauge, gate, &mut seat, &mut pass, groups, turns) {
        Ok(()) => CollectorEnd {
            seat,
            pass,
            end: End::Whole,
        },
        Err(AllocError) => CollectorEnd {
            seat,
            pass,
            end: End::NoMemory,
        },
    }
}

/// Makes the turns of a collector, as [`collector`] does, with what it is lent.
pub fn sweep<V: Steps, G: Gate, R: Wait>(
    rt: &R,
    lock: &GroupLock<V>,
    gauge: &Gauge,
    gate: &G,
    seat: &mut Seat<V>,
    pass: &mut Pass,
    groups: u16,
    turns: u32,
) -> Result<(), AllocError>
    requires of_lock { IsSeatOf V.origin lock.now seat.old × HoldsNoTurn seat.old }
    requires new { turns_of seat.old ≡ 0 }
    requires of_gauge { IsPassOf gauge.now pass.old }
    requires groups { groups ≡ (run_of V.origin V.run lock.now).config.groups }
    requires some { 0 < groups }
    ensures of_lock { IsSeatOf V.origin lock.now seat.new × HoldsNoTurn seat.new }
    ensures nothing { AddsNothing seat.old seat.new }
    ensures of_gauge { IsPassOf gauge.now pass.new }
    ensures goes_on { IsPrefix (seen_of pass.old) (seen_of pass.new) }
    ensures turns { turns_of seat.new ≤ turns }
{
    let mut rg = 0;
    let mut looked = Looked {
        sight: Sight {
            stretch: 0,
            is_over: false,
        },
        groups: 0,
    };
    let mut left = turns;
    for _ in rt.forever() {
        if left == 0 {
            return Ok(());
        }
        let sight = gauge.watch(rt, pass);
        if looked.has_seen(sight, groups) {
            if sight.is_over {
                return Ok(());
            }
            gauge.wait(rt, sight);
            continue;
        }
        match collect(rt, lock, gate, seat, rg) {
            Ok(advance) => looked.note(sight, advance),
            Err(Stop::NoMemory) => return Err(AllocError),
            Err(Stop::Turns) => return Ok(()),
        }
        rg = after(rg, groups);
        left -= 1;
    }
    // The loop ends by its returns alone.
    unreachable!()
}

/// The groups in a row that had nothing to do while the record stood there.
#[derive(Clone, Copy)]
struct Looked {
    sight: Sight,
    groups: u16,
}

impl Looked {
    /// Whether no group had work since the record stands there.
    fn has_seen(&self, sight: Sight, groups: u16) -> bool {
        self.sight == sight && self.groups >= groups
    }

    fn note(&mut self, sight: Sight, advance: Advance) {
        let nothing = match advance {
            Advance::Nothing => true,
            Advance::Copied
            | Advance::Moved
            | Advance::Erased
            | Advance::Starved
            | Advance::Fault => false,
        };
        if self.sight != sight || !nothing {
            self.groups = 0;
        }
        if nothing {
            self.groups = self.groups.saturating_add(1);
        }
        self.sight = sight;
    }
}

/// The next group in rotation.
fn after(rg: u16, groups: u16) -> u16
    requires { rg < groups }
    ensures { result < groups }
{
    if rg + 1 == groups { 0 } else { rg + 1 }
}

/// The turn of one step of relocation in a group.
fn collect<V: Steps, G: Gate, R: Wait>(
    rt: &R,
    lock: &GroupLock<V>,
    gate: &G,
    seat: &mut Seat<V>,
    rg: u16,
) -> Result<Advance, Stop>
    requires of_lock { IsSeatOf V.origin lock.now seat.old × HoldsNoTurn seat.old }
    requires few { turns_of seat.old < 2 ^ 40 }
    requires group { rg < (run_of V.origin V.run lock.now).config.groups }
    ensures of_lock { IsSeatOf V.origin lock.now seat.new × HoldsNoTurn seat.new }
    ensures nothing { AddsNothing seat.old seat.new }
    ensures turns { turns_of seat.new ≡ turns_of seat.old + 1 }
{
    gate.at(0, Point::Begun);
    let mut turn = lock.enter(rt, seat);
    if let Err(stop) = take_room(&mut turn.value) {
        lock.leave(turn, seat);
        return Err(stop);
    }
    let advance = turn.value.collect(rg);
    lock.leave(turn, seat);
    if advance == Advance::Copied {
        gate.at(0, Point::Copied);
    }
    Ok(advance)
}
