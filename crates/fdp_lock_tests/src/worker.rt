ghost use Rattle.std.specs.Prelude.{◌≡◌, ◌≢◌, ◌+◌, ◌^◌, ◌≤◌};
ghost use Rattle.fdp_lock.specs.Seats.{turns_of, number_of, parts_of, HoldsNoTurn, IsSeatOf};
ghost use Rattle.fdp_lock_tests.specs.Tally.{name_of, IsFresh, IsBack};

use crate::tally::Tally;
use fdp_lock::{Boxed, GroupLock, Seat};
use std::sync::Wait;
use std::sync::atomic::{AtomicU32, Ordering};
use std::thread::{Threads, join};

/// How many turns, and for how many rounds of a loop each lasts.
#[derive(Clone, Copy)]
pub struct Load {
    pub turns: u32,
    pub rounds: u32,
}

/// Takes so many turns, and adds the number of the seat in each, as far as there is memory.
pub fn work<R: Wait>(
    rt: &R,
    lock: &GroupLock<Boxed<Tally>>,
    mut seat: Seat<Boxed<Tally>>,
    load: Load,
) -> Seat<Boxed<Tally>>
    requires { IsFresh lock.now seat }
    ensures { IsBack lock.now seat result }
{
    for _ in 0..load.turns {
        take_turn(rt, lock, &mut seat, load.rounds);
    }
    seat
}

fn take_turn<R: Wait>(
    rt: &R,
    lock: &GroupLock<Boxed<Tally>>,
    seat: &mut Seat<Boxed<Tally>>,
    rounds: u32,
)
    requires of_lock { IsSeatOf name_of lock.now seat.old }
    requires no_turn { HoldsNoTurn seat.old }
    requires few { turns_of seat.old + 1 ≤ 2 ^ 40 }
    ensures of_lock { IsSeatOf name_of lock.now seat.new }
    ensures no_turn { HoldsNoTurn seat.new }
    ensures number { number_of seat.new ≡ number_of seat.old }
    ensures parts { parts_of seat.new ≡ parts_of seat.old }
    ensures turns { turns_of seat.new ≡ turns_of seat.old + 1 }
{
    let mut turn = lock.enter(rt, seat);
    linger(rounds);
    // A number that is missing is seen by the test.
    let _ = turn.value.value.numbers.push(seat.number());
    lock.leave(turn, seat);
}

/// Passes time, some nanoseconds a round.
pub fn linger(rounds: u32) {
    let looks = AtomicU32::new(0);
    for _ in 0..rounds {
        looks.fetch_add(1, Ordering::SeqCst);
    }
}

/// Two seats on threads of their own.
pub fn work_both<R: Threads + Wait + Sync>(
    rt: &R,
    lock: &GroupLock<Boxed<Tally>>,
    one: Seat<Boxed<Tally>>,
    two: Seat<Boxed<Tally>>,
    load: Load,
) -> (Seat<Boxed<Tally>>, Seat<Boxed<Tally>>)
    requires one { IsFresh lock.now one }
    requires two { IsFresh lock.now two }
    ensures one { IsBack lock.now one result.0 }
    ensures two { IsBack lock.now two result.1 }
{
    join(
        rt,
        || work(rt, lock, one, load),
        || work(rt, lock, two, load),
    )
}

/// Four seats on threads of their own.
pub fn work_four<R: Threads + Wait + Sync>(
    rt: &R,
    lock: &GroupLock<Boxed<Tally>>,
    a: Seat<Boxed<Tally>>,
    b: Seat<Boxed<Tally>>,
    c: Seat<Boxed<Tally>>,
    d: Seat<Boxed<Tally>>,
    load: Load,
) -> (
    (Seat<Boxed<Tally>>, Seat<Boxed<Tally>>),
    (Seat<Boxed<Tally>>, Seat<Boxed<Tally>>),
)
    requires front { IsFresh lock.now a × IsFresh lock.now b }
    requires back { IsFresh lock.now c × IsFresh lock.now d }
    ensures front { IsBack lock.now a result.0.0 × IsBack lock.now b result.0.1 }
    ensures back { IsBack lock.now c result.1.0 × IsBack lock.now d result.1.1 }
{
    join(
        rt,
        || -> (Seat<Boxed<Tally>>, Seat<Boxed<Tally>>)
            requires { IsFresh lock.now a × IsFresh lock.now b }
            ensures { IsBack lock.entry.now a result.0 × IsBack lock.entry.now b result.1 }
        { work_both(rt, lock, a, b, load) },
        || -> (Seat<Boxed<Tally>>, Seat<Boxed<Tally>>)
            requires { IsFresh lock.now c × IsFresh lock.now d }
            ensures { IsBack lock.entry.now c result.0 × IsBack lock.entry.now d result.1 }
        { work_both(rt, lock, c, d, load) },
    )
}
