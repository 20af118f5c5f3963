//! Hosts and collectors give back their seats and passes.
ghost use Rattle.std.specs.Prelude.{◌≡◌, ◌≢◌, ◌⊎◌, ◌+◌, ◌≤◌, ◌++◌, All, length, map, vec_capacity};
ghost use Rattle.fdp_crews.specs.Leaving.{IsSomeNotWhole};
ghost use Rattle.fdp_workers.specs.declared.ends.End.TheVariants as ends;

use crate::sweeper::Sweeper;
use crate::worker::Worker;
use fdp_base::Recorded;
use fdp_gauge::Pass;
use fdp_lock::Seat;
use fdp_workers::{End, Receipt};

/// Takes the seats, passes and receipts of the hosts, and answers how they ended: whole where each did, for want of steps where one did, else for
/// want of memory.
pub fn dismiss_hosts<V: Recorded>(
    workers: Vec<Worker<V>>,
    seats: &mut Vec<Seat<V>>,
    passes: &mut Vec<Pass>,
    receipts: &mut Vec<Vec<Receipt>>,
) -> End
    requires seats { length seats.old.items + length workers.items ≤ vec_capacity seats.old }
    requires passes { length passes.old.items + length workers.items ≤ vec_capacity passes.old }
    requires receipts { length receipts.old.items + length workers.items ≤ vec_capacity receipts.old }
    ensures seats { seats.new.items ≡ seats.old.items ++ map (λ w. w.seat) workers.items }
    ensures passes { passes.new.items ≡ passes.old.items ++ map (λ w. w.pass) workers.items }
    ensures receipts { receipts.new.items ≡ receipts.old.items ++ map (λ w. w.receipts) workers.items }
    ensures room_for_seats { vec_capacity seats.old ≤ vec_capacity seats.new }
    ensures room_for_passes { vec_capacity passes.old ≤ vec_capacity passes.new }
    ensures whole { result ≡ ends.Whole → All (λ w. w.end ≡ ends.Whole) workers.items }
    ensures left { result ≢ ends.Whole → IsSomeNotWhole (map (λ w. w.end) workers.items) }
{
    let mut end = End::Whole;
    for worker in workers {
        let Worker {
            seat,
            pass,
            trace: _,
            receipts: got,
            end: ended,
        } = worker;
        seats.push_reserved(seat);
        passes.push_reserved(pass);
        receipts.push_reserved(got);
        end = both(end, ended);
    }
    end
}

/// How two ended together.
fn both(one: End, other: End) -> End
    ensures whole { result ≡ ends.Whole → (one ≡ ends.Whole) × (other ≡ ends.Whole) }
    ensures first { result ≢ ends.Whole → other ≡ ends.Whole → one ≢ ends.Whole }
    ensures memory { result ≡ ends.NoMemory → (one ≡ ends.NoMemory) ⊎ (other ≡ ends.NoMemory) }
{
    match (one, other) {
        (End::Whole, End::Whole) => End::Whole,
        (End::Turns, _) | (_, End::Turns) => End::Turns,
        (End::NoMemory, _) | (_, End::NoMemory) => End::NoMemory,
    }
}

/// Takes the seats and passes of the collectors.
pub fn dismiss_collectors<V: Recorded>(
    sweepers: Vec<Sweeper<V>>,
    seats: &mut Vec<Seat<V>>,
    passes: &mut Vec<Pass>,
)
    requires seats { length seats.old.items + length sweepers.items ≤ vec_capacity seats.old }
    requires passes { length passes.old.items + length sweepers.items ≤ vec_capacity passes.old }
    ensures seats { seats.new.items ≡ seats.old.items ++ map (λ w. w.seat) sweepers.items }
    ensures passes { passes.new.items ≡ passes.old.items ++ map (λ w. w.pass) sweepers.items }
{
    for sweeper in sweepers {
        let Sweeper {
            seat,
            pass,
            turns: _,
        } = sweeper;
        seats.push_reserved(seat);
        passes.push_reserved(pass);
    }
}
