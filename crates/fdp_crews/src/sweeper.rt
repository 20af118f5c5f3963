ghost use Rattle.std.specs.Prelude.{◌≡◌, ◌<◌};
ghost use Rattle.fdp_crews.specs.Crews.{HasSwept, MaySweep};
ghost use Rattle.fdp_workers.specs.Hosting.{run_of};

use fdp_base::Recorded;
use fdp_gauge::{Gauge, Pass};
use fdp_io::Gate;
use fdp_lock::{GroupLock, Seat};
use fdp_workers::{Steps, sweep};
use std::sync::Wait;

/// A collector for which a thread works: its seat and its pass, and the turns that it may take.
#[derive(Drop)]
pub struct Sweeper<V: Recorded> {
    pub seat: Seat<V>,
    pub pass: Pass,
    pub turns: u32,
}

/// Makes the turns of a collector. Where memory is wanting for a turn it makes no further one; hosts make the passes that they need.
pub fn collect<V: Steps, G: Gate, R: Wait>(
    rt: &R,
    lock: &GroupLock<V>,
    gauge: &Gauge,
    gate: &G,
    groups: u16,
    sweeper: &mut Sweeper<V>,
)
    requires groups { groups ≡ (run_of V.origin V.run lock.now).config.groups }
    requires some { 0 < groups }
    requires may { MaySweep V.origin lock.now gauge.now sweeper.old }
    ensures { HasSwept V.origin lock.now gauge.now sweeper.new }
{
    let _swept = sweep(
        rt,
        lock,
        gauge,
        gate,
        &mut sweeper.seat,
        &mut sweeper.pass,
        groups,
        sweeper.turns,
    );
}
