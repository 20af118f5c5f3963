ghost use Rattle.std.specs.Prelude.{◌≡◌};
ghost use Rattle.fdp_base.specs.Config.{IsValidConfig};
ghost use Rattle.fdp_crews.specs.Crews.{HasServed, IsDue, end_of};
ghost use Rattle.fdp_lock.specs.Seats.{number_of};
ghost use Rattle.fdp_workers.specs.Hosting.{run_of};

use fdp_base::{Command, DriveConfig, Recorded};
use fdp_gauge::{Gauge, Pass};
use fdp_io::Gate;
use fdp_lock::{GroupLock, Seat};
use fdp_workers::{End, Receipt, Steps, Stop, serve_trace};
use std::alloc::Global;
use std::mem;
use std::sync::Wait;

/// A host for which a thread works: its seat and its pass, the trace that it is to serve, its receipts and how it ended.
#[derive(Drop)]
pub struct Worker<V: Recorded> {
    pub seat: Seat<V>,
    pub pass: Pass,
    pub trace: Vec<Command>,
    pub receipts: Vec<Receipt>,
    pub end: End,
}

/// Serves the trace of a host.
pub fn work<V: Steps, G: Gate, R: Wait>(
    rt: &R,
    alloc: Global,
    lock: &GroupLock<V>,
    gauge: &Gauge,
    gate: &G,
    config: &DriveConfig,
    worker: &mut Worker<V>,
)
    requires config { config.now ≡ (run_of V.origin V.run lock.now).config }
    requires valid { IsValidConfig config.now }
    requires due { IsDue V.origin V.run lock.now gauge.now worker.old }
    ensures served { HasServed V.origin V.run V.entry V.mark lock.now gauge.now worker.old.trace.items worker.new }
    ensures same { number_of worker.new.seat ≡ number_of worker.old.seat }
{
    let trace = mem::replace(&mut worker.trace, Vec::new(alloc));
    let served = serve_trace(
        rt,
        alloc,
        lock,
        gauge,
        gate,
        config,
        &mut worker.seat,
        &mut worker.pass,
        trace,
        &mut worker.receipts,
    );
    worker.end = end_of(served);
}

fn end_of(served: Result<(), Stop>) -> End
    ensures { result ≡ end_of served }
{
    match served {
        Ok(()) => End::Whole,
        Err(Stop::Turns) => End::Turns,
        Err(Stop::NoMemory) => End::NoMemory,
    }
}
