//! Hosts and collectors on threads of their own, beside one another.
ghost use Rattle.std.specs.Prelude.{◌≡◌, ◌<◌, All, List};
ghost use Rattle.fdp_base.specs.declared.command.Command.{Command};
ghost use Rattle.fdp_base.specs.Config.{IsValidConfig};
ghost use Rattle.fdp_crews.specs.Crews.{HaveServed, HaveSwept, IsDueFor, MaySweep};
ghost use Rattle.fdp_workers.specs.Hosting.{run_of};

use crate::sweeper::{Sweeper, collect};
use crate::worker::{Worker, work};
use fdp_base::DriveConfig;
use fdp_gauge::Gauge;
use fdp_io::Gate;
use fdp_lock::GroupLock;
use fdp_workers::Steps;
use std::alloc::Global;
use std::sync::Wait;
use std::thread;
use std::thread::{Threads, join};

/// Serves the traces of all hosts, each on a thread of its own as far as there are threads.
fn work_all<V: Steps + Send, G: Gate + Sync, R: Threads + Wait + Sync>(
    rt: &R,
    alloc: Global,
    lock: &GroupLock<V>,
    gauge: &Gauge,
    gate: &G,
    config: &DriveConfig,
    mut workers: Vec<Worker<V>>,
) -> Vec<Worker<V>>
    requires config { config.now ≡ (run_of V.origin V.run lock.now).config }
    requires valid { IsValidConfig config.now }
    requires due { (traces : List (List Command)) × All (λ w. IsDueFor V.origin V.run lock.now gauge.now traces w) workers.items }
    ensures { HaveServed V.origin V.run V.entry V.mark lock.now gauge.now workers.items result.items }
{
    let threads = workers.len().max(1);
    thread::for_each_mut(
        rt,
        &mut workers,
        threads,
        &|_, worker| { work(rt, alloc, lock, gauge, gate, config, worker) },
    );
    workers
}

/// Makes the turns of all collectors, each on a thread of its own as far as there are threads.
fn collect_all<V: Steps + Send, G: Gate + Sync, R: Threads + Wait + Sync>(
    rt: &R,
    lock: &GroupLock<V>,
    gauge: &Gauge,
    gate: &G,
    groups: u16,
    mut sweepers: Vec<Sweeper<V>>,
) -> Vec<Sweeper<V>>
    requires groups { groups ≡ (run_of V.origin V.run lock.now).config.groups }
    requires some { 0 < groups }
    requires may { All (λ w. MaySweep V.origin lock.now gauge.now w) sweepers.items }
    ensures { HaveSwept V.origin lock.now gauge.now sweepers.items result.items }
{
    let threads = sweepers.len().max(1);
    thread::for_each_mut(
        rt,
        &mut sweepers,
        threads,
        &|_, sweeper| { collect(rt, lock, gauge, gate, groups, sweeper) },
    );
    sweepers
}

/// Has all hosts serve their traces while all collectors make their turns. Where the last host has ended, the gauge tells the collectors.
pub fn run_crews<V: Steps + Send, G: Gate + Sync, R: Threads + Wait + Sync>(
    rt: &R,
    alloc: Global,
    lock: &GroupLock<V>,
    gauge: &Gauge,
    gate: &G,
    config: &DriveConfig,
    workers: Vec<Worker<V>>,
    sweepers: Vec<Sweeper<V>>,
) -> (Vec<Worker<V>>, Vec<Sweeper<V>>)
    requires config { config.now ≡ (run_of V.origin V.run lock.now).config }
    requires valid { IsValidConfig config.now }
    requires due { (traces : List (List Command)) × All (λ w. IsDueFor V.origin V.run lock.now gauge.now traces w) workers.items }
    requires may { All (λ w. MaySweep V.origin lock.now gauge.now w) sweepers.items }
    ensures hosts { HaveServed V.origin V.run V.entry V.mark lock.now gauge.now workers.items result.0.items }
    ensures collectors { HaveSwept V.origin lock.now gauge.now sweepers.items result.1.items }
{
    let groups = config.groups;
    // Where no thread can be made the first closure is called last: collectors sleep until the hosts have ended.
    let (sweepers, workers) = join(
        rt,
        ||
            requires { (groups ≡ (run_of V.origin V.run lock.now).config.groups) × (0 < groups) × All (λ w. MaySweep V.origin lock.now gauge.now w) sweepers.items }
        { collect_all(rt, lock, gauge, gate, groups, sweepers) },
        ||
            requires { (config.now ≡ (run_of V.origin V.run lock.now).config) × IsValidConfig config.now × (traces : List (List Command)) × All (λ w. IsDueFor V.origin V.run lock.now gauge.now traces w) workers.items }
        {
            let workers = work_all(rt, alloc, lock, gauge, gate, config, workers);
            gauge.finish();
            workers
        },
    );
    (workers, sweepers)
}
