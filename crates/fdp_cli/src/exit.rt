ghost use Rattle.std.specs.Process.{exit_status};
ghost use Rattle.fdp_io.specs.Bench.{SameTexts};
ghost use Rattle.fdp_cli.specs.Top.{Answers};

use crate::top::drive_top;
use fdp_io::{Bench, Gate, Sink};
use std::alloc::Global;
use std::process::ExitCode;
use std::sync::Wait;
use std::thread::Threads;

/// Serves the run that the words ask for, and gives the status of the process, which is that of the run.
pub fn drive_process<B: Bench, K: Sink, G: Gate + Sync, R: Threads + Wait + Sync>(
    rt: &R,
    alloc: Global,
    words: &[String],
    bench: &mut B,
    sink: &mut K,
    gate: &G,
) -> ExitCode
    ensures texts { SameTexts (B.state bench.old) (B.state bench.new) }
    ensures status { Answers B.F.state (B.state bench.old) (B.state bench.new) words.now (K.state sink.old) (K.state sink.new) (exit_status result) }
{
    ExitCode::from(drive_top(rt, alloc, words, bench, sink, gate))
}
