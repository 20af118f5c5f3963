use fdp_cli::drive_top;
use fdp_io::{BenchMem, OpenGate, SinkMem};
use std::alloc::{AllocError, Global};
use std::sync::Wait;
use std::test::Fail;
use std::thread::Threads;

mod calls;
mod configurations;
mod texts;

/// What is asked for, the configuration of the name `c` and the trace of the name `t`, and the sink's call that fails.
#[derive(Drop)]
struct Run<'a> {
    words: &'a [&'a str],
    config: &'a [u8],
    trace: &'a [u8],
    sink_fails: Option<u64>,
}

const RUN: [&str; 4] = ["run", "c", "blank", "t"];

/// Room for every output of these tests.
const AMPLE: usize = 1 << 20;

/// The drive of `examples/drive-s.toml`.
const DRIVE_S: &[u8] = b"\
    block = 512\n\
    unit_pages = 8\n\
    groups = 1\n\
    units = 12\n\
    area_units = 4\n\
    queues = 1\n\
    blocks_per_command = 4\n\
    fdp = [[\"initial\"]]\n\
    enabled = true\n\
    index = 0\n\
    queue_depth = 64\n\
    collectors = 0\n\
    turns = 0\n\
    namespaces = [{ blocks = 52, handles = [0] }]\n\
";

/// A run in which no call fails.
fn run_of<'a>(words: &'a [&'a str], config: &'a [u8], trace: &'a [u8]) -> Run<'a> {
    Run {
        words,
        config,
        trace,
        sink_fails: None,
    }
}

fn failing(alloc: Global, call: Option<u64>) -> Result<Vec<u64>, AllocError> {
    let mut calls = Vec::new(alloc);
    if let Some(call) = call {
        calls.push(call)?;
    }
    Ok(calls)
}

/// The status of a run, and what its sink then holds.
fn outcome<R: Threads + Wait + Sync>(
    rt: &R,
    alloc: Global,
    run: &Run,
) -> Result<(u8, Vec<u8>), AllocError> {
    let mut words = Vec::new(alloc);
    for word in run.words {
        words.push(String::from_str(alloc, word)?)?;
    }
    let mut bench = BenchMem::new(alloc, Vec::new(alloc));
    bench.add(alloc, "c", run.config)?;
    bench.add(alloc, "t", run.trace)?;
    let mut sink = SinkMem::new(alloc, AMPLE, failing(alloc, run.sink_fails)?)?;
    let status = drive_top(rt, alloc, &words, &mut bench, &mut sink, &OpenGate);
    Ok((status, Vec::from_slice(alloc, sink.bytes())?))
}

/// Whether a run ends with a status, and its sink then holds a text.
fn ends<R: Threads + Wait + Sync>(
    rt: &R,
    alloc: Global,
    run: &Run,
    status: u8,
    output: &[u8],
) -> Result<bool, AllocError> {
    let (ended, held) = outcome(rt, alloc, run)?;
    Ok(ended == status && held.as_slice() == output)
}

/// Whether a trace on drive S ends with a status and an output.
fn serves<R: Threads + Wait + Sync>(
    rt: &R,
    alloc: Global,
    trace: &[u8],
    status: u8,
    output: &[u8],
) -> Result<bool, AllocError> {
    ends(rt, alloc, &run_of(&RUN, DRIVE_S, trace), status, output)
}
