//! Two hosts and two collectors over a flash of which many calls fail: each completion is a success or a media error, and the image opens again.
use crate::outcome::run;
use crate::texts::Trace;
use fdp_base::{Geometry, Sequence};
use fdp_flash::{FlashMem, Outcome, Plan};
use fdp_io::{BenchMem, OpenGate};
use std::alloc::{AllocError, Global};
use std::sync::Wait;
use std::thread::Threads;

const CONFIG: &[u8] = b"\
    block = 512\n\
    unit_pages = 8\n\
    groups = 1\n\
    units = 80\n\
    area_units = 4\n\
    queues = 2\n\
    blocks_per_command = 4\n\
    fdp = [[\"initial\"]]\n\
    enabled = true\n\
    index = 0\n\
    queue_depth = 16\n\
    collectors = 2\n\
    turns = 2000\n\
    namespaces = [{ blocks = 64, handles = [0] }]\n\
";

const GEOMETRY: Geometry = Geometry {
    block: 512,
    unit_pages: 8,
    groups: 1,
    units: 80,
    area_units: 4,
};

/// The first call that fails, behind those of an opening, and how many calls stand between two that do.
const FIRST: u64 = 1_500;

const STEP: u64 = 97;

/// The trace of a queue: its half of the namespace, 0 or 1, written and read again and again.
fn trace_of(alloc: Global, half: u8) -> Result<Trace, AllocError> {
    let mut trace = Trace::new(alloc);
    for step in 0..500u32 {
        let slba = 32 * u32::from(half) + 4 * (step % 8);
        trace.write(alloc, 1, slba, 4, step, 0)?;
        if step % 4 == 3 {
            trace.read(alloc, 1, slba, 4)?;
        }
    }
    Ok(trace)
}

/// A blank flash of which every so many calls one fails.
fn flash(alloc: Global) -> Result<FlashMem, AllocError> {
    let mut failing = Vec::new(alloc);
    for turn in 0..30u64 {
        let outcome = match turn % 3 {
            0 => Outcome::Blank,
            1 => Outcome::Torn,
            _ => Outcome::Whole,
        };
        failing.push((FIRST + STEP * turn, outcome))?;
    }
    let mut plan = Plan::empty(alloc);
    plan.failing = Sequence::from_vec(failing);
    FlashMem::new(alloc, GEOMETRY, plan)
}

/// The row, and how it came out.
pub fn row<R: Threads + Wait + Sync>(rt: &R, alloc: Global) -> Result<String, AllocError> {
    let mut bench = BenchMem::new(alloc, Vec::new(alloc));
    bench.add(alloc, "config", CONFIG)?;
    bench.add(alloc, "q1", trace_of(alloc, 0)?.text.as_bytes())?;
    bench.add(alloc, "q2", trace_of(alloc, 1)?.text.as_bytes())?;
    bench.add(alloc, "none", b"")?;
    bench.lay_flash(alloc, "image", flash(alloc)?)?;
    let words = ["run", "config", "image", "q1", "q2"];
    let came = run(rt, alloc, &words, &mut bench, 1 << 20, &OpenGate)?;
    let well = came.count(b"0/00");
    let faulty = came.count(b"2/80").saturating_add(came.count(b"2/81"));
    let all = well.saturating_add(faulty);
    let again = run(
        rt,
        alloc,
        &["run", "config", "image", "none"],
        &mut bench,
        1 << 16,
        &OpenGate,
    )?;
    let (first, second) = (came.status, again.status);
    let met = faulty > 0;
    format!(in alloc;
        "faulty: status {first}, {all} commands succeeded or met a failed call, some met one: {met}, opened again: status {second}"
    )
}
