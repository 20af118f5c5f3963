//! Sixteen hosts and eight collectors, each of which waits in its first turn for all others of its kind: the run ends by itself.
use crate::outcome::run;
use crate::texts::Trace;
use crate::waits::Waits;
use fdp_io::{BenchMem, Gate, Point};
use std::alloc::{AllocError, Global};
use std::sync::Wait;
use std::sync::atomic::AtomicUsize;
use std::thread::Threads;

const CONFIG: &[u8] = b"\
    block = 512\n\
    unit_pages = 8\n\
    groups = 2\n\
    units = 60\n\
    area_units = 8\n\
    queues = 16\n\
    blocks_per_command = 4\n\
    fdp = [[\"initial\", \"persistent\"]]\n\
    enabled = true\n\
    index = 0\n\
    queue_depth = 2\n\
    collectors = 8\n\
    turns = 1000\n\
    namespaces = [{ blocks = 256, handles = [0, 1] }]\n\
";

const HOSTS: usize = 16;

const COLLECTORS: usize = 8;

/// How many turns of hosts and of collectors have begun.
#[derive(Drop)]
struct Meeting {
    hosts: AtomicUsize,
    collectors: AtomicUsize,
    waits: Waits,
}

impl Meeting {
    fn new() -> Meeting {
        Meeting {
            hosts: AtomicUsize::new(0),
            collectors: AtomicUsize::new(0),
            waits: Waits::new(),
        }
    }
}

impl Gate for Meeting {
    fn at(&self, queue: u8, point: Point) {
        match point {
            Point::Begun if queue == 0 => self.waits.meet(&self.collectors, COLLECTORS),
            Point::Begun => self.waits.meet(&self.hosts, HOSTS),
            Point::Placed | Point::BeforeCommit | Point::Ended | Point::Copied => {}
        }
    }
}

/// The trace of a queue: sixteen blocks of its own, the part of the namespace that is named, written again and again.
fn trace_of(alloc: Global, part: u8) -> Result<Trace, AllocError> {
    let mut trace = Trace::new(alloc);
    let first = 16 * u32::from(part);
    let group = if part % 2 == 0 { 0x8000 } else { 0 };
    let pid = group + u16::from(part % 4 / 2);
    for step in 0..60u32 {
        trace.write(alloc, 1, first + 4 * (step % 4), 4, step, pid)?;
    }
    trace.read(alloc, 1, first, 4)?;
    Ok(trace)
}

/// The row, and how it came out.
pub fn row<R: Threads + Wait + Sync>(rt: &R, alloc: Global) -> Result<String, AllocError> {
    let mut bench = BenchMem::new(alloc, Vec::new(alloc));
    bench.add(alloc, "config", CONFIG)?;
    let names = [
        "q1", "q2", "q3", "q4", "q5", "q6", "q7", "q8", "q9", "q10", "q11", "q12", "q13", "q14",
        "q15", "q16",
    ];
    for (name, part) in names.iter().zip(0..16u8) {
        bench.add(alloc, name, trace_of(alloc, part)?.text.as_bytes())?;
    }
    let mut words = Vec::from_slice(alloc, &["run", "config", "image"])?;
    words.extend_from_slice(&names)?;
    let gate = Meeting::new();
    let came = run(rt, alloc, &words, &mut bench, 1 << 20, &gate)?;
    let (status, well) = (came.status, came.count(b"0/00"));
    let late = gate.waits.late();
    format!(in alloc; "many: status {status}, {well} commands succeeded, {late} waits ran out")
}
