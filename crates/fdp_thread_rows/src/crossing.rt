//! Hosts and a collector that have to wait for one another within their commands and passes. A run on one thread does not get through, nor one that keeps the
//! drive over a whole command, nor one whose collector makes no step.
use crate::filling::{FILLING, filling_trace};
use crate::outcome::run;
use crate::texts::Trace;
use crate::waits::Waits;
use fdp_io::{BenchMem, Gate, Point};
use std::alloc::{AllocError, Global};
use std::sync::Wait;
use std::sync::atomic::{AtomicUsize, Ordering};
use std::thread::Threads;

const CONFIG: &[u8] = b"\
    block = 512\n\
    unit_pages = 8\n\
    groups = 2\n\
    units = 20\n\
    area_units = 4\n\
    queues = 2\n\
    blocks_per_command = 4\n\
    fdp = [[\"initial\", \"initial\", \"persistent\"]]\n\
    enabled = true\n\
    index = 0\n\
    queue_depth = 16\n\
    collectors = 1\n\
    turns = 4096\n\
    namespaces = [{ blocks = 80, handles = [0, 1, 2] }]\n\
";

/// What the workers have come to.
#[derive(Drop)]
struct Crossing {
    ended_first: AtomicUsize,
    ended_second: AtomicUsize,
    begun_second: AtomicUsize,
    ready_first: AtomicUsize,
    copied: AtomicUsize,
    waits: Waits,
}

impl Crossing {
    fn new() -> Crossing {
        Crossing {
            ended_first: AtomicUsize::new(0),
            ended_second: AtomicUsize::new(0),
            begun_second: AtomicUsize::new(0),
            ready_first: AtomicUsize::new(0),
            copied: AtomicUsize::new(0),
            waits: Waits::new(),
        }
    }

    /// The collector begins once the group has three free units, and waits behind its first copy for the overwrite of host 2.
    fn at_collector(&self, point: Point) {
        match point {
            Point::Begun => self.waits.hold(&self.ended_first, FILLING),
            Point::Copied => {
                if self.copied.fetch_add(1, Ordering::SeqCst) == 0 {
                    self.waits.hold(&self.ended_second, 2);
                }
            }
            Point::Placed | Point::BeforeCommit | Point::Ended => {}
        }
    }

    /// Host 1 waits within its last command for the first one of host 2.
    fn at_first(&self, point: Point) {
        match point {
            Point::BeforeCommit => {
                if self.ready_first.fetch_add(1, Ordering::SeqCst) == FILLING {
                    self.waits.hold(&self.ended_second, 1);
                }
            }
            Point::Ended => {
                self.ended_first.fetch_add(1, Ordering::SeqCst);
            }
            Point::Begun | Point::Placed | Point::Copied => {}
        }
    }

    /// Host 2 waits before its first command until host 1 is within its last one, and before its overwrite, its second command, for the first copy.
    fn at_second(&self, point: Point) {
        match point {
            Point::Begun => match self.begun_second.fetch_add(1, Ordering::SeqCst) {
                0 => self.waits.hold(&self.ready_first, FILLING + 1),
                1 => self.waits.hold(&self.copied, 1),
                _ => {}
            },
            Point::Ended => {
                self.ended_second.fetch_add(1, Ordering::SeqCst);
            }
            Point::Placed | Point::BeforeCommit | Point::Copied => {}
        }
    }
}

impl Gate for Crossing {
    fn at(&self, queue: u8, point: Point) {
        match queue {
            0 => self.at_collector(point),
            1 => self.at_first(point),
            _ => self.at_second(point),
        }
    }
}

/// Reads a block, overwrites one whose page the collector copies, and reads that.
fn second_trace(alloc: Global) -> Result<Trace, AllocError> {
    let mut trace = Trace::new(alloc);
    trace.read(alloc, 1, 79, 1)?;
    trace.write(alloc, 1, 7, 1, 77, 0x8000)?;
    trace.read(alloc, 1, 7, 1)?;
    Ok(trace)
}

/// The row, and how it came out.
pub fn row<R: Threads + Wait + Sync>(rt: &R, alloc: Global) -> Result<String, AllocError> {
    let mut bench = BenchMem::new(alloc, Vec::new(alloc));
    bench.add(alloc, "config", CONFIG)?;
    bench.add(alloc, "first", filling_trace(alloc, 0)?.text.as_bytes())?;
    bench.add(alloc, "second", second_trace(alloc)?.text.as_bytes())?;
    let gate = Crossing::new();
    let words = ["run", "config", "image", "first", "second"];
    let came = run(rt, alloc, &words, &mut bench, 1 << 16, &gate)?;
    let (status, well) = (came.status, came.count(b"0/00"));
    let late = gate.waits.late();
    let copied = gate.copied.load(Ordering::SeqCst) > 0;
    format!(in alloc;
        "crossing: status {status}, {well} commands succeeded, a page was copied: {copied}, {late} waits ran out"
    )
}
