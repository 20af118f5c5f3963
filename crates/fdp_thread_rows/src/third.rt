//! Relocation that is due in the third group, while the others have nothing to do: collectors alone can make it, since each host waits for the first copy. The
//! length of the record that a collector saw before its first look is an old one: the look at the second group is the first that may put it to sleep.
use crate::filling::{FILLING, filling_trace};
use crate::outcome::run;
use crate::texts::Trace;
use crate::waits::Waits;
use fdp_io::{BenchMem, Gate, Point};
use std::alloc::{AllocError, Global};
use std::sync::Wait;
use std::sync::atomic::{AtomicUsize, Ordering};
use std::thread::Threads;

const CONFIG: &[u8] = b"\
    block = 512\n\
    unit_pages = 8\n\
    groups = 3\n\
    units = 20\n\
    area_units = 4\n\
    queues = 3\n\
    blocks_per_command = 4\n\
    fdp = [[\"initial\", \"initial\", \"persistent\"]]\n\
    enabled = true\n\
    index = 0\n\
    queue_depth = 16\n\
    collectors = 2\n\
    turns = 4096\n\
    namespaces = [{ blocks = 80, handles = [0, 1, 2] }]\n\
";

const COLLECTORS: usize = 2;

/// What the workers have come to.
#[derive(Drop)]
struct Third {
    /// The commands of host 1 that have ended.
    filled: AtomicUsize,
    /// The turns of collectors that have begun.
    collectors: AtomicUsize,
    copied: AtomicUsize,
    waits: Waits,
}

impl Third {
    fn new() -> Third {
        Third {
            filled: AtomicUsize::new(0),
            collectors: AtomicUsize::new(0),
            copied: AtomicUsize::new(0),
            waits: Waits::new(),
        }
    }

    /// Each collector waits in its first turn for the other one, and for host 1.
    fn at_collector(&self, point: Point) {
        match point {
            Point::Begun => {
                self.waits.meet(&self.collectors, COLLECTORS);
                self.waits.hold(&self.filled, FILLING);
            }
            Point::Copied => {
                self.copied.fetch_add(1, Ordering::SeqCst);
            }
            Point::Placed | Point::BeforeCommit | Point::Ended => {}
        }
    }

    /// Host 1 waits for the first copy before the command behind those that fill the group.
    fn at_first(&self, point: Point) {
        match point {
            Point::Begun => {
                if self.filled.load(Ordering::SeqCst) >= FILLING {
                    self.waits.hold(&self.copied, 1);
                }
            }
            Point::Ended => {
                self.filled.fetch_add(1, Ordering::SeqCst);
            }
            Point::Placed | Point::BeforeCommit | Point::Copied => {}
        }
    }

    /// The other hosts wait for the first copy before they begin.
    fn at_other(&self, point: Point) {
        match point {
            Point::Begun => self.waits.hold(&self.copied, 1),
            Point::Placed | Point::BeforeCommit | Point::Ended | Point::Copied => {}
        }
    }
}

impl Gate for Third {
    fn at(&self, queue: u8, point: Point) {
        match queue {
            0 => self.at_collector(point),
            1 => self.at_first(point),
            _ => self.at_other(point),
        }
    }
}

/// Reads a block.
fn other_trace(alloc: Global, slba: u32) -> Result<Trace, AllocError> {
    let mut trace = Trace::new(alloc);
    trace.read(alloc, 1, slba, 1)?;
    Ok(trace)
}

/// The row, and how it came out.
pub fn row<R: Threads + Wait + Sync>(rt: &R, alloc: Global) -> Result<String, AllocError> {
    let mut bench = BenchMem::new(alloc, Vec::new(alloc));
    bench.add(alloc, "config", CONFIG)?;
    bench.add(
        alloc,
        "first",
        filling_trace(alloc, 0x8000)?.text.as_bytes(),
    )?;
    bench.add(alloc, "second", other_trace(alloc, 7)?.text.as_bytes())?;
    bench.add(alloc, "third", other_trace(alloc, 15)?.text.as_bytes())?;
    let gate = Third::new();
    let words = ["run", "config", "image", "first", "second", "third"];
    let came = run(rt, alloc, &words, &mut bench, 1 << 16, &gate)?;
    let (status, well) = (came.status, came.count(b"0/00"));
    let late = gate.waits.late();
    let copied = gate.copied.load(Ordering::SeqCst) > 0;
    format!(in alloc;
        "third: status {status}, {well} commands succeeded, a page was copied: {copied}, {late} waits ran out"
    )
}
