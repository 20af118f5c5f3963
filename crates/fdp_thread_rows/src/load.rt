//! Four hosts and two collectors on a drive that has to be relocated: sequential and scattered writes, deallocations, reads and logs.
use crate::judged::judge;
use crate::outcome::run;
use crate::texts::Trace;
use fdp_io::{BenchMem, OpenGate};
use std::alloc::{AllocError, Global};
use std::sync::Wait;
use std::thread::Threads;

const CONFIG: &[u8] = b"\
    block = 4096\n\
    unit_pages = 64\n\
    groups = 2\n\
    units = 128\n\
    area_units = 1\n\
    queues = 4\n\
    blocks_per_command = 64\n\
    fdp = [[\"initial\", \"initial\", \"persistent\", \"persistent\"]]\n\
    enabled = true\n\
    index = 0\n\
    queue_depth = 16\n\
    collectors = 2\n\
    turns = 4096\n\
    namespaces = [{ blocks = 6000, handles = [0, 2] }, { blocks = 6000, handles = [1, 2] }]\n\
";

/// The trace of a queue: its own half of a namespace, in the group that its number names.
fn trace_of(alloc: Global, queue: u16) -> Result<Trace, AllocError> {
    let nsid = if queue <= 2 { 1 } else { 2 };
    let first = if queue % 2 == 1 { 0 } else { 3000 };
    let pid = 0x8000 * (queue % 2);
    let mut trace = Trace::new(alloc);
    for part in 0..46u32 {
        trace.write(alloc, nsid, first + 64 * part, 64, part, pid + 1)?;
    }
    let mut x = u32::from(queue);
    for step in 0..300u32 {
        x = x.wrapping_mul(1_664_525).wrapping_add(1_013_904_223);
        let slba = first + 8 * ((x >> 16) % 360);
        match step % 10 {
            7 => trace.dealloc(alloc, nsid, slba, 8)?,
            8 => trace.read(alloc, nsid, slba, 4)?,
            9 => trace.line("log 0x22 0 16")?,
            _ => trace.write(alloc, nsid, slba, 8, step, pid)?,
        }
    }
    Ok(trace)
}

/// The row, and how it came out.
pub fn row<R: Threads + Wait + Sync>(rt: &R, alloc: Global) -> Result<String, AllocError> {
    let mut bench = BenchMem::new(alloc, Vec::new(alloc));
    bench.add(alloc, "config", CONFIG)?;
    for (name, queue) in ["q1", "q2", "q3", "q4"].iter().zip(1..=4u16) {
        bench.add(alloc, name, trace_of(alloc, queue)?.text.as_bytes())?;
    }
    let words = ["run", "config", "image", "q1", "q2", "q3", "q4"];
    let came = run(rt, alloc, &words, &mut bench, 1 << 22, &OpenGate)?;
    let (status, well) = (came.status, came.count(b"0/00"));
    let legal = judge(rt, alloc, &words, &mut bench)?;
    format!(in alloc;
        "load: status {status}, {well} commands succeeded, the plain drive takes each entry: {legal}"
    )
}
