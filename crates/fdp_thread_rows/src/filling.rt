//! The trace that fills a group but for three units, on a drive of 20 units of 8 pages a group with 80 blocks.
use crate::texts::Trace;
use std::alloc::{AllocError, Global};

/// So many commands leave the group three free units, and a live page in each other one.
pub const FILLING: usize = 37;

/// Fills 72 blocks, and then all of them but one a unit once more; and one block more. All go by one placement identifier.
pub fn filling_trace(alloc: Global, pid: u16) -> Result<Trace, AllocError> {
    let mut trace = Trace::new(alloc);
    for part in 0..18u32 {
        trace.write(alloc, 1, 4 * part, 4, part, pid)?;
    }
    for unit in 0..9u32 {
        trace.write(alloc, 1, 8 * unit, 4, 100 + unit, pid)?;
        trace.write(alloc, 1, 8 * unit + 4, 3, 200 + unit, pid)?;
    }
    trace.write(alloc, 1, 0, 1, 300, pid)?;
    trace.write(alloc, 1, 1, 1, 301, pid)?;
    Ok(trace)
}
