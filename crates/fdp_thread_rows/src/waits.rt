//! Workers that are held until others have come as far as they have to.
use std::sync::atomic::{AtomicUsize, Ordering};
use std::thread;

/// The most looks of a worker that is held.
const LOOKS: u32 = 30_000_000;

/// How often a worker was held until its looks ran out.
#[derive(Drop)]
pub struct Waits {
    late: AtomicUsize,
}

impl Waits {
    pub fn new() -> Waits {
        Waits {
            late: AtomicUsize::new(0),
        }
    }

    /// Holds a worker until a count is so high.
    pub fn hold(&self, count: &AtomicUsize, least: usize) {
        for _ in 0..LOOKS {
            if count.load(Ordering::SeqCst) >= least {
                return;
            }
            thread::yield_now();
        }
        self.late.fetch_add(1, Ordering::SeqCst);
    }

    /// Counts a worker, and holds it until so many were counted.
    pub fn meet(&self, count: &AtomicUsize, least: usize) {
        count.fetch_add(1, Ordering::SeqCst);
        self.hold(count, least);
    }

    pub fn late(&self) -> usize {
        self.late.load(Ordering::SeqCst)
    }
}
