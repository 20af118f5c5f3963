ghost use Rattle.std.specs.Prelude.{◌<◌};

use std::sync::Wait;
use std::sync::atomic::{AtomicU64, Ordering};

// What was rung last, once no more is told.
const OVER: u64 = u64::MAX;

/// Where in the record a pass stands: the stretch of the gauge in which the record that it was shown ends, and whether no more is told.
#[derive(Clone, Copy, Debug, PartialEq, Eq)]
pub struct Sight {
    pub stretch: u64,
    pub is_over: bool,
}

/// Wakes those who sleep where a record comes into another stretch of so many entries, and where no more is told. It says nothing of
/// the record.
#[derive(Drop)]
pub(crate) struct Bell {
    /// The entries of a stretch.
    entries: u64,
    /// The stretch in which the record ended that was told last.
    rung: AtomicU64,
    sleepers: AtomicU64,
    ghost some: { 0 < entries },
}

impl Bell {
    /// A bell for stretches of so many entries, and of one where that is 0.
    pub(crate) fn new(entries: u32) -> Bell {
        Bell {
            entries: u64::from(entries).max(1),
            rung: AtomicU64::new(0),
            sleepers: AtomicU64::new(0),
        }
    }

    /// Where one stands who was shown a record of this length, after it was asked whether more is told.
    pub(crate) fn sight(&self, is_over: bool, length: u64) -> Sight {
        Sight {
            stretch: length / self.entries,
            is_over,
        }
    }

    pub(crate) fn is_over(&self) -> bool {
        self.rung.load(Ordering::SeqCst) == OVER
    }

    /// Rings where a record of this length is in another stretch than the last.
    pub(crate) fn tell(&self, length: u64) {
        let rung = self.rung.load(Ordering::SeqCst);
        let stretch = length / self.entries;
        if rung == stretch || rung == OVER {
            return;
        }
        // It fails where the end was rung meanwhile, which stands.
        if self
            .rung
            .compare_exchange(rung, stretch, Ordering::SeqCst, Ordering::SeqCst)
            .is_ok()
        {
            self.wake();
        }
    }

    /// Rings for the last time.
    pub(crate) fn close(&self) {
        self.rung.store(OVER, Ordering::SeqCst);
        self.wake();
    }

    /// Sleeps as long as what was rung last is where one stands. It may return for no reason.
    pub(crate) fn sleep<R: Wait>(&self, rt: &R, sight: Sight) {
        if sight.is_over {
            return;
        }
        self.sleepers.fetch_add(1, Ordering::SeqCst);
        self.rung.park(rt, (sight.stretch % (1 << 32)) as u32);
        self.sleepers.fetch_sub(1, Ordering::SeqCst);
    }

    // What was rung is there before it is asked who sleeps.
    fn wake(&self) {
        if self.sleepers.load(Ordering::SeqCst) != 0 {
            self.rung.wake_all();
        }
    }
}
