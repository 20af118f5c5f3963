use fdp_io::{Gate, Point};
use std::alloc::{AllocError, Global};
use std::sync::atomic::{AtomicUsize, Ordering};
use std::thread;

/// A gate with which the hosts serve their traces one after another, so that a run with several traces prints the same whatever the schedule.
#[derive(Drop)]
pub struct InTurn {
    /// How many commands the trace of each queue has, the first for queue 1.
    commands: Vec<usize>,
    /// How many commands were ended in all queues.
    ended: AtomicUsize,
}

impl InTurn {
    pub fn new(commands: Vec<usize>) -> InTurn {
        InTurn {
            commands,
            ended: AtomicUsize::new(0),
        }
    }

    /// The gate of one host alone.
    pub fn open(alloc: Global) -> InTurn {
        InTurn::new(Vec::new(alloc))
    }

    /// Counts the commands of one trace more.
    pub fn add(&mut self, commands: usize) -> Result<(), AllocError> {
        self.commands.push(commands)?;
        Ok(())
    }

    /// How many commands the hosts before this one have.
    fn before(&self, queue: u8) -> usize {
        let mut before = 0usize;
        for commands in self
            .commands
            .iter()
            .take(usize::from(queue).saturating_sub(1))
        {
            before = before.saturating_add(*commands);
        }
        before
    }
}

impl Gate for InTurn {
    fn at(&self, queue: u8, point: Point) {
        match point {
            Point::Begun => {
                let before = self.before(queue);
                for _ in 0..u64::MAX {
                    if self.ended.load(Ordering::SeqCst) >= before {
                        return;
                    }
                    thread::yield_now();
                }
            }
            Point::Ended => {
                self.ended.fetch_add(1, Ordering::SeqCst);
            }
            Point::Placed | Point::BeforeCommit | Point::Copied => {}
        }
    }
}
