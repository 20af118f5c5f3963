ghost use Rattle.std.specs.Prelude.{◌≡◌, [], true};
ghost use Rattle.fdp_audit.specs.Due.{due_state};

use fdp_io::{Sink, SinkEnd};
use std::alloc::Global;

/// The text that is due: a sink in memory that grows.
#[derive(Debug, Drop)]
pub(crate) struct Due {
    pub(crate) text: Vec<u8>,
    faults: u64,
}

impl Due {
    /// An empty text.
    pub(crate) fn new(alloc: Global) -> Due
        ensures { due_state result ≡ record { faults = 0; told = true; bytes = [] } }
    {
        Due {
            text: Vec::new(alloc),
            faults: 0,
        }
    }
}

impl Sink for Due {
    ghost use Rattle.fdp_audit.specs.Due.{due_state};

    ghost state = { due_state };

    fn faults(&self) -> u64 {
        self.faults
    }

    /// Takes the whole piece. It fails only for want of memory.
    fn write(&mut self, bytes: &[u8]) -> SinkEnd {
        match self.text.extend_from_slice(bytes) {
            Ok(()) => SinkEnd::Took(bytes.len()),
            Err(_) => {
                self.faults = self.faults.saturating_add(1);
                SinkEnd::Failed
            }
        }
    }
}
