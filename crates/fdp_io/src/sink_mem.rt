ghost use Rattle.std.specs.Prelude.{◌≡◌, ◌≤◌, IfOk, vec_capacity, vec_len};

use crate::calls::Calls;
use crate::sink::{Sink, SinkEnd};
use std::alloc::{AllocError, Global};

/// A sink in memory: it tells what it holds, has room for so many bytes, and lets chosen calls fail.
#[derive(Debug, Drop)]
pub struct SinkMem {
    bytes: Vec<u8>,
    room: usize,
    calls: Calls,
    ghost within: { vec_len bytes ≤ room },
    ghost enough: { room ≤ vec_capacity bytes },
}

impl SinkMem {
    ghost use Rattle.fdp_io.specs.Calls.{no_call};
    ghost use Rattle.fdp_io.specs.SinkMem.{room_of, sink_calls, sink_state, IsEmptySink};

    /// An empty sink with room for so many bytes, of which the calls with these numbers, counted from 1, fail.
    pub fn new(alloc: Global, room: usize, failing: Vec<u64>) -> Result<SinkMem, AllocError>
        ensures empty { IfOk result (λ sink. IsEmptySink (sink_state sink)) }
        ensures calls { IfOk result (λ sink. sink_calls sink ≡ no_call failing.items) }
        ensures room { IfOk result (λ sink. room_of sink ≡ room) }
    {
        Ok(SinkMem {
            bytes: Vec::with_capacity(alloc, room)?,
            room,
            calls: Calls::new(failing),
        })
    }

    /// What it holds.
    pub fn bytes(&self) -> &[u8]
        ensures { result.now ≡ (sink_state self.now).bytes }
    {
        self.bytes.as_slice()
    }
}

impl Sink for SinkMem {
    ghost use Rattle.fdp_io.specs.Sink.{CountsFailedWrite, Takes};
    ghost use Rattle.fdp_io.specs.SinkMem.{WritesAsPlanned, sink_state};

    ghost state = { sink_state };

    fn faults(&self) -> u64 {
        self.calls.faults()
    }

    /// Takes what fits; a full sink takes nothing, which is a failure.
    fn write(&mut self, bytes: &[u8]) -> SinkEnd
        ensures told { (sink_state self.new).told ≡ (sink_state self.old).told }
        ensures faults { (sink_state self.old).faults ≤ (sink_state self.new).faults }
        ensures counts { CountsFailedWrite (sink_state self.old).faults (sink_state self.new).faults result }
        ensures answer { Takes (sink_state self.old) (sink_state self.new) bytes.now result }
        ensures planned { WritesAsPlanned self.old self.new bytes.now result }
    {
        if self.calls.begin() {
            return SinkEnd::Failed;
        }
        let count = bytes.len().min(self.room - self.bytes.len());
        if count == 0 && !bytes.is_empty() {
            self.calls.fail();
            return SinkEnd::Failed;
        }
        if self.bytes.extend_from_slice(&bytes[..count]).is_err() {
            // The room was taken when the sink was made.
            unreachable!()
        }
        SinkEnd::Took(count)
    }
}
