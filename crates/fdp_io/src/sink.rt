ghost use Rattle.std.specs.Prelude.{◌≡◌, ◌≤◌, MatchResult, OnOk};
ghost use Rattle.fdp_io.specs.Sink.{CountsFailedWrite, Holds, HoldsFront, SinkState, Takes};

/// How a write ended.
#[derive(Clone, Copy, Debug, PartialEq, Eq)]
pub enum SinkEnd {
    /// So many of the first bytes were taken: at least one of a piece that is not empty.
    Took(usize),
    /// Nothing was taken, and the failure was counted.
    Failed,
}

/// Where a run prints.
pub trait Sink {
    /// Its count of faults, and the bytes that it holds, where it tells them.
    ghost state: { Self → SinkState };

    /// How many calls failed. It stays at its last value.
    fn faults(&self) -> u64
        ensures { result ≡ (state self.now).faults };

    /// Writes the first bytes of a piece.
    fn write(&mut self, bytes: &[u8]) -> SinkEnd
        ensures told { (state self.new).told ≡ (state self.old).told }
        ensures faults { (state self.old).faults ≤ (state self.new).faults }
        ensures counts { CountsFailedWrite (state self.old).faults (state self.new).faults result }
        ensures answer { Takes (state self.old) (state self.new) bytes.now result };
}

/// A write failed.
#[derive(Clone, Copy, Debug, PartialEq, Eq)]
pub struct SinkFailed;

/// Writes all the bytes. After a failure the sink holds a prefix of them.
pub fn write_all<K: Sink>(sink: &mut K, bytes: &[u8]) -> Result<(), SinkFailed>
    ensures told { (K.state sink.new).told ≡ (K.state sink.old).told }
    ensures faults { (K.state sink.old).faults ≤ (K.state sink.new).faults }
    ensures counts { OnOk result ((K.state sink.new).faults ≡ (K.state sink.old).faults) }
    ensures ends { MatchResult result
        (λ _. Holds (K.state sink.old) (K.state sink.new) bytes.now)
        (λ _. HoldsFront (K.state sink.old) (K.state sink.new) bytes.now) }
{
    let mut done = 0;
    while done < bytes.len() {
        match sink.write(&bytes[done..]) {
            SinkEnd::Took(count) => done += count,
            SinkEnd::Failed => return Err(SinkFailed),
        }
    }
    Ok(())
}
