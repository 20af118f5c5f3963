use crate::sink::{Sink, SinkEnd};
use std::io::Write;

/// A sink over a writer, as standard output. It does not tell what it holds.
#[derive(Drop)]
pub struct SinkWriter<W: Write> {
    writer: W,
    faults: u64,
}

impl<W: Write> SinkWriter<W> {
    pub fn new(writer: W) -> SinkWriter<W> {
        SinkWriter { writer, faults: 0 }
    }
}

impl<W: Write> Sink for SinkWriter<W> {
    ghost use Rattle.std.specs.Prelude.{◌≡◌, ◌≤◌};
    ghost use Rattle.fdp_io.specs.Sink.{CountsFailedWrite, Takes};
    ghost use Rattle.fdp_io.specs.SinkWriter.{writer_state};
    ghost use Rattle.fdp_io.specs.Writing.{WritesClaimed};

    ghost state = { writer_state };

    fn faults(&self) -> u64 {
        self.faults
    }

    fn write(&mut self, bytes: &[u8]) -> SinkEnd
        ensures told { (writer_state self.new).told ≡ (writer_state self.old).told }
        ensures faults { (writer_state self.old).faults ≤ (writer_state self.new).faults }
        ensures counts { CountsFailedWrite (writer_state self.old).faults (writer_state self.new).faults result }
        ensures answer { Takes (writer_state self.old) (writer_state self.new) bytes.now result }
        ensures claimed { WritesClaimed (W.contents self.old.writer) (W.contents self.new.writer) bytes.now result }
    {
        match self.writer.write(bytes) {
            Ok(count) if count > 0 || bytes.is_empty() => SinkEnd::Took(count),
            _ => {
                self.faults = self.faults.saturating_add(1);
                SinkEnd::Failed
            }
        }
    }
}
