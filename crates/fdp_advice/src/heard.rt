use fdp_io::{Sink, SinkEnd};
use std::alloc::Global;

/// A sink that hands everything on to another one, and keeps the line of a fault.
#[derive(Drop)]
pub struct Heard<K> {
    sink: K,
    line: Vec<u8>,
}

impl<K: Sink> Heard<K> {
    ghost use Rattle.std.specs.Prelude.{◌≡◌};

    pub fn new(alloc: Global, sink: K) -> Heard<K> {
        Heard {
            sink,
            line: Vec::new(alloc),
        }
    }

    /// The line of the fault that the other sink took, with its end; it is empty where there was none, or no memory for a copy.
    pub fn line(&self) -> &str {
        str::from_utf8(self.line.as_slice()).unwrap_or("")
    }

    /// Keeps what was taken from the piece that begins the line of a fault on: it is the last that a run prints.
    fn listen(&mut self, taken: &[u8])
        ensures { self.new.sink ≡ self.old.sink }
    {
        if self.line.is_empty() && !taken.starts_with(b"fault ") {
            return;
        }
        // Of a line that memory is wanting for, the front is kept.
        drop(self.line.extend_from_slice(taken));
    }
}

impl<K: Sink> Sink for Heard<K> {
    ghost state = { λ heard. K.state heard.sink };

    fn faults(&self) -> u64 {
        self.sink.faults()
    }

    fn write(&mut self, bytes: &[u8]) -> SinkEnd {
        let end = self.sink.write(bytes);
        if let SinkEnd::Took(count) = end {
            self.listen(&bytes[..count]);
        }
        end
    }
}
