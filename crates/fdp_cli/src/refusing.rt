ghost use Rattle.std.specs.Prelude.{◌≡◌, ◌≢◌, ◌≤◌};
ghost use Rattle.fdp_cli.specs.Refusing.{Refuses};

use fdp_finding::{Fault, write_fault};
use fdp_io::Sink;

/// Prints the line of a fault. It takes no memory, so that no fault is answered as want of it.
pub fn refuse<K: Sink>(fault: Fault, sink: &mut K) -> u8
    ensures told { (K.state sink.new).told ≡ (K.state sink.old).told }
    ensures faults { (K.state sink.old).faults ≤ (K.state sink.new).faults }
    ensures unfailing { result ≢ 8 → (K.state sink.new).faults ≡ (K.state sink.old).faults }
    ensures refuses { Refuses (K.state sink.old) (K.state sink.new) fault result }
{
    match write_fault(sink, &fault) {
        Ok(()) => fault.status(),
        Err(_failed) => 8,
    }
}
