//! The verdict on records.

ghost use Rattle.std.specs.Prelude.{◌≡◌, ◌≢◌, ◌≤◌};
ghost use Rattle.fdp_cli.specs.Top.{Audits, SaysYes};
ghost use Rattle.fdp_cli.specs.Verdict.{of_audit};
ghost use Rattle.fdp_finding.specs.Task.{CanJudge};
ghost use Rattle.fdp_finding.specs.Wanted.{texts_in};

use crate::refusing::refuse;
use fdp_audit::{AuditFault, RunFault, audit};
use fdp_finding::{Audited, Fault, NoRecord, number_among, write_parts};
use fdp_io::Sink;
use itoa::Buffer;
use std::alloc::Global;

/// Judges records, and prints how many entries the history behind them has, or the line of their first fault.
pub fn judge<K: Sink>(alloc: Global, found: &Audited, sink: &mut K) -> u8
    requires { CanJudge found.now }
    ensures told { (K.state sink.new).told ≡ (K.state sink.old).told }
    ensures faults { (K.state sink.old).faults ≤ (K.state sink.new).faults }
    ensures unfailing { result ≢ 8 → (K.state sink.new).faults ≡ (K.state sink.old).faults }
    ensures audits { Audits found.now.config (texts_in found.now.texts.items) (K.state sink.old) (K.state sink.new) result }
{
    let texts = found.texts.as_slice();
    match audit(alloc, texts, &found.config) {
        Ok(count) => say_yes(count, sink),
        Err(fault) => refuse(of_audit(texts.len(), fault), sink),
    }
}

/// Prints that a history of so many entries is right.
fn say_yes<K: Sink>(count: u64, sink: &mut K) -> u8
    ensures told { (K.state sink.new).told ≡ (K.state sink.old).told }
    ensures faults { (K.state sink.old).faults ≤ (K.state sink.new).faults }
    ensures unfailing { result ≢ 8 → (K.state sink.new).faults ≡ (K.state sink.old).faults }
    ensures says { SaysYes count (K.state sink.old) (K.state sink.new) result }
{
    let mut number = Buffer::new();
    match write_parts(sink, &["audit yes ", number.format(count), "\n"]) {
        Ok(()) => 0,
        Err(_failed) => 8,
    }
}

/// The fault of an audit of so many records as one of a run.
fn of_audit(count: usize, fault: AuditFault) -> Fault
    ensures { result ≡ of_audit count fault }
{
    let number = number_among(count, fault.number);
    match fault.cause {
        RunFault::Line(line) => Fault::Record {
            number,
            cause: NoRecord::Line(line),
        },
        RunFault::Illegal { at, why } => Fault::Audit { number, at, why },
        RunFault::Output { line } => Fault::Output { number, line },
        RunFault::Lost { at } => Fault::Lost {
            number: fault.number,
            at,
        },
        RunFault::NoMemory => Fault::NoMemory,
    }
}
