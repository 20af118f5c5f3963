//! The output of a run, and its record.

ghost use Rattle.std.specs.Prelude.{◌≡◌, ◌≤◌};
ghost use Rattle.fdp_output.specs.HistoryText.{record_of};
ghost use Rattle.fdp_output.specs.RunOutput.{output_of};
ghost use Rattle.fdp_rules.specs.History.{Found, point_of};
ghost use Rattle.fdp_printing.specs.Closing.{IsClosing};
ghost use Rattle.fdp_printing.specs.Lines.{closing_lines, run_lines};
ghost use Rattle.fdp_printing.specs.Printing.{CountsCut, Prints, PrintsOn};

use crate::closing::{Closing, push_closing};
use crate::completions::print_queues;
use crate::history::print_history;
use crate::pieces::{Cut, write_piece, write_rest};
use fdp_base::{DriveConfig, Entry};
use fdp_io::Sink;
use std::alloc::Global;

/// Prints the output of a run: the completions of so many queues, the sums and, while placement is enabled, the usage of each handle and the
/// events. It goes over the history once for each queue. Whatever the history was added to (`f`), where `closing` is what stands at its end.
pub fn print_output<K: Sink>(
    alloc: Global,
    config: &DriveConfig,
    entries: &[Entry],
    traces: u8,
    closing: &Closing,
    sink: &mut K,
) -> Result<(), Cut>
    ensures told { (K.state sink.new).told ≡ (K.state sink.old).told }
    ensures faults { (K.state sink.old).faults ≤ (K.state sink.new).faults }
    ensures counts { CountsCut (K.state sink.old).faults (K.state sink.new).faults result }
    ensures ends { (f : Found) → IsClosing config.now (point_of config.now f entries.now) closing.now
        → Prints (K.state sink.old) (K.state sink.new) (output_of config.now f traces entries.now) result }
{
    let mut text = Vec::new(alloc);
    print_run(config, entries, traces, closing, &mut text, sink)?;
    write_rest(&mut text, sink)
}

/// Prints the output of a run, and then its history.
pub fn print_record<K: Sink>(
    alloc: Global,
    config: &DriveConfig,
    entries: &[Entry],
    traces: u8,
    closing: &Closing,
    sink: &mut K,
) -> Result<(), Cut>
    ensures told { (K.state sink.new).told ≡ (K.state sink.old).told }
    ensures faults { (K.state sink.old).faults ≤ (K.state sink.new).faults }
    ensures counts { CountsCut (K.state sink.old).faults (K.state sink.new).faults result }
    ensures ends { (f : Found) → IsClosing config.now (point_of config.now f entries.now) closing.now
        → Prints (K.state sink.old) (K.state sink.new) (record_of config.now f traces entries.now) result }
{
    let found = closing.totals.position.saturating_sub(entries.len() as u64);
    let mut text = Vec::new(alloc);
    print_run(config, entries, traces, closing, &mut text, sink)?;
    print_history(config.block, found, entries, &mut text, sink)?;
    write_rest(&mut text, sink)
}

/// Prints the output of a run into a text.
fn print_run<K: Sink>(
    config: &DriveConfig,
    entries: &[Entry],
    traces: u8,
    closing: &Closing,
    text: &mut Vec<u8>,
    sink: &mut K,
) -> Result<(), Cut>
    ensures { PrintsOn (K.state sink.old) (K.state sink.new) text.old.items text.new.items (run_lines config.now traces entries.now closing.now) result }
{
    print_queues(entries, traces, text, sink)?;
    print_closing(config, closing, text, sink)
}

fn print_closing<K: Sink>(
    config: &DriveConfig,
    closing: &Closing,
    text: &mut Vec<u8>,
    sink: &mut K,
) -> Result<(), Cut>
    ensures { PrintsOn (K.state sink.old) (K.state sink.new) text.old.items text.new.items (closing_lines config.now closing.now) result }
{
    if push_closing(config, closing, text).is_err() {
        return Err(Cut::NoMemory);
    }
    write_piece(text, sink)
}
