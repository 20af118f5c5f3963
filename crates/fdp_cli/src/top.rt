ghost use Rattle.std.specs.Prelude.{◌≡◌, ◌≢◌, ◌≤◌, All, length};
ghost use Rattle.fdp_base.specs.Config.{IsValidConfig};
ghost use Rattle.fdp_finding.specs.Traced.{IsServable};
ghost use Rattle.fdp_finding.specs.Wanted.{commands_of};
ghost use Rattle.fdp_io.specs.Bench.{SameTexts};
ghost use Rattle.fdp_make.specs.Summary.{summary_text, unrefuted_blocks};
ghost use Rattle.fdp_printing.specs.Closing.{IsClosing};
ghost use Rattle.fdp_printing.specs.Printing.{CountsCut, Prints};
ghost use Rattle.fdp_rules.specs.History.{Found, point_of};
ghost use Rattle.fdp_cli.specs.Refusing.{Refuses};
ghost use Rattle.fdp_cli.specs.Top.{Answers, EndsRun, OnImage, PrintsText, Shows, text_in, text_of};

use crate::closing::closing_of;
use crate::loading::fault_of;
use crate::refusing::refuse;
use crate::verdict::judge;
use fdp_base::{Command, DriveConfig, Entry};
use fdp_drive::{End, Group, NotLoaded, SessionEnd, run_session};
use fdp_finding::{Fault, Form, Task, Wanted, find};
use fdp_flash::Flash;
use fdp_io::{Bench, Gate, NotTaken, Sink, write_all};
use fdp_make::{push_summary, summary_of};
use fdp_printing::{Closing, Cut, print_output, print_record};
use fdp_ranges::are_ranged;
use std::alloc::Global;
use std::sync::Wait;
use std::thread::Threads;

/// Serves the traces or streams that the words ask for on the drive in the image that they name, which is made where there is none, each by a host of its own in its
/// queue, with the collectors that the configuration asks for beside them; prints the output, for `record` and `stream-record` with the history behind it, for `make`
/// a summary in its place. For `audit` it serves nothing, but judges a record by a configuration, and prints how many entries its history has. It answers the
/// status of the run:
///
/// - 0: the traces were served, or the record is right, and the sink took the whole text.
/// - 1, 2, 3, 4, 5, 6: what [`Fault`] says; the sink took the line of the fault.
/// - 7: memory was wanting.
/// - 8: a write of the sink failed.
/// - 9: the traces need more steps than a drive may make; the sink took the line of that fault.
/// - 12: a stream is none; the sink took the line of that fault.
/// - 13: an entry of a record is none that may follow those before it, or its output is not that of its history; the sink took the line of that fault.
/// - 14: a text is no record; the sink took the line of that fault.
///
/// A flash that was taken is given back, whatever the status.
pub fn drive_top<B: Bench, K: Sink, G: Gate + Sync, R: Threads + Wait + Sync>(
    rt: &R,
    alloc: Global,
    words: &[String],
    bench: &mut B,
    sink: &mut K,
    gate: &G,
) -> u8
    ensures texts { SameTexts (B.state bench.old) (B.state bench.new) }
    ensures bench_faults { (B.state bench.old).faults ≤ (B.state bench.new).faults }
    ensures told { (K.state sink.new).told ≡ (K.state sink.old).told }
    ensures sink_faults { (K.state sink.old).faults ≤ (K.state sink.new).faults }
    ensures unfailing { result ≢ 8 → (K.state sink.new).faults ≡ (K.state sink.old).faults }
    ensures answers { Answers B.F.state (B.state bench.old) (B.state bench.new) words.now (K.state sink.old) (K.state sink.new) result }
{
    match find(alloc, words, bench) {
        Ok(Task::Serve(wanted)) => run(rt, alloc, wanted, bench, sink, gate),
        Ok(Task::Audit(found)) => judge(alloc, &found, sink),
        Err(fault) => refuse(fault, sink),
    }
}

/// Takes the flash of the image, serves the traces on it, and gives it back.
fn run<B: Bench, K: Sink, G: Gate + Sync, R: Threads + Wait + Sync>(
    rt: &R,
    alloc: Global,
    wanted: Wanted<'_>,
    bench: &mut B,
    sink: &mut K,
    gate: &G,
) -> u8
    requires valid { IsValidConfig wanted.config }
    requires servable { All (λ trace. IsServable wanted.config trace.items) wanted.traces.items }
    requires queued { length wanted.traces.items ≤ wanted.config.queues }
    ensures texts { SameTexts (B.state bench.old) (B.state bench.new) }
    ensures bench_faults { (B.state bench.old).faults ≤ (B.state bench.new).faults }
    ensures told { (K.state sink.new).told ≡ (K.state sink.old).told }
    ensures faults { (K.state sink.old).faults ≤ (K.state sink.new).faults }
    ensures unfailing { result ≢ 8 → (K.state sink.new).faults ≡ (K.state sink.old).faults }
    ensures runs { OnImage B.F.state (B.state bench.old) (B.state bench.new) wanted.entry.config wanted.entry.image.now (EndsRun B.F.state wanted.entry.form wanted.entry.config (commands_of wanted.entry.traces.items)) (K.state sink.old) (K.state sink.new) result }
{
    let Wanted {
        form,
        config,
        image,
        traces,
    } = wanted;
    match bench.take_flash(alloc, image, config.geometry()) {
        Ok(flash) => {
            let end = run_on(rt, alloc, flash, form, &config, traces, sink, gate);
            bench.give_flash(image, end.flash);
            end.status
        }
        Err(NotTaken::Failed) => refuse(Fault::Flash, sink),
        Err(NotTaken::NoMemory) => 7,
    }
}

/// How a run on a flash ended.
#[derive(Drop)]
struct RunEnd<F> {
    flash: F,
    status: u8,
}

/// Opens the drive on a flash, or makes one, serves the traces, and prints what there is to print.
fn run_on<F: Flash + Send + Drop, K: Sink, G: Gate + Sync, R: Threads + Wait + Sync>(
    rt: &R,
    alloc: Global,
    flash: F,
    form: Form<'_>,
    config: &DriveConfig,
    traces: Vec<Vec<Command>>,
    sink: &mut K,
    gate: &G,
) -> RunEnd<F>
    requires valid { IsValidConfig config.now }
    requires servable { All (λ trace. IsServable config.now trace.items) traces.items }
    requires queued { length traces.items ≤ config.now.queues }
    ensures told { (K.state sink.new).told ≡ (K.state sink.old).told }
    ensures faults { (K.state sink.old).faults ≤ (K.state sink.new).faults }
    ensures unfailing { result.status ≢ 8 → (K.state sink.new).faults ≡ (K.state sink.old).faults }
    ensures ends { EndsRun F.state form.entry config.now (commands_of traces.items) flash result.flash (K.state sink.old) (K.state sink.new) result.status }
{
    match Group::load(alloc, flash, config) {
        Ok(group) => {
            let count = traces.len() as u8;
            let (collectors, turns) = (config.collectors, config.turns);
            let SessionEnd {
                group,
                receipts: _,
                end,
            } = run_session(rt, alloc, group, traces, collectors, turns, gate);
            let status = show(alloc, &group, end, form, count, sink);
            // It does nothing: a number that is read is one of its type, and what is told of the history says so.
            are_ranged(group.entries());
            let (flash, _entries) = group.finish();
            RunEnd { flash, status }
        }
        Err(NotLoaded { flash, cause }) => {
            let status = refuse(fault_of(cause), sink);
            RunEnd { flash, status }
        }
    }
}

/// Prints what a session came to: its text where it served so many traces whole, or the line of its fault.
fn show<F: Flash, K: Sink>(
    alloc: Global,
    group: &Group<F>,
    end: End,
    form: Form<'_>,
    traces: u8,
    sink: &mut K,
) -> u8
    ensures told { (K.state sink.new).told ≡ (K.state sink.old).told }
    ensures faults { (K.state sink.old).faults ≤ (K.state sink.new).faults }
    ensures unfailing { result ≢ 8 → (K.state sink.new).faults ≡ (K.state sink.old).faults }
    ensures shows { Shows group.now.book end form.entry traces (K.state sink.old) (K.state sink.new) result }
{
    match end {
        End::Whole => print(alloc, group, form, traces, sink),
        End::NoMemory => 7,
        End::Turns => refuse(Fault::Turns, sink),
    }
}

/// Prints the text of a run of so many traces: its output, for a record with the history behind it, for a generated load its summary.
fn print<F: Flash, K: Sink>(
    alloc: Global,
    group: &Group<F>,
    form: Form<'_>,
    traces: u8,
    sink: &mut K,
) -> u8
    ensures told { (K.state sink.new).told ≡ (K.state sink.old).told }
    ensures faults { (K.state sink.old).faults ≤ (K.state sink.new).faults }
    ensures unfailing { result ≢ 8 → (K.state sink.new).faults ≡ (K.state sink.old).faults }
    ensures prints { PrintsText (text_in form.entry traces group.now.book) (K.state sink.old) (K.state sink.new) result }
{
    let Ok(closing) = closing_of(alloc, group) else {
        return 7;
    };
    let (config, entries) = (group.config(), group.entries());
    match print_text(alloc, form, config, entries, traces, &closing, sink) {
        Ok(()) => 0,
        Err(Cut::Sink) => 8,
        Err(Cut::NoMemory) => 7,
    }
}

/// Prints the text of a form of run.
fn print_text<K: Sink>(
    alloc: Global,
    form: Form<'_>,
    config: &DriveConfig,
    entries: &[Entry],
    traces: u8,
    closing: &Closing,
    sink: &mut K,
) -> Result<(), Cut>
    ensures told { (K.state sink.new).told ≡ (K.state sink.old).told }
    ensures faults { (K.state sink.old).faults ≤ (K.state sink.new).faults }
    ensures counts { CountsCut (K.state sink.old).faults (K.state sink.new).faults result }
    ensures ends { (f : Found) → IsClosing config.now (point_of config.now f entries.now) closing.now
        → Prints (K.state sink.old) (K.state sink.new) (text_of form.entry config.now f traces entries.now) result }
{
    match form {
        Form::Run | Form::Stream => print_output(alloc, config, entries, traces, closing, sink),
        Form::Record | Form::StreamRecord => {
            print_record(alloc, config, entries, traces, closing, sink)
        }
        Form::Make(number) => print_summary(alloc, number, config.block, entries, sink),
    }
}

/// Prints what a generated load came to, whose number of commands was given so, on a drive with blocks of so many bytes.
fn print_summary<K: Sink>(
    alloc: Global,
    number: &str,
    block: u32,
    entries: &[Entry],
    sink: &mut K,
) -> Result<(), Cut>
    ensures told { (K.state sink.new).told ≡ (K.state sink.old).told }
    ensures faults { (K.state sink.old).faults ≤ (K.state sink.new).faults }
    ensures counts { CountsCut (K.state sink.old).faults (K.state sink.new).faults result }
    ensures ends { Prints (K.state sink.old) (K.state sink.new) (summary_text number.now block entries.now (unrefuted_blocks block entries.now)) result }
{
    let Ok(summary) = summary_of(alloc, entries, block) else {
        return Err(Cut::NoMemory);
    };
    let mut text = Vec::new(alloc);
    if push_summary(number, &summary, &mut text).is_err() {
        return Err(Cut::NoMemory);
    }
    match write_all(sink, &text) {
        Ok(()) => Ok(()),
        Err(_failed) => Err(Cut::Sink),
    }
}
