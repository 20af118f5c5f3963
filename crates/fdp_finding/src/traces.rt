//! The commands of the names of a run, which are those of traces or of streams.

ghost use Rattle.std.specs.Prelude.{◌≡◌, ℕ, ◌≤◌, All, IfOk, MatchResult, length, map};
ghost use Rattle.std.specs.List.{AllZip};
ghost use Rattle.fdp_base.specs.declared.config.DriveConfig.{DriveConfig};
ghost use Rattle.fdp_base.specs.Geometry.{IsBlockSize};
ghost use Rattle.fdp_binary.specs.Streams.{IsStream};
ghost use Rattle.fdp_io.specs.Bench.{SameFlashes, SameTexts};
ghost use Rattle.fdp_trace.specs.Answer.{IsCause};
ghost use Rattle.fdp_trace.specs.Grammar.{IsTraceOf};
ghost use Rattle.fdp_finding.specs.Streamed.{IsFedFault, ReadsStream};
ghost use Rattle.fdp_finding.specs.Traced.{IsServable, ReadsTrace};
ghost use Rattle.fdp_finding.specs.Wanted.{CommandsLack, CountsSource, ReadsCommands, TracesLack, commands_of};

use crate::asked::Texts;
use crate::fault::Fault;
use crate::no_stream::NoStream;
use crate::no_trace::NoTrace;
use fdp_base::{Command, DriveConfig, LONGEST_TRACE};
use fdp_binary::{FeedError, StreamReader};
use fdp_io::{Bench, TextRead};
use fdp_trace::{TraceFault, read_trace};
use std::alloc::Global;

/// The commands of the traces or streams of these names, each of which has a queue.
pub fn find_traces<B: Bench>(
    alloc: Global,
    texts: Texts,
    names: &[&str],
    config: &DriveConfig,
    bench: &mut B,
) -> Result<Vec<Vec<Command>>, Fault>
    requires { IsBlockSize config.now.block }
    ensures texts { SameTexts (B.state bench.old) (B.state bench.new) }
    ensures flashes { SameFlashes (B.state bench.old) (B.state bench.new) }
    ensures faults { (B.state bench.old).faults ≤ (B.state bench.new).faults }
    ensures counts { MatchResult result
        (λ _. (B.state bench.new).faults ≡ (B.state bench.old).faults)
        (λ fault. CountsSource (B.state bench.old).faults (B.state bench.new).faults fault) }
    ensures answer { MatchResult result
        (λ traces. AllZip (ReadsCommands texts config.now.block (B.state bench.old)) (map (λ name. name.now) names.now) (commands_of traces.items))
        (λ fault. TracesLack texts config.now (B.state bench.old) (B.state bench.new) (map (λ name. name.now) names.now) fault) }
    ensures queued { IfOk result (λ traces. (length names.now ≤ config.now.queues) × (length traces.items ≡ length names.now)) }
    ensures servable { IfOk result (λ traces. All (λ trace. IsServable config.now trace.items) traces.items) }
{
    let queues = usize::from(config.queues);
    if names.len() > queues {
        return Err(Fault::NoQueue { trace: queues + 1 });
    }
    let mut traces = Vec::new(alloc);
    for (index, name) in names.iter().enumerate() {
        match find_commands(alloc, texts, index + 1, *name, config.block, bench) {
            Ok(trace) => {
                if traces.push(trace).is_err() {
                    return Err(Fault::NoMemory);
                }
            }
            Err(fault) => return Err(fault),
        }
    }
    Ok(traces)
}

/// The commands of the name with this number, for blocks of this size.
fn find_commands<B: Bench>(
    alloc: Global,
    texts: Texts,
    number: usize,
    name: &str,
    block: u32,
    bench: &mut B,
) -> Result<Vec<Command>, Fault>
    requires { IsBlockSize block }
    ensures texts { SameTexts (B.state bench.old) (B.state bench.new) }
    ensures flashes { SameFlashes (B.state bench.old) (B.state bench.new) }
    ensures faults { (B.state bench.old).faults ≤ (B.state bench.new).faults }
    ensures counts { MatchResult result
        (λ _. (B.state bench.new).faults ≡ (B.state bench.old).faults)
        (λ fault. CountsSource (B.state bench.old).faults (B.state bench.new).faults fault) }
    ensures answer { MatchResult result
        (λ commands. ReadsCommands texts block (B.state bench.old) name.now commands.items)
        (λ fault. CommandsLack texts block (B.state bench.old) (B.state bench.new) number name.now fault) }
    ensures servable { IfOk result (λ commands. (c : DriveConfig) → c.block ≡ block → IsServable c commands.items) }
{
    match texts {
        Texts::Traces => find_trace(alloc, number, name, bench),
        Texts::Streams => find_stream(alloc, number, name, block, bench),
    }
}

/// The commands of the name of the trace with this number.
fn find_trace<B: Bench>(
    alloc: Global,
    number: usize,
    name: &str,
    bench: &mut B,
) -> Result<Vec<Command>, Fault>
    ensures texts { SameTexts (B.state bench.old) (B.state bench.new) }
    ensures flashes { SameFlashes (B.state bench.old) (B.state bench.new) }
    ensures faults { (B.state bench.old).faults ≤ (B.state bench.new).faults }
    ensures counts { MatchResult result
        (λ _. (B.state bench.new).faults ≡ (B.state bench.old).faults)
        (λ fault. CountsSource (B.state bench.old).faults (B.state bench.new).faults fault) }
    ensures answer { MatchResult result
        (λ commands. ReadsTrace (B.state bench.old) name.now commands.items)
        (λ fault. (block : ℕ) → CommandsLack Texts.Traces block (B.state bench.old) (B.state bench.new) number name.now fault) }
    ensures servable { IfOk result (λ commands. (c : DriveConfig) → IsServable c commands.items) }
{
    let mut text = Vec::new(alloc);
    match bench.read_text(name, &mut text, LONGEST_TRACE) {
        TextRead::Done => match read_commands(alloc, text.as_slice()) {
            Ok(commands) => Ok(commands),
            Err(TraceFault::Line { line, kind }) => Err(Fault::Trace {
                trace: number,
                cause: NoTrace::Line { line, kind },
            }),
            Err(TraceFault::NoMemory) => Err(Fault::NoMemory),
        },
        TextRead::Missing => Err(Fault::Trace {
            trace: number,
            cause: NoTrace::Absent,
        }),
        TextRead::TooLong => Err(Fault::Trace {
            trace: number,
            cause: NoTrace::TooLong,
        }),
        TextRead::Failed => Err(Fault::Source),
        TextRead::NoMemory => Err(Fault::NoMemory),
    }
}

/// The commands of the name of the stream with this number, for blocks of this size.
fn find_stream<B: Bench>(
    alloc: Global,
    number: usize,
    name: &str,
    block: u32,
    bench: &mut B,
) -> Result<Vec<Command>, Fault>
    requires { IsBlockSize block }
    ensures texts { SameTexts (B.state bench.old) (B.state bench.new) }
    ensures flashes { SameFlashes (B.state bench.old) (B.state bench.new) }
    ensures faults { (B.state bench.old).faults ≤ (B.state bench.new).faults }
    ensures counts { MatchResult result
        (λ _. (B.state bench.new).faults ≡ (B.state bench.old).faults)
        (λ fault. CountsSource (B.state bench.old).faults (B.state bench.new).faults fault) }
    ensures answer { MatchResult result
        (λ commands. ReadsStream block (B.state bench.old) name.now commands.items)
        (λ fault. CommandsLack Texts.Streams block (B.state bench.old) (B.state bench.new) number name.now fault) }
    ensures servable { IfOk result (λ commands. (c : DriveConfig) → c.block ≡ block → IsServable c commands.items) }
{
    let mut bytes = Vec::new(alloc);
    match bench.read_text(name, &mut bytes, LONGEST_TRACE) {
        TextRead::Done => match read_stream(alloc, block, bytes.as_slice()) {
            Ok(commands) => Ok(commands),
            Err(FeedError::Fault(fault)) => Err(Fault::Stream {
                stream: number,
                cause: NoStream::Broken(fault),
            }),
            Err(FeedError::NoMemory) => Err(Fault::NoMemory),
        },
        TextRead::Missing => Err(Fault::Stream {
            stream: number,
            cause: NoStream::Absent,
        }),
        TextRead::TooLong => Err(Fault::Stream {
            stream: number,
            cause: NoStream::TooLong,
        }),
        TextRead::Failed => Err(Fault::Source),
        TextRead::NoMemory => Err(Fault::NoMemory),
    }
}

/// The commands of a text. Their grammar makes them well formed on a drive of any configuration.
fn read_commands(alloc: Global, text: &[u8]) -> Result<Vec<Command>, TraceFault>
    ensures answer { MatchResult result
        (λ commands. IsTraceOf text.now commands.items)
        (λ fault. IsCause text.now fault) }
    ensures servable { IfOk result (λ commands. (c : DriveConfig) → IsServable c commands.items) }
{
    read_trace(alloc, text)
}

/// The commands of a stream for blocks of this size, which is fed whole. Its frames make them well formed on a drive with such blocks.
fn read_stream(alloc: Global, block: u32, bytes: &[u8]) -> Result<Vec<Command>, FeedError>
    requires { IsBlockSize block }
    ensures answer { MatchResult result
        (λ commands. IsStream block bytes.now commands.items)
        (λ error. IsFedFault block bytes.now error) }
    ensures servable { IfOk result (λ commands. (c : DriveConfig) → c.block ≡ block → IsServable c commands.items) }
{
    let mut reader = StreamReader::new(alloc, block);
    match reader.feed(alloc, bytes) {
        Ok(()) => match reader.finish() {
            Ok(commands) => Ok(commands),
            Err(fault) => Err(FeedError::Fault(fault)),
        },
        Err(error) => Err(error),
    }
}
