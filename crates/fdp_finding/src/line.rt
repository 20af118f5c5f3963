//! The line of a fault. It is written part by part, so that it takes no memory, however long a key is that it names.

ghost use Rattle.std.specs.Prelude.{◌≡◌, ◌++◌, codes};
ghost use Rattle.std.specs.List.{flat_map};
ghost use Rattle.fdp_config.specs.declared.fault.NoConfig.TheVariants.{Faulty};
ghost use Rattle.fdp_finding.specs.Faults.{audit_fault, config_fault, fault_text, image_fault, lost_fault, no_stream_words, no_trace_words, number_words, output_fault, record_fault, stream_fault, trace_fault};
ghost use Rattle.fdp_finding.specs.Line.{Writes};

use crate::fault::Fault;
use crate::image::ImageFault;
use crate::no_record::NoRecord;
use crate::no_stream::NoStream;
use crate::no_trace::NoTrace;
use fdp_binary::StreamFault;
use fdp_config::{ConfigFault, NoConfig};
use fdp_io::{Sink, SinkFailed, write_all};
use itoa::Buffer;

/// Writes the line of a fault; want of memory has none.
pub fn write_fault<K: Sink>(sink: &mut K, fault: &Fault) -> Result<(), SinkFailed>
    ensures { Writes (K.state sink.old) (K.state sink.new) (fault_text fault.now) result }
{
    match fault {
        Fault::Usage => write_parts(sink, &["fault 1 usage\n"]),
        Fault::Config(cause) => write_no_config(sink, cause),
        Fault::NoQueue { trace } => write_no_queue(sink, *trace),
        Fault::Trace { trace, cause } => write_no_trace(sink, *trace, *cause),
        Fault::Image(cause) => write_image_fault(sink, *cause),
        Fault::Flash => write_parts(sink, &["fault 5 flash\n"]),
        Fault::Source => write_parts(sink, &["fault 6 source\n"]),
        Fault::Turns => write_parts(sink, &["fault 9 turns\n"]),
        Fault::Stream { stream, cause } => write_no_stream(sink, *stream, *cause),
        Fault::Record { number, cause } => write_no_record(sink, *number, *cause),
        Fault::Audit { number, at, why } => write_no_audit(sink, *number, *at, *why),
        Fault::Output { number, line } => write_no_output(sink, *number, *line),
        Fault::Lost { number, at } => write_lost(sink, *number, *at),
        Fault::NoMemory => Ok(()),
    }
}

/// Writes the line where there is no configuration.
fn write_no_config<K: Sink>(sink: &mut K, cause: &NoConfig) -> Result<(), SinkFailed>
    ensures { Writes (K.state sink.old) (K.state sink.new) (config_fault cause.now) result }
{
    match cause {
        NoConfig::Absent => write_parts(sink, &["fault 2 config absent\n"]),
        NoConfig::TooLong => write_parts(sink, &["fault 2 config long\n"]),
        NoConfig::Faulty(fault) => write_config_fault(sink, fault),
    }
}

/// Writes the line of a faulty configuration.
fn write_config_fault<K: Sink>(sink: &mut K, cause: &ConfigFault) -> Result<(), SinkFailed>
    ensures { Writes (K.state sink.old) (K.state sink.new) (config_fault (Faulty cause.now)) result }
{
    match cause {
        ConfigFault::NotToml => write_parts(sink, &["fault 2 config toml\n"]),
        ConfigFault::Unknown { key } => {
            write_parts(sink, &["fault 2 config unknown ", key.as_str(), "\n"])
        }
        ConfigFault::Missing { key } => {
            write_parts(sink, &["fault 2 config missing ", key.word(), "\n"])
        }
        ConfigFault::Kind { key } => {
            write_parts(sink, &["fault 2 config kind ", key.word(), "\n"])
        }
        ConfigFault::Range { key, .. } => {
            write_parts(sink, &["fault 2 config range ", key.word(), "\n"])
        }
        ConfigFault::NoRoom { .. } => write_parts(sink, &["fault 2 config room\n"]),
        ConfigFault::NoMemory => write_parts(sink, &["fault 2 out of memory\n"]),
    }
}

/// Writes the line for the trace of this number, which has no queue.
fn write_no_queue<K: Sink>(sink: &mut K, trace: usize) -> Result<(), SinkFailed>
    ensures { Writes (K.state sink.old) (K.state sink.new) (trace_fault trace (codes "queue")) result }
{
    let mut number = Buffer::new();
    write_parts(sink, &["fault 3 trace ", number.format(trace), " queue\n"])
}

/// Writes the line for the trace of this number, which is none.
fn write_no_trace<K: Sink>(sink: &mut K, trace: usize, cause: NoTrace) -> Result<(), SinkFailed>
    ensures { Writes (K.state sink.old) (K.state sink.new) (trace_fault trace (no_trace_words cause)) result }
{
    let mut number = Buffer::new();
    let number = number.format(trace);
    match cause {
        NoTrace::Absent => write_parts(sink, &["fault 3 trace ", number, " absent\n"]),
        NoTrace::TooLong => write_parts(sink, &["fault 3 trace ", number, " long\n"]),
        NoTrace::Line { line, kind } => {
            let mut place = Buffer::new();
            let (line, word) = (place.format(line), kind.word());
            write_parts(
                sink,
                &["fault 3 trace ", number, " line ", line, " ", word, "\n"],
            )
        }
    }
}

/// Writes the line for the stream of this number, which is none.
fn write_no_stream<K: Sink>(sink: &mut K, stream: usize, cause: NoStream) -> Result<(), SinkFailed>
    ensures { Writes (K.state sink.old) (K.state sink.new) (stream_fault stream (no_stream_words cause)) result }
{
    let mut number = Buffer::new();
    let number = number.format(stream);
    match cause {
        NoStream::Absent => write_parts(sink, &["fault 12 stream ", number, " absent\n"]),
        NoStream::TooLong => write_parts(sink, &["fault 12 stream ", number, " long\n"]),
        NoStream::Broken(StreamFault { at, kind }) => {
            let mut place = Buffer::new();
            let (at, word) = (place.format(at), kind.word());
            write_parts(
                sink,
                &["fault 12 stream ", number, " at ", at, " ", word, "\n"],
            )
        }
    }
}

/// Writes the line for an image that a drive does not go on from.
fn write_image_fault<K: Sink>(sink: &mut K, cause: ImageFault) -> Result<(), SinkFailed>
    ensures { Writes (K.state sink.old) (K.state sink.new) (image_fault cause) result }
{
    match cause {
        ImageFault::Other { key } => {
            write_parts(sink, &["fault 4 image other ", key.word(), "\n"])
        }
        ImageFault::NotADrive => write_parts(sink, &["fault 4 image not-a-drive\n"]),
        ImageFault::Bad { page } => {
            let mut number = Buffer::new();
            write_parts(sink, &["fault 4 image bad ", number.format(page), "\n"])
        }
        ImageFault::Spent => write_parts(sink, &["fault 4 image spent\n"]),
    }
}

/// Writes the line for a text that is no record.
fn write_no_record<K: Sink>(
    sink: &mut K,
    number: Option<usize>,
    cause: NoRecord,
) -> Result<(), SinkFailed>
    ensures { Writes (K.state sink.old) (K.state sink.new) (record_fault number cause) result }
{
    let mut digits = Buffer::new();
    let NumberWords { number, space } = numbered(&mut digits, number);
    match cause {
        NoRecord::Absent => write_parts(sink, &["fault 14 record ", number, space, "absent\n"]),
        NoRecord::TooLong => write_parts(sink, &["fault 14 record ", number, space, "long\n"]),
        NoRecord::Line(line) => {
            let mut place = Buffer::new();
            let line = place.format(line);
            write_parts(sink, &["fault 14 record ", number, space, line, "\n"])
        }
    }
}

/// Writes the line for an entry that a history does not go on with.
fn write_no_audit<K: Sink>(
    sink: &mut K,
    number: Option<usize>,
    at: u64,
    why: u8,
) -> Result<(), SinkFailed>
    ensures { Writes (K.state sink.old) (K.state sink.new) (audit_fault number at why) result }
{
    let (mut digits, mut place, mut rule) = (Buffer::new(), Buffer::new(), Buffer::new());
    let NumberWords { number, space } = numbered(&mut digits, number);
    let (at, why) = (place.format(at), rule.format(why));
    write_parts(
        sink,
        &["fault 13 audit ", number, space, at, " ", why, "\n"],
    )
}

/// Writes the line for an output that is not the one due.
fn write_no_output<K: Sink>(
    sink: &mut K,
    number: Option<usize>,
    line: usize,
) -> Result<(), SinkFailed>
    ensures { Writes (K.state sink.old) (K.state sink.new) (output_fault number line) result }
{
    let (mut digits, mut place) = (Buffer::new(), Buffer::new());
    let NumberWords { number, space } = numbered(&mut digits, number);
    let line = place.format(line);
    write_parts(sink, &["fault 13 output ", number, space, line, "\n"])
}

/// Writes the line for a change that the next run does not go on from.
fn write_lost<K: Sink>(sink: &mut K, number: usize, at: u64) -> Result<(), SinkFailed>
    ensures { Writes (K.state sink.old) (K.state sink.new) (lost_fault number at) result }
{
    let (mut digits, mut place) = (Buffer::new(), Buffer::new());
    let NumberWords { number, space } = numbered(&mut digits, Some(number));
    let at = place.format(at);
    write_parts(sink, &["fault 13 lost ", number, space, at, "\n"])
}

/// The digits of the number of a record and the space behind them, or two empty texts.
struct NumberWords<'a> {
    number: &'a str,
    space: &'a str,
}

/// The number of a record as it stands in a line, where it has one.
fn numbered<'a>(digits: &'a mut Buffer, number: Option<usize>) -> NumberWords<'a>
    ensures { result.number.now ++ result.space.now ≡ number_words number }
{
    match number {
        Some(number) => NumberWords {
            number: digits.format(number),
            space: " ",
        },
        None => NumberWords {
            number: "",
            space: "",
        },
    }
}

/// Writes texts one behind another.
pub fn write_parts<K: Sink>(sink: &mut K, parts: &[&str]) -> Result<(), SinkFailed>
    ensures { Writes (K.state sink.old) (K.state sink.new) (flat_map (λ part. part.now) parts.now) result }
{
    for part in parts {
        match write_all(sink, part.as_bytes()) {
            Ok(()) => {}
            Err(failed) => return Err(failed),
        }
    }
    Ok(())
}
