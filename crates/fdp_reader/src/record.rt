//! The record of a run: its output, and the printed history behind it.

ghost use Rattle.std.specs.Prelude.{◌≡◌, ℕ, List, IfOk, IfErr};
ghost use Rattle.fdp_base.specs.Config.{IsValidConfig};
ghost use Rattle.fdp_base.specs.declared.entry.Entry.{Entry};
ghost use Rattle.fdp_reader.specs.Form.{WalksTo, queues_of};
ghost use Rattle.fdp_reader.specs.Record.{GivesRecord, IsOutcome, IsPrinted, IsRecord, IsRecordCause};

use crate::entries::{Entries, read_entries};
use crate::fault::RecordFault;
use crate::front::read_front;
use crate::lines::line_at;
use crate::place::{Place, queues_of};
use fdp_base::{DriveConfig, Entry};
use std::alloc::Global;

/// What a record says.
#[derive(Debug, Drop)]
pub struct Printed {
    /// How many queues the output has.
    pub traces: u8,
    /// How many bytes in front are the output.
    pub output: usize,
    /// The entries of the history, each with the position that its line shows.
    pub entries: Vec<(u64, Entry)>,
}

/// The entries of a record, and how much of it is the output; or the first line after which no record goes on. A line may have any length. It
/// takes time that grows with the text, and prints each entry once.
pub fn read_record(alloc: Global, text: &[u8], config: &DriveConfig) -> Result<Printed, RecordFault>
    requires { IsValidConfig config.now }
    ensures ok { IfOk result (IsPrinted config.now text.now) }
    ensures fault { IfErr result (IsRecordCause config.now text.now) }

    // No record is refused, unless memory runs out.
    ensures only { (traces : ℕ) (output : List ℕ) (entries : List (ℕ × Entry)) → IsRecord config.now text.now traces output entries
        → GivesRecord traces output entries result }
{
    outcome(alloc, text, config)
}

fn outcome(alloc: Global, text: &[u8], config: &DriveConfig) -> Result<Printed, RecordFault>
    requires { IsValidConfig config.now }
    ensures { IsOutcome config.now text.now result }
{
    let (place, rest) = read_front(config, text);
    match queues_of(place) {
        Some(traces) => read_history(alloc, text, config, place, traces, rest),
        None => Err(RecordFault::Line(line_at(text, text.len() - rest.len()))),
    }
}

/// Reads the history behind an output, which led to a place.
fn read_history(
    alloc: Global,
    text: &[u8],
    config: &DriveConfig,
    place: Place, // proof
    traces: u8,
    rest: &[u8],
) -> Result<Printed, RecordFault>
    requires valid { IsValidConfig config.now }
    requires walks { WalksTo config.now text.now place rest.now }
    requires closing { queues_of place ≡ Some traces }
    ensures { IsOutcome config.now text.now result }
{
    let _place = place;
    let front = text.len() - rest.len();
    match read_entries(alloc, config, rest) {
        Ok(Entries::Whole(entries)) => Ok(Printed {
            traces,
            output: front,
            entries,
        }),
        Ok(Entries::Stop { len }) => Err(RecordFault::Line(line_at(text, front + len))),
        Err(_) => Err(RecordFault::NoMemory),
    }
}
