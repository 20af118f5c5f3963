ghost use Rattle.std.specs.Prelude.{◌≡◌, length};
ghost use Rattle.fdp_trace.specs.Words.{words_of};
ghost use Rattle.fdp_trace.specs.Reader.Reading.{Gives, Judges};
ghost use Rattle.fdp_trace.specs.Reader.Commands.{numbers_of, ranges_of, range_of};

use crate::fault::{FaultKind, LineError};
use crate::number::within;
use crate::words::next_word;
use fdp_base::{EventTypes, Pids, Range, Ranges, Sequence};
use std::alloc::Global;

/// The words of a line as identifiers of 16 bits. They are judged before memory is taken for them.
pub fn identifiers(alloc: Global, line: &[u8]) -> Result<Pids, LineError>
    ensures { Gives length result (numbers_of 65535 (words_of line.now)) }
{
    are_within(line, 0xffff)?;
    let mut numbers = Vec::new(alloc);
    let mut rest = line;
    while let Some((word, after)) = next_word(rest) {
        let number = within(word, 0, 0xffff)?;
        numbers.push(number as u16)?;
        rest = after;
    }
    Ok(Sequence::from_vec(numbers))
}

/// The words of a line as event types. They are judged before memory is taken for them.
pub fn event_types(alloc: Global, line: &[u8]) -> Result<EventTypes, LineError>
    ensures { Gives length result (numbers_of 255 (words_of line.now)) }
{
    are_within(line, 0xff)?;
    let mut numbers = Vec::new(alloc);
    let mut rest = line;
    while let Some((word, after)) = next_word(rest) {
        let number = within(word, 0, 0xff)?;
        numbers.push(number as u8)?;
        rest = after;
    }
    Ok(Sequence::from_vec(numbers))
}

/// Whether the words of a line are numbers up to a bound.
fn are_within(line: &[u8], high: u64) -> Result<(), FaultKind>
    ensures { Judges result (numbers_of high (words_of line.now)) }
{
    let mut rest = line;
    while let Some((word, after)) = next_word(rest) {
        within(word, 0, high)?;
        rest = after;
    }
    Ok(())
}

#[tactic(auto, unfolding(crate::specs::Reader::Commands::range_of))]
fn range(first: &[u8], second: &[u8]) -> Result<Range, FaultKind>
    ensures { result ≡ range_of first.now second.now }
{
    let slba = within(first, 0, u64::MAX)?;
    let length = within(second, 0, 0xffff_ffff)?;
    let length = length as u32;
    Ok(Range { slba, length })
}

/// The words of a line as ranges, two words each. They are judged before memory is taken for them.
pub fn ranges(alloc: Global, line: &[u8]) -> Result<Ranges, LineError>
    ensures { Gives length result (ranges_of (words_of line.now)) }
{
    are_ranges(line)?;
    let mut ranges = Vec::new(alloc);
    let mut rest = line;
    while let Some((slba, behind)) = next_word(rest) {
        let Some((length, after)) = next_word(behind) else {
            return Err(LineError::Fault(FaultKind::Count));
        };
        let range = range(slba, length)?;
        ranges.push(range)?;
        rest = after;
    }
    Ok(Sequence::from_vec(ranges))
}

/// Whether the words of a line are ranges, two words each.
fn are_ranges(line: &[u8]) -> Result<(), FaultKind>
    ensures { Judges result (ranges_of (words_of line.now)) }
{
    let mut rest = line;
    while let Some((slba, behind)) = next_word(rest) {
        let Some((length, after)) = next_word(behind) else {
            return Err(FaultKind::Count);
        };
        range(slba, length)?;
        rest = after;
    }
    Ok(())
}
