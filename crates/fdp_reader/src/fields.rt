//! Fields of a line that no command has.

ghost use Rattle.std.specs.Prelude.{◌≡◌, ◌≤◌, IfOk};
ghost use Rattle.fdp_trace.specs.Words.{words_of};
ghost use Rattle.fdp_trace.specs.Reader.Commands.{field_8, field_16, field_32, field_64};
ghost use Rattle.fdp_trace.specs.Reader.Reading.{Reads};
ghost use Rattle.fdp_prints.specs.Reader.{dword_field, flag, hex_within, spot_field, status_field, status_in};

use crate::cut::{behind, front};
use fdp_base::{Spot, Status};
use fdp_trace::{FaultKind, field, next_word, number_of_digits};

pub fn field_8(line: &[u8]) -> Result<(u8, &[u8]), FaultKind>
    ensures { Reads (λ x. (x.0, words_of x.1.now)) result (field_8 (words_of line.now)) }
{
    let (number, rest) = field(line, 0, 0xff)?;
    Ok((number as u8, rest))
}

pub fn field_16(line: &[u8]) -> Result<(u16, &[u8]), FaultKind>
    ensures { Reads (λ x. (x.0, words_of x.1.now)) result (field_16 (words_of line.now)) }
{
    let (number, rest) = field(line, 0, 0xffff)?;
    Ok((number as u16, rest))
}

pub fn field_32(line: &[u8]) -> Result<(u32, &[u8]), FaultKind>
    ensures { Reads (λ x. (x.0, words_of x.1.now)) result (field_32 (words_of line.now)) }
{
    let (number, rest) = field(line, 0, 0xffff_ffff)?;
    Ok((number as u32, rest))
}

pub fn field_64(line: &[u8]) -> Result<(u64, &[u8]), FaultKind>
    ensures { Reads (λ x. (x.0, words_of x.1.now)) result (field_64 (words_of line.now)) }
{
    let (number, rest) = field(line, 0, u64::MAX)?;
    Ok((number, rest))
}

/// 1 or 0.
#[tactic(auto, unfolding(fdp_prints::specs::Reader::flag))]
pub fn flag(line: &[u8]) -> Result<(bool, &[u8]), FaultKind>
    ensures { Reads (λ x. (x.0, words_of x.1.now)) result (flag (words_of line.now)) }
{
    let (number, rest) = field(line, 0, 1)?;
    Ok((number == 1, rest))
}

/// A status: a digit, a slash, two digits.
#[tactic(auto, unfolding(fdp_prints::specs::Reader::status_field))]
pub fn status_field(line: &[u8]) -> Result<(Status, &[u8]), FaultKind>
    ensures { Reads (λ x. (x.0, words_of x.1.now)) result (status_field (words_of line.now)) }
{
    match next_word(line) {
        Some((word, rest)) => {
            let status = status(word)?;
            Ok((status, rest))
        }
        None => Err(FaultKind::Count),
    }
}

#[tactic(auto, unfolding(fdp_prints::specs::Reader::status_in))]
fn status(word: &[u8]) -> Result<Status, FaultKind>
    ensures { result ≡ status_in word.now }
{
    let sct = hex_within(front(word, 1), 15)?;
    let sc = hex_within(behind(word, 2), 0xff)?;
    Ok(Status {
        sct: sct as u8,
        sc: sc as u8,
    })
}

/// Hexadecimal digits of a number of 32 bits.
#[tactic(auto, unfolding(fdp_prints::specs::Reader::dword_field))]
pub fn dword_field(line: &[u8]) -> Result<(u32, &[u8]), FaultKind>
    ensures { Reads (λ x. (x.0, words_of x.1.now)) result (dword_field (words_of line.now)) }
{
    match next_word(line) {
        Some((word, rest)) => {
            let number = hex_within(word, 0xffff_ffff)?;
            Ok((number as u32, rest))
        }
        None => Err(FaultKind::Count),
    }
}

/// The number that hexadecimal digits spell, up to a bound.
#[tactic(auto, unfolding(fdp_prints::specs::Reader::hex_within))]
fn hex_within(digits: &[u8], high: u64) -> Result<u64, FaultKind>
    ensures value { result ≡ hex_within high digits.now }
    ensures bound { IfOk result (λ n. n ≤ high) }
{
    let number = number_of_digits(digits, 16);
    if number > u128::from(high) {
        return Err(FaultKind::Range);
    }
    Ok(number as u64)
}

/// A page: its unit, and its number there.
#[tactic(auto, unfolding(fdp_prints::specs::Reader::spot_field))]
pub fn spot_field(line: &[u8]) -> Result<(Spot, &[u8]), FaultKind>
    ensures { Reads (λ x. (x.0, words_of x.1.now)) result (spot_field (words_of line.now)) }
{
    let (unit, rest) = field_32(line)?;
    let (page, rest) = field_32(rest)?;
    Ok((Spot { unit, page }, rest))
}
