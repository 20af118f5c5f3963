ghost use Rattle.std.specs.Prelude.{◌≡◌, ◌^◌, ◌≤◌, ℕ, min, length, IfOk, is_some};
ghost use Rattle.std.specs.List.{list_all};
ghost use Rattle.std.specs.Option.{option_map};
ghost use Rattle.std.specs.Char.{digit_value, is_ascii_digit, is_ascii_hexdigit};
ghost use Rattle.fdp_trace.specs.Numbers.{value_of};
ghost use Rattle.fdp_trace.specs.Reader.NumberOf.{is_decimal, is_hexadecimal, number_of};
ghost use Rattle.fdp_trace.specs.Reader.Reading.{within};

use crate::fault::FaultKind;

/// One above the greatest number that a line may have.
const LIMIT: u128 = 0x1_0000_0000_0000_0000;

/// The number that a word spells, within bounds.
pub fn within(word: &[u8], low: u64, high: u64) -> Result<u64, FaultKind>
    ensures value { result ≡ within low high word.now }
    ensures bounds { IfOk result (λ n. (low ≤ n) × (n ≤ high)) }
{
    let Some(number) = number(word) else {
        return Err(FaultKind::Number);
    };
    if number < u128::from(low) || number > u128::from(high) {
        return Err(FaultKind::Range);
    }
    Ok(number as u64)
}

/// Whether a word spells a number.
#[tactic(auto, unfolding(crate::specs::Reader::NumberOf::number_of))]
pub fn is_number(word: &[u8]) -> bool
    ensures { result ≡ is_some (number_of word.now) }
{
    is_decimal(word) || is_hexadecimal(word)
}

/// The number that a word spells, or `LIMIT` where it is at least that.
#[tactic(auto, unfolding(crate::specs::Reader::NumberOf::number_of))]
fn number(word: &[u8]) -> Option<u128>
    ensures { result ≡ option_map (min (2 ^ 64)) (number_of word.now) }
{
    if is_decimal(word) {
        Some(number_of_digits(word, 10))
    } else if is_hexadecimal(word) {
        Some(number_of_digits(&word[2..], 16))
    } else {
        None
    }
}

fn is_decimal(word: &[u8]) -> bool
    ensures { result ≡ is_decimal word.now }
{
    !word.is_empty() && are_digits(word) && (word.len() == 1 || word[0] != b'0')
}

fn are_digits(digits: &[u8]) -> bool
    ensures { result ≡ list_all is_ascii_digit digits.now }
{
    digits.iter().all(|b| b.is_ascii_digit())
}

fn is_hexadecimal(word: &[u8]) -> bool
    ensures { result ≡ is_hexadecimal word.now }
{
    word.len() > 2 && word[0] == b'0' && word[1] == b'x' && are_hex_digits(&word[2..])
}

fn are_hex_digits(digits: &[u8]) -> bool
    ensures { result ≡ list_all is_ascii_hexdigit digits.now }
{
    digits.iter().all(|b| b.is_ascii_hexdigit())
}

/// The number that digits spell, or 2^64 where it is at least that.
pub fn number_of_digits(digits: &[u8], radix: u8) -> u128
    requires low { 1 ≤ radix }
    requires high { radix ≤ 36 }
    ensures { result ≡ min (2 ^ 64) (value_of radix digits.now) }
{
    let mut total = 0;
    for b in digits {
        total = (u128::from(radix) * total + u128::from(digit(*b))).min(LIMIT);
    }
    total
}

fn digit(b: u8) -> u8
    ensures { result ≡ digit_value b }
{
    char::from(b).to_digit(36).map_or(36, |value| value as u8)
}
