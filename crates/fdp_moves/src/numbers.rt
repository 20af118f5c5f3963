//! Numbers of rows.

/// The number that a text says: a sum of products, each of which may be followed by numbers that it is divided by, of which the rest
/// counts. `$` stands for `each`; the others are decimal, or hexadecimal behind `0x`. So `$*2%72+100` is the rest of twice `each` by 72, and
/// 100.
pub fn number_of(text: &str, each: u64) -> Option<u64> {
    let mut sum = 0u64;
    for term in text.split('+') {
        sum = sum.wrapping_add(term_of(term, each)?);
    }
    Some(sum)
}

fn term_of(term: &str, each: u64) -> Option<u64> {
    match term.split_once('%') {
        Some((product, divisors)) => rest_of(product_of(product, each)?, divisors),
        None => product_of(term, each),
    }
}

fn rest_of(number: u64, divisors: &str) -> Option<u64> {
    let mut rest = number;
    for divisor in divisors.split('%') {
        let divisor = plain_number(divisor)?;
        if divisor == 0 {
            return None;
        }
        rest %= divisor;
    }
    Some(rest)
}

fn product_of(product: &str, each: u64) -> Option<u64> {
    let mut number = 1u64;
    for factor in product.split('*') {
        let factor = if factor == "$" {
            each
        } else {
            plain_number(factor)?
        };
        number = number.wrapping_mul(factor);
    }
    Some(number)
}

/// A number, decimal or, behind `0x`, hexadecimal.
pub fn plain_number(text: &str) -> Option<u64> {
    match text.strip_prefix("0x") {
        Some(digits) => u64::from_str_radix(digits, 16).ok(),
        None => text.parse::<u64>().ok(),
    }
}

/// The first three numbers of a row, and what stands behind them: from the first to the second, this one included, by the third.
#[derive(Clone, Copy)]
pub struct Range<'a> {
    pub first: u64,
    pub end: u64,
    pub step: u64,
    pub rest: &'a str,
}

impl<'a> Range<'a> {
    pub fn of(text: &'a str) -> Option<Range<'a>> {
        let (first, rest) = text.split_once(' ')?;
        let (last, rest) = rest.split_once(' ')?;
        let (step, rest) = rest.split_once(' ').unwrap_or((rest, ""));
        Some(Range {
            first: plain_number(first)?,
            end: plain_number(last)?.saturating_add(1),
            step: plain_number(step)?,
            rest,
        })
    }

    /// Each number from one to another.
    pub fn each(first: u64, last: u64) -> Range<'a> {
        Range {
            first,
            end: last.saturating_add(1),
            step: 1,
            rest: "",
        }
    }

    /// The same numbers, all so much higher.
    pub fn later(self, by: u64) -> Range<'a> {
        Range {
            first: self.first.saturating_add(by),
            end: self.end.saturating_add(by),
            ..self
        }
    }

    /// Whether a number is one of these: it is a multiple of the step away from the first.
    pub fn has(&self, number: u64) -> bool {
        self.step != 0 && number.wrapping_sub(self.first) % self.step == 0
    }
}
