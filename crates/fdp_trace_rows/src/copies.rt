//! Lines that stand for many: `*N TEXT` for so many lines of a text, `+N TEXT` for so many copies of it in front of the next
//! line.

use std::alloc::AllocError;
use std::str;

/// Adds what a line stands for.
pub fn push_line(text: &mut Vec<u8>, line: &[u8]) -> Result<(), AllocError> {
    match line {
        [b'*', counted @ ..] => push_copies(text, counted, b"\n"),
        [b'+', counted @ ..] => push_copies(text, counted, b""),
        _ => {
            text.extend_from_slice(line)?;
            text.push(b'\n')?;
            Ok(())
        }
    }
}

/// Adds copies of the text behind a number, each with an end.
fn push_copies(text: &mut Vec<u8>, counted: &[u8], end: &[u8]) -> Result<(), AllocError> {
    let (number, copy) = cut(counted);
    for _ in 0..number {
        text.extend_from_slice(copy)?;
        text.extend_from_slice(end)?;
    }
    Ok(())
}

/// The number in front of the first space, and what stands behind that.
fn cut(counted: &[u8]) -> (u32, &[u8]) {
    let Ok(words) = str::from_utf8(counted) else {
        return (0, &[]);
    };
    match words.split_once(' ') {
        Some((number, copy)) => (number.parse::<u32>().unwrap_or(0), copy.as_bytes()),
        None => (0, &[]),
    }
}
