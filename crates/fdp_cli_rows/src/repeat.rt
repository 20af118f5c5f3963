//! Lines that are repeated for several numbers.
use std::alloc::{AllocError, Global};

/// Lines, in which a number in braces stands for itself and the number that they are repeated for.
#[derive(Drop)]
pub struct Repeat {
    first: u64,
    end: u64,
    step: u64,
    lines: String,
}

impl Repeat {
    /// What a line begins: a star and three numbers.
    pub fn of(alloc: Global, line: &[u8]) -> Option<Repeat> {
        let line = str::from_utf8(line).ok()?;
        let (first, rest) = line.strip_prefix("* ")?.split_once(' ')?;
        let (last, step) = rest.split_once(' ')?;
        Some(Repeat {
            first: first.parse::<u64>().ok()?,
            end: last.parse::<u64>().ok()?.saturating_add(1),
            step: step.parse::<u64>().ok()?,
            lines: String::new(alloc),
        })
    }

    pub fn push(&mut self, line: &[u8]) -> Result<(), AllocError> {
        match str::from_utf8(line) {
            Ok(line) => {
                self.lines.push_str(line)?;
                self.lines.push('\n')
            }
            Err(_) => Ok(()),
        }
    }

    /// Puts the lines for each number behind a text.
    pub fn add_to(&self, text: &mut Vec<u8>) -> Result<(), AllocError> {
        for number in self.first..self.end {
            if self.has(number) {
                self.add_for(number, text)?;
            }
        }
        Ok(())
    }

    fn has(&self, number: u64) -> bool {
        self.step != 0 && number.wrapping_sub(self.first) % self.step == 0
    }

    fn add_for(&self, number: u64, text: &mut Vec<u8>) -> Result<(), AllocError> {
        for piece in self.lines.split('{') {
            match piece.split_once('}') {
                Some((added, rest)) => {
                    let added = added.parse::<u64>().unwrap_or(0);
                    push_number(number.wrapping_add(added), text)?;
                    text.extend_from_slice(rest.as_bytes())?;
                }
                None => text.extend_from_slice(piece.as_bytes())?,
            }
        }
        Ok(())
    }
}

fn push_number(number: u64, text: &mut Vec<u8>) -> Result<(), AllocError> {
    let digits = format!(in *text.allocator(); "{number}")?;
    text.extend_from_slice(digits.as_bytes())
}
