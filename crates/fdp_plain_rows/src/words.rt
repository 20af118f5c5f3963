//! The words of a row, read one after another.
ghost use Rattle.std.specs.Prelude.{◌≤◌};

use std::alloc::{AllocError, Global};
use std::num::ParseIntError;

/// The words of a row that are not read yet. A word that is not as it has to be is read as nothing or 0, and makes the row one
/// that says nothing (`is_sound`).
#[derive(Clone, Copy)]
pub struct Words<'a> {
    rest: &'a str,
    is_bad: bool,
}

impl<'a> Words<'a> {
    pub fn of(row: &'a str) -> Words<'a> {
        Words {
            rest: row.trim_start(),
            is_bad: false,
        }
    }

    /// Whether all words were read, and were as they have to be.
    pub fn is_sound(&self) -> bool {
        self.rest.is_empty() && !self.is_bad
    }

    /// The row says nothing.
    pub fn refuse(&mut self) {
        self.is_bad = true;
    }

    /// No list has more words than this.
    pub fn most(&self) -> usize {
        self.rest.len()
    }

    /// Whether another word of a list follows: none of `to`, `at` and `->`.
    pub fn has_more(&self) -> bool {
        !self.rest.is_empty() && !self.is_behind_a_list()
    }

    fn is_behind_a_list(&self) -> bool {
        self.rest.starts_with("-> ") || self.rest.starts_with("at ") || self.rest.starts_with("to ")
    }

    /// The next word, empty where there is none.
    pub fn word(&mut self) -> &'a str {
        match self.rest.split_once(' ') {
            Some((word, rest)) => {
                self.rest = rest.trim_start();
                word
            }
            None => {
                let word = self.rest;
                self.rest = "";
                word
            }
        }
    }

    /// Reads the next word where it is this one, and tells whether it is.
    pub fn takes(&mut self, word: &str) -> bool {
        let mut behind = *self;
        if behind.word() == word {
            self.rest = behind.rest;
            true
        } else {
            false
        }
    }

    /// What stands before and behind a letter of the next word.
    pub fn halves(&mut self, letter: char) -> (&'a str, &'a str) {
        self.word().split_once(letter).unwrap_or(("", ""))
    }

    /// A number, decimal or, behind `0x`, hexadecimal.
    pub fn number(&mut self) -> u64 {
        let word = self.word();
        self.number_in(word, u64::MAX)
    }

    pub fn number32(&mut self) -> u32 {
        let word = self.word();
        self.number_in(word, 0xffff_ffff) as u32
    }

    pub fn number16(&mut self) -> u16 {
        let word = self.word();
        self.number_in(word, 0xffff) as u16
    }

    pub fn number8(&mut self) -> u8 {
        let word = self.word();
        self.number_in(word, 0xff) as u8
    }

    /// The number that a word says, at most `most`.
    pub fn number_in(&mut self, word: &str, most: u64) -> u64
        ensures { result ≤ most }
    {
        match word.strip_prefix("0x") {
            Some(digits) => self.kept(u64::from_str_radix(digits, 16), most),
            None => self.kept(word.parse::<u64>(), most),
        }
    }

    /// Two hexadecimal digits.
    pub fn hexadecimal(&mut self, word: &str) -> u8 {
        self.kept(u64::from_str_radix(word, 16), 0xff) as u8
    }

    fn kept(&mut self, parsed: Result<u64, ParseIntError>, most: u64) -> u64
        ensures { result ≤ most }
    {
        match parsed {
            Ok(number) if number <= most => number,
            _ => {
                self.is_bad = true;
                0
            }
        }
    }

    /// `on` or `off`.
    pub fn is_on(&mut self) -> bool {
        match self.word() {
            "on" => true,
            "off" => false,
            _ => {
                self.is_bad = true;
                false
            }
        }
    }

    /// The number in a word that begins with a letter, 1 where the next word does not.
    pub fn tagged(&mut self, letter: &str) -> u16 {
        match self.rest.strip_prefix(letter) {
            Some(rest) => {
                self.rest = rest;
                self.number16()
            }
            None => 1,
        }
    }

    /// Bytes, each a word `N`, or `N*COUNT` for so many in a row.
    pub fn bytes(&mut self, alloc: Global) -> Result<Vec<u8>, AllocError> {
        let mut bytes = Vec::new(alloc);
        for _ in 0..self.most() {
            if self.has_more() {
                let word = self.word();
                self.add_run(word, &mut bytes)?;
            }
        }
        Ok(bytes)
    }

    pub fn add_run(&mut self, word: &str, into: &mut Vec<u8>) -> Result<(), AllocError> {
        let (value, count) = word.split_once('*').unwrap_or((word, "1"));
        let value = self.number_in(value, 0xff) as u8;
        for _ in 0..self.number_in(count, 0xffff) {
            into.push(value)?;
        }
        Ok(())
    }

    /// Numbers of 16 bits.
    pub fn numbers16(&mut self, alloc: Global) -> Result<Vec<u16>, AllocError> {
        let mut numbers = Vec::new(alloc);
        for _ in 0..self.most() {
            if self.has_more() {
                numbers.push(self.number16())?;
            }
        }
        Ok(numbers)
    }
}
