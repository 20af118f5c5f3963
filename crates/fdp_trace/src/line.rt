ghost use Rattle.std.specs.Prelude.{◌≡◌, ℕ, MatchResult};
ghost use Rattle.std.specs.List.{list_all};
ghost use Rattle.std.specs.Str.{is_utf8};
ghost use Rattle.fdp_trace.specs.Words.{is_blank, words_of};
ghost use Rattle.fdp_trace.specs.Reader.Shapes.{words_fit, numbers_fit};
ghost use Rattle.fdp_trace.specs.Reader.Reading.{Gives};
ghost use Rattle.fdp_trace.specs.Reader.Commands.{checked, command_of, listed, spelled};
ghost use Rattle.fdp_trace.specs.Grammar.{is_skipped};
ghost use Rattle.fdp_trace.specs.Reader.Line.{line_of, listed_in};

use crate::command_word::CommandWord;
use crate::commands::spelled;
use crate::fault::{FaultKind, LineError};
use crate::number::is_number;
use crate::words::{count_words, is_blank, next_word};
use fdp_base::{Command, LONGEST_LINE};
use std::alloc::Global;
use std::str;

/// The command of a line, or none where the line is skipped. Memory is taken for its list alone, once nothing of the line is wrong.
#[tactic(auto, unfolding(crate::specs::Reader::Line::line_of))]
pub fn read_line(alloc: Global, line: &[u8]) -> Result<Option<Command>, LineError>
    ensures { Gives listed_in result (line_of line.now) }
{
    if is_skipped(line) {
        return Ok(None);
    }
    if line.len() > LONGEST_LINE {
        return Err(LineError::Fault(FaultKind::Long));
    }
    if !is_text(line) {
        return Err(LineError::Fault(FaultKind::Utf8));
    }
    let command = read_command(alloc, line)?;
    Ok(Some(command))
}

/// The command that the words of a line say, however long the line is.
pub fn read_command(alloc: Global, line: &[u8]) -> Result<Command, LineError>
    ensures { Gives listed result (command_of (words_of line.now)) }
{
    let (word, rest) = judged(line)?;
    spelled(alloc, word, rest)
}

fn is_skipped(line: &[u8]) -> bool
    ensures { result ≡ is_skipped line.now }
{
    (!line.is_empty() && line[0] == b'#') || are_blanks(line)
}

fn are_blanks(line: &[u8]) -> bool
    ensures { result ≡ list_all is_blank line.now }
{
    line.iter().all(|b| is_blank(*b))
}

fn is_text(line: &[u8]) -> bool
    ensures { result ≡ is_utf8 line.now }
{
    match str::from_utf8(line) {
        Ok(_) => true,
        Err(_) => false,
    }
}

/// The first word of a line and what stands behind it, where no word, count or number is wrong.
#[tactic(auto, unfolding(crate::specs::Reader::Commands::checked))]
fn judged(line: &[u8]) -> Result<(CommandWord, &[u8]), FaultKind>
    ensures { MatchResult result
        (λ x. command_of (words_of line.now) ≡ spelled x.0 (words_of x.1.now))
        (λ kind. command_of (words_of line.now) ≡ Err kind) }
{
    let (word, rest) = named(line)?;
    if !word.accepts(count_words(rest)) {
        return Err(FaultKind::Count);
    }
    if !words_fit(word, rest) {
        return Err(FaultKind::Word);
    }
    if !numbers_fit(word, rest) {
        return Err(FaultKind::Number);
    }
    Ok((word, rest))
}

/// The first word of a line and what stands behind it.
#[tactic(auto, unfolding(crate::specs::Reader::Commands::command_of))]
fn named(line: &[u8]) -> Result<(CommandWord, &[u8]), FaultKind>
    ensures { MatchResult result
        (λ x. command_of (words_of line.now) ≡ checked x.0 (words_of x.1.now))
        (λ kind. command_of (words_of line.now) ≡ Err kind) }
{
    let Some((first, rest)) = next_word(line) else {
        return Err(FaultKind::Word);
    };
    match CommandWord::from_text(first) {
        Some(word) => Ok((word, rest)),
        None => Err(FaultKind::Word),
    }
}

#[tactic(auto, unfolding(crate::specs::Reader::Shapes::words_fit))]
fn words_fit(word: CommandWord, line: &[u8]) -> bool
    ensures { result ≡ words_fit word 0 (words_of line.now) }
{
    let mut place = 0;
    let mut rest = line;
    while let Some((text, after)) = next_word(rest) {
        if word.is_fixed(place) && !word.is_choice(text) {
            return false;
        }
        place += 1;
        rest = after;
    }
    true
}

#[tactic(auto, unfolding(crate::specs::Reader::Shapes::numbers_fit))]
fn numbers_fit(word: CommandWord, line: &[u8]) -> bool
    ensures { result ≡ numbers_fit word 0 (words_of line.now) }
{
    let mut place = 0;
    let mut rest = line;
    while let Some((text, after)) = next_word(rest) {
        if !word.is_fixed(place) && !is_number(text) {
            return false;
        }
        place += 1;
        rest = after;
    }
    true
}
