//! The words behind the first, as `clap` reads them: those of a simple command that has positional arguments alone. No word that begins with `-`
//! comes here, so that `clap` meets no option, no `--` and no call for help, and each word is a value as it stands.

ghost use Rattle.std.specs.Prelude.{◌≡◌, ◌≢◌, ◌≤◌, IfErr, IfOk, MatchResult, None, Some, false};
ghost use Rattle.std.specs.List.{list_all, list_any};
ghost use Rattle.std.specs.Char.{is_ascii_digit};
ghost use Rattle.clap.specs.Words.{app_of, kind_of, rule_of};
ghost use Rattle.fdp_finding.specs.Asked.{AuditNames, Names, Pair, audit_of, begins_with_dash, is_number, load_of, names_of, pair_of};
ghost use Rattle.fdp_finding.specs.CommandLine.{AreAuditNames, AreFew, AreNames, ArePair, Counts, Misses, as_audit, as_load, as_names, as_pair, bare, one, one_to, spelled};

use crate::asked::{
    AuditAsked, LONGEST_NUMBER, LoadAsked, MOST_NUMBER, MOST_RECORDS, MOST_TRACES, NamesAsked,
    NotAsked,
};
use clap::error::ErrorKind;
use clap::{Arg, ArgMatches, Command, Error};
use fdp_trace::number_of_digits;
use std::alloc::Global;

/// The names behind `run`, `record`, `stream` and `stream-record`.
pub fn names_in(alloc: Global, words: &[String]) -> Result<NamesAsked<'_>, NotAsked>
    requires { list_any begins_with_dash (spelled words.now) ≡ false }
    ensures { MatchResult result
        (λ names. names_of (spelled words.now) ≡ Some (as_names names))
        (Misses (names_of (spelled words.now))) }
{
    let matches = match matches_of_names(alloc, words) {
        Ok(matches) => matches,
        Err(error) => return Err(cause_of(&error)),
    };
    let mut traces = Vec::new(alloc);
    if traces
        .extend_from_slice(matches.get_strs("TRACE").unwrap())
        .is_err()
    {
        return Err(NotAsked::NoMemory);
    }
    Ok(NamesAsked {
        config: matches.get_str("CONFIG").unwrap(),
        image: matches.get_str("IMAGE").unwrap(),
        traces,
    })
}

/// The load behind `make`.
pub fn load_in(alloc: Global, words: &[String]) -> Result<LoadAsked<'_>, NotAsked>
    requires { list_any begins_with_dash (spelled words.now) ≡ false }
    ensures { MatchResult result
        (λ load. (load_of (spelled words.now) ≡ Some (as_load load)) × Counts load)
        (Misses (load_of (spelled words.now))) }
{
    let pair = pair_in(alloc, words)?;
    let number = pair.first;
    if !is_number(number.as_bytes()) {
        return Err(NotAsked::Usage);
    }
    Ok(LoadAsked {
        number,
        commands: number_of_digits(number.as_bytes(), 10) as u16,
        image: pair.second,
    })
}

/// The names behind `audit`.
pub fn audit_in(alloc: Global, words: &[String]) -> Result<AuditAsked<'_>, NotAsked>
    requires { list_any begins_with_dash (spelled words.now) ≡ false }
    ensures { MatchResult result
        (λ audit. (audit_of (spelled words.now) ≡ Some (as_audit audit)) × AreFew audit)
        (Misses (audit_of (spelled words.now))) }
{
    let matches = match matches_of_audit(alloc, words) {
        Ok(matches) => matches,
        Err(error) => return Err(cause_of(&error)),
    };
    let mut texts = Vec::new(alloc);
    if texts
        .extend_from_slice(matches.get_strs("RECORD").unwrap())
        .is_err()
    {
        return Err(NotAsked::NoMemory);
    }
    Ok(AuditAsked {
        config: matches.get_str("CONFIG").unwrap(),
        texts,
    })
}

/// Two words.
#[derive(Clone, Copy, Debug)]
pub(crate) struct PairAsked<'a> {
    first: &'a str,
    second: &'a str,
}

fn pair_in(alloc: Global, words: &[String]) -> Result<PairAsked<'_>, NotAsked>
    requires { list_any begins_with_dash (spelled words.now) ≡ false }
    ensures { MatchResult result
        (λ pair. pair_of (spelled words.now) ≡ Some (as_pair pair))
        (Misses (pair_of (spelled words.now))) }
{
    let matches = match matches_of_pair(alloc, words) {
        Ok(matches) => matches,
        Err(error) => return Err(cause_of(&error)),
    };
    Ok(PairAsked {
        first: matches.get_str("FIRST").unwrap(),
        second: matches.get_str("SECOND").unwrap(),
    })
}

/// Reads `CONFIG IMAGE TRACE..`.
fn matches_of_names<'a>(alloc: Global, words: &'a [String]) -> Result<ArgMatches<'a>, Error>
    requires { list_any begins_with_dash (spelled words.now) ≡ false }
    ensures ok { IfOk result (λ m. (names : Names) × (names_of (spelled words.now) ≡ Some names) × AreNames m names) }
    ensures err { IfErr result (λ e. kind_of e ≢ ErrorKind.OutOfMemory → names_of (spelled words.now) ≡ None) }
{
    let command = simple(alloc)
        .arg(one(alloc, "CONFIG"))?
        .arg(one(alloc, "IMAGE"))?
        .arg(one_to(alloc, MOST_TRACES, "TRACE"))?;
    command.try_get_matches_from(words)
}

/// Reads `CONFIG RECORD..`.
fn matches_of_audit<'a>(alloc: Global, words: &'a [String]) -> Result<ArgMatches<'a>, Error>
    requires { list_any begins_with_dash (spelled words.now) ≡ false }
    ensures ok { IfOk result (λ m. (names : AuditNames) × (audit_of (spelled words.now) ≡ Some names) × AreAuditNames m names) }
    ensures err { IfErr result (λ e. kind_of e ≢ ErrorKind.OutOfMemory → audit_of (spelled words.now) ≡ None) }
{
    let command = simple(alloc)
        .arg(one(alloc, "CONFIG"))?
        .arg(one_to(alloc, MOST_RECORDS, "RECORD"))?;
    command.try_get_matches_from(words)
}

/// Reads two words.
fn matches_of_pair<'a>(alloc: Global, words: &'a [String]) -> Result<ArgMatches<'a>, Error>
    requires { list_any begins_with_dash (spelled words.now) ≡ false }
    ensures ok { IfOk result (λ m. (pair : Pair) × (pair_of (spelled words.now) ≡ Some pair) × ArePair m pair) }
    ensures err { IfErr result (λ e. kind_of e ≢ ErrorKind.OutOfMemory → pair_of (spelled words.now) ≡ None) }
{
    let command = simple(alloc)
        .arg(one(alloc, "FIRST"))?
        .arg(one(alloc, "SECOND"))?;
    command.try_get_matches_from(words)
}

/// A command without a word of its own, and without options.
fn simple<'a>(alloc: Global) -> Command<'a>
    ensures { app_of result ≡ bare }
{
    Command::new(alloc, "fdpdrive")
        .no_binary_name(true)
        .disable_help_flag(true)
}

/// One word, in its place.
fn one<'a>(alloc: Global, id: &'a str) -> Arg<'a>
    ensures rule { rule_of result ≡ one id.entry.now }
    ensures local { result.global ≡ false }
{
    Arg::new(alloc, id).required(true)
}

/// One word or more, up to so many, at the end.
fn one_to<'a>(alloc: Global, most: usize, id: &'a str) -> Arg<'a>
    requires { 1 ≤ most }
    ensures rule { rule_of result ≡ one_to most id.entry.now }
    ensures local { result.global ≡ false }
{
    one(alloc, id).num_args(1..=most)
}

/// Whether a word has one to four digits, and spells a number of at most 8,192.
fn is_number(digits: &[u8]) -> bool
    ensures { result ≡ is_number digits.now }
{
    !digits.is_empty()
        && digits.len() <= LONGEST_NUMBER
        && are_digits(digits)
        && number_of_digits(digits, 10) <= MOST_NUMBER
}

fn are_digits(digits: &[u8]) -> bool
    ensures { result ≡ list_all is_ascii_digit digits.now }
{
    digits.iter().all(|b| b.is_ascii_digit())
}

/// Why a command line was not read.
fn cause_of(error: &Error) -> NotAsked
    ensures usage { result ≡ NotAsked.Usage → kind_of error.now ≢ ErrorKind.OutOfMemory }
    ensures memory { result ≡ NotAsked.NoMemory → kind_of error.now ≡ ErrorKind.OutOfMemory }
{
    if error.kind() == ErrorKind::OutOfMemory {
        NotAsked::NoMemory
    } else {
        NotAsked::Usage
    }
}
