ghost use Rattle.std.specs.Prelude.{◌≡◌, MatchResult, bytes_eq, false, string_bytes};
ghost use Rattle.std.specs.List.{list_any};
ghost use Rattle.fdp_finding.specs.Asked.{asked_of, begins_with_dash, chosen_by};
ghost use Rattle.fdp_finding.specs.CommandLine.{AsksFor, Misses, spelled};

use crate::command_line::{audit_in, load_in, names_in};
use std::alloc::Global;

/// Traces of a run.
pub const MOST_TRACES: usize = 16;

/// Records of an audit.
pub const MOST_RECORDS: usize = 16;

/// Digits of the number of a generated load.
pub const LONGEST_NUMBER: usize = 4;

/// Commands of a trace of a generated load.
pub const MOST_NUMBER: u128 = 8192;

/// What a run prints, and what it serves.
#[derive(Clone, Copy, Debug, PartialEq, Eq)]
pub enum Form<'a> {
    /// `run`: the output of the traces that are named.
    Run,
    /// `record`: that output, and then the history.
    Record,
    /// `stream`: the output of the streams that are named.
    Stream,
    /// `stream-record`: that output, and then the history.
    StreamRecord,
    /// `make`: a summary of a generated load, with this number of commands, as the words give it.
    Make(&'a str),
}

/// What the texts are whose commands a run serves.
#[derive(Clone, Copy, Debug, PartialEq, Eq)]
pub enum Texts {
    /// Commands, one a line.
    Traces,
    /// Frames of queue entries.
    Streams,
}

/// What the words ask for.
#[derive(Debug, Drop)]
pub enum Request<'a> {
    /// To serve traces and print the output.
    Run(NamesAsked<'a>),
    /// That, and to print the history behind it.
    Record(NamesAsked<'a>),
    /// To serve streams and print the output.
    Stream(NamesAsked<'a>),
    /// That, and to print the history behind it.
    StreamRecord(NamesAsked<'a>),
    /// To serve a generated load.
    Make(LoadAsked<'a>),
    /// To judge the records of runs.
    Audit(AuditAsked<'a>),
}

/// The names of what a run reads, and of the image that holds its drive.
#[derive(Debug, Drop)]
pub struct NamesAsked<'a> {
    pub config: &'a str,
    pub image: &'a str,
    /// The traces, or the streams.
    pub traces: Vec<&'a str>,
}

/// A generated load, and the name of the image that holds its drive.
#[derive(Clone, Copy, Debug)]
pub struct LoadAsked<'a> {
    /// The number of commands of a trace, as the words give it.
    pub number: &'a str,
    pub commands: u16,
    pub image: &'a str,
}

/// The names of a configuration and of the records of runs that followed one another on one image.
#[derive(Debug, Drop)]
pub struct AuditAsked<'a> {
    pub config: &'a str,
    /// The records, that of the first run first.
    pub texts: Vec<&'a str>,
}

/// Why the words ask for nothing.
#[derive(Clone, Copy, Debug, PartialEq, Eq)]
pub enum NotAsked {
    /// They have none of the forms, or one of them begins with `-`.
    Usage,
    NoMemory,
}

/// What the words ask for: the first chooses the form, and the others are read as it says.
pub fn asked(alloc: Global, words: &[String]) -> Result<Request<'_>, NotAsked>
    ensures { MatchResult result (AsksFor (asked_of words.now)) (Misses (asked_of words.now)) }
{
    let [word, others @ ..] = words else {
        return Err(NotAsked::Usage);
    };
    if has_option(words) {
        return Err(NotAsked::Usage);
    }
    chosen(alloc, word, others)
}

/// What the words behind the first ask for.
fn chosen<'a>(alloc: Global, word: &String, others: &'a [String]) -> Result<Request<'a>, NotAsked>
    requires { list_any begins_with_dash (spelled others.now) ≡ false }
    ensures { MatchResult result
        (AsksFor (chosen_by (string_bytes word.now) (spelled others.now)))
        (Misses (chosen_by (string_bytes word.now) (spelled others.now))) }
{
    if is_word(word, "run") {
        Ok(Request::Run(names_in(alloc, others)?))
    } else if is_word(word, "record") {
        Ok(Request::Record(names_in(alloc, others)?))
    } else if is_word(word, "stream") {
        Ok(Request::Stream(names_in(alloc, others)?))
    } else if is_word(word, "stream-record") {
        Ok(Request::StreamRecord(names_in(alloc, others)?))
    } else if is_word(word, "make") {
        Ok(Request::Make(load_in(alloc, others)?))
    } else if is_word(word, "audit") {
        Ok(Request::Audit(audit_in(alloc, others)?))
    } else {
        Err(NotAsked::Usage)
    }
}

fn is_word(word: &String, text: &str) -> bool
    ensures { result ≡ bytes_eq (string_bytes word.now) text.now }
{
    word.as_str() == text
}

/// Whether a word begins with `-`. An option is none of the forms, and no library has to know one.
fn has_option(words: &[String]) -> bool
    ensures { result ≡ list_any (λ word. begins_with_dash (string_bytes word)) words.now }
{
    words.iter().any(|word| is_option(word))
}

fn is_option(word: &String) -> bool
    ensures { result ≡ begins_with_dash (string_bytes word.now) }
{
    match word.as_bytes() {
        [] => false,
        [first, ..] => *first == b'-',
    }
}
