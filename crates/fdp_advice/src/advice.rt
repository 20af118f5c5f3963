use crate::form::{write_form, write_longer};
use crate::usage::Usage;
use crate::values::{Values, values_at};
use fdp_base::{LONGEST_CONFIG, LONGEST_TRACE};
use std::alloc::Global;
use std::fmt;
use std::fs::File;
use std::rt::Files;

/// Tells on standard error what the fault of this line means, for a run with these words.
pub fn advise<R: Files<File = File> + Eprint>(rt: &R, alloc: Global, line: &str, words: &[String]) {
    let Some(fault) = line.trim_end().strip_prefix("fault ") else {
        return;
    };
    let (config, image) = (word_at(words, 1), word_at(words, 2));
    let values = match fault.strip_prefix("4 image other ") {
        Some(key) => values_at(rt, alloc, key, config, image),
        None => None,
    };
    let advice = Advice {
        fault,
        words,
        values,
    };
    // Nothing is left to be done where it cannot be told.
    drop(eprintln!(rt; "fdpdrive: {advice}"));
}

/// The word of this number, counted from 0: the form of a run, its configuration, its image, and then its traces; or `audit`, a configuration, and then the records.
fn word_at(words: &[String], number: usize) -> &str {
    match words.get(number) {
        Some(word) => word.as_str(),
        None => "",
    }
}

/// The words of a fault behind its first one, those of the run, and the values that differ where it is an image of another drive.
#[derive(Drop)]
struct Advice<'a> {
    fault: &'a str,
    words: &'a [String],
    values: Option<Values>,
}

impl fmt::Display for Advice<'_> {
    fn fmt<W: fmt::Write>(&self, f: &mut fmt::Formatter<W>) -> fmt::Result {
        if let Some(cause) = self.fault.strip_prefix("2 config ") {
            write_config(f, self.words, cause)
        } else if let Some(cause) = self.fault.strip_prefix("3 trace ") {
            write_trace(f, self.words, cause)
        } else if let Some(cause) = self.fault.strip_prefix("12 stream ") {
            write_stream(f, self.words, cause)
        } else if let Some(cause) = self.fault.strip_prefix("14 record ") {
            write_record(f, self.words, cause)
        } else if let Some(cause) = self.fault.strip_prefix("13 ") {
            write_verdict(f, self.words, cause)
        } else if let Some(cause) = self.fault.strip_prefix("4 image ") {
            write_image(f, self.words, cause, self.values)
        } else {
            write_call(f, self.words, self.fault)
        }
    }
}

fn write_call<W: fmt::Write>(
    f: &mut fmt::Formatter<W>,
    words: &[String],
    fault: &str,
) -> fmt::Result {
    match fault {
        "5 flash" => write_form(
            f,
            "`{}` cannot be taken, made or opened as an image: see to its folder, its rights and the room on its disk, or name another file",
            &[word_at(words, 2)],
        ),
        "6 source" => f.write_str(
            "a configuration, a trace, a stream or a record cannot be read: name files that can be",
        ),
        "9 turns" => f.write_str(
            "the traces need more than the 1,073,741,824 steps of a run: make them shorter, and begin with a copy of the image",
        ),
        _ => write!(f, "{}", Usage { words }),
    }
}

fn write_config<W: fmt::Write>(
    f: &mut fmt::Formatter<W>,
    words: &[String],
    cause: &str,
) -> fmt::Result {
    let name = word_at(words, 1);
    match cause {
        "absent" => write_form(
            f,
            "the configuration `{}` is not there: name a file that is",
            &[name],
        ),
        "long" => {
            write_form(f, "the configuration `{}`", &[name])?;
            write_longer(f, LONGEST_CONFIG, "make it shorter")
        }
        "toml" => write_form(
            f,
            "the configuration `{}` is no TOML document in UTF-8, or has a number outside 64 bits: mend it",
            &[name],
        ),
        "room" => write_form(
            f,
            "the drive of `{}` is too small for its namespaces, or its system areas for a checkpoint: lower `blocks`, or raise `units` or `area_units`",
            &[name],
        ),
        _ => write_key(f, name, cause),
    }
}

fn write_key<W: fmt::Write>(f: &mut fmt::Formatter<W>, name: &str, cause: &str) -> fmt::Result {
    let Some((kind, key)) = cause.split_once(' ') else {
        return f.write_str(cause);
    };
    match kind {
        "unknown" => write_form(
            f,
            "the configuration `{}` has a key `{}`, and no drive has one: take it out, or mend its name",
            &[name, key],
        ),
        "missing" => write_form(
            f,
            "the configuration `{}` has no key `{}`: add it",
            &[name, key],
        ),
        "kind" => write_form(
            f,
            "a value of another kind stands at `{}` in the configuration `{}`: docs/REFERENCE.md says what belongs there",
            &[key, name],
        ),
        _ => write_form(
            f,
            "the value at `{}` in the configuration `{}` is out of its range: docs/REFERENCE.md has the ranges",
            &[key, name],
        ),
    }
}

fn write_trace<W: fmt::Write>(
    f: &mut fmt::Formatter<W>,
    words: &[String],
    cause: &str,
) -> fmt::Result {
    let Some((number, kind)) = cause.split_once(' ') else {
        return f.write_str(cause);
    };
    let name = name_behind(words, 2, number);
    match kind {
        "queue" => {
            let text = text_of(words);
            write_form(
                f,
                "{} {}, `{}`, has no queue: give fewer {}s, or make a new image with more `queues`",
                &[text, number, name, text],
            )
        }
        "absent" => write_form(
            f,
            "trace {}, `{}`, is not there: name a file that is",
            &[number, name],
        ),
        "long" => {
            write_form(f, "trace {}, `{}`,", &[number, name])?;
            write_longer(f, LONGEST_TRACE, "split it")
        }
        _ => write_line(f, name, kind),
    }
}

/// The name of the text of this number, from 1: the first stands behind the word of this place.
fn name_behind<'a>(words: &'a [String], place: usize, number: &str) -> &'a str {
    match number.parse::<usize>() {
        Ok(number) => word_at(words, number.saturating_add(place)),
        Err(_) => "",
    }
}

/// What the texts of a run with these words are.
fn text_of(words: &[String]) -> &str {
    if word_at(words, 0).starts_with("stream") {
        "stream"
    } else {
        "trace"
    }
}

fn write_stream<W: fmt::Write>(
    f: &mut fmt::Formatter<W>,
    words: &[String],
    cause: &str,
) -> fmt::Result {
    let Some((number, kind)) = cause.split_once(' ') else {
        return f.write_str(cause);
    };
    let name = name_behind(words, 2, number);
    match kind {
        "absent" => write_form(
            f,
            "stream {}, `{}`, is not there: name a file that is",
            &[number, name],
        ),
        "long" => {
            write_form(f, "stream {}, `{}`,", &[number, name])?;
            write_longer(f, LONGEST_TRACE, "split it")
        }
        _ => write_frame(f, name, kind),
    }
}

fn write_frame<W: fmt::Write>(f: &mut fmt::Formatter<W>, name: &str, cause: &str) -> fmt::Result {
    let Some((place, kind)) = cause.rsplit_once(' ') else {
        return f.write_str(cause);
    };
    let found = match kind {
        "head" => "has a reserved bit or byte that is not zero",
        "create" => "is a create, which has no frame",
        "length" => "has another length of data than its entry",
        "many" => "is the first one too many",
        _ => "is not whole",
    };
    write_form(
        f,
        "the frame {} of the stream `{}` {}: docs/STREAMS.md has the frames byte by byte",
        &[place, name, found],
    )
}

fn write_record<W: fmt::Write>(
    f: &mut fmt::Formatter<W>,
    words: &[String],
    cause: &str,
) -> fmt::Result {
    let (name, cause) = record_told(words, cause, 1);
    match cause {
        "absent" => write_form(
            f,
            "the record `{}` is not there: name a file that is",
            &[name],
        ),
        "long" => {
            write_form(f, "the record `{}`", &[name])?;
            write_longer(f, LONGEST_TRACE, "audit a shorter run")
        }
        line => write_form(
            f,
            "with line {} of `{}` no record goes on: docs/REFERENCE.md has the form of each line",
            &[line, name],
        ),
    }
}

/// The name of the record that a fault is of, and what is told of it, in so many words: where several records are given, the number of this one stands in front.
fn record_told<'a>(words: &'a [String], cause: &'a str, told: usize) -> (&'a str, &'a str) {
    match cause.split_once(' ') {
        Some((number, rest)) if cause.split(' ').count() > told => {
            (name_behind(words, 1, number), rest)
        }
        _ => (word_at(words, 2), cause),
    }
}

/// What is wrong with a record: an entry of its history, its output, or the run behind it.
fn write_verdict<W: fmt::Write>(
    f: &mut fmt::Formatter<W>,
    words: &[String],
    cause: &str,
) -> fmt::Result {
    match cause.split_once(' ') {
        Some(("output", line)) => {
            let (name, line) = record_told(words, line, 1);
            write_form(
                f,
                "line {} of `{}` is not that of the output that its history gives: docs/AUDIT.md says what is compared",
                &[line, name],
            )
        }
        Some(("lost", entry)) => write_lost(f, words, entry),
        Some(("audit", entry)) => {
            let (name, entry) = record_told(words, entry, 2);
            write_entry(f, name, entry)
        }
        _ => f.write_str(cause),
    }
}

/// What is wrong between two records: a change that the first tells, by its number and the position of the entry.
fn write_lost<W: fmt::Write>(
    f: &mut fmt::Formatter<W>,
    words: &[String],
    cause: &str,
) -> fmt::Result {
    let Some((number, at)) = cause.split_once(' ') else {
        return f.write_str(cause);
    };
    let (name, next) = (name_behind(words, 1, number), name_behind(words, 2, number));
    write_form(
        f,
        "`{}` tells that the change at entry {} was completed, and the run of `{}` does not go on from it: docs/AUDIT.md has what may be lost",
        &[name, at, next],
    )
}

/// What is wrong with an entry: the position that is due, and the rule under which the entry falls.
fn write_entry<W: fmt::Write>(f: &mut fmt::Formatter<W>, name: &str, entry: &str) -> fmt::Result {
    match entry.split_once(' ') {
        Some((at, "0")) => write_form(
            f,
            "where the entry with position {} is due in `{}` stands one with another: docs/AUDIT.md has what a history is",
            &[at, name],
        ),
        Some((at, why)) => write_form(
            f,
            "entry {} of `{}` is none that may follow those before it, by rule {}: docs/AUDIT.md has the rules",
            &[at, name, why],
        ),
        None => f.write_str(entry),
    }
}

fn write_line<W: fmt::Write>(f: &mut fmt::Formatter<W>, name: &str, cause: &str) -> fmt::Result {
    let Some((place, kind)) = cause.rsplit_once(' ') else {
        return f.write_str(cause);
    };
    let found = match kind {
        "long" => "is too long, or the first one too many",
        "utf8" => "is not UTF-8",
        "word" => "has a word that does not belong there",
        "count" => "has too few or too many words",
        "number" => "has something else in the place of a number",
        _ => "has a number that is out of its range",
    };
    write_form(
        f,
        "{} of the trace `{}` {}: docs/REFERENCE.md has the form of each command",
        &[place, name, found],
    )
}

fn write_image<'a, W: fmt::Write>(
    f: &mut fmt::Formatter<W>,
    words: &'a [String],
    cause: &'a str,
    values: Option<Values>,
) -> fmt::Result {
    let (config, image) = (word_at(words, 1), word_at(words, 2));
    if let Some(key) = cause.strip_prefix("other ") {
        match values {
            Some(Values { made, asked }) => write!(
                f,
                "the image `{image}` was made with {key} = {made}, and `{config}` asks for {asked}"
            )?,
            None => write_form(
                f,
                "the image `{}` was made with another value of {}",
                &[image, key],
            )?,
        }
        return f.write_str(": use another image, or the configuration that it was made with");
    }
    match cause {
        "not-a-drive" => write_form(
            f,
            "the image `{}` has data, but no system area that is whole",
            &[image],
        )?,
        "spent" => write_form(
            f,
            "the drive in the image `{}` has counted as far as a drive may",
            &[image],
        )?,
        _ => {
            let page = cause.strip_prefix("bad ").unwrap_or("");
            write_form(
                f,
                "the image `{}` is damaged, as page {} of its flash shows",
                &[image, page],
            )?;
        }
    }
    f.write_str(": use a copy of it from before, or another image; it stays as it is")
}
