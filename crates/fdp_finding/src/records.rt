//! The texts of the names of an audit, which are to be records.

ghost use Rattle.std.specs.Prelude.{◌≡◌, ◌≤◌, All, IfOk, MatchResult, length, map};
ghost use Rattle.std.specs.List.{AllZip};
ghost use Rattle.fdp_io.specs.Bench.{SameFlashes, SameTexts};
ghost use Rattle.fdp_finding.specs.Recorded.{ReadsRecord, number_among};
ghost use Rattle.fdp_finding.specs.Wanted.{CountsSource, RecordLacks, RecordsLack, texts_in};

use crate::fault::Fault;
use crate::no_record::NoRecord;
use fdp_base::LONGEST_TRACE;
use fdp_io::{Bench, TextRead};
use std::alloc::Global;

/// The texts of these names, in their order. What a text says is not looked at.
pub fn find_records<B: Bench>(
    alloc: Global,
    names: &[&str],
    bench: &mut B,
) -> Result<Vec<Vec<u8>>, Fault>
    ensures texts { SameTexts (B.state bench.old) (B.state bench.new) }
    ensures flashes { SameFlashes (B.state bench.old) (B.state bench.new) }
    ensures faults { (B.state bench.old).faults ≤ (B.state bench.new).faults }
    ensures counts { MatchResult result
        (λ _. (B.state bench.new).faults ≡ (B.state bench.old).faults)
        (λ fault. CountsSource (B.state bench.old).faults (B.state bench.new).faults fault) }
    ensures answer { MatchResult result
        (λ texts. AllZip (ReadsRecord (B.state bench.old)) (map (λ name. name.now) names.now) (texts_in texts.items))
        (λ fault. RecordsLack (B.state bench.old) (B.state bench.new) (map (λ name. name.now) names.now) fault) }
    ensures short { IfOk result (λ texts. All (λ text. length text.items ≤ LONGEST_TRACE) texts.items) }
    ensures count { IfOk result (λ texts. length texts.items ≡ length names.now) }
{
    let mut texts = Vec::new(alloc);
    for (index, name) in names.iter().enumerate() {
        let number = number_among(names.len(), index + 1);
        match find_record(alloc, number, *name, bench) {
            Ok(text) => {
                if texts.push(text).is_err() {
                    return Err(Fault::NoMemory);
                }
            }
            Err(fault) => return Err(fault),
        }
    }
    Ok(texts)
}

/// The number of a record among so many, from 1; the only one has none.
pub fn number_among(count: usize, number: usize) -> Option<usize>
    ensures { result ≡ number_among count number }
{
    if count == 1 { None } else { Some(number) }
}

/// The text of the name of the record with this number.
fn find_record<B: Bench>(
    alloc: Global,
    number: Option<usize>,
    name: &str,
    bench: &mut B,
) -> Result<Vec<u8>, Fault>
    ensures texts { SameTexts (B.state bench.old) (B.state bench.new) }
    ensures flashes { SameFlashes (B.state bench.old) (B.state bench.new) }
    ensures faults { (B.state bench.old).faults ≤ (B.state bench.new).faults }
    ensures counts { MatchResult result
        (λ _. (B.state bench.new).faults ≡ (B.state bench.old).faults)
        (λ fault. CountsSource (B.state bench.old).faults (B.state bench.new).faults fault) }
    ensures answer { MatchResult result
        (λ text. ReadsRecord (B.state bench.old) name.now text.items)
        (λ fault. RecordLacks (B.state bench.old) (B.state bench.new) number name.now fault) }
{
    let mut text = Vec::new(alloc);
    match bench.read_text(name, &mut text, LONGEST_TRACE) {
        TextRead::Done => Ok(text),
        TextRead::Missing => Err(Fault::Record {
            number,
            cause: NoRecord::Absent,
        }),
        TextRead::TooLong => Err(Fault::Record {
            number,
            cause: NoRecord::TooLong,
        }),
        TextRead::Failed => Err(Fault::Source),
        TextRead::NoMemory => Err(Fault::NoMemory),
    }
}
