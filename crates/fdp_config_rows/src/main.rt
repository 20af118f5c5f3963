//! Reads a configuration text, changes of it, a line each, and whole texts, and prints what each reads as. A line `====`
//! ends the first text, the changes, and each whole text.
#![tactic(auto)]

mod changes;
mod copies;
mod outcome;

use changes::changed;
use copies::push_line;
use outcome::{figures, outcome};
use std::alloc::Global;
use std::io::{self, BufRead, BufReader, BufWriter, Write};
use std::str;

const END: &[u8] = b"====";

/// What the lines are.
#[derive(Clone, Copy)]
enum Stage {
    Base,
    Changes,
    Texts,
}

fn main(rt: HostRuntime) -> io::Result<()> {
    let mut out = BufWriter::new(rt.alloc(), io::writer(&rt))?;
    let mut stage = Stage::Base;
    let mut base = Vec::new(rt.alloc());
    let mut text = Vec::new(rt.alloc());
    for line in BufReader::new(rt.alloc(), rt.reader())?.split(rt.alloc(), b'\n') {
        let line = line?;
        let ends = line.as_slice() == END;
        stage = match stage {
            Stage::Base if ends => Stage::Changes,
            Stage::Base => {
                push_line(&mut base, line.as_slice(), b"")?;
                Stage::Base
            }
            Stage::Changes if ends => Stage::Texts,
            Stage::Changes => {
                out.write_all(row(rt.alloc(), base.as_slice(), line.as_slice())?.as_bytes())?;
                Stage::Changes
            }
            Stage::Texts if ends => {
                // The line feed in front of the end is not the text's.
                text.pop();
                out.write_all(figures(rt.alloc(), text.as_slice())?.as_bytes())?;
                text.clear();
                Stage::Texts
            }
            Stage::Texts => {
                push_line(&mut text, line.as_slice(), base.as_slice())?;
                Stage::Texts
            }
        };
    }
    out.flush()
}

/// What the changed text reads as, as a line.
fn row(alloc: Global, base: &[u8], changes: &[u8]) -> io::Result<String> {
    let text = changed(alloc, text_of(base), text_of(changes))?;
    let mut line = outcome(alloc, text.as_bytes())?;
    line.push('\n')?;
    Ok(line)
}

fn text_of(bytes: &[u8]) -> &str {
    match str::from_utf8(bytes) {
        Ok(text) => text,
        Err(_) => "",
    }
}
