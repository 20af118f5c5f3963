//! Reads texts of traces, each ended by a line of its own, and prints what each comes to; then prints some completions.
#![tactic(auto)]

mod answer;
mod completions;
mod copies;

use answer::answer;
use completions::completions;
use copies::push_line;
use std::io::{self, BufRead, BufReader, BufWriter, Write};

/// The line that ends a text, and what it came to.
const END: &[u8] = b"====";

fn main(rt: HostRuntime) -> io::Result<()> {
    let mut out = BufWriter::new(rt.alloc(), io::writer(&rt))?;
    let mut text = Vec::new(rt.alloc());
    for line in BufReader::new(rt.alloc(), rt.reader())?.split(rt.alloc(), b'\n') {
        let line = line?;
        if line.as_slice() == END {
            // The line feed in front of the end is not the text's.
            text.pop();
            out.write_all(answer(rt.alloc(), text.as_slice())?.as_slice())?;
            out.write_all(b"====\n")?;
            text.clear();
        } else {
            push_line(&mut text, line.as_slice())?;
        }
    }
    out.write_all(completions(rt.alloc())?.as_slice())?;
    out.flush()
}
