//! Reads texts of records of a drive with blocks of 512 bytes, each ended by a line of its own, and prints what each comes to.
#![tactic(auto)]

use fdp_drives::drive_s;
use fdp_reader::{RecordFault, read_record};
use std::alloc::{AllocError, Global};
use std::io::{self, BufRead, BufReader, BufWriter, Write};

/// The line that ends a text.
const END: &[u8] = b"====";

fn main(rt: HostRuntime) -> io::Result<()> {
    let mut out = BufWriter::new(rt.alloc(), io::writer(&rt))?;
    let mut text = Vec::new(rt.alloc());
    for line in BufReader::new(rt.alloc(), rt.reader())?.split(rt.alloc(), b'\n') {
        let line = line?;
        if line.as_slice() == END {
            out.write_all(answer(rt.alloc(), text.as_slice())?.as_bytes())?;
            text.clear();
        } else {
            text.extend_from_slice(line.as_slice())?;
            text.push(b'\n')?;
        }
    }
    out.flush()
}

/// How many queues, bytes of output and entries a record has; or the first line after which no record goes on, or that memory wants.
fn answer(alloc: Global, text: &[u8]) -> Result<String, AllocError> {
    let config = drive_s(alloc)?;
    match read_record(alloc, text, &config) {
        Ok(printed) => format!(in alloc;
            "record {} {} {}\n",
            printed.traces,
            printed.output,
            printed.entries.len()
        ),
        Err(RecordFault::Line(line)) => format!(in alloc; "line {line}\n"),
        Err(RecordFault::NoMemory) => format!(in alloc; "no memory\n"),
    }
}
