//! The program: its words come from the command line, its texts from files, and its output goes to standard output.
#![tactic(auto)]

use fdp_advice::{Heard, advise};
use fdp_cli::drive_process;
use fdp_io::{BenchFile, OpenGate, SinkWriter};
use std::process::ExitCode;
use std::{env, io};

/// Serves the run that the words of the command line ask for, tells what its fault means, if it had one, and ends with its status.
fn main(rt: HostRuntime) -> ExitCode {
    let words = match words(&rt) {
        Ok(words) => words,
        Err(error) if error.kind() == io::ErrorKind::OutOfMemory => return ExitCode::from(7),
        Err(_) => Vec::new(rt.alloc()),
    };
    let mut bench = BenchFile::new(rt.alloc(), &rt);
    let mut sink = Heard::new(rt.alloc(), SinkWriter::new(io::writer(&rt)));
    let status = drive_process(&rt, rt.alloc(), &words, &mut bench, &mut sink, &OpenGate);
    advise(&rt, rt.alloc(), sink.line(), &words);
    status
}

/// The words behind the program's name.
fn words(rt: &HostRuntime) -> io::Result<Vec<String>> {
    let mut words = Vec::new(rt.alloc());
    for word in env::args(rt)?.skip(1) {
        words.push(word)?;
    }
    Ok(words)
}
