//! Runs of the program, row by row: its input has texts and the words of runs, its output the status and the text of each run.
#![tactic(auto)]

mod image;
mod in_turn;
mod repeat;
mod rows;
mod text;

use rows::Rows;
use std::io;
use std::io::{Read, Write};

fn main(rt: HostRuntime) -> io::Result<()> {
    let mut script = Vec::new(rt.alloc());
    rt.reader().read_to_end(&mut script)?;
    let mut rows = Rows::new(rt.alloc());
    let mut output = Vec::new(rt.alloc());
    for line in script.split(|byte| *byte == b'\n') {
        rows.take(&rt, rt.alloc(), line, &mut output)?;
    }
    io::writer(&rt).write_all(&output)
}
