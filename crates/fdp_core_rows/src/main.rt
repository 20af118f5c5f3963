//! Plays the rows of standard input on drives over a flash in memory, and prints each row with its answer behind it. `fdp_moves` says which
//! rows there are, and how a move reads.
#![tactic(auto)]

mod drive;

use drive::GroupDrive;
use fdp_moves::play_script;
use std::io;
use std::io::{Read, Write};

fn main(rt: HostRuntime) -> io::Result<()> {
    let mut script = Vec::new(rt.alloc());
    rt.reader().read_to_end(&mut script)?;
    let Ok(script) = str::from_utf8(&script) else {
        return Ok(());
    };
    let output = play_script::<GroupDrive>(rt.alloc(), script)?;
    io::writer(&rt).write_all(output.as_bytes())
}
