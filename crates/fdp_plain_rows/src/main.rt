//! Plays the rows of standard input on plain drives, and prints each row with its answer behind it.
//!
//! A row `drive NAME` begins anew on that drive, and `reopen` the next run on its image. Blank rows and those that begin with `#` say nothing. Two rows stand for many:
//! `close-units` and `relocate TURNS`. `entries` answers how many the run took. `lines.rt` says how the other rows read.
#![tactic(auto)]

mod answers;
mod commands;
mod lines;
mod lists;
mod long;
mod own;
mod play;
mod row;
mod words;

use anyhow::Result;
use fdp_drives::drive_s;
use fdp_plain::Plain;
use row::answer_row;

fn main(rt: HostRuntime) -> Result<()> {
    let alloc = rt.alloc();
    let mut plain = Plain::new(alloc, &drive_s(alloc)?)?;
    for row in rt.lines(alloc) {
        let row = row?;
        let answer = answer_row(alloc, &mut plain, row.as_str().trim())?;
        println!(rt; "{}{answer}", row.as_str())?;
    }
    Ok(())
}
