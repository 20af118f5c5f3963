//! Reads images whose pages the rows of standard input change, and prints each row with what was found behind it.
//!
//! The first area has two checkpoint pages, the seal and two records, all of epoch 7; the rest is blank. A row is a list of changes,
//! each a page by its number in the flash, a field and a value: `kind K` (2 checkpoint, 3 seal, 4 journal), `number N`, `epoch E`,
//! `version V`, `bytes 0` (zeros, and no record), `blank`, `torn`. The first area begins at page 2, the second at page 8.
#![tactic(auto)]

mod image;
mod listed;
mod row;

use anyhow::Result;
use row::answer_row;

fn main(rt: HostRuntime) -> Result<()> {
    let alloc = rt.alloc();
    for row in rt.lines(alloc) {
        let row = row?;
        let answer = answer_row(alloc, row.as_str().trim())?;
        println!(rt; "{}: {answer}", row.as_str())?;
    }
    Ok(())
}
