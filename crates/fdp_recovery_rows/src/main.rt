//! Opens images that the rows of standard input change, and prints each row with the answer.
//!
//! Pages 0 to 31 are data, 32 to 59 and 60 to 87 the two system areas. The first area holds a checkpoint of epoch 1 at position 5, on pages
//! 32 to 42, with its seal on page 43, and two records behind it, on pages 44 and 45. There is one namespace of two blocks: block 0 stood
//! on page 4; the first record, at position 8, puts block 1 on page 5, and the second, at position 11, puts block 0 on page 8.
//!
//! A row is a list of these, each done in its order:
//!
//! - `page N blank`, `page N torn`, `page N spare AT VALUE` and `page N byte AT VALUE` change a page; `page N as M` makes it like another;
//! - `second EPOCH` writes a checkpoint of this epoch at position 6 into the second area: seven erases, eleven programs, and that of the
//!   seal; `stop CALL OUTCOME` writes it with epoch 2, stopped in a call (`blank`, `torn`, `whole`);
//! - `reopen CALL OUTCOME` opens the drive, and writes its checkpoint into the other area, stopped in this call of that; call 20 is none of it;
//! - `full` fills the first area with records; `clear` makes each page blank;
//! - `units N` is the number of data units that the configuration asks for; `fail CALL` lets a call of the opening fail.
#![tactic(auto)]

mod drive;
mod edit;
mod image;
mod reopen;
mod row;

use anyhow::Result;
use row::answer_row;

fn main(rt: HostRuntime) -> Result<()> {
    let alloc = rt.alloc();
    for row in rt.lines(alloc) {
        let row = row?;
        let answer = answer_row(alloc, row.as_str().trim())?;
        println!(rt; "{}: {answer}", row.as_str())?;
    }
    Ok(())
}
