//! Tries frames and streams on the rows of standard input, and prints what each row comes to.
//!
//! | Row | What it tries |
//! |---|---|
//! | `stream BLOCK BYTES` | the bytes as a stream, in one piece, byte by byte, and in every cut into two pieces |
//! | `times COUNT BYTES` | so often these bytes as a stream, in one piece and in pieces of 97 bytes |
//! | `back LINE` | the frame of the command of a trace's line, and what is read of it |
//! | `frame BLOCK LINE` | the bytes of that frame on a drive with blocks of so many bytes |
//! | `payload COUNT BYTES` | the frame of a write of so many blocks of 512 bytes that has these bytes as its payload |
//! | `other QUEUE OPCODE FLAGS FEATURE` | the frame of a command that the drive does not serve; queue 1 is the admin queue |
//!
//! Bytes are words of hexadecimal digits, each alone or as `WORD*COUNT`.
#![tactic(auto)]

mod bytes;
mod frames;
mod row;
mod streams;

use anyhow::Result;
use row::answer_row;

fn main(rt: HostRuntime) -> Result<()> {
    let alloc = rt.alloc();
    for row in rt.lines(alloc) {
        let row = row?;
        let answer = answer_row(alloc, row.as_str().trim())?;
        println!(rt; "{}", answer.as_str())?;
    }
    Ok(())
}
