//! Answers of commands.
use crate::words::Words;
use fdp_base::{Bytes, Reply, Sequence, Status};
use std::alloc::{AllocError, Global};

/// The answer that words say: `ok`, `done` where a change is made, or a status, with `done` behind it where its change is
/// made; then maybe `dw0 N`, `moment N`, `blocks N ..` with the number that fills each block of 512 bytes, or `bytes N ..`.
/// The moment is that of its entry.
pub fn answer_of(alloc: Global, words: &mut Words) -> Result<(Reply, u64), AllocError> {
    let status = words.word();
    let applied = status == "done" || words.takes("done");
    let (dw0, moment) = numbers(words);
    let status = status_of(status, words);
    let bytes = bytes_of(alloc, words)?;
    Ok((
        Reply {
            status,
            dw0,
            bytes,
            applied,
        },
        moment,
    ))
}

fn numbers(words: &mut Words) -> (u32, u64) {
    if words.takes("dw0") {
        (words.number32(), 0)
    } else if words.takes("moment") {
        (0, words.number())
    } else {
        (0, 0)
    }
}

/// `ok` and `done`, or the digits of a status with a slash between.
fn status_of(word: &str, words: &mut Words) -> Status {
    match word.split_once('/') {
        Some((sct, sc)) => Status {
            sct: words.number_in(sct, 0xff) as u8,
            sc: words.hexadecimal(sc),
        },
        None => {
            if word != "ok" && word != "done" {
                words.refuse();
            }
            Status::SUCCESS
        }
    }
}

fn bytes_of(alloc: Global, words: &mut Words) -> Result<Bytes, AllocError> {
    if words.takes("blocks") {
        Ok(Bytes::from_vec(blocks(alloc, words)?))
    } else if words.takes("bytes") {
        Ok(Bytes::from_vec(words.bytes(alloc)?))
    } else {
        Ok(Sequence::new(alloc))
    }
}

/// Blocks of 512 bytes, each filled with its number, low byte first.
fn blocks(alloc: Global, words: &mut Words) -> Result<Vec<u8>, AllocError> {
    let mut all = Vec::new(alloc);
    for _ in 0..words.most() {
        if words.has_more() {
            add_block(words.number32(), &mut all)?;
        }
    }
    Ok(all)
}

fn add_block(number: u32, into: &mut Vec<u8>) -> Result<(), AllocError> {
    let bytes = number.to_le_bytes();
    for _ in 0..128_u32 {
        into.extend_from_slice(&bytes)?;
    }
    Ok(())
}
