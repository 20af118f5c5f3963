use crate::bytes::bytes_of;
use crate::frames::{frame_of, tell_back, tell_other, tell_payload};
use crate::streams::{tell_stream, tell_times};
use anyhow::{Context, Result, bail};
use std::alloc::Global;

/// What a row comes to.
pub fn answer_row(alloc: Global, row: &str) -> Result<String> {
    match row.split_once(' ') {
        Some(("stream", rest)) => {
            let (block, bytes) = rest.split_once(' ').context("bytes")?;
            let bytes = bytes_of(alloc, bytes)?;
            match block {
                "512" => tell_stream(alloc, 512, bytes.as_slice()),
                "4096" => tell_stream(alloc, 4096, bytes.as_slice()),
                _ => bail!("block size"),
            }
        }
        Some(("frame", rest)) => {
            let (block, line) = rest.split_once(' ').context("line")?;
            match block {
                "512" => frame_of(alloc, 512, line),
                "4096" => frame_of(alloc, 4096, line),
                _ => bail!("block size"),
            }
        }
        Some(("times", rest)) => {
            let (count, bytes) = rest.split_once(' ').context("bytes")?;
            tell_times(
                alloc,
                count.parse::<u16>()?,
                bytes_of(alloc, bytes)?.as_slice(),
            )
        }
        Some(("back", line)) => tell_back(alloc, line),
        Some(("payload", rest)) => {
            let (count, bytes) = rest.split_once(' ').context("bytes")?;
            tell_payload(alloc, count.parse::<u32>()?, bytes_of(alloc, bytes)?)
        }
        Some(("other", rest)) => tell_other(alloc, bytes_of(alloc, rest)?.as_slice()),
        _ => bail!("row"),
    }
}
