ghost use Rattle.std.specs.Prelude.{◌<◌, ◌≤◌, length};
ghost use Rattle.fdp_base.specs.Geometry.{IsBlockSize};

use anyhow::Result;
use fdp_base::{Command, Payload};
use fdp_binary::{StreamFault, StreamReader};
use std::alloc::Global;

/// Bytes of the pieces of a long stream.
const PIECE: usize = 97;

/// So many commands of a stream are shown.
const SHOWN: usize = 20;

/// What a stream comes to, and whether that is so in whatever pieces it comes.
pub fn tell_stream(alloc: Global, block: u32, bytes: &[u8]) -> Result<String>
    requires { IsBlockSize block }
{
    let whole = read_pieces(alloc, block, bytes, bytes.len().max(1))?;
    if read_pieces(alloc, block, bytes, 1)?.as_str() != whole.as_str() {
        return Ok(format!(in alloc; "{}, and otherwise byte by byte", whole.as_str())?);
    }
    for at in 0..bytes.len() {
        if read_cut(alloc, block, bytes, at)?.as_str() != whole.as_str() {
            return Ok(format!(in alloc; "{}, and otherwise cut at {at}", whole.as_str())?);
        }
    }
    Ok(whole)
}

/// What so many times these bytes come to.
pub fn tell_times(alloc: Global, count: u16, bytes: &[u8]) -> Result<String> {
    let mut stream = Vec::new(alloc);
    for _ in 0..count {
        stream.extend_from_slice(bytes)?;
    }
    let whole = read_pieces(alloc, 512, stream.as_slice(), stream.len().max(1))?;
    if read_pieces(alloc, 512, stream.as_slice(), PIECE)?.as_str() != whole.as_str() {
        return Ok(format!(in alloc; "{}, and otherwise in pieces", whole.as_str())?);
    }
    Ok(whole)
}

/// What a stream comes to in pieces of so many bytes.
pub fn read_pieces(alloc: Global, block: u32, bytes: &[u8], size: usize) -> Result<String>
    requires block { IsBlockSize block }
    requires some { 0 < size }
{
    let mut reader = StreamReader::new(alloc, block);
    for piece in bytes.chunks(size) {
        // A fault is told by each later piece, and at the end.
        let _ = reader.feed(alloc, piece);
    }
    tell_end(alloc, reader)
}

fn read_cut(alloc: Global, block: u32, bytes: &[u8], at: usize) -> Result<String>
    requires block { IsBlockSize block }
    requires within { at ≤ length bytes.now }
{
    let mut reader = StreamReader::new(alloc, block);
    let _ = reader.feed(alloc, &bytes[..at]);
    let _ = reader.feed(alloc, &bytes[at..]);
    tell_end(alloc, reader)
}

fn tell_end(alloc: Global, reader: StreamReader) -> Result<String> {
    match reader.finish() {
        Ok(commands) => {
            let mut text = format!(in alloc; "{} commands", commands.len())?;
            for command in commands.iter().take(SHOWN) {
                text.push_str("; ")?;
                text.push_str(shown(alloc, command)?.as_str())?;
            }
            Ok(text)
        }
        Err(StreamFault { at, kind }) => Ok(format!(in alloc; "at {at} {kind:?}")?),
    }
}

/// A command with all its fields; of the bytes of a write, how many they are.
pub fn shown(alloc: Global, command: &Command) -> Result<String> {
    if let Command::Write(write) = command {
        if let Payload::Bytes(bytes) = &write.payload {
            let len = bytes.as_slice().len();
            let (nsid, slba, count) = (write.nsid, write.slba, write.count);
            return Ok(format!(in alloc; "Write of {len} bytes, {nsid} {slba} {count}")?);
        }
    }
    Ok(format!(in alloc; "{command:?}")?)
}
