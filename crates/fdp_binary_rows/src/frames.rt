ghost use Rattle.fdp_base.specs.Geometry.{IsBlockSize};

use crate::streams::{read_pieces, shown};
use anyhow::{Context, Result, bail};
use fdp_base::{Bytes, Command, Other, Payload, Write};
use fdp_binary::encode_command;
use fdp_trace::read_trace;
use std::alloc::Global;

/// Bytes of a frame that are shown: its head and its entry.
const SHOWN: usize = 80;

/// The frame of the command of a trace's line, and whether it is read back.
pub fn tell_back(alloc: Global, line: &str) -> Result<String> {
    tell_frame(alloc, &command_of(alloc, line)?)
}

/// The bytes of that frame on a drive with blocks of this size.
pub fn frame_of(alloc: Global, block: u32, line: &str) -> Result<String>
    requires { IsBlockSize block }
{
    let mut frame = Vec::new(alloc);
    match encode_command(&command_of(alloc, line)?, block, &mut frame) {
        Ok(()) => Ok(hex::encode(alloc, frame.as_slice())?),
        Err(refused) => Ok(format!(in alloc; "{refused:?}")?),
    }
}

/// The command of a trace's line.
fn command_of(alloc: Global, line: &str) -> Result<Command> {
    let Ok(commands) = read_trace(alloc, line.as_bytes()) else {
        bail!("trace");
    };
    commands.into_iter().next().context("one line")
}

/// The frame of a write that has these bytes.
pub fn tell_payload(alloc: Global, count: u32, bytes: Vec<u8>) -> Result<String> {
    let payload = Payload::Bytes(Bytes::from_vec(bytes));
    let write = Write {
        nsid: 1,
        slba: 0,
        count,
        dtype: 1,
        dspec: 0,
        payload,
    };
    tell_frame(alloc, &Command::Write(write))
}

/// The frame of a command that the drive does not serve: the queue, the opcode, the flags, the feature.
pub fn tell_other(alloc: Global, numbers: &[u8]) -> Result<String> {
    match numbers {
        [queue, opcode, flags, feature] => {
            let other = Other {
                admin: *queue == 1,
                opcode: *opcode,
                flags: *flags,
                feature: *feature,
            };
            tell_frame(alloc, &Command::Other(other))
        }
        _ => bail!("four bytes"),
    }
}

/// How long the frame of a command is, the bytes of its front that are not zero, each with its offset, and whether it is
/// read back.
fn tell_frame(alloc: Global, command: &Command) -> Result<String> {
    let mut frame = Vec::new(alloc);
    if let Err(refused) = encode_command(command, 512, &mut frame) {
        return Ok(format!(in alloc; "{refused:?}")?);
    }
    let mut text = format!(in alloc; "{} bytes", frame.len())?;
    for (offset, byte) in frame.iter().take(SHOWN).enumerate() {
        if *byte != 0 {
            text.push_str(format!(in alloc; " {offset}:{byte:02x}")?.as_str())?;
        }
    }
    let said = format!(in alloc; "1 commands; {}", shown(alloc, command)?.as_str())?;
    let read = read_pieces(alloc, 512, frame.as_slice(), frame.len().max(1))?;
    if read.as_str() == said.as_str() {
        text.push_str(", back")?;
    } else {
        text.push_str(", otherwise: ")?;
        text.push_str(read.as_str())?;
    }
    Ok(text)
}
