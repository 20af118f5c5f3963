//! The lines of the data that a command answers.

ghost use Rattle.std.specs.Prelude.{◌≡◌, ◌/◌, ◌++◌, OnOk, OnErr, length, take, bytes_eq};
ghost use Rattle.std.specs.Int.{from_le_bytes, w32};
ghost use Rattle.fdp_base.specs.Pattern.{repeated};
ghost use Rattle.fdp_trace.specs.Printer.{Extends};
ghost use Rattle.fdp_output.specs.Output.{pieces_of, block_text, block_line, block_lines, data_line, data_lines, data_text};

use crate::hex::{push_hex, push_hex_bytes};
use fdp_base::Command;
use std::alloc::AllocError;

/// Bytes of a log or a status on one line.
const LINE: usize = 32;

/// Adds the lines of the data that a command answers. An `Err` may leave some of them.
pub fn push_data(text: &mut Vec<u8>, command: &Command, bytes: &[u8]) -> Result<(), AllocError>
    ensures ok { OnOk result (text.new.items ≡ text.old.items ++ data_text command.now bytes.now) }
    ensures err { OnErr result (Extends text.old.items text.new.items) }
{
    match command {
        Command::Read(read) => push_blocks(text, read.count, bytes),
        Command::Status(_) | Command::Log(_) => push_data_lines(text, bytes),
        Command::Write(_)
        | Command::Zero(_)
        | Command::Dealloc(_)
        | Command::Flush(_)
        | Command::Delete(_)
        | Command::Update(_)
        | Command::SetFdp(_)
        | Command::GetFdp(_)
        | Command::SetEvents(_)
        | Command::Create(_)
        | Command::Other(_) => Ok(()),
    }
}

/// Adds a line for each of so many blocks, which have one size.
pub fn push_blocks(text: &mut Vec<u8>, count: u32, bytes: &[u8]) -> Result<(), AllocError>
    ensures ok { OnOk result (text.new.items ≡ text.old.items ++ block_lines count bytes.now) }
    ensures err { OnErr result (Extends text.old.items text.new.items) }
{
    if count == 0 {
        return Ok(());
    }
    let size = bytes.len() / count as usize;
    let mut rest = bytes;
    for _ in 0..count {
        if rest.is_empty() {
            break;
        }
        let (block, after) = rest.split_at(size);
        push_block(text, block)?;
        rest = after;
    }
    Ok(())
}

/// Adds lines of up to 32 bytes.
pub fn push_data_lines(text: &mut Vec<u8>, bytes: &[u8]) -> Result<(), AllocError>
    ensures ok { OnOk result (text.new.items ≡ text.old.items ++ data_lines bytes.now) }
    ensures err { OnErr result (Extends text.old.items text.new.items) }
{
    let mut rest = bytes;
    for _ in 0..bytes.len() {
        if rest.is_empty() {
            break;
        }
        let (piece, after) = rest.split_at(rest.len().min(LINE));
        push_data_line(text, piece)?;
        rest = after;
    }
    Ok(())
}

fn push_data_line(text: &mut Vec<u8>, piece: &[u8]) -> Result<(), AllocError>
    ensures ok { OnOk result (text.new.items ≡ text.old.items ++ data_line piece.now) }
    ensures err { OnErr result (Extends text.old.items text.new.items) }
{
    text.extend_from_slice(b"  ")?;
    push_hex_bytes(text, piece)?;
    text.push(b'\n')?;
    Ok(())
}

fn push_block(text: &mut Vec<u8>, block: &[u8]) -> Result<(), AllocError>
    ensures ok { OnOk result (text.new.items ≡ text.old.items ++ block_line block.now) }
    ensures err { OnErr result (Extends text.old.items text.new.items) }
{
    text.extend_from_slice(b"  ")?;
    push_block_text(text, block)?;
    text.push(b'\n')?;
    Ok(())
}

fn push_block_text(text: &mut Vec<u8>, block: &[u8]) -> Result<(), AllocError>
    ensures ok { OnOk result (text.new.items ≡ text.old.items ++ block_text block.now) }
    ensures err { OnErr result (Extends text.old.items text.new.items) }
{
    if is_repeated(block) {
        push_hex(text, 8, number(&block[..block.len().min(4)]))
    } else {
        push_hex_bytes(text, block)
    }
}

/// The number of up to four bytes.
fn number(word: &[u8]) -> u32
    ensures { result ≡ from_le_bytes w32 word.now }
{
    match word {
        [a, b, c, d, ..] => u32::from_le_bytes([*a, *b, *c, *d]),
        [a, b, c] => u32::from_le_bytes([*a, *b, *c, 0]),
        [a, b] => u32::from_le_bytes([*a, *b, 0, 0]),
        [a] => u32::from(*a),
        [] => 0,
    }
}

/// Whether bytes are their first four over and over: they are the same as themselves four bytes on, which is compared many
/// bytes at a time.
fn is_repeated(bytes: &[u8]) -> bool
    ensures { result ≡ bytes_eq bytes.now (repeated (length bytes.now / 4) (take 4 bytes.now)) }
{
    if bytes.len() < 4 {
        return bytes.is_empty();
    }
    if bytes.len() % 4 != 0 {
        return false;
    }
    is_same(&bytes[4..], &bytes[..bytes.len() - 4])
}

fn is_same(left: &[u8], right: &[u8]) -> bool
    ensures { result ≡ bytes_eq left.now right.now }
{
    left == right
}
