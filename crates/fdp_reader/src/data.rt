//! The bytes of a reply, from the lines behind the line of its entry.

ghost use Rattle.std.specs.Prelude.{◌≡◌, ◌++◌, ◌*◌, ◌%◌, ◌^◌, min, IfOk, OnOk};
ghost use Rattle.std.specs.Int.{to_le_bytes, w32};
ghost use Rattle.fdp_base.specs.Pattern.{repeated};
ghost use Rattle.fdp_prints.specs.Reader.{block_in, bytes_in, hex_number, lines_in, reply_in, success_in};
ghost use Rattle.fdp_prints.specs.Told.{is_success};
ghost use Rattle.fdp_reader.specs.Forms.{form_of};

use crate::cut::{after, before, behind, front};
use fdp_base::{Command, DriveConfig, Status};
use fdp_trace::{MOST_AMOUNT, number_of_digits};
use std::alloc::{AllocError, Global};

/// How the bytes of a piece stand on its line.
#[derive(Clone, Copy, Debug, PartialEq, Eq)]
pub enum Form {
    /// A block of a read: the digits of its word where all its words are equal.
    Block,
    /// Two digits a byte.
    Bytes,
}

/// Bytes of a log or a status on one line.
const LINE: usize = 32;

/// The bytes that a command answers with this status. It takes memory for them.
pub fn reply_bytes(
    alloc: Global,
    config: &DriveConfig,
    command: &Command,
    status: Status,
    text: &[u8],
) -> Result<Vec<u8>, AllocError>
    ensures { IfOk result (λ bytes. bytes.items ≡ reply_in config.now command.now status text.now) }
{
    let mut bytes = Vec::new(alloc);
    if is_success(status) {
        push_success(config, command, text, &mut bytes)?;
    }
    Ok(bytes)
}

fn is_success(status: Status) -> bool
    ensures { result ≡ is_success status }
{
    status.sct == 0 && status.sc == 0
}

/// Appends the bytes that a command answers where it succeeds.
fn push_success(
    config: &DriveConfig,
    command: &Command,
    text: &[u8],
    into: &mut Vec<u8>,
) -> Result<(), AllocError>
    ensures { OnOk result (into.new.items ≡ into.old.items ++ success_in config.now command.now text.now) }
{
    match command {
        Command::Read(read) => push_blocks(config.block, read.count, text, into),
        Command::Status(status) => push_dwords(status.dwords, text, into),
        Command::Log(log) => push_dwords(log.dwords, text, into),
        Command::Write(_)
        | Command::Zero(_)
        | Command::Dealloc(_)
        | Command::Flush(_)
        | Command::Delete(_)
        | Command::Update(_)
        | Command::SetFdp(_)
        | Command::GetFdp(_)
        | Command::SetEvents(_)
        | Command::Create(_)
        | Command::Other(_) => Ok(()),
    }
}

/// Appends so many blocks.
pub fn push_blocks(
    block: u32,
    count: u32,
    text: &[u8],
    into: &mut Vec<u8>,
) -> Result<(), AllocError>
    ensures { OnOk result (into.new.items ≡ into.old.items ++ lines_in block_in block count (count * block) text.now) }
{
    let left = count as usize * block as usize;
    push_lines(
        Form::Block,
        block as usize,
        count as usize,
        left,
        text,
        into,
    )
}

/// Appends so many dwords. Each takes eight digits and more: no memory is taken for more than a line of a trace asks for, where the text cannot have
/// them.
fn push_dwords(dwords: u32, text: &[u8], into: &mut Vec<u8>) -> Result<(), AllocError>
    ensures { OnOk result (into.new.items ≡ into.old.items ++ lines_in bytes_in 32 (4 * dwords) (4 * dwords) text.now) }
{
    if u64::from(dwords) > MOST_AMOUNT && dwords as usize > text.len() {
        return Err(AllocError);
    }
    push_rows(4 * dwords as usize, text, into)
}

/// Appends so many bytes, from lines of pieces.
pub fn push_rows(size: usize, text: &[u8], into: &mut Vec<u8>) -> Result<(), AllocError>
    ensures { OnOk result (into.new.items ≡ into.old.items ++ lines_in bytes_in 32 size size text.now) }
{
    push_lines(Form::Bytes, LINE, size, size, text, into)
}

/// Appends so many bytes, from at most so many lines.
fn push_lines(
    form: Form,
    size: usize,
    lines: usize,
    left: usize,
    text: &[u8],
    into: &mut Vec<u8>,
) -> Result<(), AllocError>
    ensures { OnOk result (into.new.items ≡ into.old.items ++ lines_in (form_of form) size lines left text.now) }
{
    let mut left = left;
    let mut rest = text;
    for _ in 0..lines {
        if left == 0 {
            return Ok(());
        }
        let line = before(rest, b'\n');
        push_piece(form, piece_len(size, left), behind(line, 2), into)?;
        left = left.saturating_sub(size);
        rest = after(rest, b'\n');
    }
    Ok(())
}

/// How long the next piece is: the last may be shorter.
fn piece_len(size: usize, left: usize) -> usize
    ensures { result ≡ min size left }
{
    if left < size { left } else { size }
}

/// Appends so many bytes, from the digits of one line.
fn push_piece(form: Form, size: usize, digits: &[u8], into: &mut Vec<u8>) -> Result<(), AllocError>
    ensures { OnOk result (into.new.items ≡ into.old.items ++ form_of form size digits.now) }
{
    match form {
        Form::Block => push_block(size, digits, into),
        Form::Bytes => push_bytes(size, digits, into),
    }
}

#[tactic(auto, unfolding(fdp_prints::specs::Reader::block_in))]
fn push_block(size: usize, digits: &[u8], into: &mut Vec<u8>) -> Result<(), AllocError>
    ensures { OnOk result (into.new.items ≡ into.old.items ++ block_in size digits.now) }
{
    if digits.len() == 8 {
        push_word(size / 4, word(digits), into)
    } else {
        push_bytes(size, digits, into)
    }
}

/// Appends a word so many times.
fn push_word(count: usize, word: u32, into: &mut Vec<u8>) -> Result<(), AllocError>
    ensures { OnOk result (into.new.items ≡ into.old.items ++ repeated count (to_le_bytes w32 word)) }
{
    let bytes = word.to_le_bytes();
    for _ in 0..count {
        into.extend_from_slice(&bytes)?;
    }
    Ok(())
}

/// Appends so many bytes, from two digits each.
pub fn push_bytes(size: usize, digits: &[u8], into: &mut Vec<u8>) -> Result<(), AllocError>
    ensures { OnOk result (into.new.items ≡ into.old.items ++ bytes_in size digits.now) }
{
    let mut rest = digits;
    for _ in 0..size {
        into.push(byte(front(rest, 2)))?;
        rest = behind(rest, 2);
    }
    Ok(())
}

fn word(digits: &[u8]) -> u32
    ensures { result ≡ hex_number digits.now % 2 ^ 32 }
{
    (number_of_digits(digits, 16) % 0x1_0000_0000) as u32
}

fn byte(digits: &[u8]) -> u8
    ensures { result ≡ hex_number digits.now % 256 }
{
    (number_of_digits(digits, 16) % 256) as u8
}
