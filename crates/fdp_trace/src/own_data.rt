//! The lines of the data that a command carries itself.

ghost use Rattle.std.specs.Prelude.{◌≡◌, ◌+◌, ◌%◌, ◌^◌, ◌≤◌, ◌++◌, ◌∷◌, [], OnOk, OnErr, codes, length};
ghost use Rattle.fdp_base.specs.Text.{hex, hex_bytes};
ghost use Rattle.fdp_queues.specs.Data.{pattern, payload_data, pids_data, ranges_data};
ghost use Rattle.fdp_output.specs.CommandData.{own_lines, own_text};
ghost use Rattle.fdp_output.specs.Output.{block_lines, data_line, data_lines};
ghost use Rattle.fdp_trace.specs.Printer.{Extends};

use crate::data::{push_blocks, push_data_lines};
use crate::hex::{push_hex, push_hex_bytes};
use crate::spelled::is_spelled;
use fdp_base::{Command, Payload, Range};
use fdp_layouts::{DsmRange, Frame};
use std::alloc::AllocError;

/// Ranges on one line.
const LINE_RANGES: usize = 2;

/// Placement identifiers on one line.
const LINE_PIDS: usize = 16;

/// Adds the lines of the data that a command carries, where no line of a trace spells it. An `Err` may leave some of
/// them. It takes time that grows with the data.
pub fn push_own_data(text: &mut Vec<u8>, command: &Command, block: u32) -> Result<(), AllocError>
    ensures ok { OnOk result (text.new.items ≡ text.old.items ++ own_text block command.now) }
    ensures err { OnErr result (Extends text.old.items text.new.items) }
{
    if is_spelled(command) {
        return Ok(());
    }
    push_own_lines(text, command, block)
}

fn push_own_lines(text: &mut Vec<u8>, command: &Command, block: u32) -> Result<(), AllocError>
    ensures ok { OnOk result (text.new.items ≡ text.old.items ++ own_lines block command.now) }
    ensures err { OnErr result (Extends text.old.items text.new.items) }
{
    match command {
        Command::Write(write) => push_payload(text, &write.payload, write.count, block),
        Command::Dealloc(dealloc) => push_range_lines(text, dealloc.ranges.as_slice()),
        Command::Update(update) => push_pid_lines(text, update.pids.as_slice()),
        Command::SetEvents(set) => push_data_lines(text, set.types.as_slice()),
        Command::Read(_)
        | Command::Zero(_)
        | Command::Flush(_)
        | Command::Delete(_)
        | Command::Status(_)
        | Command::Log(_)
        | Command::SetFdp(_)
        | Command::GetFdp(_)
        | Command::Create(_)
        | Command::Other(_) => Ok(()),
    }
}

/// Adds a line for each block of a payload.
fn push_payload(
    text: &mut Vec<u8>,
    payload: &Payload,
    count: u32,
    block: u32,
) -> Result<(), AllocError>
    ensures ok { OnOk result (text.new.items ≡ text.old.items ++ block_lines count (payload_data block count payload.now)) }
    ensures err { OnErr result (Extends text.old.items text.new.items) }
{
    match payload {
        Payload::Pattern(seed) => push_pattern(text, *seed, count, block),
        Payload::Bytes(bytes) => push_blocks(text, count, bytes.as_slice()),
    }
}

/// Adds a line for each block of a pattern: its word, where a block has one.
fn push_pattern(text: &mut Vec<u8>, seed: u32, count: u32, block: u32) -> Result<(), AllocError>
    ensures ok { OnOk result (text.new.items ≡ text.old.items ++ block_lines count (pattern block count seed)) }
    ensures err { OnErr result (Extends text.old.items text.new.items) }
{
    if block < 4 {
        return Ok(());
    }
    for index in 0..count {
        push_word_line(text, seed.wrapping_add(index))?;
    }
    Ok(())
}

fn push_word_line(text: &mut Vec<u8>, word: u32) -> Result<(), AllocError>
    ensures ok { OnOk result (text.new.items ≡ text.old.items ++ (codes "  " ++ hex 8 word ++ 10 ∷ [])) }
    ensures err { OnErr result (Extends text.old.items text.new.items) }
{
    text.extend_from_slice(b"  ")?;
    push_hex(text, 8, word)?;
    text.push(b'\n')?;
    Ok(())
}

/// Adds the lines of ranges, two on each.
fn push_range_lines(text: &mut Vec<u8>, ranges: &[Range]) -> Result<(), AllocError>
    ensures ok { OnOk result (text.new.items ≡ text.old.items ++ data_lines (ranges_data ranges.now)) }
    ensures err { OnErr result (Extends text.old.items text.new.items) }
{
    let mut rest = ranges;
    while !rest.is_empty() {
        let (line, after) = rest.split_at(rest.len().min(LINE_RANGES));
        push_range_line(text, line)?;
        rest = after;
    }
    Ok(())
}

fn push_range_line(text: &mut Vec<u8>, ranges: &[Range]) -> Result<(), AllocError>
    ensures ok { OnOk result (text.new.items ≡ text.old.items ++ data_line (ranges_data ranges.now)) }
    ensures err { OnErr result (Extends text.old.items text.new.items) }
{
    text.extend_from_slice(b"  ")?;
    push_ranges(text, ranges)?;
    text.push(b'\n')?;
    Ok(())
}

fn push_ranges(text: &mut Vec<u8>, ranges: &[Range]) -> Result<(), AllocError>
    ensures ok { OnOk result (text.new.items ≡ text.old.items ++ hex_bytes (ranges_data ranges.now)) }
    ensures err { OnErr result (Extends text.old.items text.new.items) }
{
    for range in ranges {
        let laid = DsmRange {
            attributes: 0,
            length: range.length,
            slba: range.slba,
        };
        push_hex_bytes(text, &laid.encode())?;
    }
    Ok(())
}

/// Adds the lines of placement identifiers, sixteen on each.
fn push_pid_lines(text: &mut Vec<u8>, pids: &[u16]) -> Result<(), AllocError>
    ensures ok { OnOk result (text.new.items ≡ text.old.items ++ data_lines (pids_data pids.now)) }
    ensures err { OnErr result (Extends text.old.items text.new.items) }
{
    let mut rest = pids;
    while !rest.is_empty() {
        let (line, after) = rest.split_at(rest.len().min(LINE_PIDS));
        push_pid_line(text, line)?;
        rest = after;
    }
    Ok(())
}

fn push_pid_line(text: &mut Vec<u8>, pids: &[u16]) -> Result<(), AllocError>
    ensures ok { OnOk result (text.new.items ≡ text.old.items ++ data_line (pids_data pids.now)) }
    ensures err { OnErr result (Extends text.old.items text.new.items) }
{
    text.extend_from_slice(b"  ")?;
    push_pids(text, pids)?;
    text.push(b'\n')?;
    Ok(())
}

fn push_pids(text: &mut Vec<u8>, pids: &[u16]) -> Result<(), AllocError>
    ensures ok { OnOk result (text.new.items ≡ text.old.items ++ hex_bytes (pids_data pids.now)) }
    ensures err { OnErr result (Extends text.old.items text.new.items) }
{
    for pid in pids {
        push_hex_bytes(text, &pid.to_le_bytes())?;
    }
    Ok(())
}
