//! The history, an entry a line.

ghost use Rattle.std.specs.Prelude.{◌≡◌, ◌^◌, ◌+◌, ◌<◌, ◌++◌, ◌∷◌, [], OnOk, codes, decimal, length, map};
ghost use Rattle.fdp_base.specs.EventCodes.{bit};
ghost use Rattle.fdp_output.specs.CommandData.{own_text};
ghost use Rattle.fdp_output.specs.CommandText.{command_text};
ghost use Rattle.fdp_output.specs.HistoryText.{
  block_word,
  entry_data,
  entry_lines,
  entry_words,
  history_text,
  host_words,
  spot_words,
  started_words,
};
ghost use Rattle.fdp_output.specs.Output.{data_text};
ghost use Rattle.fdp_base.specs.Text.{hex, status_text};
ghost use Rattle.fdp_trace.specs.Printer.{spaced_behind};
ghost use Rattle.fdp_printing.specs.Printing.{PrintsOn};

use crate::pieces::{Cut, write_piece};
use fdp_base::{BlockName, Command, Entry, Host, Placed, Reply, Spot, Started};
use fdp_io::Sink;
use fdp_trace::{
    print_command, push_data, push_decimal, push_hex, push_number, push_own_data, push_status,
    push_word,
};
use std::alloc::AllocError;

/// Prints the entries of a history that follow this position, with blocks of so many bytes.
pub fn print_history<K: Sink>(
    block: u32,
    position: u64,
    entries: &[Entry],
    text: &mut Vec<u8>,
    sink: &mut K,
) -> Result<(), Cut>
    requires { position + length entries.now < 2 ^ 64 }
    ensures { PrintsOn (K.state sink.old) (K.state sink.new) text.old.items text.new.items (history_text block (position + 1) entries.now) result }
{
    for (index, entry) in entries.iter().enumerate() {
        print_entry(block, position + 1 + index as u64, entry, text, sink)?;
    }
    Ok(())
}

/// Prints the lines of the entry at this position.
fn print_entry<K: Sink>(
    block: u32,
    position: u64,
    entry: &Entry,
    text: &mut Vec<u8>,
    sink: &mut K,
) -> Result<(), Cut>
    ensures { PrintsOn (K.state sink.old) (K.state sink.new) text.old.items text.new.items (entry_lines block position entry.now) result }
{
    if push_entry(block, position, entry, text).is_err() {
        return Err(Cut::NoMemory);
    }
    write_piece(text, sink)
}

/// Appends the lines of the entry at this position.
pub fn push_entry(
    block: u32,
    position: u64,
    entry: &Entry,
    into: &mut Vec<u8>,
) -> Result<(), AllocError>
    ensures { OnOk result (into.new.items ≡ into.old.items ++ entry_lines block position entry.now) }
{
    push_decimal(into, position)?;
    push_words(entry, into)?;
    into.push(b'\n')?;
    push_entry_data(block, entry, into)
}

/// Appends what an entry says, behind its position.
fn push_words(entry: &Entry, into: &mut Vec<u8>) -> Result<(), AllocError>
    ensures { OnOk result (into.new.items ≡ into.old.items ++ spaced_behind (entry_words entry.now)) }
{
    match entry {
        Entry::Host(host) => push_host(host, into),
        Entry::Started(started) => push_started(started, into),
        Entry::Placed(placed) => push_placed(placed, into),
        Entry::Copied(copied) => {
            push_word(into, b"copied")?;
            push_spot(copied.from, into)?;
            push_spot(copied.to, into)
        }
        Entry::Moved(moved) => {
            push_word(into, b"moved")?;
            push_number(into, u64::from(moved.rg))?;
            push_blocks(moved.blocks.as_slice(), into)
        }
        Entry::Erased(erased) => push_one(b"erased", erased.unit, into),
        Entry::Retired(retired) => push_one(b"retired", retired.unit, into),
        Entry::Aside(aside) => push_one(b"aside", aside.unit, into),
        Entry::Shut(shut) => {
            push_one(b"shut", u32::from(shut.rg), into)?;
            push_number(into, u64::from(shut.ruh))
        }
        Entry::Worn(worn) => push_one(b"worn", u32::from(worn.rg), into),
        Entry::Reopened => push_word(into, b"reopened"),
    }
}

/// Appends a word and a number.
fn push_one(word: &[u8], number: u32, into: &mut Vec<u8>) -> Result<(), AllocError>
    ensures { OnOk result (into.new.items ≡ into.old.items ++ spaced_behind (word.now ∷ decimal number ∷ [])) }
{
    push_word(into, word)?;
    push_number(into, u64::from(number))
}

fn push_host(host: &Host, into: &mut Vec<u8>) -> Result<(), AllocError>
    ensures { OnOk result (into.new.items ≡ into.old.items ++ spaced_behind (host_words host.now)) }
{
    push_word(into, b"host")?;
    push_number(into, u64::from(host.queue))?;
    push_number(into, u64::from(host.number))?;
    push_reply(&host.reply, into)?;
    push_number(into, host.moment)?;
    push_line(&host.command, into)
}

/// Appends the words of a reply: 1 where the change was made, the status, dword 0.
fn push_reply(reply: &Reply, into: &mut Vec<u8>) -> Result<(), AllocError>
    ensures { OnOk result (into.new.items ≡ into.old.items
        ++ spaced_behind (decimal (bit reply.now.applied) ∷ status_text reply.now.status ∷ hex 8 reply.now.dw0 ∷ [])) }
{
    push_flag(reply.applied, into)?;
    into.push(b' ')?;
    push_status(into, reply.status)?;
    into.push(b' ')?;
    push_hex(into, 8, reply.dw0)
}

fn push_started(started: &Started, into: &mut Vec<u8>) -> Result<(), AllocError>
    ensures { OnOk result (into.new.items ≡ into.old.items ++ spaced_behind (started_words started.now)) }
{
    push_word(into, b"started")?;
    push_number(into, u64::from(started.queue))?;
    push_number(into, u64::from(started.number))?;
    push_number(into, u64::from(started.rg))?;
    push_number(into, u64::from(started.ruh))?;
    push_flag(started.pid_valid, into)?;
    push_line(&started.command, into)
}

fn push_placed(placed: &Placed, into: &mut Vec<u8>) -> Result<(), AllocError>
    ensures { OnOk result (into.new.items ≡ into.old.items
        ++ spaced_behind (codes "placed" ∷ decimal placed.now.ticket ∷ decimal placed.now.index ∷ decimal placed.now.unit ∷ decimal placed.now.page ∷ [])) }
{
    push_word(into, b"placed")?;
    push_number(into, placed.ticket)?;
    push_number(into, u64::from(placed.index))?;
    push_number(into, u64::from(placed.unit))?;
    push_number(into, u64::from(placed.page))
}

fn push_spot(spot: Spot, into: &mut Vec<u8>) -> Result<(), AllocError>
    ensures { OnOk result (into.new.items ≡ into.old.items ++ spaced_behind (spot_words spot)) }
{
    push_number(into, u64::from(spot.unit))?;
    push_number(into, u64::from(spot.page))
}

fn push_blocks(blocks: &[BlockName], into: &mut Vec<u8>) -> Result<(), AllocError>
    ensures { OnOk result (into.new.items ≡ into.old.items ++ spaced_behind (map block_word blocks.now)) }
{
    for block in blocks {
        push_block(block, into)?;
    }
    Ok(())
}

/// Appends a space and the name of a block: its namespace, a colon, its address.
fn push_block(block: &BlockName, into: &mut Vec<u8>) -> Result<(), AllocError>
    ensures { OnOk result (into.new.items ≡ into.old.items ++ 32 ∷ block_word block.now) }
{
    push_number(into, u64::from(block.nsid))?;
    into.push(b':')?;
    push_decimal(into, block.lba)
}

/// Appends a space and the words of a command.
fn push_line(command: &Command, into: &mut Vec<u8>) -> Result<(), AllocError>
    ensures { OnOk result (into.new.items ≡ into.old.items ++ 32 ∷ command_text command.now) }
{
    into.push(b' ')?;
    print_command(command, into)
}

/// Appends a space and a truth value as one bit.
fn push_flag(flag: bool, into: &mut Vec<u8>) -> Result<(), AllocError>
    ensures { OnOk result (into.new.items ≡ into.old.items ++ 32 ∷ decimal (bit flag)) }
{
    if flag {
        push_number(into, 1)
    } else {
        push_number(into, 0)
    }
}

/// Appends the lines of the data that the command of an entry carries or answers.
fn push_entry_data(block: u32, entry: &Entry, into: &mut Vec<u8>) -> Result<(), AllocError>
    ensures { OnOk result (into.new.items ≡ into.old.items ++ entry_data block entry.now) }
{
    match entry {
        Entry::Host(host) => push_host_data(block, host, into),
        Entry::Started(started) => push_own_data(into, &started.command, block),
        Entry::Placed(_)
        | Entry::Copied(_)
        | Entry::Moved(_)
        | Entry::Erased(_)
        | Entry::Retired(_)
        | Entry::Aside(_)
        | Entry::Shut(_)
        | Entry::Worn(_)
        | Entry::Reopened => Ok(()),
    }
}

/// Appends the lines of the data of a completion.
fn push_host_data(block: u32, host: &Host, into: &mut Vec<u8>) -> Result<(), AllocError>
    ensures { OnOk result (into.new.items ≡ into.old.items ++ (own_text block host.now.command ++ data_text host.now.command host.now.reply.bytes)) }
{
    push_own_data(into, &host.command, block)?;
    push_data(into, &host.command, host.reply.bytes.as_slice())
}
