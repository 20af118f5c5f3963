//! Commands in the form of a trace, and as a history has them.

ghost use Rattle.std.specs.Prelude.{◌≡◌, ◌≤◌, ℕ, List, ◌++◌, ◌∷◌, false, length, OnOk, OnErr, map, flat_map, decimal, []};
ghost use Rattle.fdp_base.specs.Text.{spaced};
ghost use Rattle.fdp_output.specs.CommandText.{payload_word, directive_words, range_words, on_word, class_words, argument_words, line_words, command_text};
ghost use Rattle.fdp_trace.specs.Printer.{spaced_behind};
ghost use Rattle.fdp_trace.specs.Printer.{Extends};
ghost use Rattle.fdp_trace.specs.Demands.{Spells};
ghost use Rattle.fdp_trace.specs.Grammar.{is_skipped, Says};
ghost use Rattle.fdp_base.specs.declared.command.Command.{Command};

use crate::decimal::push_decimal;
use crate::entry_text::push_work;
use crate::spelled::is_spelled;
use fdp_base::{Command, Directive, LONGEST_LINE, Payload, Range};
use fdp_queues::work_of;
use std::alloc::AllocError;

/// Adds a command as the line of a trace that spells it, or, where none does, as its entry; without the line's end. An
/// `Err` leaves the text as it was.
pub fn print_command(command: &Command, into: &mut Vec<u8>) -> Result<(), AllocError>
    ensures ok { OnOk result (into.new.items ≡ into.old.items ++ command_text command.now) }
    ensures err { OnErr result (into.new.items ≡ into.old.items) }
{
    let before = into.len();
    let pushed = push_command(into, command);
    if pushed.is_err() {
        into.truncate(before);
    }
    pushed
}

fn push_command(text: &mut Vec<u8>, command: &Command) -> Result<(), AllocError>
    ensures ok { OnOk result (text.new.items ≡ text.old.items ++ command_text command.now) }
    ensures err { OnErr result (Extends text.old.items text.new.items) }
{
    if is_spelled(command) {
        push_line(text, command)
    } else {
        push_work(text, &work_of(command, 0))
    }
}

/// Adds the words of a line, which say the command where it is spelled.
fn push_line(text: &mut Vec<u8>, command: &Command) -> Result<(), AllocError>
    ensures ok { OnOk result (text.new.items ≡ text.old.items ++ spaced (line_words command.now)) }
    ensures err { OnErr result (Extends text.old.items text.new.items) }
{
    text.extend_from_slice(command.word().as_bytes())?;
    push_arguments(text, command)
}

fn push_arguments(text: &mut Vec<u8>, command: &Command) -> Result<(), AllocError>
    ensures ok { OnOk result (text.new.items ≡ text.old.items ++ spaced_behind (argument_words command.now)) }
    ensures err { OnErr result (Extends text.old.items text.new.items) }
{
    match command {
        Command::Write(write) => {
            push_blocks(text, write.nsid, write.slba, write.count)?;
            push_payload(text, &write.payload)?;
            push_directive(text, write.dtype, write.dspec)
        }
        Command::Read(read) => push_blocks(text, read.nsid, read.slba, read.count),
        Command::Zero(zero) => push_blocks(text, zero.nsid, zero.slba, zero.count),
        Command::Dealloc(dealloc) => {
            push_number(text, u64::from(dealloc.nsid))?;
            push_ranges(text, dealloc.ranges.as_slice())
        }
        Command::Flush(flush) => push_number(text, u64::from(flush.nsid)),
        Command::Delete(delete) => push_number(text, u64::from(delete.nsid)),
        Command::Status(status) => {
            push_number(text, u64::from(status.nsid))?;
            push_number(text, u64::from(status.dwords))
        }
        Command::Update(update) => {
            push_number(text, u64::from(update.nsid))?;
            push_identifiers(text, update.pids.as_slice())
        }
        Command::Log(log) => {
            push_number(text, u64::from(log.lid))?;
            push_number(text, log.offset)?;
            push_number(text, u64::from(log.dwords))?;
            push_class(text, log.lsp)
        }
        Command::SetFdp(set) => {
            push_on(text, set.enable)?;
            push_number(text, u64::from(set.index))
        }
        Command::GetFdp(_) => Ok(()),
        Command::SetEvents(set) => {
            push_number(text, u64::from(set.nsid))?;
            push_number(text, u64::from(set.handle))?;
            push_on(text, set.enable)?;
            push_types(text, set.types.as_slice())
        }
        Command::Create(create) => {
            push_number(text, create.size)?;
            push_identifiers(text, create.list.as_slice())
        }
        Command::Other(_) => Ok(()),
    }
}

fn push_blocks(text: &mut Vec<u8>, nsid: u32, slba: u64, count: u32) -> Result<(), AllocError>
    ensures ok { OnOk result (text.new.items ≡ text.old.items ++ spaced_behind (decimal nsid ∷ decimal slba ∷ decimal count ∷ [])) }
    ensures err { OnErr result (Extends text.old.items text.new.items) }
{
    push_number(text, u64::from(nsid))?;
    push_number(text, slba)?;
    push_number(text, u64::from(count))
}

fn push_payload(text: &mut Vec<u8>, payload: &Payload) -> Result<(), AllocError>
    ensures ok { OnOk result (text.new.items ≡ text.old.items ++ 32 ∷ payload_word payload.now) }
    ensures err { OnErr result (Extends text.old.items text.new.items) }
{
    match payload {
        Payload::Pattern(seed) => push_number(text, u64::from(*seed)),
        Payload::Bytes(_) => push_word(text, b""),
    }
}

fn push_directive(text: &mut Vec<u8>, dtype: u8, dspec: u16) -> Result<(), AllocError>
    ensures ok { OnOk result (text.new.items ≡ text.old.items ++ spaced_behind (directive_words dtype dspec)) }
    ensures err { OnErr result (Extends text.old.items text.new.items) }
{
    if dtype == Directive::Absent.code() {
        return Ok(());
    }
    push_word(text, b"pid")?;
    push_number(text, u64::from(dspec))
}

fn push_class(text: &mut Vec<u8>, lsp: u8) -> Result<(), AllocError>
    ensures ok { OnOk result (text.new.items ≡ text.old.items ++ spaced_behind (class_words lsp)) }
    ensures err { OnErr result (Extends text.old.items text.new.items) }
{
    if lsp == 0 {
        Ok(())
    } else {
        push_word(text, b"host")
    }
}

fn push_on(text: &mut Vec<u8>, enable: bool) -> Result<(), AllocError>
    ensures ok { OnOk result (text.new.items ≡ text.old.items ++ 32 ∷ on_word enable) }
    ensures err { OnErr result (Extends text.old.items text.new.items) }
{
    if enable {
        push_word(text, b"on")
    } else {
        push_word(text, b"off")
    }
}

fn push_ranges(text: &mut Vec<u8>, ranges: &[Range]) -> Result<(), AllocError>
    ensures ok { OnOk result (text.new.items ≡ text.old.items ++ spaced_behind (flat_map range_words ranges.now)) }
    ensures err { OnErr result (Extends text.old.items text.new.items) }
{
    for range in ranges {
        push_range(text, range)?;
    }
    Ok(())
}

fn push_range(text: &mut Vec<u8>, range: &Range) -> Result<(), AllocError>
    ensures ok { OnOk result (text.new.items ≡ text.old.items ++ spaced_behind (range_words range.now)) }
    ensures err { OnErr result (Extends text.old.items text.new.items) }
{
    push_number(text, range.slba)?;
    push_number(text, u64::from(range.length))
}

fn push_identifiers(text: &mut Vec<u8>, numbers: &[u16]) -> Result<(), AllocError>
    ensures ok { OnOk result (text.new.items ≡ text.old.items ++ spaced_behind (map decimal numbers.now)) }
    ensures err { OnErr result (Extends text.old.items text.new.items) }
{
    for number in numbers {
        push_number(text, u64::from(*number))?;
    }
    Ok(())
}

fn push_types(text: &mut Vec<u8>, numbers: &[u8]) -> Result<(), AllocError>
    ensures ok { OnOk result (text.new.items ≡ text.old.items ++ spaced_behind (map decimal numbers.now)) }
    ensures err { OnErr result (Extends text.old.items text.new.items) }
{
    for number in numbers {
        push_number(text, u64::from(*number))?;
    }
    Ok(())
}

/// Adds a space and a number. An `Err` may leave the space.
pub fn push_number(text: &mut Vec<u8>, number: u64) -> Result<(), AllocError>
    ensures ok { OnOk result (text.new.items ≡ text.old.items ++ 32 ∷ decimal number) }
    ensures err { OnErr result (Extends text.old.items text.new.items) }
{
    text.push(b' ')?;
    push_decimal(text, number)
}

/// Adds a space and a word. An `Err` may leave the space.
pub fn push_word(text: &mut Vec<u8>, word: &[u8]) -> Result<(), AllocError>
    ensures ok { OnOk result (text.new.items ≡ text.old.items ++ 32 ∷ word.now) }
    ensures err { OnErr result (Extends text.old.items text.new.items) }
{
    text.push(b' ')?;
    text.extend_from_slice(word)
}

/// The line that is printed of a command says that command, where a line of a trace can spell it and the line is not
/// too long.
pub fn printed_is_read()
    ensures { (words : List (List ℕ)) (command : Command) → Spells words command → length (command_text command) ≤ LONGEST_LINE
        → (is_skipped (command_text command) ≡ false) × Says (command_text command) command }
{}
