ghost use Rattle.std.specs.Prelude.{◌≡◌, ℕ, ◌<◌, [], ◌||◌, List, ◌∷◌, nat_lt, length, IfOk, IfErr};
ghost use Rattle.std.specs.Str.Lines.{lines, strip_carriage_return};
ghost use Rattle.fdp_trace.specs.Reader.FrontOf.{IsFront, is_line_feed};
ghost use Rattle.fdp_trace.specs.Grammar.{IsTraceOf, IsFaultOf};
ghost use Rattle.fdp_trace.specs.Answer.{IsCause, GivesCommands, GivesFault};
ghost use Rattle.fdp_trace.specs.Reader.Line.{line_of, ReadsLine};
ghost use Rattle.fdp_trace.specs.Reader.Trace.{ReadsLines};
ghost use Rattle.fdp_trace.specs.declared.fault.FaultKind.{FaultKind};
ghost use Rattle.fdp_base.specs.declared.command.Command.{Command};
ghost use Rattle.fdp_base.specs.CommandKinds.{blocks_read};

use crate::fault::{FaultKind, LineError, TraceFault};
use crate::line::read_line;
use fdp_base::{Command, MOST_TRACE_BLOCKS, MOST_TRACE_COMMANDS};
use std::alloc::Global;

/// The commands of a trace, or its first bad line, from 1, with the first thing that the line lacks. Want of memory is told only
/// at a line that says a command, behind lines that say commands. It takes time that grows with the text.
pub fn read_trace(alloc: Global, text: &[u8]) -> Result<Vec<Command>, TraceFault>
    ensures commands { IfOk result (λ commands. IsTraceOf text.now commands.items) }
    ensures cause { IfErr result (IsCause text.now) }

    // No trace is refused, and no fault passes, unless memory runs out.
    ensures read { (commands : List Command) → IsTraceOf text.now commands → GivesCommands commands result }
    ensures told { (line : ℕ) (kind : FaultKind) → IsFaultOf text.now line kind → GivesFault line kind result }
{
    let mut commands = Vec::new(alloc);
    read_lines(alloc, text, &mut commands)?;
    Ok(commands)
}

/// Adds the commands of a text to a list without any. Memory is taken for the list of a command, and where the list of commands
/// is full.
fn read_lines(alloc: Global, text: &[u8], commands: &mut Vec<Command>) -> Result<(), TraceFault>
    requires { commands.old.items ≡ [] }
    ensures { ReadsLines text.now commands.new result }
{
    let mut number = 0;
    let mut blocks = 0;
    let mut rest = text;
    while !rest.is_empty() {
        let (line, after) = next_line(rest);
        rest = after;
        number += 1;
        let found = read_numbered(alloc, line, number)?;
        let Some(command) = found else {
            continue;
        };
        blocks += u64::from(command.blocks_read());
        if is_too_much(commands.len() + 1, blocks) {
            let kind = FaultKind::Long;
            return Err(TraceFault::Line { line: number, kind });
        }
        commands.reserve(1)?;
        commands.push_reserved(command);
    }
    Ok(())
}

fn read_numbered(alloc: Global, line: &[u8], number: usize) -> Result<Option<Command>, TraceFault>
    ensures { ReadsLine number (line_of line.now) result }
{
    match read_line(alloc, line) {
        Ok(command) => Ok(command),
        Err(LineError::Fault(kind)) => Err(TraceFault::Line { line: number, kind }),
        Err(LineError::Memory) => Err(TraceFault::NoMemory),
    }
}

fn is_too_much(commands: usize, blocks: u64) -> bool
    ensures { result ≡ (nat_lt MOST_TRACE_COMMANDS commands || nat_lt MOST_TRACE_BLOCKS blocks) }
{
    commands > MOST_TRACE_COMMANDS || blocks > MOST_TRACE_BLOCKS
}

/// The first line of a text, without its end, and the text behind it.
fn next_line(text: &[u8]) -> (&[u8], &[u8])
    requires { 0 < length text.now }
    ensures lines { lines text.now ≡ result.0.now ∷ lines result.1.now }
    ensures shorter { length result.1.now < length text.now }
{
    let end = line_len(text);
    let line = &text[..end];
    if end == text.len() {
        return (line, &[]);
    }
    (without_return(line), &text[end + 1..])
}

/// The bytes in front of the first line feed.
fn line_len(text: &[u8]) -> usize
    ensures { IsFront is_line_feed text.now result }
{
    for (i, b) in text.iter().enumerate() {
        if *b == b'\n' {
            return i;
        }
    }
    text.len()
}

/// A line without the carriage return at its end.
fn without_return(line: &[u8]) -> &[u8]
    ensures { result.now ≡ strip_carriage_return line.now }
{
    let len = line.len();
    if len > 0 && line[len - 1] == b'\r' {
        &line[..len - 1]
    } else {
        line
    }
}
