//! The audit of one record.

ghost use Rattle.std.specs.Prelude.{◌≡◌, ◌≢◌, ℕ, ◌+◌, ◌<◌, ◌^◌, [], IfErr, IfOk, List, Ok, OnOk, bytes_eq, length};
ghost use Rattle.fdp_base.specs.declared.entry.Entry.{Entry};
ghost use Rattle.fdp_base.specs.Config.{IsValidConfig};
ghost use Rattle.fdp_output.specs.RunOutput.{output_of};
ghost use Rattle.fdp_plain.specs.Run.{found_of, next_position};
ghost use Rattle.fdp_reader.specs.Record.{GivesRecord, IsPrinted, IsRecord};
ghost use Rattle.fdp_audit.specs.Audit.{IsFirstOther};
ghost use Rattle.fdp_audit.specs.Steps.{IsOtherOutput, IsVerdict};

use crate::due::Due;
use crate::fault::RunFault;
use crate::history::judge;
use crate::told::Told;
use fdp_plain::Plain;
use fdp_printing::{closing_of, print_output};
use fdp_reader::{Printed, line_at, read_record, same_lines};
use std::alloc::Global;

/// Has a plain drive that has no entry of its run yet take the history of a text, if the text is the record of such a run; or tells what is wrong with it: it is no record,
/// or its history is no legal one, or its output is not that of the history. The first of these is told.
///
/// It prints each entry once, has the plain drive take it, and prints the output once. It takes memory for the entries and for the output.
pub(crate) fn judge_run(alloc: Global, text: &[u8], plain: &mut Plain) -> Result<(), RunFault>
    requires begins { plain.old.entries ≡ [] }
    requires room { next_position plain.old + length text.now < 2 ^ 64 }
    ensures { IsVerdict plain.old text.now plain.new result }
{
    match read_record(alloc, text, plain.config()) {
        Ok(read) => judge_read(alloc, text, plain, read),
        Err(cause) => Err(RunFault::from(cause)),
    }
}

/// What a text comes to that was read as this.
pub(crate) fn judge_read(
    alloc: Global,
    text: &[u8],
    plain: &mut Plain,
    read: Printed,
) -> Result<(), RunFault>
    requires begins { plain.old.entries ≡ [] }
    requires room { next_position plain.old + length text.now < 2 ^ 64 }
    requires valid { IsValidConfig plain.old.config }
    requires printed { IsPrinted plain.old.config text.now read }
    requires only { (traces : ℕ) (output : List ℕ) (entries : List (ℕ × Entry)) → IsRecord plain.old.config text.now traces output entries → GivesRecord traces output entries (Ok read) }
    ensures { IsVerdict plain.old text.now plain.new result }
{
    let Printed {
        traces,
        output,
        entries,
    } = read;
    match judge(alloc, plain, entries) {
        Ok(()) => compare(alloc, plain, traces, &text[..output]),
        Err(fault) => Err(fault),
    }
}

/// Whether this is the output of so many queues that the history of a drive gives, or the first line that differs.
fn compare(alloc: Global, plain: &Plain, traces: u8, output: &[u8]) -> Result<(), RunFault>
    ensures same { OnOk result (output.now ≡ output_of plain.now.config (found_of plain.now) traces plain.now.entries) }
    ensures other { IfErr result (IsOtherOutput plain.now traces output.now) }
{
    let due = output_due(alloc, plain, traces)?;
    if is_same(output, &due) {
        return Ok(());
    }
    Err(RunFault::Output {
        line: first_other(output, &due),
    })
}

/// The output of so many queues that the history of a drive gives.
fn output_due(alloc: Global, plain: &Plain, traces: u8) -> Result<Vec<u8>, RunFault>
    ensures due { IfOk result (λ text. text.items ≡ output_of plain.now.config (found_of plain.now) traces plain.now.entries) }
    ensures memory { IfErr result (λ fault. fault ≡ RunFault.NoMemory) }
{
    let closing = closing_of(alloc, &Told { plain })?;
    let mut due = Due::new(alloc);
    match print_output(
        alloc,
        plain.config(),
        plain.entries(),
        traces,
        &closing,
        &mut due,
    ) {
        Ok(()) => Ok(due.text),
        Err(_) => Err(RunFault::NoMemory),
    }
}

/// The number of the first line of a text that another has not at the same place, from 1.
fn first_other(text: &[u8], other: &[u8]) -> usize
    requires { text.now ≢ other.now }
    ensures { IsFirstOther text.now other.now result }
{
    line_at(text, same_lines(other, text))
}

fn is_same(left: &[u8], right: &[u8]) -> bool
    ensures { result ≡ bytes_eq left.now right.now }
{
    left == right
}
