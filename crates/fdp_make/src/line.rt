//! The line that sums up a run of the generated load.

ghost use Rattle.std.specs.Prelude.{◌≡◌, ◌++◌, ◌∷◌, OnOk, decimal};
ghost use Rattle.fdp_make.specs.Summary.{summary_line};

use crate::summary::Summary;
use fdp_trace::push_wide_decimal;
use std::alloc::AllocError;

/// Appends the line of a summary, with the word that asked for so many commands.
pub fn push_summary(word: &str, summary: &Summary, into: &mut Vec<u8>) -> Result<(), AllocError>
    ensures { OnOk result (into.new.items ≡ into.old.items ++ summary_line word.now summary.now) }
{
    into.extend_from_slice(b"make ")?;
    into.extend_from_slice(word.as_bytes())?;
    push_sum(b"commands", u128::from(summary.commands), into)?;
    push_sum(b"ok", u128::from(summary.successes), into)?;
    push_sum(b"hbmw", summary.host_bytes, into)?;
    push_sum(b"read", summary.read, into)?;
    push_sum(b"same", summary.same, into)?;
    into.push(b'\n')?;
    Ok(())
}

/// Appends a name and a number, with a space in front of each.
fn push_sum(name: &[u8], number: u128, into: &mut Vec<u8>) -> Result<(), AllocError>
    ensures { OnOk result (into.new.items ≡ into.old.items ++ (32 ∷ name.now ++ 32 ∷ decimal number)) }
{
    into.push(b' ')?;
    into.extend_from_slice(name)?;
    into.push(b' ')?;
    push_wide_decimal(into, number)
}
