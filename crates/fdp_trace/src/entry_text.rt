//! Commands as entries of a submission queue.

ghost use Rattle.std.specs.Prelude.{◌≡◌, ◌++◌, OnOk, OnErr};
ghost use Rattle.fdp_base.specs.Text.{spaced};
ghost use Rattle.fdp_output.specs.CommandText.{work_words};
ghost use Rattle.fdp_trace.specs.Printer.{Extends};

use crate::command_text::push_number;
use crate::hex::push_hex_bytes;
use fdp_layouts::Frame;
use fdp_queues::Work;
use std::alloc::AllocError;

/// Adds the word `entry`, 1 for the admin queue or else 0, and the digits of the entry.
pub fn push_work(text: &mut Vec<u8>, work: &Work) -> Result<(), AllocError>
    ensures ok { OnOk result (text.new.items ≡ text.old.items ++ spaced (work_words work.now)) }
    ensures err { OnErr result (Extends text.old.items text.new.items) }
{
    text.extend_from_slice(b"entry")?;
    push_number(text, u64::from(work.admin))?;
    text.push(b' ')?;
    push_hex_bytes(text, &work.sqe.encode())
}
