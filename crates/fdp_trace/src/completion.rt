ghost use Rattle.std.specs.Prelude.{◌≡◌, ◌++◌, ◌∷◌, [], OnOk, OnErr, decimal};
ghost use Rattle.fdp_base.specs.Text.{hex, line, status_text};
ghost use Rattle.fdp_base.specs.CommandKinds.{word_of};
ghost use Rattle.fdp_output.specs.Output.{completion};
ghost use Rattle.fdp_trace.specs.Printer.{Extends};

use crate::data::push_data;
use crate::decimal::push_decimal;
use crate::hex::push_hex;
use fdp_base::{Command, Reply, Status};
use std::alloc::AllocError;

/// Adds the lines of a completion: the number of its command, its word, the status, dword 0, and the data. An `Err`
/// leaves the text as it was. It takes time that grows with the data.
pub fn print_completion(
    number: u16,
    command: &Command,
    reply: &Reply,
    into: &mut Vec<u8>,
) -> Result<(), AllocError>
    ensures ok { OnOk result (into.new.items ≡ into.old.items ++ completion number command.now reply.now) }
    ensures err { OnErr result (into.new.items ≡ into.old.items) }
{
    let before = into.len();
    let pushed = push_completion(into, number, command, reply);
    if pushed.is_err() {
        into.truncate(before);
    }
    pushed
}

fn push_completion(
    text: &mut Vec<u8>,
    number: u16,
    command: &Command,
    reply: &Reply,
) -> Result<(), AllocError>
    ensures ok { OnOk result (text.new.items ≡ text.old.items ++ completion number command.now reply.now) }
    ensures err { OnErr result (Extends text.old.items text.new.items) }
{
    push_head(text, number, command, reply)?;
    push_data(text, command, reply.bytes.as_slice())
}

fn push_head(
    text: &mut Vec<u8>,
    number: u16,
    command: &Command,
    reply: &Reply,
) -> Result<(), AllocError>
    ensures ok { OnOk result (text.new.items ≡ text.old.items
        ++ line (decimal number ∷ word_of command.now ∷ status_text reply.now.status ∷ hex 8 reply.now.dw0 ∷ [])) }
    ensures err { OnErr result (Extends text.old.items text.new.items) }
{
    push_decimal(text, u64::from(number))?;
    text.push(b' ')?;
    text.extend_from_slice(command.word().as_bytes())?;
    text.push(b' ')?;
    push_status(text, reply.status)?;
    text.push(b' ')?;
    push_hex(text, 8, reply.dw0)?;
    text.push(b'\n')?;
    Ok(())
}

/// Adds a status: its type, a slash, its code. An `Err` may leave a part of it.
pub fn push_status(text: &mut Vec<u8>, status: Status) -> Result<(), AllocError>
    ensures ok { OnOk result (text.new.items ≡ text.old.items ++ status_text status) }
    ensures err { OnErr result (Extends text.old.items text.new.items) }
{
    push_hex(text, 1, u32::from(status.sct))?;
    text.push(b'/')?;
    push_hex(text, 2, u32::from(status.sc))
}
