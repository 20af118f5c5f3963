//! Which commands some line of a trace spells.

ghost use Rattle.std.specs.Prelude.{◌≡◌};
ghost use Rattle.fdp_output.specs.CommandText.{is_amount, is_count, is_directive, is_given, is_pattern, is_spelled};

use crate::limits::MOST_AMOUNT;
use fdp_base::{Command, Directive, Payload, ReceiveOperation, SendOperation};

/// Whether some line of a trace spells the command; the others are printed as entries.
pub fn is_spelled(command: &Command) -> bool
    ensures { result ≡ is_spelled command.now }
{
    match command {
        Command::Write(write) => {
            is_amount(write.count)
                && is_pattern(&write.payload)
                && is_directive(write.dtype, write.dspec)
        }
        Command::Read(read) => is_amount(read.count),
        Command::Zero(zero) => is_amount(zero.count),
        Command::Dealloc(dealloc) => {
            dealloc.deallocate && is_count(1, 256, dealloc.ranges.as_slice().len())
        }
        Command::Flush(_) | Command::Delete(_) => true,
        Command::Status(status) => {
            status.mo == ReceiveOperation::HandleStatus.code() && is_amount(status.dwords)
        }
        Command::Update(update) => {
            update.mo == SendOperation::HandleUpdate.code()
                && is_count(1, 256, update.pids.as_slice().len())
        }
        Command::Log(log) => log.group == 1 && log.lsp <= 1 && is_amount(log.dwords),
        Command::SetFdp(set) => set.group == 1,
        Command::GetFdp(get) => get.group == 1,
        Command::SetEvents(set) => is_count(1, 6, set.types.as_slice().len()),
        Command::Create(create) => {
            let handles = create.list.as_slice().len();
            create.given == (handles != 0) && handles <= 32
        }
        Command::Other(_) => false,
    }
}

/// Whether a line takes so many blocks or dwords.
fn is_amount(amount: u32) -> bool
    ensures { result ≡ is_amount amount }
{
    1 <= amount && u64::from(amount) <= MOST_AMOUNT
}

fn is_count(least: usize, most: usize, count: usize) -> bool
    ensures { result ≡ is_count least most count }
{
    least <= count && count <= most
}

fn is_pattern(payload: &Payload) -> bool
    ensures { result ≡ is_pattern payload.now }
{
    match payload {
        Payload::Pattern(_) => true,
        Payload::Bytes(_) => false,
    }
}

/// Whether a line says this directive: none, or a placement identifier.
fn is_directive(dtype: u8, dspec: u16) -> bool
    ensures { result ≡ is_directive dtype dspec }
{
    dtype == Directive::DataPlacement.code() || dtype == Directive::Absent.code() && dspec == 0
}
