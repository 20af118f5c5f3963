ghost use Rattle.std.specs.Prelude.{◌≡◌, ℕ, ◌+◌, ◌<◌, ◌^◌, IfSome, None, ◌==◌};
ghost use Rattle.std.specs.List.{list_any};
ghost use Rattle.fdp_base.specs.declared.command.Command.TheVariants as commands;
ghost use Rattle.fdp_rules.specs.Refusal.{is_served_opcode, refusal_of};
ghost use Rattle.fdp_base.specs.Codes.{admin_code, io_code};
ghost use Rattle.fdp_base.specs.CommandKinds.{read_of};
ghost use Rattle.fdp_commands.specs.Lengths.{IsLogLength};

use crate::drive::Drive;
use fdp_base::{AdminOpcode, Command, IoOpcode, Other, Status};

pub(crate) mod blocks;
mod namespaces;
mod placement;

/// The admin commands that the drive serves.
const ADMIN_OPCODES: [AdminOpcode; 4] = [
    AdminOpcode::GetLogPage,
    AdminOpcode::SetFeatures,
    AdminOpcode::GetFeatures,
    AdminOpcode::NamespaceManagement,
];

/// The I/O commands that the drive serves.
const IO_OPCODES: [IoOpcode; 7] = [
    IoOpcode::Flush,
    IoOpcode::Write,
    IoOpcode::Read,
    IoOpcode::WriteZeroes,
    IoOpcode::DatasetManagement,
    IoOpcode::IoManagementReceive,
    IoOpcode::IoManagementSend,
];

/// The status with which a command is refused, if it is. Of a log its length is asked; of another command any number may
/// be given.
pub fn refusal<D: Drive>(drive: &D, command: &Command, log_length: u64) -> Option<Status>
    requires { IsLogLength (D.config drive.now) (D.point drive.now) command.now log_length }
    ensures refusal { result ≡ refusal_of (D.config drive.now) (D.point drive.now) command.now }
    ensures range { result ≡ None → IfSome (read_of command.now) (λ read. read.slba + read.count < 2 ^ 64) }
{
    match command {
        Command::Write(write) => blocks::refuse_write(drive, write),
        Command::Read(read) => blocks::refuse_blocks(drive, read.nsid, read.slba, read.count),
        Command::Zero(zero) => blocks::refuse_blocks(drive, zero.nsid, zero.slba, zero.count),
        Command::Dealloc(dealloc) => blocks::refuse_dealloc(drive, dealloc),
        Command::Flush(flush) => blocks::refuse_flush(drive, flush),
        Command::Delete(delete) => namespaces::refuse_delete(drive, delete),
        Command::Status(status) => placement::refuse_status(drive, status),
        Command::Update(update) => placement::refuse_update(drive, update),
        Command::Log(log) => placement::refuse_log(drive, log, log_length),
        Command::GetFdp(get) => placement::refuse_get_fdp(drive, get),
        Command::SetEvents(set) => placement::refuse_set_events(drive, set),
        Command::SetFdp(set) => namespaces::refuse_set_fdp(drive, set),
        Command::Create(create) => namespaces::refuse_create(drive, create),
        Command::Other(other) => refuse_other(drive, other),
    }
}

#[tactic(auto, unfolding(fdp_rules::specs::Refusal::checks_of, fdp_rules::specs::Refusal::refusal_of))]
fn refuse_other<D: Drive>(drive: &D, other: &Other) -> Option<Status>
    ensures { result ≡ refusal_of (D.config drive.now) (D.point drive.now) (commands.Other other.now) }
{
    if is_served_opcode(other.admin, other.opcode) {
        Some(Status::INVALID_FIELD)
    } else {
        Some(Status::INVALID_OPCODE)
    }
}

fn is_served_opcode(admin: bool, opcode: u8) -> bool
    ensures { result ≡ is_served_opcode admin opcode }
{
    if admin {
        is_admin_opcode(&ADMIN_OPCODES, opcode)
    } else {
        is_io_opcode(&IO_OPCODES, opcode)
    }
}

fn is_admin_opcode(known: &[AdminOpcode], opcode: u8) -> bool
    ensures { result ≡ list_any (λ x. admin_code x == opcode) known.now }
{
    known.iter().any(|x| x.code() == opcode)
}

fn is_io_opcode(known: &[IoOpcode], opcode: u8) -> bool
    ensures { result ≡ list_any (λ x. io_code x == opcode) known.now }
{
    known.iter().any(|x| x.code() == opcode)
}
