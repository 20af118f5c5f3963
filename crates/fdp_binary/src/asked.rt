ghost use Rattle.std.specs.Prelude.{◌≡◌, IfSome};
ghost use Rattle.fdp_binary.specs.Asked.{IsAsked};
ghost use Rattle.fdp_binary.specs.Lookup.{admin_kind, get_kind, io_kind, kind_in, management_kind, set_kind};

use crate::fields::{feature_in, flags_byte, select_in};
use fdp_base::{AdminOpcode, Feature, IoOpcode};
use fdp_layouts::Sqe;

/// The kinds of commands that the drive serves, as an entry asks for them.
#[derive(Clone, Copy, Debug, PartialEq, Eq)]
pub enum Asked {
    Write,
    Read,
    Zero,
    Dealloc,
    Flush,
    Status,
    Update,
    Log,
    SetFdp,
    GetFdp,
    SetEvents,
    Create,
    Delete,
}

/// The kind that an entry asks for, if the drive serves it.
pub fn asked_of(admin: bool, entry: &Sqe) -> Option<Asked>
    ensures value { result ≡ kind_in admin entry.now }
    ensures asked { IsAsked admin entry.now result }
{
    find_kind(admin, entry)
}

fn find_kind(admin: bool, entry: &Sqe) -> Option<Asked>
    ensures { result ≡ kind_in admin entry.now }
{
    if flags_byte(&entry.flags) != 0 {
        return None;
    }
    if admin {
        admin_kind(entry.opcode, feature_in(entry), select_in(entry))
    } else {
        io_kind(entry.opcode)
    }
}

fn io_kind(opcode: u8) -> Option<Asked>
    ensures { result ≡ io_kind opcode }
{
    if opcode == IoOpcode::Write.code() {
        Some(Asked::Write)
    } else if opcode == IoOpcode::Read.code() {
        Some(Asked::Read)
    } else if opcode == IoOpcode::WriteZeroes.code() {
        Some(Asked::Zero)
    } else if opcode == IoOpcode::DatasetManagement.code() {
        Some(Asked::Dealloc)
    } else if opcode == IoOpcode::Flush.code() {
        Some(Asked::Flush)
    } else if opcode == IoOpcode::IoManagementReceive.code() {
        Some(Asked::Status)
    } else if opcode == IoOpcode::IoManagementSend.code() {
        Some(Asked::Update)
    } else {
        None
    }
}

fn admin_kind(opcode: u8, feature: u8, select: u8) -> Option<Asked>
    ensures { result ≡ admin_kind opcode feature select }
{
    if opcode == AdminOpcode::GetLogPage.code() {
        Some(Asked::Log)
    } else if opcode == AdminOpcode::SetFeatures.code() {
        set_kind(feature)
    } else if opcode == AdminOpcode::GetFeatures.code() {
        get_kind(feature)
    } else if opcode == AdminOpcode::NamespaceManagement.code() {
        management_kind(select)
    } else {
        None
    }
}

fn set_kind(feature: u8) -> Option<Asked>
    ensures { result ≡ set_kind feature }
{
    if feature == Feature::DataPlacement.code() {
        Some(Asked::SetFdp)
    } else if feature == Feature::PlacementEvents.code() {
        Some(Asked::SetEvents)
    } else {
        None
    }
}

fn get_kind(feature: u8) -> Option<Asked>
    ensures { result ≡ get_kind feature }
{
    if feature == Feature::DataPlacement.code() {
        Some(Asked::GetFdp)
    } else {
        None
    }
}

fn management_kind(select: u8) -> Option<Asked>
    ensures { result ≡ management_kind select }
{
    match select {
        0 => Some(Asked::Create),
        1 => Some(Asked::Delete),
        _ => None,
    }
}
