ghost use Rattle.std.specs.Prelude.{◌≡◌, IfOk};

use crate::payload::Payload;
use crate::sequence::{EventTypes, HandleList, Pids, Ranges};
use std::alloc::AllocError;

/// Writes `count` blocks from `slba` on. `dtype` 2 is the Data Placement Directive, and `dspec` its placement identifier.
#[derive(Clone, Debug, Drop, PartialEq, Eq)]
pub struct Write {
    pub nsid: u32,
    pub slba: u64,
    pub count: u32,
    pub dtype: u8,
    pub dspec: u16,
    pub payload: Payload,
}

/// Reads `count` blocks from `slba` on.
#[derive(Clone, Copy, Debug, PartialEq, Eq)]
pub struct Read {
    pub nsid: u32,
    pub slba: u64,
    pub count: u32,
}

/// Write Zeroes: `count` blocks from `slba` on read as zeros.
#[derive(Clone, Copy, Debug, PartialEq, Eq)]
pub struct Zero {
    pub nsid: u32,
    pub slba: u64,
    pub count: u32,
}

/// Dataset Management. Without `deallocate` it changes nothing.
#[derive(Clone, Debug, Drop, PartialEq, Eq)]
pub struct Dealloc {
    pub nsid: u32,
    pub deallocate: bool,
    pub ranges: Ranges,
}

/// Flush.
#[derive(Clone, Copy, Debug, PartialEq, Eq)]
pub struct Flush {
    pub nsid: u32,
}

/// Deletes a namespace.
#[derive(Clone, Copy, Debug, PartialEq, Eq)]
pub struct Delete {
    pub nsid: u32,
}

/// I/O Management Receive with management operation `mo`.
#[derive(Clone, Copy, Debug, PartialEq, Eq)]
pub struct HandleStatus {
    pub nsid: u32,
    pub mo: u8,
    pub dwords: u32,
}

/// I/O Management Send with management operation `mo`.
#[derive(Clone, Debug, Drop, PartialEq, Eq)]
pub struct HandleUpdate {
    pub nsid: u32,
    pub mo: u8,
    pub pids: Pids,
}

/// Get Log Page; `offset` is in bytes.
#[derive(Clone, Copy, Debug, PartialEq, Eq)]
pub struct GetLog {
    pub lid: u8,
    pub lsp: u8,
    pub group: u16,
    pub offset: u64,
    pub dwords: u32,
}

/// Set Features, Flexible Data Placement.
#[derive(Clone, Copy, Debug, PartialEq, Eq)]
pub struct SetFdp {
    pub group: u16,
    pub enable: bool,
    pub index: u8,
}

/// Get Features, Flexible Data Placement.
#[derive(Clone, Copy, Debug, PartialEq, Eq)]
pub struct GetFdp {
    pub group: u16,
}

/// Set Features, Flexible Data Placement Events, for a placement handle of the namespace.
#[derive(Clone, Debug, Drop, PartialEq, Eq)]
pub struct SetEvents {
    pub nsid: u32,
    pub handle: u16,
    pub enable: bool,
    pub types: EventTypes,
}

/// Creates a namespace of `size` blocks. Where no list is `given`, `list` is empty.
#[derive(Clone, Debug, Drop, PartialEq, Eq)]
pub struct Create {
    pub size: u64,
    pub given: bool,
    pub list: HandleList,
}

/// A command that the drive does not serve. `flags` are byte 1 of its entry, `feature` its feature identifier.
#[derive(Clone, Copy, Debug, PartialEq, Eq)]
pub struct Other {
    pub admin: bool,
    pub opcode: u8,
    pub flags: u8,
    pub feature: u8,
}

/// A command of a host. The fields are those of its submission queue entry; `docs/FORMATS.md` has the table.
#[derive(Clone, Debug, Drop, PartialEq, Eq)]
pub enum Command {
    Write(Write),
    Read(Read),
    Zero(Zero),
    Dealloc(Dealloc),
    Flush(Flush),
    Delete(Delete),
    Status(HandleStatus),
    Update(HandleUpdate),
    Log(GetLog),
    SetFdp(SetFdp),
    GetFdp(GetFdp),
    SetEvents(SetEvents),
    Create(Create),
    Other(Other),
}

/// `length` blocks from `slba` on.
#[derive(Clone, Copy, Debug, PartialEq, Eq)]
pub struct Range {
    pub slba: u64,
    pub length: u32,
}

impl Command {
    ghost use Rattle.fdp_base.specs.CommandKinds.{word_of};

    /// The word of the command in traces and in printed completions; `entry` for one that the drive does not serve.
    pub fn word(&self) -> &'static str
        ensures { result.now ≡ word_of self.now }
    {
        match self {
            Command::Write(_) => "write",
            Command::Read(_) => "read",
            Command::Zero(_) => "zero",
            Command::Dealloc(_) => "dealloc",
            Command::Flush(_) => "flush",
            Command::Delete(_) => "delete",
            Command::Status(_) => "status",
            Command::Update(_) => "update",
            Command::Log(_) => "log",
            Command::SetFdp(_) => "set-fdp",
            Command::GetFdp(_) => "get-fdp",
            Command::SetEvents(_) => "set-events",
            Command::Create(_) => "create",
            Command::Other(_) => "entry",
        }
    }

    /// A second copy. It fails only for want of memory.
    pub fn copied(&self) -> Result<Command, AllocError>
        ensures { IfOk result (λ copy. copy ≡ self.now) }
    {
        self.clone()
    }
}
