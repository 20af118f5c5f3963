use crate::command::Command;
use crate::sequence::{BlockNames, Bytes};
use crate::status::Status;

/// A page of a unit.
#[derive(Clone, Copy, Debug, Default, PartialEq, Eq)]
pub struct Spot {
    pub unit: u32,
    /// The page within its unit.
    pub page: u32,
}

/// A block by its namespace and its address.
#[derive(Clone, Copy, Debug, PartialEq, Eq)]
pub struct BlockName {
    pub nsid: u32,
    pub lba: u64,
}

/// The answer to a command.
#[derive(Clone, Debug, Drop, PartialEq, Eq)]
pub struct Reply {
    pub status: Status,
    /// Dword 0 of the completion.
    pub dw0: u32,
    /// The data that are transferred to the host.
    pub bytes: Bytes,
    /// Whether the change of the command was made.
    pub applied: bool,
}

/// A command was completed. `moment` counts the flash calls that had begun.
#[derive(Clone, Debug, Drop, PartialEq, Eq)]
pub struct Host {
    pub queue: u8,
    pub number: u16,
    pub command: Command,
    pub reply: Reply,
    pub moment: u64,
}

/// A write was accepted for a reclaim group and a handle. The entry's position is the ticket of the write.
#[derive(Clone, Debug, Drop, PartialEq, Eq)]
pub struct Started {
    pub queue: u8,
    pub number: u16,
    pub command: Command,
    pub rg: u16,
    pub ruh: u8,
    pub pid_valid: bool,
}

/// Block `index` of the write with this ticket was programmed.
#[derive(Clone, Copy, Debug, PartialEq, Eq)]
pub struct Placed {
    pub ticket: u64,
    pub index: u32,
    pub unit: u32,
    pub page: u32,
}

/// Relocation copied a page.
#[derive(Clone, Copy, Debug, PartialEq, Eq)]
pub struct Copied {
    pub from: Spot,
    pub to: Spot,
}

/// The blocks that a pass of relocation copied now stand at their copies.
#[derive(Clone, Debug, Drop, PartialEq, Eq)]
pub struct Moved {
    pub rg: u16,
    pub blocks: BlockNames,
}

/// A unit was erased.
#[derive(Clone, Copy, Debug, PartialEq, Eq)]
pub struct Erased {
    pub unit: u32,
}

/// An erase failed; the unit is out of use until the next opening.
#[derive(Clone, Copy, Debug, PartialEq, Eq)]
pub struct Retired {
    pub unit: u32,
}

/// A fetch of relocation failed; the unit is out of use until the next opening.
#[derive(Clone, Copy, Debug, PartialEq, Eq)]
pub struct Aside {
    pub unit: u32,
}

/// A program failed; the handle has no unit in this group.
#[derive(Clone, Copy, Debug, PartialEq, Eq)]
pub struct Shut {
    pub rg: u16,
    pub ruh: u8,
}

/// Relocation found no free unit in this group.
#[derive(Clone, Copy, Debug, PartialEq, Eq)]
pub struct Worn {
    pub rg: u16,
}

/// One entry of the history of a drive. Its position is its number in the history, from 1 on.
#[derive(Clone, Debug, Drop, PartialEq, Eq)]
pub enum Entry {
    Host(Host),
    Started(Started),
    Placed(Placed),
    Copied(Copied),
    Moved(Moved),
    Erased(Erased),
    Retired(Retired),
    Aside(Aside),
    Shut(Shut),
    Worn(Worn),
    /// A drive was opened from an image.
    Reopened,
}

/// The position of the last entry, and the sums of the history.
#[derive(Clone, Copy, Debug, PartialEq, Eq)]
pub struct Totals {
    pub position: u64,
    /// Blocks of applied writes.
    pub host_blocks: u64,
    /// Pages of data that were programmed.
    pub media_blocks: u64,
    /// Data units that were erased.
    pub erases: u64,
}
