use fdp_config::Key;
use fdp_snapshot::State;

/// What an opening found.
#[derive(Debug, Drop)]
pub enum Opened {
    /// No system area is sealed, and each data page is blank: a drive can be made here.
    Fresh,
    /// The state that a drive left, with its current system area and the epoch of that.
    Found { state: State, area: u8, epoch: u64 },
}

/// Why a flash was not opened. The first of these in order is told, but for a fault of the flash, which may come before each.
#[derive(Clone, Copy, Debug, PartialEq, Eq)]
pub enum OpenFault {
    /// The value of this key differs from the flash, or from the checkpoint that it holds.
    OtherConfig { key: Key },
    /// No system area is sealed, and a data page is not blank.
    NotADrive,
    /// A system area is sealed, and this page is the first, of those of the checkpoint, of the journal and then of the blocks, that shows
    /// the image to be that of no drive.
    BadImage { page: u32 },
    /// A call of the flash failed, at this moment.
    FlashFault { moment: u64 },
    /// The drive's position, epoch, one of its totals or its generation is so high that a run might bring it past its end.
    Spent,
    /// There was no memory for a page, for the bytes of the checkpoint or for the state.
    NoMemory,
}
