use fdp_areas::Seal;
use fdp_snapshot::State;

/// The checkpoint that a system area holds.
#[derive(Debug, Drop)]
pub struct FoundCheckpoint {
    pub state: State,
    /// Its version and epoch, and how many pages it takes.
    pub seal: Seal,
}

/// Why no checkpoint of an area was read.
#[derive(Clone, Copy, Debug, PartialEq, Eq)]
pub enum CheckpointFault {
    /// The area is not sealed.
    NoCheckpoint,
    /// What stands in its checkpoint pages is the checkpoint of no state, as this page of the flash shows.
    Bad { page: u32 },
    /// A look or a fetch failed, at this moment of the flash.
    Failed { moment: u64 },
    /// There was no memory for the bytes of the checkpoint or for its state.
    NoMemory,
}

/// Why the content of a sealed area was not read.
#[derive(Clone, Copy, Debug, PartialEq, Eq)]
pub enum ContentFault {
    /// It is the checkpoint of no state, as this page of the flash shows.
    Bad { page: u32 },
    /// A fetch failed, at this moment of the flash.
    Failed { moment: u64 },
    /// There was no memory for its bytes or for its state.
    NoMemory,
}

/// Why the bytes of checkpoint pages were not read.
#[derive(Clone, Copy, Debug, PartialEq, Eq)]
pub enum CollectFault {
    Failed { moment: u64 },
    NoMemory,
}
