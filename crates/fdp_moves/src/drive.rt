//! The drive on which moves are made.
ghost use Rattle.fdp_base.specs.Config.{IsValidConfig};

use fdp_base::{Command, DriveConfig, Entry, Reply, Totals};
use fdp_flash::FlashMem;
use std::alloc::{AllocError, Global};

/// A drive over a flash in memory. Of its calls nothing is known here but what they ask for: what they promise is no matter of rows.
pub trait Drive: Drop {
    /// The drive that a flash holds, a new one where it is blank; or why none was opened.
    fn open(
        alloc: Global,
        flash: FlashMem,
        config: &DriveConfig,
    ) -> Result<Opened<Self>, AllocError>
        requires { IsValidConfig config.now };

    /// How many entries of a history, from the first on, the plain drive takes.
    fn taken(alloc: Global, config: &DriveConfig, entries: &[Entry]) -> Result<usize, AllocError>
        requires { IsValidConfig config.now };

    fn config(&self) -> &DriveConfig;

    /// Its history since it was opened.
    fn entries(&self) -> &[Entry];

    /// The sums of its history, with those before it.
    fn totals(&self) -> Totals;

    /// The position of the first entry since it was opened.
    fn first(&self) -> u64;

    /// The work of relocation in a group, if there is such a group.
    fn toil(&self, rg: u16) -> Option<u64>;

    /// Takes the memory for a step, if it may make one.
    fn reserve(&mut self) -> Result<(), AllocError>;

    /// The first step of a command of a queue: the reply if it is completed.
    fn start(
        &mut self,
        alloc: Global,
        queue: u8,
        command: Command,
    ) -> Result<Option<Reply>, AllocError>;

    /// Places the next page of the write of a queue: the reply if that ends the write.
    fn place(&mut self, queue: u8) -> Option<Reply>;

    /// Ends the write of a queue whose pages are placed.
    fn commit(&mut self, queue: u8) -> Option<Reply>;

    /// A step of relocation in a group, if there is such a group.
    fn collect(&mut self, rg: u16) -> Option<Advance>;

    /// Its flash and its history, for good.
    fn finish(self) -> (FlashMem, Vec<Entry>);
}

/// What came of opening a flash.
#[derive(Drop)]
pub enum Opened<D> {
    Drive(D),
    /// Why there is no drive.
    Fault(String),
}

/// What a step of relocation came to.
#[derive(Clone, Copy, Debug, PartialEq, Eq)]
pub enum Advance {
    Nothing,
    Copied,
    Moved,
    Erased,
    Starved,
    Fault,
}
