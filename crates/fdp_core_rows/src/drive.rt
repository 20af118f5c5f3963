//! The drive of `fdp_core` over a flash in memory, as rows see it.
use fdp_base::{Command, DriveConfig, Entry, Reply, Totals};
use fdp_book::Done;
use fdp_core::{Advance, Group, NotLoaded};
use fdp_core_tests::{Player, replay};
use fdp_flash::FlashMem;
use fdp_moves::{Drive, Opened};
use fdp_recovery::OpenFault;
use std::alloc::{AllocError, Global};

/// A drive on which moves are made.
#[derive(Drop)]
pub struct GroupDrive {
    player: Player<FlashMem>,
}

impl Drive for GroupDrive {
    fn open(
        alloc: Global,
        flash: FlashMem,
        config: &DriveConfig,
    ) -> Result<Opened<GroupDrive>, AllocError> {
        match Group::load(alloc, flash, config) {
            Ok(group) => Ok(Opened::Drive(GroupDrive {
                player: Player::new(alloc, group)?,
            })),
            Err(not) => Ok(Opened::Fault(why(alloc, not)?)),
        }
    }

    fn taken(alloc: Global, config: &DriveConfig, entries: &[Entry]) -> Result<usize, AllocError> {
        replay(alloc, config, entries)
    }

    fn config(&self) -> &DriveConfig {
        self.player.group().config()
    }

    fn entries(&self) -> &[Entry] {
        self.player.group().entries()
    }

    fn totals(&self) -> Totals {
        self.player.group().totals()
    }

    fn first(&self) -> u64 {
        self.player.group().first()
    }

    fn toil(&self, rg: u16) -> Option<u64> {
        if rg < self.player.group().config().groups {
            Some(self.player.group().toil(rg))
        } else {
            None
        }
    }

    fn reserve(&mut self) -> Result<(), AllocError> {
        self.player.reserve()
    }

    fn start(
        &mut self,
        alloc: Global,
        queue: u8,
        command: Command,
    ) -> Result<Option<Reply>, AllocError> {
        let done = self.player.start(alloc, queue, command)?;
        Ok(reply_of(done))
    }

    fn place(&mut self, queue: u8) -> Option<Reply> {
        reply_of(self.player.place(queue))
    }

    fn commit(&mut self, queue: u8) -> Option<Reply> {
        reply_of(self.player.commit(queue))
    }

    fn collect(&mut self, rg: u16) -> Option<fdp_moves::Advance> {
        match self.player.collect(rg) {
            Some(advance) => Some(advance_of(advance)),
            None => None,
        }
    }

    fn finish(self) -> (FlashMem, Vec<Entry>) {
        let GroupDrive { player } = self;
        player.finish()
    }
}

fn reply_of(done: Option<Done>) -> Option<Reply> {
    match done {
        Some(
            Done {
                position: _,
                moment: _,
                reply,
            },
        ) => Some(reply),
        None => None,
    }
}

fn advance_of(advance: Advance) -> fdp_moves::Advance {
    match advance {
        Advance::Nothing => fdp_moves::Advance::Nothing,
        Advance::Copied => fdp_moves::Advance::Copied,
        Advance::Moved => fdp_moves::Advance::Moved,
        Advance::Erased => fdp_moves::Advance::Erased,
        Advance::Starved => fdp_moves::Advance::Starved,
        Advance::Fault => fdp_moves::Advance::Fault,
    }
}

/// Why no drive was opened, in words.
fn why(alloc: Global, not: NotLoaded<FlashMem>) -> Result<String, AllocError> {
    let NotLoaded { flash: _, cause } = not;
    match cause {
        OpenFault::OtherConfig { key } => format!(in alloc; "another {}", key.word()),
        OpenFault::NotADrive => String::from_str(alloc, "not a drive"),
        OpenFault::BadImage { page } => format!(in alloc; "page {page} is bad"),
        OpenFault::FlashFault { moment } => format!(in alloc; "call {moment} failed"),
        OpenFault::Spent => String::from_str(alloc, "spent"),
        OpenFault::NoMemory => Err(AllocError),
    }
}
