//! What the blocks of a drive hold, by what its history says of them.
use crate::drive::Drive;
use crate::moves::{Asked, Move};
use crate::play::{Came, make};
use crate::texts::number_in;
use fdp_base::{Command, DriveConfig, Entry, Payload, Range, Reply, Status};
use std::alloc::{AllocError, Global};

/// The most namespaces of a drive.
const MOST_SPACES: usize = 16;

/// The numbers of the blocks of each namespace, from the first on, where there is such a namespace.
#[derive(Drop)]
pub struct Contents {
    spaces: Vec<Option<Vec<u32>>>,
}

/// What the blocks of a drive hold behind the first so many entries of its history: each block is that of the last change that was made.
pub fn contents_of(
    alloc: Global,
    config: &DriveConfig,
    entries: &[Entry],
    count: usize,
) -> Result<Contents, AllocError> {
    let mut contents = Contents::new(alloc, config)?;
    contents.follow(alloc, entries, count)?;
    Ok(contents)
}

impl Contents {
    /// The namespaces of a configuration, with zeros.
    fn new(alloc: Global, config: &DriveConfig) -> Result<Contents, AllocError> {
        let mut spaces = Vec::new(alloc);
        for place in 0..MOST_SPACES {
            spaces.push(match config.namespaces.as_slice().get(place) {
                Some(space) => Some(zeros(alloc, space.blocks)?),
                None => None,
            })?;
        }
        Ok(Contents { spaces })
    }

    /// Makes the changes of the first so many of further entries.
    pub fn follow(
        &mut self,
        alloc: Global,
        entries: &[Entry],
        count: usize,
    ) -> Result<(), AllocError> {
        for entry in entries.iter().take(count) {
            if let Some(host) = entry.as_host() {
                if host.reply.applied {
                    self.change(alloc, &host.command)?;
                }
            }
        }
        Ok(())
    }

    /// Makes the change of a command.
    fn change(&mut self, alloc: Global, command: &Command) -> Result<(), AllocError> {
        match command {
            Command::Write(write) => match write.payload {
                Payload::Pattern(seed) => self.put(write.nsid, write.slba, write.count, seed, 1),
                Payload::Bytes(_) => {}
            },
            Command::Zero(zero) => self.put(zero.nsid, zero.slba, zero.count, 0, 0),
            Command::Dealloc(dealloc) => self.clear(dealloc.nsid, dealloc.ranges.as_slice()),
            Command::Create(create) => self.create(zeros(alloc, create.size)?),
            Command::Delete(delete) => self.delete(delete.nsid),
            Command::Read(_)
            | Command::Flush(_)
            | Command::Status(_)
            | Command::Update(_)
            | Command::Log(_)
            | Command::SetFdp(_)
            | Command::GetFdp(_)
            | Command::SetEvents(_)
            | Command::Other(_) => {}
        }
        Ok(())
    }

    /// Blocks get the numbers from one on, each so much higher than the one before.
    fn put(&mut self, nsid: u32, slba: u64, count: u32, first: u32, step: u32) {
        let Some(blocks) = self.blocks(nsid) else {
            return;
        };
        let mut number = first;
        for block in blocks.iter_mut().skip(slba as usize).take(count as usize) {
            *block = number;
            number = number.wrapping_add(step);
        }
    }

    fn clear(&mut self, nsid: u32, ranges: &[Range]) {
        for range in ranges {
            self.put(nsid, range.slba, range.length, 0, 0);
        }
    }

    /// A namespace more, the lowest that was not there.
    fn create(&mut self, blocks: Vec<u32>) {
        for space in self.spaces.iter_mut() {
            if space.is_none() {
                *space = Some(blocks);
                return;
            }
        }
    }

    fn delete(&mut self, nsid: u32) {
        if let Some(space) = self.spaces.get_mut(place_of(nsid)) {
            *space = None;
        }
    }

    fn blocks(&mut self, nsid: u32) -> Option<&mut Vec<u32>> {
        match self.spaces.get_mut(place_of(nsid)) {
            Some(Some(blocks)) => Some(blocks),
            Some(None) | None => None,
        }
    }
}

fn zeros(alloc: Global, count: u64) -> Result<Vec<u32>, AllocError> {
    vec![in alloc; 0u32; count as usize]
}

fn place_of(nsid: u32) -> usize {
    (nsid as usize).wrapping_sub(1)
}

/// Whether each block of each namespace reads so, one by one, and none behind the last one, nor in a namespace that is not there.
pub fn reads_as<D: Drive>(
    alloc: Global,
    drive: &mut D,
    contents: &Contents,
) -> Result<bool, AllocError> {
    let mut right = true;
    let mut nsid = 0u32;
    for space in contents.spaces.iter() {
        nsid = nsid.wrapping_add(1);
        let reads = match space {
            Some(blocks) => reads_blocks(alloc, drive, nsid, blocks)?,
            None => status_at(alloc, drive, nsid, 0)? == Some(Status::INVALID_NAMESPACE),
        };
        right = right && reads;
    }
    Ok(right)
}

fn reads_blocks<D: Drive>(
    alloc: Global,
    drive: &mut D,
    nsid: u32,
    blocks: &[u32],
) -> Result<bool, AllocError> {
    let mut right = true;
    let mut slba = 0u64;
    for block in blocks {
        let number = number_at(alloc, drive, nsid, slba)?;
        right = right && number == Some(*block);
        slba = slba.wrapping_add(1);
    }
    let behind = status_at(alloc, drive, nsid, slba)?;
    Ok(right && behind == Some(Status::LBA_OUT_OF_RANGE))
}

/// The number that a block reads as.
fn number_at<D: Drive>(
    alloc: Global,
    drive: &mut D,
    nsid: u32,
    slba: u64,
) -> Result<Option<u32>, AllocError> {
    match read(alloc, drive, nsid, slba)? {
        Some(reply) if reply.status == Status::SUCCESS => Ok(number_in(reply.bytes.as_slice())),
        _ => Ok(None),
    }
}

/// The status of the read of a block.
fn status_at<D: Drive>(
    alloc: Global,
    drive: &mut D,
    nsid: u32,
    slba: u64,
) -> Result<Option<Status>, AllocError> {
    match read(alloc, drive, nsid, slba)? {
        Some(reply) => Ok(Some(reply.status)),
        None => Ok(None),
    }
}

fn read<D: Drive>(
    alloc: Global,
    drive: &mut D,
    nsid: u32,
    slba: u64,
) -> Result<Option<Reply>, AllocError> {
    let asked = Asked::Read {
        nsid,
        slba,
        count: 1,
    };
    match make(alloc, drive, Move::Whole(1, asked))? {
        Came::Done(reply) => Ok(Some(reply)),
        Came::Nothing | Came::Advanced(_) => Ok(None),
    }
}
