use crate::blocks::Blocks;
use crate::page_sites::PageSites;
use fdp_base::{Bytes, Command, DriveConfig, Entry, Event, HandleList, Spot};

/// The page that holds a block, by the name under which the run follows it.
#[derive(Clone, Copy, Debug, PartialEq, Eq)]
pub enum KeptPage {
    /// It was written in this run: the ticket of its write, and its index there.
    Written { ticket: u64, index: u32 },
    /// It was found as the run began, at this spot.
    Found(Spot),
}

/// A block of a namespace.
#[derive(Debug, Drop)]
pub struct KeptBlock {
    pub bytes: Bytes,
    pub rg: u16,
    pub ruh: u8,
    pub page: KeptPage,
}

/// A namespace with a place for each of its blocks.
#[derive(Debug, Drop)]
pub struct Space {
    pub handles: HandleList,
    /// Whether the host gave the list of handles.
    pub given: bool,
    /// The position of its creation.
    pub birth: u64,
    pub blocks: Blocks,
}

/// What a handle references in a group.
#[derive(Clone, Copy, Debug, PartialEq, Eq)]
pub struct KeptReference {
    pub unit: Option<u32>,
    /// How many blocks may still be written to the unit.
    pub left: u32,
}

/// Which kinds of event are kept for a handle.
#[derive(Clone, Copy, Debug, PartialEq, Eq)]
pub struct KeptReports {
    pub not_fully_written: bool,
    pub time_limit_exceeded: bool,
    pub handles_modified: bool,
    pub invalid_identifier: bool,
    pub media_reallocated: bool,
    pub implicitly_modified: bool,
}

/// A write that was started and has not ended.
#[derive(Debug, Drop)]
pub struct KeptGoing {
    pub number: u16,
    pub command: Command,
    /// The position of its Started entry.
    pub ticket: u64,
    /// The position at which its namespace was created.
    pub birth: u64,
    pub rg: u16,
    pub ruh: u8,
    pub pid_valid: bool,
    /// The group that had most room when it was started.
    pub roomiest: u16,
    /// How many of its pages were programmed.
    pub placed: u32,
}

/// What the entries of a run leave, as tables, and those of the runs before it on the same image.
#[derive(Debug, Drop)]
pub struct Kept {
    pub config: DriveConfig,
    /// Of all runs, one behind another: the position of each is its place, from 1 on.
    pub entries: Vec<Entry>,
    /// For each run but the first, how many entries came before it.
    pub starts: Vec<usize>,
    pub enabled: bool,
    pub index: u8,
    /// How often Set Features changed these two.
    pub generation: u64,
    /// By handle.
    pub reports: Vec<KeptReports>,
    /// By identifier; row 0 stays empty.
    pub spaces: Vec<Option<Space>>,
    /// Sixteen handles for each group.
    pub references: Vec<KeptReference>,
    /// By queue; row 0 stays empty.
    pub going: Vec<Option<KeptGoing>>,
    /// Whether a unit is out of use.
    pub lost: Vec<bool>,
    /// Whether relocation found no free unit in a group.
    pub worn: Vec<bool>,
    /// The moments of the media errors of this run, the oldest first.
    pub media: Vec<u64>,
    /// Where the pages of writes stand.
    pub sites: PageSites,
    /// Where the pages stand that were found as this run began: a row for each unit, a place for each of its pages.
    pub found: PageSites,
    /// By group: what relocation copied since its last pass.
    pub copies: Vec<Vec<(Spot, Spot)>>,
    pub host_blocks: u128,
    pub media_blocks: u128,
    pub erases: u128,
    /// All events that were kept in all runs, the oldest first.
    pub events: Vec<Event>,
}
