//! What the bytes of a checkpoint say, and where bytes are none.

ghost use Rattle.std.specs.Prelude.{◌≡◌, ◌⊎◌, ◌+◌, ◌*◌, ◌≤◌, ◌<◌, ℕ, Err, Ok, Some, None, IfOk, IfSome, IsTrue, drop, length, map};
ghost use Rattle.fdp_records.specs.Bytes.{◌⊕◌, items, part};
ghost use Rattle.fdp_snapshot.specs.Checkpoint.{IsBadAt, IsState, is_checkpoint};
ghost use Rattle.fdp_snapshot.specs.Events.{event_at};
ghost use Rattle.fdp_snapshot.specs.Fixed.{IsSummary, fixed_of, fixed_size};
ghost use Rattle.fdp_snapshot.specs.Reading.{blocks_in, keys_in, page_lists, size_of_row, state_in, summary_in, totals_in};
ghost use Rattle.fdp_snapshot.specs.Scanning.{IsFirstDifference, IsFirstNumber};

use crate::encode::{FIXED_SIZE, put_fixed};
use crate::keys::Keys;
use crate::ring::EventRing;
use crate::row::read_all;
use crate::space::Space;
use crate::state::{PageList, State, Summary};
use fdp_base::{Sequence, Totals};
use fdp_records::{read_u32, read_u64};
use std::alloc::{AllocError, Global};

/// Why bytes are no checkpoint.
#[derive(Clone, Copy, Debug, PartialEq, Eq)]
pub enum BadCheckpoint {
    /// The byte at this offset is not one of the checkpoint of what the bytes say, or the bytes end before it does.
    At(usize),
    /// There was no memory for the lists of the state.
    NoMemory,
}

/// The state whose checkpoint these bytes are, in this version. It reads the fields, writes the fixed part again and
/// compares: so it takes nothing but what is written. It goes over the bytes once, and takes memory for the lists.
pub fn decode(alloc: Global, version: u8, bytes: &[u8]) -> Result<State, BadCheckpoint>
    ensures told { IfOk result (λ s. s ≡ state_in bytes.now) }
    ensures is { IfOk result (λ s. IsTrue (is_checkpoint version bytes.now)) }
    ensures writable { IfOk result IsState }
    ensures exact { IsTrue (is_checkpoint version bytes.now) → (result ≡ Ok (state_in bytes.now)) ⊎ (result ≡ Err BadCheckpoint.NoMemory) }
    ensures bad { (at : ℕ) → result ≡ Err (BadCheckpoint.At at) → IsBadAt version bytes.now at }
{
    if bytes.len() < FIXED_SIZE {
        return Err(BadCheckpoint::At(bytes.len().saturating_sub(1)));
    }
    let summary = match read_summary(alloc, bytes) {
        Ok(summary) => summary,
        Err(_) => return Err(BadCheckpoint::NoMemory),
    };
    match first_difference(version, &summary, bytes) {
        Some(at) => return Err(BadCheckpoint::At(at)),
        None => {}
    }
    let end = match end_of_blocks(summary.spaces.as_slice(), bytes.len()) {
        Some(end) => end,
        None => return Err(BadCheckpoint::At(bytes.len() - 1)),
    };
    match first_number(bytes, end) {
        Some(at) => return Err(BadCheckpoint::At(at)),
        None => {}
    }
    match read_pages(alloc, summary.spaces.as_slice(), bytes) {
        Ok(pages) => Ok(State { summary, pages }),
        Err(_) => Err(BadCheckpoint::NoMemory),
    }
}

fn read_totals(bytes: &[u8]) -> Totals
    requires { fixed_size ≤ length bytes.now }
    ensures { result ≡ totals_in bytes.now }
{
    Totals {
        position: read_u64(bytes, 16),
        host_blocks: read_u64(bytes, 24),
        media_blocks: read_u64(bytes, 32),
        erases: read_u64(bytes, 40),
    }
}

fn read_keys(alloc: Global, bytes: &[u8]) -> Result<Keys, AllocError>
    requires { fixed_size ≤ length bytes.now }
    ensures { IfOk result (λ keys. keys ≡ keys_in bytes.now) }
{
    let count = read_u32(bytes, 92).min(4) as usize;
    let configurations = read_all(alloc, bytes, 96, count)?;
    Ok(Keys {
        block: read_u32(bytes, 64),
        unit_pages: read_u32(bytes, 68),
        groups: read_u32(bytes, 72),
        units: read_u32(bytes, 76),
        area_units: read_u32(bytes, 80),
        queues: read_u32(bytes, 84),
        blocks_per_command: read_u32(bytes, 88),
        configurations,
    })
}

fn read_masks(bytes: &[u8]) -> [u8; 16]
    requires { fixed_size ≤ length bytes.now }
    ensures { result ≡ part (112 ⊕ 16) bytes.now }
{
    let mut masks = [0; 16];
    masks.copy_from_slice(&bytes[112..128]);
    masks
}

/// So many events that stand one behind another from an offset on. It fails only for want of memory.
fn read_events(
    alloc: Global,
    bytes: &[u8],
    at: usize,
    count: usize,
) -> Result<EventRing, AllocError>
    requires room { at + 64 * count ≤ length bytes.now }
    requires few { count ≤ 32 }
    ensures { IfOk result (λ events. events ≡ items 64 event_at count (drop at bytes.now)) }
{
    let events = read_all(alloc, bytes, at, count)?;
    EventRing::of_slice(alloc, events.as_slice())
}

/// What the fixed part says. It fails only for want of memory.
fn read_summary(alloc: Global, bytes: &[u8]) -> Result<Summary, AllocError>
    requires { fixed_size ≤ length bytes.now }
    ensures { IfOk result (λ summary. summary ≡ summary_in bytes.now) }
{
    let keys = read_keys(alloc, bytes)?;
    let spaces = match read_all(alloc, bytes, 128, 16) {
        Ok(spaces) => spaces,
        Err(fault) => return Err(fault),
    };
    let hosts = usize::from(bytes[768]).min(32);
    let host_events = match read_events(alloc, bytes, 832, hosts) {
        Ok(events) => events,
        Err(fault) => return Err(fault),
    };
    let controllers = usize::from(bytes[769]).min(32);
    let controller_events = match read_events(alloc, bytes, 2880, controllers) {
        Ok(events) => events,
        Err(fault) => return Err(fault),
    };
    Ok(Summary {
        keys,
        totals: read_totals(bytes),
        enabled: bytes[48] == 1,
        index: bytes[49],
        generation: read_u32(bytes, 12),
        masks: read_masks(bytes),
        spaces,
        host_events,
        controller_events,
    })
}

/// Where bytes first differ from the fixed part of a summary.
fn first_difference(version: u8, summary: &Summary, bytes: &[u8]) -> Option<usize>
    requires is { IsSummary summary.now }
    requires long { fixed_size ≤ length bytes.now }
    ensures { IsFirstDifference bytes.now (fixed_of version summary.now) result }
{
    let mut again = [0u8; 5120];
    put_fixed(summary, version, again.as_mut_slice());
    difference(bytes, again.as_slice())
}

/// Where bytes first differ from others.
fn difference(bytes: &[u8], others: &[u8]) -> Option<usize>
    requires { length others.now ≤ length bytes.now }
    ensures { IsFirstDifference bytes.now others.now result }
{
    for (i, other) in others.iter().enumerate() {
        if bytes[i] != *other {
            return Some(i);
        }
    }
    None
}

/// Where the pages of the blocks end, if they do within so many bytes.
pub fn end_of_blocks(spaces: &[Option<Space>], len: usize) -> Option<usize>
    requires { fixed_size ≤ len }
    ensures end { IfSome result (λ end. end ≡ fixed_size + 4 * blocks_in spaces.now) }
    ensures fits { IfSome result (λ end. end ≤ len) }
    ensures none { result ≡ None → len < fixed_size + 4 * blocks_in spaces.now }
{
    let mut end = FIXED_SIZE;
    for space in spaces {
        let size = size_of(space);
        if size > ((len - end) / 4) as u64 {
            return None;
        }
        end += 4 * size as usize;
    }
    Some(end)
}

fn size_of(space: &Option<Space>) -> u64
    ensures { result ≡ size_of_row space.now }
{
    match space {
        Some(space) => space.size,
        None => 0,
    }
}

/// Where the first byte from an offset on stands that is not zero.
fn first_number(bytes: &[u8], from: usize) -> Option<usize>
    requires { from ≤ length bytes.now }
    ensures { IsFirstNumber bytes.now from result }
{
    for i in from..bytes.len() {
        if bytes[i] != 0 {
            return Some(i);
        }
    }
    None
}

/// The pages of the blocks of each namespace. It fails only for want of memory.
#[tactic(auto, using(crate::proofs::Blocks::blocks_next))]
fn read_pages(
    alloc: Global,
    spaces: &[Option<Space>],
    bytes: &[u8],
) -> Result<Sequence<PageList>, AllocError>
    requires { fixed_size + 4 * blocks_in spaces.now ≤ length bytes.now }
    ensures { IfOk result (λ pages. pages ≡ page_lists (map size_of_row spaces.now) (drop fixed_size bytes.now)) }
{
    let mut pages = Vec::new(alloc);
    let mut at = FIXED_SIZE;
    for space in spaces {
        let size = size_of(space) as usize;
        let list = read_all(alloc, bytes, at, size)?;
        pages.push(list)?;
        at += 4 * size;
    }
    Ok(Sequence::from_vec(pages))
}
