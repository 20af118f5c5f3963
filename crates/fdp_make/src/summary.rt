//! What a run of the generated load comes to.

ghost use Rattle.std.specs.Prelude.{◌≡◌, ◌*◌, ◌^◌, ◌<◌, IfOk, OnErr, count_by, sum_by};
ghost use Rattle.fdp_rules.specs.Totals.{host_blocks, host_blocks_of};
ghost use Rattle.fdp_make.specs.Summary.{
  blocks_given,
  is_completion,
  is_success,
  summary,
  unrefuted_blocks,
};

use crate::given::{agreeing, succeeds};
use crate::writes::{LastWrites, note};
use fdp_base::Entry;
use std::alloc::{AllocError, Global};
use std::collections::BTreeMap;

/// What a run of the generated load comes to.
#[derive(Clone, Copy, Debug, PartialEq, Eq)]
pub struct Summary {
    /// Commands that were completed.
    pub commands: u64,
    /// Those with status Success.
    pub successes: u64,
    /// Bytes of the blocks of applied writes.
    pub host_bytes: u128,
    /// Blocks of successful reads.
    pub read: u128,
    /// Those that are what their queue wrote there last, or that it had not written.
    pub same: u128,
}

/// What this history comes to, with blocks of so many bytes. It looks up each block that is written or read in an ordered map.
/// Where no write's change was made it takes no memory.
pub fn summary_of(alloc: Global, entries: &[Entry], block: u32) -> Result<Summary, AllocError>
    ensures value { IfOk result (λ s. s ≡ summary block entries.now (unrefuted_blocks block entries.now)) }
    ensures memory { OnErr result (0 < host_blocks entries.now) }
{
    let same = unrefuted_blocks(alloc, entries, block)?;
    Ok(Summary {
        commands: completions(entries),
        successes: successes(entries),
        host_bytes: u128::from(block) * host_blocks(entries),
        read: blocks_given(entries),
        same,
    })
}

fn completions(entries: &[Entry]) -> u64
    ensures { result ≡ count_by is_completion entries.now }
{
    let mut count: u64 = 0;
    for entry in entries {
        count += u64::from(is_completion(entry));
    }
    count
}

fn is_completion(entry: &Entry) -> bool
    ensures { result ≡ is_completion entry.now }
{
    entry.as_host().is_some()
}

fn successes(entries: &[Entry]) -> u64
    ensures { result ≡ count_by is_success entries.now }
{
    let mut count: u64 = 0;
    for entry in entries {
        count += u64::from(is_success(entry));
    }
    count
}

fn is_success(entry: &Entry) -> bool
    ensures { result ≡ is_success entry.now }
{
    match entry.as_host() {
        Some(host) => succeeds(host),
        None => false,
    }
}

/// The blocks of applied writes.
fn host_blocks(entries: &[Entry]) -> u128
    ensures value { result ≡ host_blocks entries.now }
    ensures bound { result < 2 ^ 96 }
{
    let mut blocks: u128 = 0;
    for entry in entries {
        blocks += u128::from(host_blocks_of(entry));
    }
    blocks
}

fn host_blocks_of(entry: &Entry) -> u32
    ensures { result ≡ host_blocks_of entry.now }
{
    match entry.as_host() {
        Some(host) if host.reply.applied => host.command.blocks_written(),
        _ => 0,
    }
}

/// The blocks of successful reads.
fn blocks_given(entries: &[Entry]) -> u128
    ensures { result ≡ sum_by blocks_given entries.now }
{
    let mut blocks: u128 = 0;
    for entry in entries {
        blocks += u128::from(blocks_given_by(entry));
    }
    blocks
}

fn blocks_given_by(entry: &Entry) -> u32
    ensures { result ≡ blocks_given entry.now }
{
    match entry.as_host() {
        Some(host) if succeeds(host) => host.command.blocks_read(),
        _ => 0,
    }
}

/// The blocks of successful reads that are what their queue wrote there last, or that it had not written.
fn unrefuted_blocks(alloc: Global, entries: &[Entry], block: u32) -> Result<u128, AllocError>
    ensures value { IfOk result (λ same. same ≡ unrefuted_blocks block entries.now) }
    ensures memory { OnErr result (0 < host_blocks entries.now) }
{
    let mut writes: LastWrites<'_> = BTreeMap::new(alloc);
    let mut same: u128 = 0;
    for entry in entries {
        same += u128::from(agreeing(entry, &writes, block));
        note(entry, &mut writes)?;
    }
    Ok(same)
}
