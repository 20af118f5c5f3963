//! The places of a namespace, in strips of sixteen.

ghost use Rattle.std.specs.Prelude.{◌≡◌, ℕ, ◌+◌, ◌*◌, ◌/◌, ◌^◌, ◌<◌, ◌≤◌, None, Some, IfOk, false, length, option_map, replicate, set};
ghost use Rattle.std.specs.Option.{option_copied};
ghost use Rattle.fdp_base.specs.Numbers.{with_at};
ghost use Rattle.fdp_tables.specs.Blocks.{on_page};
ghost use Rattle.fdp_tables.specs.State.{row};
ghost use Rattle.fdp_tables.specs.Strips.{in_strip};

use crate::state::{KeptBlock, KeptPage};
use crate::strip::{MadeBlock, Strip};
use std::alloc::{AllocError, Global};
use std::marker::Model;

/// A place for each block of a namespace, by address. Contracts see the list of the places. They stand in strips of sixteen; one without a
/// block takes no memory until a block is put there.
#[derive(Debug, Drop)]
pub(crate) struct Strips {
    strips: Vec<Option<Strip>>,
    size: usize,
}

impl Model for Strips {
    ghost use Rattle.std.specs.Prelude.{◌≤◌, ◌<◌, ◌*◌, ◌^◌, List, Option, length};
    ghost use Rattle.fdp_tables.specs.Strips.{in_strips, table_of};
    ghost use Rattle.fdp_tables.specs.declared.state.KeptBlock.{KeptBlock};

    ghost Value = { List (Option KeptBlock) };

    ghost view = { λ table. table_of (in_strips table.strips.items) table.size };

    ghost invariant = { λ table. (table.size ≤ 16 * length table.strips.items) × (table.size < 2 ^ 63) };
}

impl Strips {
    /// So many places without a block. For 2 ^ 63 of them no memory is large enough.
    pub(crate) fn absent(alloc: Global, size: u64) -> Result<Strips, AllocError>
        ensures { IfOk result (λ table. table ≡ replicate size None) }
    {
        if size >= 1 << 63 {
            return Err(AllocError);
        }
        Ok(Strips {
            strips: absent_strips(alloc, size / 16 + 1)?,
            size: size as usize,
        })
    }

    /// How many places there are.
    pub(crate) fn len(&self) -> usize
        ensures size { result ≡ length self.now }
        ensures few { result < 2 ^ 63 }
    {
        self.size
    }

    /// The block at an address.
    pub(crate) fn get(&self, lba: u64) -> Option<&KeptBlock>
        ensures { option_copied result ≡ row self.now lba }
    {
        if lba < self.size as u64 {
            block_at(&self.strips[(lba / 16) as usize], (lba % 16) as usize)
        } else {
            None
        }
    }

    /// Puts a block that was made in a place.
    pub(crate) fn put(&mut self, place: usize, made: MadeBlock)
        requires { place < length self.old }
        ensures { self.new ≡ set self.old place (Some made) }
    {
        made.put_into(&mut self.strips[place / 16], place % 16);
    }

    /// A place has no block.
    pub(crate) fn clear(&mut self, place: usize)
        requires { place < length self.old }
        ensures { self.new ≡ set self.old place None }
    {
        clear_at(&mut self.strips[place / 16], place % 16);
    }

    /// Gives the block in a place another page.
    pub(crate) fn set_page(&mut self, place: usize, page: KeptPage)
        requires { place < length self.old }
        ensures { self.new ≡ set self.old place (option_map (on_page page) (row self.old place)) }
    {
        set_page_at(&mut self.strips[place / 16], place % 16, page);
    }

    /// Whether the strip of a place is there. Where it isn't, none of its places has a block.
    pub(crate) fn has_strip(&self, place: usize) -> bool
        requires { place < length self.now }
        ensures { result ≡ false → (k : ℕ) → k / 16 ≡ place / 16 → row self.now k ≡ None }
    {
        self.strips[place / 16].is_some()
    }

    /// The strip of a place goes, of which no place has a block.
    pub(crate) fn drop_strip(&mut self, place: usize)
        requires there { place < length self.old }
        requires empty { (k : ℕ) → k / 16 ≡ place / 16 → row self.old k ≡ None }
        ensures { self.new ≡ self.old }
    {
        self.strips[place / 16] = None;
    }
}

/// The block in a place of a strip that may be left out.
fn block_at(strip: &Option<Strip>, at: usize) -> Option<&KeptBlock>
    ensures { option_copied result ≡ in_strip strip.now at }
{
    match strip {
        Some(strip) => strip.get(at),
        None => None,
    }
}

/// A place of a strip has no block.
fn clear_at(strip: &mut Option<Strip>, at: usize)
    requires { at < 16 }
    ensures { (i : ℕ) → in_strip strip.new i ≡ with_at (in_strip strip.old) at None i }
{
    if let Some(strip) = strip {
        strip.put(at, None);
    }
}

/// Gives the block in a place of a strip another page.
fn set_page_at(strip: &mut Option<Strip>, at: usize, page: KeptPage)
    requires { at < 16 }
    ensures { (i : ℕ) → in_strip strip.new i ≡ with_at (in_strip strip.old) at (option_map (on_page page) (in_strip strip.old at)) i }
{
    if let Some(strip) = strip {
        strip.set_page(at, page);
    }
}

/// So many strips that are left out.
#[tactic(auto, using(std::proofs::lemmas::List::replicate_more))]
fn absent_strips(alloc: Global, count: u64) -> Result<Vec<Option<Strip>>, AllocError>
    ensures { IfOk result (λ strips. strips.items ≡ replicate count None) }
{
    let mut strips = Vec::with_capacity(alloc, count as usize)?;
    for _ in 0..count {
        strips.push(None)?;
    }
    Ok(strips)
}
