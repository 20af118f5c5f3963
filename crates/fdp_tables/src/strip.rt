//! Sixteen places in a row, and a block that is to stand in one of them.

ghost use Rattle.std.specs.Prelude.{◌≡◌, ℕ, ◌<◌, None, Some, IfOk, length, option_map, replicate, set};
ghost use Rattle.std.specs.Option.{option_copied};
ghost use Rattle.fdp_base.specs.Numbers.{with_at};
ghost use Rattle.fdp_tables.specs.Blocks.{on_page};
ghost use Rattle.fdp_tables.specs.State.{row};
ghost use Rattle.fdp_tables.specs.Strips.{in_strip};

use crate::state::{KeptBlock, KeptPage};
use std::alloc::{AllocError, Global};
use std::marker::Model;

/// Sixteen places in a row. Contracts see the list of them.
#[derive(Debug, Drop)]
pub(crate) struct Strip {
    places: Vec<Option<KeptBlock>>,
}

impl Model for Strip {
    ghost use Rattle.std.specs.Prelude.{◌≡◌, List, Option, length};
    ghost use Rattle.fdp_tables.specs.declared.state.KeptBlock.{KeptBlock};

    ghost Value = { List (Option KeptBlock) };

    ghost view = { λ strip. strip.places.items };

    ghost invariant = { λ strip. length strip.places.items ≡ 16 };
}

impl Strip {
    /// Sixteen places without a block.
    fn absent(alloc: Global) -> Result<Strip, AllocError>
        ensures { IfOk result (λ strip. strip ≡ replicate 16 None) }
    {
        Ok(Strip {
            places: absent_places(alloc)?,
        })
    }

    /// The block in a place.
    pub(crate) fn get(&self, at: usize) -> Option<&KeptBlock>
        ensures { option_copied result ≡ row self.now at }
    {
        match self.places.as_slice().get(at) {
            Some(Some(block)) => Some(block),
            Some(None) => None,
            None => None,
        }
    }

    /// Puts a block, or none, in a place.
    pub(crate) fn put(&mut self, at: usize, block: Option<KeptBlock>)
        requires { at < 16 }
        ensures { (i : ℕ) → row self.new i ≡ with_at (row self.old) at block i }
    {
        self.places[at] = block;
    }

    /// Gives the block in a place another page.
    pub(crate) fn set_page(&mut self, at: usize, page: KeptPage)
        requires { at < 16 }
        ensures { (i : ℕ) → row self.new i ≡ with_at (row self.old) at (option_map (on_page page) (row self.old at)) i }
    {
        set_page(&mut self.places, at, page);
    }
}

/// A block that was made, with the memory for a strip in which it may stand. Contracts see the block.
#[derive(Debug, Drop)]
pub struct MadeBlock {
    block: KeptBlock,
    /// Without a block.
    strip: Strip,
}

impl Model for MadeBlock {
    ghost use Rattle.std.specs.Prelude.{◌≡◌, None, replicate};
    ghost use Rattle.fdp_tables.specs.declared.state.KeptBlock.{KeptBlock};

    ghost Value = { KeptBlock };

    ghost view = { λ made. made.block };

    ghost invariant = { λ made. made.strip ≡ replicate 16 None };
}

impl MadeBlock {
    /// A block, which takes the memory that it may need in the table of a namespace.
    pub fn new(alloc: Global, block: KeptBlock) -> Result<MadeBlock, AllocError>
        ensures { IfOk result (λ made. made ≡ block) }
    {
        Ok(MadeBlock {
            block,
            strip: Strip::absent(alloc)?,
        })
    }

    /// The block.
    pub(crate) fn block(&self) -> &KeptBlock
        ensures { result.now ≡ self.now }
    {
        &self.block
    }

    /// The block stands in a place of a strip, which is its own where there was none.
    pub(crate) fn put_into(self, strip: &mut Option<Strip>, at: usize)
        requires { at < 16 }
        ensures { (i : ℕ) → in_strip strip.new i ≡ with_at (in_strip strip.old) at (Some self) i }
    {
        let MadeBlock { block, strip: own } = self;
        if strip.is_none() {
            *strip = Some(own);
        }
        if let Some(strip) = strip {
            strip.put(at, Some(block));
        }
    }
}

/// Gives the block in a place another page.
fn set_page(places: &mut Vec<Option<KeptBlock>>, place: usize, page: KeptPage)
    requires { place < length places.old.items }
    ensures { places.new.items ≡ set places.old.items place (option_map (on_page page) (row places.old.items place)) }
{
    if let Some(block) = &mut places[place] {
        block.page = page;
    }
}

/// Sixteen places without a block.
#[tactic(auto, using(std::proofs::lemmas::List::replicate_more))]
fn absent_places(alloc: Global) -> Result<Vec<Option<KeptBlock>>, AllocError>
    ensures { IfOk result (λ places. places.items ≡ replicate 16 None) }
{
    let mut places = Vec::with_capacity(alloc, 16)?;
    for _ in 0..16_u64 {
        places.push(None)?;
    }
    Ok(places)
}
