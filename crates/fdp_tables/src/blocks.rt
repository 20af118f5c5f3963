//! The blocks of a namespace, and how many of them lie in each reclaim group.

ghost use Rattle.std.specs.Prelude.{◌≡◌, ℕ, ◌+◌, ◌-◌, ◌^◌, ◌<◌, ◌≤◌, ◌==◌, ◌&&◌, if◌then◌else◌, None, Some, IfOk, IfSome, IsTrue, cond, count_by, get_or, length, option_map, replicate, set};
ghost use Rattle.std.specs.Option.{option_copied};
ghost use Rattle.fdp_base.specs.Numbers.{count_below, is_among};
ghost use Rattle.fdp_tables.specs.Clearing.{IsCleared};
ghost use Rattle.fdp_tables.specs.Blocks.{Names, lies_at, on_page, row_of};
ghost use Rattle.fdp_tables.specs.declared.state.KeptBlock.{KeptBlock};
ghost use Rattle.fdp_tables.specs.Index.{Lists, is_listed};
ghost use Rattle.fdp_tables.specs.State.{row};

use crate::index::Index;
use crate::state::{KeptBlock, KeptPage};
use crate::strip::MadeBlock;
use crate::strips::Strips;
use std::alloc::{AllocError, Global};
use std::marker::Model;

/// The pages of one write, by its ticket, or those that were found in one unit.
#[derive(Clone, Copy, Debug)]
pub(crate) struct PageRow {
    pub(crate) is_found: bool,
    pub(crate) number: u64,
}

/// A place for each block of a namespace, by address. Contracts see the list of the places. How many of the blocks lie in a group, and
/// which may be at the pages of a write, is known without a look at them.
#[derive(Debug, Drop)]
pub struct Blocks {
    places: Strips,
    /// By group, of which a drive has at most sixteen.
    counts: [u64; 16],
    /// By ticket: the places whose blocks may be at a page of its write.
    written: Index,
    /// By unit: the places whose blocks may be at a page that was found there.
    found: Index,
}

impl Model for Blocks {
    ghost use Rattle.std.specs.Prelude.{List, Option};
    ghost use Rattle.fdp_tables.specs.Blocks.{AreCounted, AreNamed};
    ghost use Rattle.fdp_tables.specs.declared.state.KeptBlock.{KeptBlock};

    ghost Value = { List (Option KeptBlock) };

    ghost view = { λ blocks. blocks.places };

    ghost invariant = { λ blocks. AreCounted blocks.counts blocks.places × AreNamed blocks.written blocks.found blocks.places };
}

impl Blocks {
    /// So many places without a block.
    pub fn absent(alloc: Global, size: u64) -> Result<Blocks, AllocError>
        ensures { IfOk result (λ blocks. blocks ≡ replicate size None) }
    {
        Ok(Blocks {
            places: Strips::absent(alloc, size)?,
            counts: [0; 16],
            written: Index::new(alloc),
            found: Index::new(alloc),
        })
    }

    /// How many places there are.
    pub fn len(&self) -> usize
        ensures { result ≡ length self.now }
    {
        self.places.len()
    }

    /// The block at an address.
    pub fn get(&self, lba: u64) -> Option<&KeptBlock>
        ensures { option_copied result ≡ row self.now lba }
    {
        self.places.get(lba)
    }

    /// Puts a block that was made, or none, in a place. It takes no memory.
    pub fn put(&mut self, place: usize, made: Option<MadeBlock>)
        requires { place < length self.old }
        ensures { self.new ≡ set self.old place made }
    {
        match made {
            Some(made) => self.put_made(place, made),
            None => self.take(place),
        }
    }

    fn put_made(&mut self, place: usize, made: MadeBlock)
        requires { place < length self.old }
        ensures { self.new ≡ set self.old place (Some made) }
    {
        let _places = self.places.len(); // proof: so few that they can be counted
        let block = made.block();
        uncount(&mut self.counts, self.places.get(place as u64));
        count(&mut self.counts, block);
        name(&mut self.written, &mut self.found, block.page, place as u64);
        self.places.put(place, made);
    }

    /// So many places from an address on have no block, as far as there are such places. Sixteen without a block, which begin at a multiple
    /// of sixteen, it mostly passes at once.
    pub fn clear(&mut self, slba: u64, count: u64)
        ensures size { length self.new ≡ length self.old }
        ensures rows { (lba : ℕ) → row self.new lba ≡ (if is_among slba count lba then None else row self.old lba) }
    {
        let end = slba.saturating_add(count).min(self.places.len() as u64);
        let mut lba = slba;
        while lba < end {
            lba = self.clear_strip(lba, end);
        }
    }

    /// The places from an address on, up to an end, have no block, as far as their strip goes. Gives the address behind them.
    fn clear_strip(&mut self, lba: u64, end: u64) -> u64
        requires there { lba < end }
        requires within { end ≤ length self.old }
        ensures goes_on { lba < result }
        ensures ends { result ≤ end }
        ensures cleared { IsCleared (is_among lba (result - lba)) self.old self.new }
    {
        let next = lba.saturating_add(16 - lba % 16).min(end);
        if self.places.has_strip(lba as usize) {
            self.clear_places(lba, next);
            if next - lba == 16 {
                self.places.drop_strip(lba as usize);
            }
        }
        next
    }

    /// The places from an address to an end have no block. It looks at each.
    fn clear_places(&mut self, slba: u64, end: u64)
        requires in_order { slba ≤ end }
        requires within { end ≤ length self.old }
        ensures { IsCleared (is_among slba (end - slba)) self.old self.new }
    {
        for lba in slba..end {
            self.clear_place(lba);
        }
    }

    /// A place has no block.
    fn clear_place(&mut self, place: u64)
        requires { place < length self.old }
        ensures { IsCleared (λ lba. lba == place) self.old self.new }
    {
        if self.get(place).is_some() {
            self.take(place as usize);
        }
    }

    /// A block goes, if there is one in a place.
    fn take(&mut self, place: usize)
        requires { place < length self.old }
        ensures { self.new ≡ set self.old place None }
    {
        uncount(&mut self.counts, self.places.get(place as u64));
        self.places.clear(place);
    }

    /// Gives the block in a place another page.
    pub fn move_to(&mut self, place: usize, page: KeptPage)
        requires { place < length self.old }
        ensures { self.new ≡ set self.old place (option_map (on_page page) (row self.old place)) }
    {
        name(&mut self.written, &mut self.found, page, place as u64);
        self.places.set_page(place, page);
    }

    /// The places of all blocks at these pages, and perhaps others; none where memory was wanting for them, and any place may be one.
    pub(crate) fn places_at(&self, at: PageRow) -> Option<&[u64]>
        ensures { IfSome result (λ places. (place : ℕ) (b : KeptBlock) → row self.now place ≡ Some b → row_of b.page ≡ at → IsTrue (is_listed place places.now)) }
    {
        if at.is_found {
            self.found.get(at.number)
        } else {
            self.written.get(at.number)
        }
    }

    /// How many of the blocks lie in a group. It looks at no block, where a drive may have the group.
    pub fn count_in(&self, rg: u16) -> u64
        ensures { result ≡ count_by (lies_at rg) self.now }
    {
        if rg < 16 {
            self.counts[usize::from(rg)]
        } else {
            self.count_among(rg, 0, self.places.len() as u64)
        }
    }

    /// How many of `count` blocks from `slba` on lie in a group. It looks at these.
    pub fn count_among(&self, rg: u16, slba: u64, count: u64) -> u64
        ensures { result ≡ count_below (length self.now) (λ lba. lies_at rg (row self.now lba) && is_among slba count lba) }
    {
        let behind = (self.places.len() as u64).saturating_sub(slba);
        let mut lying = 0;
        for index in 0..count.min(behind) {
            lying += u64::from(self.lies_at(rg, slba + index));
        }
        lying
    }

    fn lies_at(&self, rg: u16, lba: u64) -> bool
        ensures { result ≡ lies_at rg (row self.now lba) }
    {
        match self.get(lba) {
            Some(block) => block.rg == rg,
            None => false,
        }
    }
}

/// The pages among which a page is.
fn row_of(page: KeptPage) -> PageRow
    ensures { result ≡ row_of page }
{
    match page {
        KeptPage::Written { ticket, .. } => PageRow {
            is_found: false,
            number: ticket,
        },
        KeptPage::Found(spot) => PageRow {
            is_found: true,
            number: u64::from(spot.unit),
        },
    }
}

/// A place may have a block at this page.
fn name(written: &mut Index, found: &mut Index, page: KeptPage, place: u64)
    ensures written { (k v : ℕ) → Lists written.old k v → Lists written.new k v }
    ensures found { (k v : ℕ) → Lists found.old k v → Lists found.new k v }
    ensures named { Names written.new found.new page place }
{
    let row = row_of(page);
    if row.is_found {
        found.add(row.number, place);
    } else {
        written.add(row.number, place);
    }
}

/// A block more in its group.
fn count(counts: &mut [u64; 16], block: &KeptBlock)
    requires { (rg : ℕ) → rg < 16 → get_or counts.old rg 0 < 2 ^ 63 }
    ensures { (rg : ℕ) → rg < 16 → get_or counts.new rg 0 ≡ get_or counts.old rg 0 + cond (lies_at rg (Some block.now)) 1 0 }
{
    let group = usize::from(block.rg);
    if group < 16 {
        counts[group] += 1;
    }
}

/// A block less in its group, if it is one.
fn uncount(counts: &mut [u64; 16], block: Option<&KeptBlock>)
    requires { (rg : ℕ) → rg < 16 → cond (lies_at rg (option_copied block)) 1 0 ≤ get_or counts.old rg 0 }
    ensures { (rg : ℕ) → rg < 16 → get_or counts.new rg 0 + cond (lies_at rg (option_copied block.entry)) 1 0 ≡ get_or counts.old rg 0 }
{
    if let Some(block) = block {
        let group = usize::from(block.rg);
        if group < 16 {
            counts[group] -= 1;
        }
    }
}
