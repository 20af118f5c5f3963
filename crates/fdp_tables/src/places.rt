//! Where the blocks of a unit are looked for.

ghost use Rattle.std.specs.Prelude.{◌≡◌, ℕ, ◌<◌, IfOk, IsTrue, OnOk};
ghost use Rattle.std.specs.Option.{IsSomeAnd};
ghost use Rattle.fdp_rules.specs.Sites.{site_of};
ghost use Rattle.fdp_tables.specs.Blocks.{ListsPlaces, index_of, row_of};
ghost use Rattle.fdp_tables.specs.Index.{is_listed};
ghost use Rattle.fdp_tables.specs.PageSites.{site_in};
ghost use Rattle.fdp_tables.specs.State.{page_of, point_kept, table_site};

use crate::blocks::{Blocks, PageRow};
use crate::page_sites::PageSites;
use crate::standing::Standing;
use crate::state::Kept;
use std::alloc::{AllocError, Global};

impl Standing<'_> {
    /// The addresses of all blocks of a namespace that stand in a unit, and perhaps of others, in no order. It looks at the blocks of
    /// the writes of which a page stands there, and at all only where memory was wanting for their lists.
    pub fn places_in(&self, alloc: Global, nsid: u32, unit: u32) -> Result<Vec<u64>, AllocError>
        ensures { IfOk result (λ places. (lba : ℕ) → IsSomeAnd (site_of (point_kept self.now) nsid lba) (λ spot. spot.unit ≡ unit) → IsTrue (is_listed lba places.items)) }
    {
        match self.space(nsid) {
            Some(space) => places_in(self.kept, alloc, &space.blocks, unit),
            None => Ok(Vec::new(alloc)),
        }
    }
}

/// The places of all blocks that stand in a unit, and perhaps others.
fn places_in(kept: &Kept, alloc: Global, blocks: &Blocks, unit: u32) -> Result<Vec<u64>, AllocError>
    ensures { IfOk result (λ places. ListsPlaces blocks.now (λ page. IsSomeAnd (table_site kept.now (page_of page)) (λ spot. spot.unit ≡ unit)) places.items) }
{
    let mut places = Vec::new(alloc);
    if push_standing(blocks, false, &kept.sites, unit, &mut places)?
        && push_standing(blocks, true, &kept.found, unit, &mut places)?
    {
        Ok(places)
    } else {
        all_places(alloc, blocks.len())
    }
}

/// Appends the places of all blocks at pages of one kind, written or found, that stand in a unit, and perhaps others. It answers
/// whether they are known.
fn push_standing(
    blocks: &Blocks,
    is_found: bool,
    sites: &PageSites,
    unit: u32,
    into: &mut Vec<u64>,
) -> Result<bool, AllocError>
    ensures kept { OnOk result ((v : ℕ) → IsTrue (is_listed v into.old.items) → IsTrue (is_listed v into.new.items)) }
    ensures listed { IfOk result (λ known. IsTrue known → ListsPlaces blocks.now (λ page. ((row_of page).is_found ≡ is_found) × IsSomeAnd (site_in sites.now.rows (row_of page).number (index_of page)) (λ spot. spot.unit ≡ unit)) into.new.items) }
{
    match sites.tickets_in(unit) {
        Some(numbers) => push_rows(blocks, is_found, numbers, into),
        None => Ok(false),
    }
}

/// Appends the places of all blocks at the pages of these writes, or those that were found in these units.
fn push_rows(
    blocks: &Blocks,
    is_found: bool,
    numbers: &[u64],
    into: &mut Vec<u64>,
) -> Result<bool, AllocError>
    ensures kept { OnOk result ((v : ℕ) → IsTrue (is_listed v into.old.items) → IsTrue (is_listed v into.new.items)) }
    ensures listed { IfOk result (λ known. IsTrue known → ListsPlaces blocks.now (λ page. ((row_of page).is_found ≡ is_found) × IsTrue (is_listed (row_of page).number numbers.now)) into.new.items) }
{
    for number in numbers {
        let row = PageRow {
            is_found,
            number: *number,
        };
        if !push_row(blocks, row, into)? {
            return Ok(false);
        }
    }
    Ok(true)
}

/// Appends the places of all blocks at these pages, and perhaps others.
fn push_row(blocks: &Blocks, row: PageRow, into: &mut Vec<u64>) -> Result<bool, AllocError>
    ensures kept { OnOk result ((v : ℕ) → IsTrue (is_listed v into.old.items) → IsTrue (is_listed v into.new.items)) }
    ensures listed { IfOk result (λ known. IsTrue known → ListsPlaces blocks.now (λ page. row_of page ≡ row) into.new.items) }
{
    match blocks.places_at(row) {
        Some(places) => {
            into.extend_from_slice(places)?;
            Ok(true)
        }
        None => Ok(false),
    }
}

/// So many places.
fn all_places(alloc: Global, count: usize) -> Result<Vec<u64>, AllocError>
    ensures { IfOk result (λ places. (place : ℕ) → place < count → IsTrue (is_listed place places.items)) }
{
    let mut places = Vec::new(alloc);
    for place in 0..count {
        places.push(place as u64)?;
    }
    Ok(places)
}
