//! The pages of the blocks of each namespace, by number.

ghost use Rattle.std.specs.Prelude.{◌≡◌, ℕ, ◌+◌, ◌-◌, ◌<◌, ◌≤◌, [], None, length, replicate, IfOk, slice_get, slice_index_or, option_map, slice_set};
ghost use Rattle.std.specs.Option.{option_flatten};
ghost use Rattle.fdp_base.specs.Geometry.{IsWithin};
ghost use Rattle.fdp_map.specs.MapTable.{IsCut, is_mapped_in, stored_in_row};
ghost use Rattle.fdp_map.specs.PageLists.{placed_on, places_of};

use fdp_base::{Geometry, Sequence};
use std::alloc::{AllocError, Global};
use std::mem;

/// The number of the page of each block of a namespace, by address.
pub type PageList = Sequence<Option<u32>>;

/// Sixteen lists without a block.
#[tactic(auto, using(std::proofs::lemmas::List::replicate_more))]
pub fn empty_lists(alloc: Global) -> Result<Vec<PageList>, AllocError>
    ensures { IfOk result (λ lists. lists.items ≡ replicate 16 []) }
{
    let mut lists = Vec::new(alloc);
    for _ in 0..16u32 {
        lists.push(Sequence::new(alloc))?;
    }
    Ok(lists)
}

/// So many blocks without a page. It takes the memory of their page numbers.
#[tactic(auto, using(std::proofs::lemmas::List::replicate_more))]
pub fn vacant_list(alloc: Global, size: u64) -> Result<PageList, AllocError>
    ensures { IfOk result (λ list. list ≡ replicate size None) }
{
    let mut pages = Vec::new(alloc);
    for _ in 0..size {
        pages.push(None)?;
    }
    Ok(Sequence::from_vec(pages))
}

/// The page of a block, if it has one.
pub fn page_in(list: &[Option<u32>], lba: u64) -> Option<u32>
    ensures { result ≡ option_flatten (slice_get list.now lba) }
{
    match list.get(lba as usize) {
        Some(Some(page)) => Some(*page),
        Some(None) => None,
        None => None,
    }
}

/// Gives a block another page, or none, and tells the one that it had.
pub fn set_page(lists: &mut Vec<PageList>, nsid: u32, lba: u64, page: Option<u32>) -> Option<u32>
    requires nsid { IsWithin 1 (length lists.old.items) nsid }
    requires lba { lba < length (slice_index_or lists.old.items (nsid - 1) []) }
    ensures before { result ≡ option_flatten (slice_get (slice_index_or lists.old.items (nsid - 1) []) lba) }
    ensures after { lists.new.items ≡ slice_set lists.old.items (nsid - 1) (slice_set (slice_index_or lists.old.items (nsid - 1) []) lba page) }
{
    let alloc = *lists.allocator();
    let list = &mut lists[nsid as usize - 1];
    let mut pages = mem::replace(list, Sequence::new(alloc)).into_vec();
    let before = pages[lba as usize];
    pages[lba as usize] = page;
    *list = Sequence::from_vec(pages);
    before
}

/// How many of `count` addresses from `slba` on hold a block of a group.
pub fn stored_among(geometry: Geometry, list: &[Option<u32>], rg: u16, slba: u64, count: u32) -> u64
    requires cut { IsCut geometry }
    requires range { slba + count ≤ length list.now }
    requires size { length list.now ≤ 262144 }
    ensures { result ≡ stored_in_row (places_of geometry list.now) rg slba count }
{
    let mut stored = 0;
    for i in 0..u64::from(count) {
        stored += u64::from(is_in(geometry, page_in(list, slba + i), rg));
    }
    stored
}

/// Whether a page, if there is one, lies in a group.
fn is_in(geometry: Geometry, page: Option<u32>, rg: u16) -> bool
    requires { IsCut geometry }
    ensures { result ≡ is_mapped_in rg (option_map (placed_on geometry) page) }
{
    match page {
        Some(page) => page / geometry.unit_pages / geometry.units == u32::from(rg),
        None => false,
    }
}
