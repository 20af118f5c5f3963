//! The places of namespaces, and of their page lists, by identifier.

ghost use Rattle.std.specs.Prelude.{◌≡◌, ℕ, ◌==◌, ◌-◌, ◌^◌, ◌<◌, [], IsTrue, if◌then◌else◌, length, slice_set};
ghost use Rattle.std.specs.Option.{option_copied};
ghost use Rattle.fdp_image.specs.Checkpoint.{in_place, page_in_lists};
ghost use Rattle.fdp_image.specs.CheckpointRows.{is_namespace_id};
ghost use Rattle.fdp_state.specs.Made.{HasPages};
ghost use Rattle.fdp_state.specs.Owners.{with_page};
ghost use Rattle.fdp_state.specs.Parts.{IsSound, listed, reading_of, row};

use crate::owners::{claim, release};
use crate::parts::Parts;
use fdp_base::{BlockName, Sequence};
use fdp_outline::space_at;
use fdp_snapshot::{PageList, Space};
use std::alloc::Global;
use std::mem;

/// The namespace with an identifier, if there is one.
pub fn space_of(parts: &Parts, nsid: u32) -> Option<&Space>
    ensures { option_copied result ≡ in_place parts.now.outline.spaces nsid }
{
    space_at(parts.outline.summary().spaces.as_slice(), nsid)
}

/// The page list of an identifier.
pub fn list_at(lists: &[PageList], nsid: u32) -> &[Option<u32>]
    requires { length lists.now ≡ 16 }
    ensures rows { (lba : ℕ) → row result.now lba ≡ page_in_lists lists.now nsid lba }
    ensures size { length result.now ≡ listed lists.now nsid }
{
    if nsid == 0 || nsid > 16 {
        return &[];
    }
    lists[nsid as usize - 1].as_slice()
}

/// The page of a block, if it has one.
#[tactic(auto, unfolding(fdp_image::specs::Checkpoint::reading_of_state))]
pub fn page_at(parts: &Parts, nsid: u32, lba: u64) -> Option<u32>
    requires { IsSound parts.now }
    ensures { result ≡ (reading_of parts.now).pages nsid lba }
{
    match list_at(parts.pages.as_slice(), nsid).get(lba as usize) {
        Some(page) => *page,
        None => None,
    }
}

/// Takes the page list out of the place of an identifier.
#[tactic(auto, using(crate::proofs::Places::id_is))]
fn take_list(alloc: Global, lists: &mut Vec<PageList>, nsid: u32) -> Vec<Option<u32>>
    requires id { IsTrue (is_namespace_id nsid) }
    requires rows { length lists.old.items ≡ 16 }
    ensures pages { (lba : ℕ) → row result.items lba ≡ page_in_lists lists.old.items nsid lba }
    ensures size { length result.items ≡ listed lists.old.items nsid }
    ensures after { lists.new.items ≡ slice_set lists.old.items (nsid - 1) [] }
{
    mem::replace(&mut lists[nsid as usize - 1], Sequence::new(alloc)).into_vec()
}

/// Puts a page list in the place of an identifier.
#[tactic(auto, using(crate::proofs::Places::id_is))]
pub fn set_list(lists: &mut Vec<PageList>, nsid: u32, list: PageList)
    requires id { IsTrue (is_namespace_id nsid) }
    requires rows { length lists.old.items ≡ 16 }
    ensures pages { (n lba : ℕ) → page_in_lists lists.new.items n lba ≡ (if n == nsid then row list lba else page_in_lists lists.old.items n lba) }
    ensures sizes { (n : ℕ) → listed lists.new.items n ≡ (if n == nsid then length list else listed lists.old.items n) }
    ensures rows { length lists.new.items ≡ 16 }
{
    lists[nsid as usize - 1] = list;
}

/// Gives a block another page, or none.
pub fn put_page(alloc: Global, parts: &mut Parts, nsid: u32, lba: u64, page: Option<u32>)
    requires sound { IsSound parts.old }
    requires within { lba < listed parts.old.pages.items nsid }
    ensures put { HasPages parts.old parts.new (with_page (page_in_lists parts.old.pages.items) (record { nsid = nsid; lba = lba }) page) }
    ensures small { lba < 2 ^ 63 }
{
    let old = page_at(parts, nsid, lba);
    release(&mut parts.owners, old);
    claim(&mut parts.owners, BlockName { nsid, lba }, page);
    put_in(alloc, &mut parts.pages, nsid, lba, page);
}

/// Puts a page, or none, at an address of a namespace.
fn put_in(alloc: Global, lists: &mut Vec<PageList>, nsid: u32, lba: u64, page: Option<u32>)
    requires rows { length lists.old.items ≡ 16 }
    requires within { lba < listed lists.old.items nsid }
    ensures pages { (n l : ℕ) → page_in_lists lists.new.items n l ≡ with_page (page_in_lists lists.old.items) (record { nsid = nsid; lba = lba }) page n l }
    ensures sizes { (n : ℕ) → listed lists.new.items n ≡ listed lists.old.items n }
    ensures rows { length lists.new.items ≡ 16 }
    ensures small { lba < 2 ^ 63 }
{
    let mut list = take_list(alloc, lists, nsid);
    list[lba as usize] = page;
    set_list(lists, nsid, Sequence::from_vec(list));
}
