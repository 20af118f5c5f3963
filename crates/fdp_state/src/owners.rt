//! The way back from pages to blocks: which block stands on a data page.

ghost use Rattle.std.specs.Prelude.{◌≡◌, None, Some, IfOk};
ghost use Rattle.fdp_base.specs.declared.entry.BlockName.{BlockName as Block};
ghost use Rattle.fdp_state.specs.Owners.{AreOwners, Pages as PagesOf, claimed, released, with_page};

use fdp_base::BlockName;
use std::alloc::{AllocError, Global};

/// What is known of the blocks that stand on a page.
#[derive(Clone, Copy, Debug, PartialEq, Eq)]
pub enum Owner {
    /// No block does.
    Free,
    /// This one does, and no other.
    Held(BlockName),
    /// Two blocks did at a time: no drive leaves such an image.
    Shared,
}

/// A table of so many pages, on which no block stands.
pub fn free_pages(alloc: Global, count: u32) -> Result<Vec<Owner>, AllocError>
    ensures { IfOk result (λ v. AreOwners (λ nsid lba. None) v.items) }
{
    let mut owners = Vec::new(alloc);
    for page in 0..count {
        let _page = page; // proof
        owners.push(Owner::Free)?;
    }
    Ok(owners)
}

/// A block that stood nowhere stands on this page, or still nowhere.
pub fn claim(owners: &mut Vec<Owner>, block: BlockName, page: Option<u32>)
    ensures { (pages : PagesOf) → AreOwners pages owners.old.items → pages block.nsid block.lba ≡ None → AreOwners (with_page pages block page) owners.new.items }
{
    match page {
        Some(page) => claim_page(owners, block, page),
        None => {}
    }
}

fn claim_page(owners: &mut Vec<Owner>, block: BlockName, page: u32)
    ensures { (pages : PagesOf) → AreOwners pages owners.old.items → pages block.nsid block.lba ≡ None → AreOwners (with_page pages block (Some page)) owners.new.items }
{
    let at = page as usize;
    if at < owners.len() {
        owners[at] = claimed(owners[at], block);
    }
}

fn claimed(owner: Owner, block: BlockName) -> Owner
    ensures { result ≡ claimed owner block }
{
    match owner {
        Owner::Free => Owner::Held(block),
        Owner::Held(_) => Owner::Shared,
        Owner::Shared => Owner::Shared,
    }
}

/// The block that stood on this page, or nowhere, stands nowhere.
pub fn release(owners: &mut Vec<Owner>, page: Option<u32>)
    ensures { (pages : PagesOf) (block : Block) → AreOwners pages owners.old.items → pages block.nsid block.lba ≡ page → AreOwners (with_page pages block None) owners.new.items }
{
    match page {
        Some(page) => release_page(owners, page),
        None => {}
    }
}

fn release_page(owners: &mut Vec<Owner>, page: u32)
    ensures { (pages : PagesOf) (block : Block) → AreOwners pages owners.old.items → pages block.nsid block.lba ≡ Some page → AreOwners (with_page pages block None) owners.new.items }
{
    let at = page as usize;
    if at < owners.len() {
        owners[at] = released(owners[at]);
    }
}

fn released(owner: Owner) -> Owner
    ensures { result ≡ released owner }
{
    match owner {
        Owner::Free => Owner::Free,
        Owner::Held(_) => Owner::Free,
        Owner::Shared => Owner::Shared,
    }
}
