//! The blocks on the pages that a relocation moved.

ghost use Rattle.std.specs.Prelude.{◌≡◌, ◌==◌, ◌++◌, ◌∷◌, [], false, OnOk, flat_map, if◌then◌else◌, map};
ghost use Rattle.std.specs.Option.{option_map_or};
ghost use Rattle.fdp_base.specs.declared.entry.BlockName.{BlockName as Block};
ghost use Rattle.fdp_image.specs.Reading.{blocks_in, blocks_on};
ghost use Rattle.fdp_state.specs.Owners.{IsOwner, moved_blocks};
ghost use Rattle.fdp_state.specs.Parts.{IsSound, reading_of};

use crate::fits::size_of;
use crate::owners::Owner;
use crate::parts::Parts;
use crate::rows::page_at;
use fdp_base::BlockName;
use fdp_commands::NAMESPACE_IDS;
use std::alloc::{AllocError, Global};

/// Pushes the blocks on the moved pages with their new pages, those of the first page last.
#[tactic(auto, unfolding(crate::specs::Owners::moved_blocks))]
pub fn push_moved_blocks(
    alloc: Global,
    moved: &mut Vec<(BlockName, u32)>,
    parts: &Parts,
    moves: &[(u32, u32)],
) -> Result<(), AllocError>
    requires { IsSound parts.now }
    ensures { OnOk result (moved.new.items ≡ moved.old.items ++ moved_blocks (reading_of parts.now) moves.now) }
{
    match moves.split_first() {
        Some((x, rest)) => {
            push_moved_blocks(alloc, moved, parts, rest)?;
            push_blocks_of(alloc, moved, parts, x.0, x.1)
        }
        None => Ok(()),
    }
}

/// Pushes the blocks on a page with their new page.
fn push_blocks_of(
    alloc: Global,
    moved: &mut Vec<(BlockName, u32)>,
    parts: &Parts,
    from: u32,
    to: u32,
) -> Result<(), AllocError>
    requires { IsSound parts.now }
    ensures { OnOk result (moved.new.items ≡ moved.old.items ++ map (λ (b : Block). (b, to)) (blocks_on (reading_of parts.now) from)) }
{
    let mut blocks = Vec::new(alloc);
    push_blocks(&mut blocks, parts, from)?;
    push_with(moved, blocks.as_slice(), to)
}

/// Pushes blocks with a page.
fn push_with(
    moved: &mut Vec<(BlockName, u32)>,
    blocks: &[BlockName],
    to: u32,
) -> Result<(), AllocError>
    ensures { OnOk result (moved.new.items ≡ moved.old.items ++ map (λ (b : Block). (b, to)) blocks.now) }
{
    for block in blocks {
        moved.push((*block, to))?;
    }
    Ok(())
}

/// Pushes the blocks on a page. It looks for them only where two stood on it at a time.
#[tactic(auto, using(crate::proofs::Moving::blocks_are))]
pub fn push_blocks(blocks: &mut Vec<BlockName>, parts: &Parts, page: u32) -> Result<(), AllocError>
    requires { IsSound parts.now }
    ensures { OnOk result (blocks.new.items ≡ blocks.old.items ++ blocks_on (reading_of parts.now) page) }
{
    match owner_of(parts, page) {
        Owner::Free => Ok(()),
        Owner::Held(block) => {
            blocks.push(block)?;
            Ok(())
        }
        Owner::Shared => push_blocks_on(blocks, parts, page, &NAMESPACE_IDS),
    }
}

/// What is known of the blocks on a page.
#[tactic(auto, unfolding(fdp_image::specs::Checkpoint::reading_of_state))]
fn owner_of(parts: &Parts, page: u32) -> Owner
    requires { IsSound parts.now }
    ensures { IsOwner ((reading_of parts.now).pages) page result }
{
    match parts.owners.get(page as usize) {
        Some(owner) => *owner,
        None => Owner::Shared,
    }
}

/// Pushes the blocks of some namespaces that have a page.
fn push_blocks_on(
    blocks: &mut Vec<BlockName>,
    parts: &Parts,
    page: u32,
    ids: &[u32],
) -> Result<(), AllocError>
    requires sound { IsSound parts.now }
    ensures { OnOk result (blocks.new.items ≡ blocks.old.items ++ flat_map (blocks_in (reading_of parts.now) page) ids.now) }
{
    match ids.split_first() {
        Some((nsid, ids)) => {
            push_blocks_in(blocks, parts, page, *nsid)?;
            push_blocks_on(blocks, parts, page, ids)
        }
        None => Ok(()),
    }
}

/// Pushes the blocks of a namespace that have a page.
fn push_blocks_in(
    blocks: &mut Vec<BlockName>,
    parts: &Parts,
    page: u32,
    nsid: u32,
) -> Result<(), AllocError>
    requires sound { IsSound parts.now }
    ensures { OnOk result (blocks.new.items ≡ blocks.old.items ++ blocks_in (reading_of parts.now) page nsid) }
{
    let size = size_of(parts, nsid);
    for lba in 0..size {
        push_if_there(blocks, page_at(parts, nsid, lba), page, nsid, lba)?;
    }
    Ok(())
}

/// Pushes a block whose page this is.
fn push_if_there(
    blocks: &mut Vec<BlockName>,
    entry: Option<u32>,
    page: u32,
    nsid: u32,
    lba: u64,
) -> Result<(), AllocError>
    ensures { OnOk result (blocks.new.items ≡ blocks.old.items ++ (if option_map_or (λ x. x == page) entry false then record { nsid = nsid; lba = lba } ∷ [] else [])) }
{
    if is_page(entry, page) {
        blocks.push(BlockName { nsid, lba })?;
    }
    Ok(())
}

fn is_page(entry: Option<u32>, page: u32) -> bool
    ensures { result ≡ option_map_or (λ x. x == page) entry false }
{
    match entry {
        Some(x) => x == page,
        None => false,
    }
}
