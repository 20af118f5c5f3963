ghost use Rattle.fdp_base.specs.Numbers.{numbers_below};
ghost use Rattle.fdp_plain_answers.specs.Keeping.{kept_of};
ghost use Rattle.fdp_rules.specs.Events.{is_of_handle, reallocated, told_moved};
ghost use Rattle.fdp_rules.specs.Room.{handles_in_force};
ghost use Rattle.fdp_tables.specs.State.{plain_of};
ghost use Rattle.std.specs.Prelude.{◌≡◌, ◌++◌, ◌∷◌, [], List, length, filter, flat_map, if◌then◌else◌, IfOk, OnOk};

use crate::kept_events::keep;
use fdp_base::{BlockName, Event, EventFlags, EventKind};
use fdp_tables::Standing;
use std::alloc::{AllocError, Global};

/// How many blocks were moved, as an event tells it.
fn told_moved(count: usize) -> u16
    ensures { result ≡ told_moved count }
{
    if count < 0x10000 {
        count as u16
    } else {
        u16::MAX
    }
}

/// The events of a move that are kept: for each handle that tells of its moved blocks. It looks at each block for each
/// handle.
pub(crate) fn push_reallocations(
    kept: &Standing,
    alloc: Global,
    rg: u16,
    blocks: &[BlockName],
    into: &mut Vec<Event>,
) -> Result<(), AllocError>
    ensures { OnOk result (into.new.items ≡ into.old.items ++ kept_of (plain_of kept.now) (flat_map (λ ruh. reallocated (plain_of kept.now) rg ruh (filter (is_of_handle (plain_of kept.now) ruh) blocks.now)) (numbers_below (handles_in_force kept.now.config (plain_of kept.now))))) }
{
    for ruh in 0..kept.handles_in_force() {
        push_reallocation(kept, alloc, rg, ruh, blocks, into)?;
    }
    Ok(())
}

/// The event of the moved blocks of a handle, if there are any and it is kept.
fn push_reallocation(
    kept: &Standing,
    alloc: Global,
    rg: u16,
    ruh: u8,
    blocks: &[BlockName],
    into: &mut Vec<Event>,
) -> Result<(), AllocError>
    ensures { OnOk result (into.new.items ≡ into.old.items ++ kept_of (plain_of kept.now) (reallocated (plain_of kept.now) rg ruh (filter (is_of_handle (plain_of kept.now) ruh) blocks.now))) }
{
    let moved = blocks_of_handle(kept, alloc, ruh, blocks)?;
    match moved.as_slice().first() {
        Some(first) => {
            let count = told_moved(moved.len());
            keep(kept, reallocated(kept, rg, ruh, *first, count), into)
        }
        None => Ok(()),
    }
}

/// Blocks of a handle were moved: how many, and the first of them.
fn reallocated(kept: &Standing, rg: u16, ruh: u8, first: BlockName, moved: u16) -> Event
    ensures { (rest : List BlockName) → moved ≡ told_moved (length (first ∷ rest)) → result ∷ [] ≡ reallocated (plain_of kept.now) rg ruh (first ∷ rest) }
{
    Event {
        kind: EventKind::MediaReallocated,
        flags: EventFlags {
            pid_valid: false,
            nsid_valid: true,
            location_valid: true,
        },
        pid: 0,
        position: kept.next_position(),
        nsid: first.nsid,
        moved,
        lba: first.lba,
        rg,
        ruh,
    }
}

/// Those of these blocks that were placed by a handle.
fn blocks_of_handle(
    kept: &Standing,
    alloc: Global,
    ruh: u8,
    blocks: &[BlockName],
) -> Result<Vec<BlockName>, AllocError>
    ensures { IfOk result (λ chosen. chosen.items ≡ filter (is_of_handle (plain_of kept.now) ruh) blocks.now) }
{
    let mut chosen = Vec::new(alloc);
    for block in blocks {
        choose_block(kept, ruh, *block, &mut chosen)?;
    }
    Ok(chosen)
}

fn choose_block(
    kept: &Standing,
    ruh: u8,
    block: BlockName,
    chosen: &mut Vec<BlockName>,
) -> Result<(), AllocError>
    ensures { OnOk result (chosen.new.items ≡ chosen.old.items ++ (if is_of_handle (plain_of kept.now) ruh block then block ∷ [] else [])) }
{
    if is_of_handle(kept, ruh, block) {
        chosen.push(block)?;
    }
    Ok(())
}

/// Whether a block was placed by a handle.
fn is_of_handle(kept: &Standing, ruh: u8, block: BlockName) -> bool
    ensures { result ≡ is_of_handle (plain_of kept.now) ruh block }
{
    match kept.block(block.nsid, block.lba) {
        Some(kept) => kept.ruh == ruh,
        None => false,
    }
}
