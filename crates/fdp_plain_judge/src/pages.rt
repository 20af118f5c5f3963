ghost use Rattle.fdp_base.specs.Geometry.{IsWithin};
ghost use Rattle.fdp_plain_judge.specs.Judging.{EachIn, IsEmptyUnit, IsFreeOf, IsNextBlock, IsNextIn, IsNextOf, IsNextSpot, IsOutside};
ghost use Rattle.fdp_rules.specs.Sites.{group_of, is_there};
ghost use Rattle.fdp_rules.specs.Step.{IsAside, IsCopied, IsDataUnit, IsErasable, IsHandle, IsNextPage, IsPage, IsPlaced, IsUnreferenced};
ghost use Rattle.fdp_tables.specs.State.{going_of, plain_of, point_kept};
ghost use Rattle.std.specs.Prelude.{◌≡◌, ◌≢◌, ℕ, ◌+◌, ◌*◌, ◌<◌, Decides, IfOk, Some};

use fdp_base::Spot;
use fdp_tables::{KeptGoing, KeptReference, Standing};
use std::alloc::{AllocError, Global};

/// Whether no handle references a unit. It looks at each handle of each group.
fn is_unreferenced(kept: &Standing, unit: u32) -> bool
    ensures { Decides result (IsUnreferenced (plain_of kept.now) unit) }
{
    for reference in kept.references() {
        if !is_free_of(reference, unit) {
            return false;
        }
    }
    true
}

/// Whether no block stands in a unit. It looks at the blocks that may stand there.
fn is_empty(kept: &Standing, alloc: Global, unit: u32) -> Result<bool, AllocError>
    ensures { IfOk result (λ answer. Decides answer (IsEmptyUnit (point_kept kept.now) unit)) }
{
    for nsid in 0..kept.spaces().len() {
        if !has_none_in(kept, alloc, nsid as u32, unit)? {
            return Ok(false);
        }
    }
    Ok(true)
}

/// Whether no block of a namespace stands in a unit.
fn has_none_in(kept: &Standing, alloc: Global, nsid: u32, unit: u32) -> Result<bool, AllocError>
    ensures { IfOk result (λ answer. Decides answer ((lba : ℕ) → IsOutside (point_kept kept.now) unit nsid lba)) }
{
    let places = kept.places_in(alloc, nsid, unit)?;
    Ok(are_outside(kept, nsid, unit, &places))
}

fn are_outside(kept: &Standing, nsid: u32, unit: u32, places: &[u64]) -> bool
    ensures { Decides result (EachIn (IsOutside (point_kept kept.now) unit nsid) places.now) }
{
    for lba in places {
        if !is_outside(kept, nsid, *lba, unit) {
            return false;
        }
    }
    true
}

/// Whether a block does not stand in a unit.
fn is_outside(kept: &Standing, nsid: u32, lba: u64, unit: u32) -> bool
    ensures { Decides result (IsOutside (point_kept kept.now) unit nsid lba) }
{
    match kept.site_of(nsid, lba) {
        Some(spot) => spot.unit != unit,
        None => true,
    }
}

/// Whether a unit may be erased. It looks at the blocks that may stand there.
pub(crate) fn is_erasable(kept: &Standing, alloc: Global, unit: u32) -> Result<bool, AllocError>
    ensures { IfOk result (λ answer. Decides answer (IsErasable kept.now.config (point_kept kept.now) unit)) }
{
    if is_data_unit(kept, unit) && is_unreferenced(kept, unit) && !kept.is_lost(unit as usize) {
        is_empty(kept, alloc, unit)
    } else {
        Ok(false)
    }
}

/// Whether a unit may be set aside.
pub(crate) fn is_aside(kept: &Standing, unit: u32) -> bool
    ensures { Decides result (IsAside kept.now.config (point_kept kept.now) unit) }
{
    is_data_unit(kept, unit) && is_unreferenced(kept, unit)
}

/// Whether there is this handle in this group.
pub(crate) fn is_handle(kept: &Standing, rg: u16, ruh: u8) -> bool
    ensures { Decides result (IsHandle kept.now.config (point_kept kept.now) rg ruh) }
{
    rg < kept.config().groups && ruh < kept.handles_in_force()
}

/// Whether a page may be copied to another.
pub(crate) fn is_copied(kept: &Standing, old: Spot, new: Spot) -> bool
    ensures { Decides result (IsCopied kept.now.config (point_kept kept.now) old new) }
{
    is_page(kept, old)
        && is_page(kept, new)
        && are_apart(kept, old.unit, new.unit)
        && are_unreferenced(kept, old.unit, new.unit)
}

/// Whether two units of one group are not the same.
fn are_apart(kept: &Standing, a: u32, b: u32) -> bool
    ensures { Decides result ((a ≢ b) × (group_of kept.now.config a ≡ group_of kept.now.config b)) }
{
    a != b && a / kept.config().units == b / kept.config().units
}

fn are_unreferenced(kept: &Standing, a: u32, b: u32) -> bool
    ensures { Decides result (IsUnreferenced (plain_of kept.now) a × IsUnreferenced (plain_of kept.now) b) }
{
    is_unreferenced(kept, a) && is_unreferenced(kept, b)
}

/// Whether a page was programmed as the next one of the going write with this ticket.
pub(crate) fn is_placed(kept: &Standing, ticket: u64, index: u32, at: Spot) -> bool
    ensures { Decides result (IsPlaced kept.now.config (point_kept kept.now) ticket index at.unit at.page) }
{
    is_page(kept, at) && is_next_of_a_write(kept, ticket, index, at)
}

fn is_next_of_a_write(kept: &Standing, ticket: u64, index: u32, at: Spot) -> bool
    ensures { Decides result ((queue : ℕ) × IsWithin 1 kept.now.config.queues queue × IsNextIn kept.now ticket index at queue) }
{
    for queue in 1..kept.config().queues + 1 {
        if is_next_in(kept, queue, ticket, index, at) {
            return true;
        }
    }
    false
}

fn is_next_in(kept: &Standing, queue: u8, ticket: u64, index: u32, at: Spot) -> bool
    ensures { Decides result (IsNextIn kept.now ticket index at queue) }
{
    match kept.going_in(queue) {
        Some(going) => is_next_of(kept, going, ticket, index, at),
        None => false,
    }
}

fn is_next_of(kept: &Standing, going: &KeptGoing, ticket: u64, index: u32, at: Spot) -> bool
    ensures { Decides result (IsNextOf kept.now ticket index at (going_of going.now)) }
{
    going.ticket == ticket
        && kept.is_there(going)
        && is_next_block(going, index)
        && is_next_spot(kept, going, at)
}

/// Whether a page is the next one of the handle of a going write, and not lost.
fn is_next_spot(kept: &Standing, going: &KeptGoing, at: Spot) -> bool
    ensures { Decides result (IsNextSpot kept.now at (going_of going.now)) }
{
    at.unit / kept.config().units == u32::from(going.rg)
        && !kept.is_lost(at.unit as usize)
        && is_next_page(kept, going.rg, going.ruh, at)
}

/// Whether a page is the next one of a handle in a group.
fn is_next_page(kept: &Standing, rg: u16, ruh: u8, at: Spot) -> bool
    ensures { Decides result (IsNextPage kept.now.config (plain_of kept.now) ((plain_of kept.now).references rg ruh) at.unit at.page) }
{
    let reference = kept.reference(rg, u16::from(ruh));
    match reference.unit {
        None => is_unreferenced(kept, at.unit) && at.page == 0,
        Some(unit) => {
            at.unit == unit
                && u64::from(at.page) + u64::from(reference.left)
                    == u64::from(kept.config().unit_pages)
        }
    }
}

/// Whether there is this page.
fn is_page(kept: &Standing, at: Spot) -> bool
    ensures { Decides result (IsPage kept.now.config at) }
{
    is_data_unit(kept, at.unit) && at.page < kept.config().unit_pages
}

/// Whether a unit holds data.
fn is_data_unit(kept: &Standing, unit: u32) -> bool
    ensures { Decides result (IsDataUnit kept.now.config unit) }
{
    unit < u32::from(kept.config().groups) * kept.config().units
}

/// Whether a block is the next one of a going write.
fn is_next_block(going: &KeptGoing, index: u32) -> bool
    ensures { Decides result (IsNextBlock index (going_of going.now)) }
{
    index == going.placed && index < going.command.blocks_written()
}

/// Whether a handle does not reference a unit.
fn is_free_of(reference: &KeptReference, unit: u32) -> bool
    ensures { Decides result (IsFreeOf unit reference.now) }
{
    match reference.unit {
        Some(referenced) => referenced != unit,
        None => true,
    }
}
