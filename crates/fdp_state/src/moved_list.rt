//! The blocks that a change moves, with their handles.

ghost use Rattle.std.specs.Prelude.{◌≡◌, ◌<◌, ◌++◌, ℕ, IfOk, OnOk, flat_map, true, zip};
ghost use Rattle.fdp_base.specs.Config.{IsInRange};
ghost use Rattle.fdp_base.specs.Geometry.{data_units};
ghost use Rattle.fdp_base.specs.Placement.{geometry_of};
ghost use Rattle.fdp_image.specs.ChangeEvents.{moved_of_handle};
ghost use Rattle.fdp_image.specs.Fits.{names_what_is};
ghost use Rattle.fdp_image.specs.Reading.{blocks_on};
ghost use Rattle.fdp_outline.specs.Events.{ListsMoved, names_of_handle};
ghost use Rattle.fdp_state.specs.Owners.{with_handle};
ghost use Rattle.fdp_state.specs.Parts.{IsSound, reading_of};

use crate::moved_blocks::push_blocks;
use crate::moves::page_numbers;
use crate::parts::Parts;
use fdp_base::{BlockName, DriveConfig};
use fdp_outline::MovedBlock;
use fdp_records::{Change, UnitPages};
use std::alloc::{AllocError, Global};

/// The blocks that a change moves, each with the handle that it was placed by: none but those of a relocation.
pub fn list_moved(
    alloc: Global,
    config: &DriveConfig,
    parts: &Parts,
    change: &Change,
) -> Result<Vec<MovedBlock>, AllocError>
    requires config { IsInRange config.now }
    requires sound { IsSound parts.now }
    requires fit { names_what_is config.now (reading_of parts.now) change.now ≡ true }
    ensures { IfOk result (λ v. ListsMoved config.now (reading_of parts.now) change.now v.items) }
{
    match change {
        Change::Write {
            nsid: _,
            slba: _,
            pid: _,
            pid_invalid: _,
            pages: _,
        } => Ok(Vec::new(alloc)),
        Change::Clear { nsid: _, ranges: _ } => Ok(Vec::new(alloc)),
        Change::Update {
            nsid: _,
            closed: _,
            pids: _,
        } => Ok(Vec::new(alloc)),
        Change::Create {
            nsid: _,
            size: _,
            given: _,
            handles: _,
        } => Ok(Vec::new(alloc)),
        Change::Delete { nsid: _ } => Ok(Vec::new(alloc)),
        Change::SetFdp {
            enabled: _,
            index: _,
            generation: _,
        } => Ok(Vec::new(alloc)),
        Change::SetEvents {
            ruh: _,
            on: _,
            mask: _,
        } => Ok(Vec::new(alloc)),
        Change::Moved {
            victim,
            first: _,
            second: _,
            handles,
        } => blocks_of_unit(alloc, config, parts, victim, handles.as_slice()),
        Change::Shut { rg: _, ruh: _ } => Ok(Vec::new(alloc)),
    }
}

/// The blocks on some pages of a data unit, each with the handle of its page.
fn blocks_of_unit(
    alloc: Global,
    config: &DriveConfig,
    parts: &Parts,
    victim: &UnitPages,
    handles: &[u8],
) -> Result<Vec<MovedBlock>, AllocError>
    requires config { IsInRange config.now }
    requires sound { IsSound parts.now }
    requires unit { victim.now.unit < data_units (geometry_of config.now) }
    ensures { IfOk result (λ v. (ruh : ℕ) → names_of_handle v.items ruh ≡ moved_of_handle config.now (reading_of parts.now) victim.now handles.now ruh) }
{
    let numbers = page_numbers(alloc, config, victim)?;
    let mut moved = Vec::new(alloc);
    push_pages(alloc, &mut moved, parts, numbers.as_slice(), handles)?;
    Ok(moved)
}

/// Pushes the blocks on some pages, each with the handle of its page.
fn push_pages(
    alloc: Global,
    moved: &mut Vec<MovedBlock>,
    parts: &Parts,
    numbers: &[u32],
    handles: &[u8],
) -> Result<(), AllocError>
    requires sound { IsSound parts.now }
    ensures { OnOk result (moved.new.items ≡ moved.old.items ++ flat_map (λ (x : ℕ × ℕ). with_handle x.1 (blocks_on (reading_of parts.now) x.0)) (zip numbers.now handles.now)) }
{
    match numbers.split_first() {
        Some((number, numbers)) => match handles.split_first() {
            Some((handle, handles)) => {
                push_page(alloc, moved, parts, *number, *handle)?;
                push_pages(alloc, moved, parts, numbers, handles)
            }
            None => Ok(()),
        },
        None => Ok(()),
    }
}

/// Pushes the blocks on a page with a handle.
fn push_page(
    alloc: Global,
    moved: &mut Vec<MovedBlock>,
    parts: &Parts,
    number: u32,
    handle: u8,
) -> Result<(), AllocError>
    requires sound { IsSound parts.now }
    ensures { OnOk result (moved.new.items ≡ moved.old.items ++ with_handle handle (blocks_on (reading_of parts.now) number)) }
{
    let mut blocks = Vec::new(alloc);
    push_blocks(&mut blocks, parts, number)?;
    push_with_handle(moved, blocks.as_slice(), handle)
}

/// Pushes blocks with a handle.
fn push_with_handle(
    moved: &mut Vec<MovedBlock>,
    blocks: &[BlockName],
    handle: u8,
) -> Result<(), AllocError>
    ensures { OnOk result (moved.new.items ≡ moved.old.items ++ with_handle handle blocks.now) }
{
    for block in blocks {
        moved.push(MovedBlock {
            name: *block,
            ruh: handle,
        })?;
    }
    Ok(())
}
