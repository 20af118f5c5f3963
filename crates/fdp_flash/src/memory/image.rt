ghost use Rattle.std.specs.Prelude.{◌≡◌, ◌+◌, ◌≤◌, ◌<◌, ◌^◌, length, slice_get, take, Some, OnOk, IfOk};
ghost use Rattle.fdp_flash.specs.Blocks.{unwritten};
ghost use Rattle.fdp_base.specs.Geometry.{IsValidGeometry, all_pages};
ghost use Rattle.fdp_flash.specs.Layout.{IsIn};
ghost use Rattle.fdp_flash.specs.Recorded.{after_call, after_erase, filled, image_by, programmed_by, replay, stopped, ArePlaced};

use crate::answer::Operation;
use crate::cell::Cell;
use crate::layout::{first_index, page_index};
use crate::memory::pages::unwritten_cell;
use crate::memory::recorded::Recorded;
use crate::memory::room::copied_cells;
use crate::plan::{Fate, Outcome};
use fdp_base::Geometry;
use std::alloc::{AllocError, Global};

/// The cells that a stop in the call of a moment leaves, from those that the flash began with.
pub fn image(
    alloc: Global,
    geometry: Geometry,
    first: &[Cell],
    calls: &[Recorded],
    moment: u64,
    outcome: Outcome,
) -> Result<Vec<Cell>, AllocError>
    requires size { length first.now ≡ all_pages geometry }
    requires valid { IsValidGeometry geometry }
    requires places { ArePlaced geometry calls.now }
    requires least { 0 < moment }
    requires most { moment ≤ length calls.now }
    ensures { IfOk result (λ cells. cells.items ≡ image_by geometry first.now calls.now moment outcome) }
{
    let mut cells = copied_cells(alloc, true, first)?;
    remake(
        geometry,
        cells.as_mut_slice(),
        calls,
        (moment - 1) as usize,
        outcome,
    )?;
    Ok(cells)
}

/// Makes of the cells that a flash began with those that a stop in the call behind these many leaves.
fn remake(
    geometry: Geometry,
    cells: &mut [Cell],
    calls: &[Recorded],
    before: usize,
    outcome: Outcome,
) -> Result<(), AllocError>
    requires size { length cells.old ≡ all_pages geometry }
    requires valid { IsValidGeometry geometry }
    requires places { ArePlaced geometry calls.now }
    requires within { before < length calls.now }
    ensures { OnOk result (cells.new ≡ stopped geometry (slice_get calls.now before) outcome (replay geometry (take before calls.now) cells.old)) }
{
    replay(geometry, cells, &calls[..before])?;
    repeat(geometry, cells, &calls[before], Fate::Fails(outcome))
}

/// Changes cells as these calls did. It takes memory for each page that becomes whole.
fn replay(geometry: Geometry, cells: &mut [Cell], calls: &[Recorded]) -> Result<(), AllocError>
    requires size { length cells.old ≡ all_pages geometry }
    requires valid { IsValidGeometry geometry }
    requires places { ArePlaced geometry calls.now }
    ensures { OnOk result (cells.new ≡ replay geometry calls.now cells.old) }
{
    for call in calls {
        repeat(geometry, cells, call, call.fate)?;
    }
    Ok(())
}

/// Changes cells as this call does with a fate.
fn repeat(
    geometry: Geometry,
    cells: &mut [Cell],
    call: &Recorded,
    fate: Fate,
) -> Result<(), AllocError>
    requires size { length cells.old ≡ all_pages geometry }
    requires valid { IsValidGeometry geometry }
    requires place { IsIn geometry call.now.at }
    ensures { OnOk result (cells.new ≡ after_call geometry call.now.operation call.now.at call.now.spare call.now.bytes fate cells.old) }
{
    match call.operation {
        Operation::Look => Ok(()),
        Operation::Fetch => Ok(()),
        Operation::Program => {
            if let Some(cell) = programmed(call, fate)? {
                cells[page_index(geometry, call.at)] = cell;
            }
            Ok(())
        }
        Operation::Erase => {
            erase(
                cells,
                first_index(geometry, call.at.unit),
                geometry.unit_pages as usize,
                fate,
            );
            Ok(())
        }
    }
}

/// What a program with this fate makes of its page, if anything.
fn programmed(call: &Recorded, fate: Fate) -> Result<Option<Cell>, AllocError>
    ensures { IfOk result (λ cell. cell ≡ programmed_by call.now.spare call.now.bytes fate) }
{
    match fate {
        Fate::Done => Ok(Some(whole(call)?)),
        Fate::Fails(Outcome::Whole) => Ok(Some(whole(call)?)),
        Fate::Fails(Outcome::Blank) => Ok(Some(Cell::Blank)),
        Fate::Fails(Outcome::Torn) => Ok(Some(Cell::Torn)),
        Fate::Refused => Ok(None),
    }
}

fn whole(call: &Recorded) -> Result<Cell, AllocError>
    ensures { IfOk result (λ cell. cell ≡ Cell.Whole call.now.spare call.now.bytes) }
{
    Ok(Cell::Whole {
        spare: call.spare,
        bytes: call.bytes.clone()?,
    })
}

fn erase(cells: &mut [Cell], first: usize, count: usize, fate: Fate)
    requires { first + count ≤ length cells.old }
    ensures { cells.new ≡ after_erase first count fate cells.old }
{
    match fate {
        Fate::Done => fill(cells, first, count, false),
        Fate::Fails(Outcome::Blank) => fill(cells, first, count, false),
        Fate::Fails(Outcome::Torn) => fill(cells, first, count, true),
        Fate::Fails(Outcome::Whole) => {}
        Fate::Refused => {}
    }
}

fn fill(cells: &mut [Cell], first: usize, count: usize, torn: bool)
    requires { first + count ≤ length cells.old }
    ensures { cells.new ≡ filled first count (unwritten torn) cells.old }
{
    for i in 0..count {
        cells[first + i] = unwritten_cell(torn);
    }
}
