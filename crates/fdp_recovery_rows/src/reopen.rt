ghost use Rattle.std.specs.Prelude.{◌≤◌};
ghost use Rattle.fdp_snapshot.specs.Checkpoint.{IsState};

use crate::drive::{SMALL, small_config};
use fdp_base::Sequence;
use fdp_checkpoint::{page_count, write};
use fdp_flash::{Cell, Flash, FlashMem, Outcome, Plan, Wrote};
use fdp_recovery::{Opened, open_state};
use fdp_snapshot::State;
use std::alloc::{AllocError, Global};

/// A second copy of cells.
pub fn copied(alloc: Global, cells: &[Cell]) -> Result<Vec<Cell>, AllocError> {
    let mut copy = Vec::new(alloc);
    for cell in cells {
        copy.push(cell.copied()?)?;
    }
    Ok(copy)
}

/// A plan by which a call is stopped.
pub fn stopped(alloc: Global, call: u64, outcome: Outcome) -> Plan {
    Plan {
        calls: 0,
        failing: Sequence::new(alloc),
        stop: Some((call, outcome)),
    }
}

/// The cells once the checkpoint of a state was written into an area, under a plan; as they are where they are not those of the small
/// drive, or an area has no room.
pub fn with_state(
    alloc: Global,
    cells: Vec<Cell>,
    plan: Plan,
    area: u8,
    epoch: u64,
    state: &State,
) -> Result<Vec<Cell>, AllocError>
    requires area { area ≤ 1 }
    requires state { IsState state.now }
{
    if !FlashMem::are_cells(SMALL, cells.as_slice()) {
        return Ok(cells);
    }
    let mut flash = FlashMem::of_cells(alloc, SMALL, cells, plan)?;
    let geometry = flash.geometry();
    let mut page = vec![in alloc; 0u8; geometry.block as usize]?;
    match page_count(&geometry, &state.summary) {
        Some(_count) => {
            let _wrote: Wrote = write(
                &mut flash,
                area,
                epoch,
                &state.summary,
                state.pages.as_slice(),
                page.as_mut_slice(),
            );
        }
        None => {}
    }
    copied(alloc, flash.cells())
}

/// The cells once the drive was opened on them, and its checkpoint written into the other area with a stop in one of its calls; as they are
/// where no drive is found.
pub fn reopened(
    alloc: Global,
    cells: Vec<Cell>,
    call: u64,
    outcome: Outcome,
) -> Result<Vec<Cell>, AllocError> {
    if !FlashMem::are_cells(SMALL, cells.as_slice()) {
        return Ok(cells);
    }
    let config = small_config(alloc, 8)?;
    let first = copied(alloc, cells.as_slice())?;
    let mut flash = FlashMem::of_cells(alloc, SMALL, cells, Plan::empty(alloc))?;
    match open_state(alloc, &mut flash, &config) {
        Ok(Opened::Found { state, area, epoch }) => with_state(
            alloc,
            first,
            stopped(alloc, call, outcome),
            1 - area,
            epoch + 1,
            &state,
        ),
        Ok(Opened::Fresh) => Ok(first),
        Err(_) => Ok(first),
    }
}
