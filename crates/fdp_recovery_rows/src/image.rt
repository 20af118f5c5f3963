ghost use Rattle.std.specs.Prelude.{◌≤◌};

use crate::drive::small_state;
use crate::reopen::with_state;
use fdp_base::{DataSpare, Sequence, Totals};
use fdp_flash::{Cell, Plan};
use fdp_records::{Change, Stamp, SystemKind, SystemSpare};
use std::alloc::{AllocError, Global};

/// The number of the first page behind the seal of the first area.
const FIRST_RECORD: usize = 44;

/// The image that the rows change.
pub fn first_image(alloc: Global) -> Result<Vec<Cell>, AllocError> {
    let mut blank = Vec::new(alloc);
    for _ in 0..88 {
        blank.push(Cell::Blank)?;
    }
    let mut cells = with_checkpoint(alloc, blank, Plan::empty(alloc), 0, 1, 5)?;
    set(&mut cells, 4, data_page(alloc, 0)?);
    set(&mut cells, 5, data_page(alloc, 1)?);
    set(&mut cells, 8, data_page(alloc, 0)?);
    set(&mut cells, FIRST_RECORD, record(alloc, 0, 8, 1, 5)?);
    set(&mut cells, FIRST_RECORD + 1, record(alloc, 1, 11, 0, 8)?);
    Ok(cells)
}

/// Puts a cell at a page, if there is one.
pub fn set(cells: &mut Vec<Cell>, page: usize, cell: Cell) {
    if page < cells.len() {
        cells[page] = cell;
    }
}

/// Records up to the end of the first area, behind the two that there are.
pub fn fill(alloc: Global, cells: &mut Vec<Cell>) -> Result<(), AllocError> {
    for number in 2..16u32 {
        let cell = record(alloc, number, 11 + u64::from(number), 0, 8)?;
        set(cells, FIRST_RECORD + number as usize, cell);
    }
    Ok(())
}

/// A data page that holds a block of the namespace.
fn data_page(alloc: Global, lba: u64) -> Result<Cell, AllocError> {
    let spare = DataSpare {
        ruh: 0,
        rg: 0,
        generation: 0,
        ticket: 1,
        nsid: 1,
        index: 0,
        lba,
    };
    Ok(Cell::Whole {
        spare: spare.encode(),
        bytes: Sequence::from_vec(vec![in alloc; 7u8; 512]?),
    })
}

/// The record with a number, at a position: the write of a block to a page.
fn record(
    alloc: Global,
    number: u32,
    position: u64,
    slba: u64,
    page: u32,
) -> Result<Cell, AllocError> {
    let mut bytes = vec![in alloc; 0u8; 512]?;
    let change = Change::Write {
        nsid: 1,
        slba,
        pid: 0,
        pid_invalid: false,
        pages: Sequence::from_vec(vec![in alloc; page]?),
    };
    let totals = Totals {
        position,
        host_blocks: 2,
        media_blocks: 2,
        erases: 0,
    };
    if change.is_within_limits() {
        change.encode(&totals, bytes.as_mut_slice());
    }
    let spare = SystemSpare {
        kind: SystemKind::Journal,
        number,
        stamp: Stamp {
            version: 1,
            epoch: 1,
        },
    };
    Ok(Cell::Whole {
        spare: spare.encode(),
        bytes: Sequence::from_vec(bytes),
    })
}

/// The cells once the small state at a position was written into an area, under a plan.
pub fn with_checkpoint(
    alloc: Global,
    cells: Vec<Cell>,
    plan: Plan,
    area: u8,
    epoch: u64,
    position: u16,
) -> Result<Vec<Cell>, AllocError>
    requires { area ≤ 1 }
{
    let state = small_state(alloc, position)?;
    with_state(alloc, cells, plan, area, epoch, &state)
}
