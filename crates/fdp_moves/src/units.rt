//! What the pages of a flash hold, unit by unit.
use fdp_base::Geometry;
use fdp_flash::{Cell, Flash, FlashMem};
use std::alloc::{AllocError, Global};

/// A line for each unit of data: for each page the handle that its spare names, `.` for a blank page and `!` for a torn one.
pub fn units_text(alloc: Global, flash: &FlashMem) -> Result<String, AllocError> {
    let Geometry {
        unit_pages,
        groups,
        units,
        ..
    } = flash.geometry();
    let mut text = String::new(alloc);
    let mut unit = 0u32;
    for cells in flash.cells().chunks(unit_pages.max(1) as usize) {
        if unit < u32::from(groups).wrapping_mul(units) {
            let line = unit_text(alloc, unit, cells)?;
            if !text.is_empty() {
                text.push_str("\n  ")?;
            }
            text.push_str(&line)?;
        }
        unit = unit.saturating_add(1);
    }
    Ok(text)
}

fn unit_text(alloc: Global, unit: u32, cells: &[Cell]) -> Result<String, AllocError> {
    let mut text = format!(in alloc; "{unit} ")?;
    for cell in cells {
        let word = cell_text(alloc, cell)?;
        text.push_str(&word)?;
    }
    Ok(text)
}

fn cell_text(alloc: Global, cell: &Cell) -> Result<String, AllocError> {
    match cell {
        Cell::Blank => String::from_str(alloc, "."),
        Cell::Torn => String::from_str(alloc, "!"),
        Cell::Whole { spare, bytes: _ } => format!(in alloc; "{:x}", spare[1]),
    }
}
