ghost use Rattle.std.specs.Prelude.{◌≡◌, ◌≤◌, ℕ, List, IfOk, IsTrue, length, replicate, slice_get, Some, Option};
ghost use Rattle.std.specs.Vec.{vec_capacity};
ghost use Rattle.fdp_flash.specs.declared.cell.Cell.TheVariants.{Blank, Whole};
ghost use Rattle.fdp_flash.specs.Blocks.{HasBlocks, BlockFits};
ghost use Rattle.fdp_flash.specs.Noted.{AllOfSize};

use crate::cell::Cell;
use fdp_base::Bytes;
use std::alloc::{AllocError, Global};

/// So many blank pages.
pub fn blank_cells(alloc: Global, count: usize) -> Result<Vec<Cell>, AllocError>
    ensures { IfOk result (λ cells. cells.items ≡ replicate count Blank) }
{
    let mut cells = Vec::with_capacity(alloc, count)?;
    for _ in 0..count {
        cells.push_reserved(Cell::Blank);
    }
    Ok(cells)
}

/// A second copy of all cells, where it is wanted.
pub fn copied_cells(alloc: Global, wanted: bool, cells: &[Cell]) -> Result<Vec<Cell>, AllocError>
    ensures { IfOk result (λ copy. IsTrue wanted → copy.items ≡ cells.now) }
{
    let mut copy = Vec::new(alloc);
    if wanted {
        for cell in cells {
            copy.push(cell.copied()?)?;
        }
    }
    Ok(copy)
}

/// A block of zeros for each page that is not whole.
pub fn page_blocks(
    alloc: Global,
    cells: &[Cell],
    size: usize,
) -> Result<Vec<Option<Bytes>>, AllocError>
    requires { (k : ℕ) (spare bytes : List ℕ) → slice_get cells.now k ≡ Some (Whole spare bytes) → length bytes ≡ size }
    ensures { IfOk result (λ blocks. HasBlocks size cells.now blocks.items) }
{
    let mut blocks = Vec::with_capacity(alloc, cells.len())?;
    for cell in cells {
        blocks.push_reserved(page_block(alloc, cell, size)?);
    }
    Ok(blocks)
}

fn page_block(alloc: Global, cell: &Cell, size: usize) -> Result<Option<Bytes>, AllocError>
    ensures { IfOk result (BlockFits size cell.now) }
{
    match cell {
        Cell::Blank => Ok(Some(zeros(alloc, size)?)),
        Cell::Torn => Ok(Some(zeros(alloc, size)?)),
        Cell::Whole { spare: _, bytes: _ } => Ok(None),
    }
}

/// So many blocks of zeros.
pub fn call_blocks(alloc: Global, count: usize, size: usize) -> Result<Vec<Bytes>, AllocError>
    ensures count { IfOk result (λ blocks. length blocks.items ≡ count) }
    ensures size { IfOk result (λ blocks. AllOfSize size blocks.items) }
{
    let mut blocks = Vec::with_capacity(alloc, count)?;
    for _ in 0..count {
        blocks.push_reserved(zeros(alloc, size)?);
    }
    Ok(blocks)
}

fn zeros(alloc: Global, size: usize) -> Result<Bytes, AllocError>
    ensures { IfOk result (λ block. length block ≡ size) }
{
    Ok(Bytes::from_vec(Vec::from_elem(alloc, 0u8, size)?))
}
