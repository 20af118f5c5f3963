ghost use Rattle.std.specs.Prelude.{◌≡◌, ℕ, ◌+◌, ◌<◌, ◌≤◌, ◌^◌, length, slice_get, slice_set, Some};
ghost use Rattle.fdp_flash.specs.declared.cell.Cell.TheVariants.{Blank, Whole};
ghost use Rattle.fdp_flash.specs.Blocks.{HasBlocks, unwritten};
ghost use Rattle.fdp_base.specs.Geometry.{IsValidGeometry, all_pages};
ghost use Rattle.fdp_flash.specs.Layout.{IsIn, page_number};
ghost use Rattle.fdp_flash.specs.Recorded.{filled, after_call, after_erase, after_program};

use crate::answer::Operation;
use crate::cell::Cell;
use crate::memory::recorded::copied;
use crate::plan::{Fate, Outcome};
use fdp_base::{Bytes, Geometry, Spot};
use std::mem;

/// The pages, and a block for each that is not whole, so that no call takes memory.
#[derive(Debug, Drop)]
pub struct Pages {
    pub cells: Vec<Cell>,
    pub blocks: Vec<Option<Bytes>>,
}

impl Pages {
    /// Changes the pages as a call with this fate does.
    pub fn change(
        &mut self,
        geometry: Geometry,
        operation: Operation,
        at: Spot,
        spare: &[u8; 32],
        bytes: &[u8],
        fate: Fate,
    )
        requires place { IsIn geometry at }
        requires size { length self.old.cells.items ≡ all_pages geometry }
        requires valid { IsValidGeometry geometry }
        requires block { operation ≡ Operation.Program → length bytes.now ≡ geometry.block }
        requires order { operation ≡ Operation.Program → slice_get self.old.cells.items (page_number geometry at) ≡ Some Blank }
        requires blocks { HasBlocks geometry.block self.old.cells.items self.old.blocks.items }
        ensures cells { self.new.cells.items ≡ after_call geometry operation at spare.now bytes.now fate self.old.cells.items }
        ensures blocks { HasBlocks geometry.block self.new.cells.items self.new.blocks.items }
    {
        let unit_pages = geometry.unit_pages as usize;
        let first = at.unit as usize * unit_pages;
        let cells = self.cells.as_mut_slice();
        let blocks = self.blocks.as_mut_slice();
        match operation {
            Operation::Look => {}
            Operation::Fetch => {}
            Operation::Program => program_page(
                cells,
                blocks,
                first + at.page as usize,
                spare,
                bytes,
                fate,
            ),
            Operation::Erase => erase_pages(cells, blocks, first, unit_pages, fate),
        }
    }
}

fn program_page(
    cells: &mut [Cell],
    blocks: &mut [Option<Bytes>],
    page: usize,
    spare: &[u8; 32],
    bytes: &[u8],
    fate: Fate,
)
    requires within { page < length cells.old }
    requires blank { slice_get cells.old page ≡ Some Blank }
    requires blocks { HasBlocks (length bytes.now) cells.old blocks.old }
    ensures cells { cells.new ≡ after_program page spare.now bytes.now fate cells.old }
    ensures blocks { HasBlocks (length bytes.now) cells.new blocks.new }
{
    match fate {
        Fate::Done => write(cells, blocks, page, spare, bytes),
        Fate::Fails(Outcome::Whole) => write(cells, blocks, page, spare, bytes),
        Fate::Fails(Outcome::Torn) => clear(cells, blocks, page, true),
        Fate::Fails(Outcome::Blank) => clear(cells, blocks, page, false),
        Fate::Refused => {}
    }
}

fn erase_pages(
    cells: &mut [Cell],
    blocks: &mut [Option<Bytes>],
    first: usize,
    count: usize,
    fate: Fate,
)
    requires within { first + count ≤ length cells.old }
    requires blocks { length blocks.old ≡ length cells.old }
    ensures cells { cells.new ≡ after_erase first count fate cells.old }
    ensures blocks { (size : ℕ) → HasBlocks size cells.old blocks.old → HasBlocks size cells.new blocks.new }
{
    match fate {
        Fate::Done => clear_all(cells, blocks, first, count, false),
        Fate::Fails(Outcome::Blank) => clear_all(cells, blocks, first, count, false),
        Fate::Fails(Outcome::Torn) => clear_all(cells, blocks, first, count, true),
        Fate::Fails(Outcome::Whole) => {}
        Fate::Refused => {}
    }
}

/// Leaves a page torn or blank. A page that was whole gives its block back.
pub fn clear(cells: &mut [Cell], blocks: &mut [Option<Bytes>], page: usize, torn: bool)
    requires within { page < length cells.old }
    requires blocks { length blocks.old ≡ length cells.old }
    ensures cells { cells.new ≡ slice_set cells.old page (unwritten torn) }
    ensures blocks { (size : ℕ) → HasBlocks size cells.old blocks.old → HasBlocks size cells.new blocks.new }
{
    match mem::replace(&mut cells[page], unwritten_cell(torn)) {
        Cell::Whole { bytes, spare: _ } => blocks[page] = Some(bytes),
        Cell::Blank => {}
        Cell::Torn => {}
    }
}

/// A page that is not whole.
pub fn unwritten_cell(torn: bool) -> Cell
    ensures { result ≡ unwritten torn }
{
    if torn { Cell::Torn } else { Cell::Blank }
}

/// Leaves so many pages torn or blank, one after another.
pub fn clear_all(
    cells: &mut [Cell],
    blocks: &mut [Option<Bytes>],
    first: usize,
    count: usize,
    torn: bool,
)
    requires within { first + count ≤ length cells.old }
    requires blocks { length blocks.old ≡ length cells.old }
    ensures cells { cells.new ≡ filled first count (unwritten torn) cells.old }
    ensures blocks { (size : ℕ) → HasBlocks size cells.old blocks.old → HasBlocks size cells.new blocks.new }
{
    for i in 0..count {
        clear(cells, blocks, first + i, torn);
    }
}

/// Makes a blank page whole. Its bytes are copied into the block that was kept for it.
pub fn write(
    cells: &mut [Cell],
    blocks: &mut [Option<Bytes>],
    page: usize,
    spare: &[u8; 32],
    bytes: &[u8],
)
    requires blank { slice_get cells.old page ≡ Some Blank }
    requires blocks { HasBlocks (length bytes.now) cells.old blocks.old }
    ensures cells { cells.new ≡ slice_set cells.old page (Whole spare.now bytes.now) }
    ensures blocks { HasBlocks (length bytes.now) cells.new blocks.new }
{
    // A page that is blank has its block ready.
    let Some(block) = blocks[page].take() else {
        unreachable!();
    };
    cells[page] = Cell::Whole {
        spare: *spare,
        bytes: copied(block, bytes),
    };
}
