ghost use Rattle.std.specs.Prelude.{◌≡◌, ◌<◌, ◌≤◌, ◌↔◌, IsTrue, ℕ, List, length, slice_get, Some};
ghost use Rattle.fdp_flash.specs.declared.cell.Cell.TheVariants.{Blank, Whole};
ghost use Rattle.fdp_flash.specs.Cells.{HaveBytes};
ghost use Rattle.fdp_flash.specs.Read.{ReadsPage, ReadsExpected};

use crate::answer::{Fetched, Seen};
use crate::cell::Cell;

/// Reads a page as it is.
pub fn read_page(cells: &[Cell], page: usize, spare: &mut [u8; 32], bytes: &mut [u8]) -> Seen
    requires within { page < length cells.now }
    requires size { (kept_spare kept : List ℕ) → slice_get cells.now page ≡ Some (Whole kept_spare kept) → length kept ≡ length bytes.old }
    ensures { ReadsPage cells.now page spare.new bytes.new result }
{
    match &cells[page] {
        Cell::Blank => Seen::Blank,
        Cell::Torn => Seen::Torn,
        Cell::Whole {
            spare: kept_spare,
            bytes: kept,
        } => {
            *spare = *kept_spare;
            bytes.copy_from_slice(kept.as_slice());
            Seen::Whole
        }
    }
}

/// Reads the bytes of a page that is whole with this spare.
pub fn read_expected(cells: &[Cell], page: usize, spare: &[u8; 32], bytes: &mut [u8]) -> Fetched
    requires within { page < length cells.now }
    requires size { (kept_spare kept : List ℕ) → slice_get cells.now page ≡ Some (Whole kept_spare kept) → length kept ≡ length bytes.old }
    ensures { ReadsExpected cells.now page spare.now bytes.new result }
{
    match &cells[page] {
        Cell::Blank => Fetched::Other,
        Cell::Torn => Fetched::Other,
        Cell::Whole {
            spare: kept_spare,
            bytes: kept,
        } => {
            if !is_same_spare(kept_spare, spare) {
                return Fetched::Other;
            }
            bytes.copy_from_slice(kept.as_slice());
            Fetched::Whole
        }
    }
}

fn is_same_spare(spare: &[u8; 32], other: &[u8; 32]) -> bool
    ensures { IsTrue result ↔ (spare.now ≡ other.now) }
{
    spare == other
}

/// Whether the pages from one up to another are all blank.
pub fn are_blank(cells: &[Cell], from: usize, end: usize) -> bool
    requires { end ≤ length cells.now }
    ensures { IsTrue result ↔ ((k : ℕ) → from ≤ k → k < end → slice_get cells.now k ≡ Some Blank) }
{
    for page in from..end {
        if !cells[page].is_blank() {
            return false;
        }
    }
    true
}

/// Whether each whole page has so many bytes.
pub fn have_blocks(cells: &[Cell], size: usize) -> bool
    ensures { IsTrue result ↔ HaveBytes size cells.now }
{
    for cell in cells {
        if !has_block(cell, size) {
            return false;
        }
    }
    true
}

fn has_block(cell: &Cell, size: usize) -> bool
    ensures { IsTrue result ↔ ((spare bytes : List ℕ) → cell.now ≡ Whole spare bytes → length bytes ≡ size) }
{
    match cell {
        Cell::Blank => true,
        Cell::Torn => true,
        Cell::Whole { spare: _, bytes } => bytes.as_slice().len() == size,
    }
}
