//! The old and the new pages of copies, as a record names them.

ghost use Rattle.std.specs.Prelude.{◌≡◌, ◌<◌, All, ℕ, length};
ghost use Rattle.fdp_base.specs.declared.entry.Copied.{Copied as Copy};
ghost use Rattle.fdp_keeper.specs.Moves.{AreInRuns, AreNewIn, AreNewPages, AreOldPages, AreSecondPages, LieInSome, OldInOrder};
ghost use Rattle.fdp_durability.specs.fdp_pages.Joined.{LieInOrder};

use crate::page_set::{put_new, put_old};
use fdp_base::Copied;
use fdp_records::{PageSet, UnitPages};

/// The old pages of copies that lie in order in a unit.
pub fn old_pages(copies: &[Copied]) -> UnitPages
    requires some { 0 < length copies.now }
    requires pages { All (λ (x : Copy). x.from.page < 256) copies.now }
    ensures pages { (unit : ℕ) → OldInOrder unit 0 copies.now → AreOldPages result copies.now }
    ensures unit { (unit : ℕ) → OldInOrder unit 0 copies.now → result.unit ≡ unit }
{
    let mut pages = PageSet::EMPTY;
    put_old(&mut pages, copies);
    UnitPages {
        unit: copies[0].from.unit,
        pages,
    }
}

/// The targets of a move, and its pages there.
#[derive(Clone, Copy, Debug, PartialEq, Eq)]
pub struct Targets {
    pub first: UnitPages,
    pub second: Option<UnitPages>,
}

/// The new pages of copies that lie in order in a unit, and then in another.
pub fn new_pages(copies: &[Copied]) -> Targets
    requires some { 0 < length copies.now }
    requires pages { All (λ (x : Copy). x.to.page < 256) copies.now }
    requires units { All (λ (x : Copy). x.to.unit < 0xffff_ffff) copies.now }
    requires runs { AreInRuns copies.now }
    ensures { AreNewPages result.first result.second copies.now }
{
    let unit = copies[0].to.unit;
    let mut pages = PageSet::EMPTY;
    let count = put_new(&mut pages, unit, 0, copies);
    let second = last_pages(&copies[count..]);
    Targets {
        first: UnitPages { unit, pages },
        second,
    }
}

/// The new pages of copies that lie in order in a unit, if there are such.
fn last_pages(copies: &[Copied]) -> Option<UnitPages>
    requires pages { All (λ (x : Copy). x.to.page < 256) copies.now }
    requires units { All (λ (x : Copy). x.to.unit < 0xffff_ffff) copies.now }
    requires lie { LieInSome copies.now }
    ensures { AreSecondPages result copies.now }
{
    match copies.first() {
        Some(copy) => Some(run_pages(copies, copy.to.unit)),
        None => None,
    }
}

/// The new pages of copies that lie in order in a unit.
fn run_pages(copies: &[Copied], unit: u32) -> UnitPages
    requires pages { All (λ (x : Copy). x.to.page < 256) copies.now }
    requires lie { LieInOrder unit 0 copies.now }
    ensures pages { AreNewIn result copies.now }
    ensures unit { result.unit ≡ unit }
{
    let mut pages = PageSet::EMPTY;
    put_new(&mut pages, unit, 0, copies);
    UnitPages { unit, pages }
}
