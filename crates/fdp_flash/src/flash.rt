ghost use Rattle.std.specs.Prelude.{◌≡◌, ◌<◌, length, IsTrue};
ghost use Rattle.fdp_base.specs.Geometry.{IsValidGeometry, all_units};
ghost use Rattle.fdp_flash.specs.Layout.{IsIn};
ghost use Rattle.fdp_flash.specs.Cells.{IsBlankFrom};
ghost use Rattle.fdp_flash.specs.FlashState.{FlashState, Begins, IsWellFormed};
ghost use Rattle.fdp_flash.specs.Answers.{Looks, Fetches, Programs, Erases};

use crate::answer::{Fetched, Seen, Wrote};
use fdp_base::{Geometry, Spot};

/// A flash. A page is programmed once after each erase of its unit; a unit is erased whole. No call takes memory.
///
/// The counts are of 64 bits and stay at their last value.
pub trait Flash {
    /// What contracts see of the flash: its geometry and counts, and as far as it tells them its cells, its calls and
    /// what a stop in each call may have left.
    ghost state: { Self → FlashState };

    fn geometry(&self) -> Geometry
        ensures value { result ≡ (state self.now).geometry }
        ensures valid { IsValidGeometry result };

    /// How many calls of `look`, `fetch`, `program` and `erase` have begun.
    fn moment(&self) -> u64
        ensures { result ≡ (state self.now).moment };

    /// How many faults were counted. It never falls, and rises only in a call that fails.
    fn faults(&self) -> u64
        ensures { result ≡ (state self.now).faults };

    /// How many programs of pages of data units answered Done.
    fn programs(&self) -> u64
        ensures { result ≡ (state self.now).programs };

    /// Reads a page. The buffers count only where the answer is Whole.
    fn look(&mut self, at: Spot, spare: &mut [u8; 32], bytes: &mut [u8]) -> Seen
        requires place { IsIn (state self.old).geometry at }
        requires size { length bytes.old ≡ (state self.old).geometry.block }
        ensures call { Begins (state self.old) (state self.new) }
        ensures answer { Looks (state self.old) (state self.new) at spare.new bytes.new result };

    /// Reads the page that is to have this spare. The buffer counts only where the answer is Whole.
    fn fetch(&mut self, at: Spot, spare: &[u8; 32], bytes: &mut [u8]) -> Fetched
        requires place { IsIn (state self.old).geometry at }
        requires size { length bytes.old ≡ (state self.old).geometry.block }
        ensures call { Begins (state self.old) (state self.new) }
        ensures answer { Fetches (state self.old) (state self.new) at spare.now bytes.new result };

    /// Programs a page. It and the later pages of its unit have to be blank, where the cells are told.
    fn program(&mut self, at: Spot, spare: &[u8; 32], bytes: &[u8]) -> Wrote
        requires place { IsIn (state self.old).geometry at }
        requires size { length bytes.now ≡ (state self.old).geometry.block }
        requires order { IsTrue (state self.old).told → IsBlankFrom (state self.old).geometry (state self.old).cells at }
        ensures call { Begins (state self.old) (state self.new) }
        ensures answer { Programs (state self.old) (state self.new) at spare.now bytes.now result };

    /// Makes each page of a unit blank.
    fn erase(&mut self, unit: u32) -> Wrote
        requires place { unit < all_units (state self.old).geometry }
        ensures call { Begins (state self.old) (state self.new) }
        ensures answer { Erases (state self.old) (state self.new) unit result };

    /// The geometry is a valid one; there is a cell for each page, and a place on the list for each call, where told.
    ghost well_formed: { (flash : Self) → IsWellFormed (state flash) };
}
