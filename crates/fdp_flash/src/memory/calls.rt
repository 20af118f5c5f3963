use crate::answer::{Fetched, Operation, Seen, Wrote};
use crate::flash::Flash;
use crate::layout::page_index;
use crate::memory::FlashMem;
use crate::memory::read::{read_expected, read_page};
use fdp_base::{Geometry, Spot};

impl Flash for FlashMem {
    ghost use Rattle.std.specs.Prelude.{◌≡◌, ◌<◌, length, IsTrue};
    ghost use Rattle.fdp_flash.specs.Answers.{Looks, Fetches, Programs, Erases, seen_failed, fetched_failed, wrote_failed};
    ghost use Rattle.fdp_flash.specs.Cells.{IsBlankFrom};
    ghost use Rattle.fdp_flash.specs.FlashMem.{state_of, FollowsPlan, ProgramsAsPlanned, ErasesAsPlanned};
    ghost use Rattle.fdp_flash.specs.FlashState.{Begins};
    ghost use Rattle.fdp_base.specs.Geometry.{all_units};
    ghost use Rattle.fdp_flash.specs.Layout.{IsIn};
    ghost use Rattle.fdp_flash.specs.WellFormed.{memory_well_formed};

    ghost state = { state_of };

    ghost well_formed = { memory_well_formed };

    fn geometry(&self) -> Geometry {
        self.geometry
    }

    fn moment(&self) -> u64 {
        self.moment
    }

    fn faults(&self) -> u64 {
        self.faults
    }

    fn programs(&self) -> u64 {
        self.programs
    }

    fn look(&mut self, at: Spot, spare: &mut [u8; 32], bytes: &mut [u8]) -> Seen
        requires place { IsIn (state_of self.old).geometry at }
        requires size { length bytes.old ≡ (state_of self.old).geometry.block }
        ensures call { Begins (state_of self.old) (state_of self.new) }
        ensures answer { Looks (state_of self.old) (state_of self.new) at spare.new bytes.new result }
        ensures planned { FollowsPlan self.old self.new (seen_failed result) }
    {
        if self.call(Operation::Look, at, &[0; 32], &[]) {
            return Seen::Failed;
        }
        let page = page_index(self.geometry, at);
        read_page(self.pages.cells.as_slice(), page, spare, bytes)
    }

    fn fetch(&mut self, at: Spot, spare: &[u8; 32], bytes: &mut [u8]) -> Fetched
        requires place { IsIn (state_of self.old).geometry at }
        requires size { length bytes.old ≡ (state_of self.old).geometry.block }
        ensures call { Begins (state_of self.old) (state_of self.new) }
        ensures answer { Fetches (state_of self.old) (state_of self.new) at spare.now bytes.new result }
        ensures planned { FollowsPlan self.old self.new (fetched_failed result) }
    {
        if self.call(Operation::Fetch, at, &[0; 32], &[]) {
            return Fetched::Failed;
        }
        let page = page_index(self.geometry, at);
        read_expected(self.pages.cells.as_slice(), page, spare, bytes)
    }

    fn program(&mut self, at: Spot, spare: &[u8; 32], bytes: &[u8]) -> Wrote
        requires place { IsIn (state_of self.old).geometry at }
        requires size { length bytes.now ≡ (state_of self.old).geometry.block }
        requires order { IsTrue (state_of self.old).told → IsBlankFrom (state_of self.old).geometry (state_of self.old).cells at }
        ensures call { Begins (state_of self.old) (state_of self.new) }
        ensures answer { Programs (state_of self.old) (state_of self.new) at spare.now bytes.now result }
        ensures planned { FollowsPlan self.old self.new (wrote_failed result) }
        ensures left { ProgramsAsPlanned self.old self.new at spare.now bytes.now }
    {
        if self.call(Operation::Program, at, spare, bytes) {
            Wrote::Failed
        } else {
            Wrote::Done
        }
    }

    fn erase(&mut self, unit: u32) -> Wrote
        requires place { unit < all_units (state_of self.old).geometry }
        ensures call { Begins (state_of self.old) (state_of self.new) }
        ensures answer { Erases (state_of self.old) (state_of self.new) unit result }
        ensures planned { FollowsPlan self.old self.new (wrote_failed result) }
        ensures left { ErasesAsPlanned self.old self.new unit }
    {
        if self.call(Operation::Erase, Spot { unit, page: 0 }, &[0; 32], &[]) {
            Wrote::Failed
        } else {
            Wrote::Done
        }
    }
}
