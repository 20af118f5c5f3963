ghost use Rattle.std.specs.Prelude.{◌≡◌, ◌<◌, ◌≤◌, [], ◌∷◌, IsTrue, length};
ghost use Rattle.fdp_base.specs.Placement.{geometry_of};
ghost use Rattle.fdp_book.specs.Book.{written_in};
ghost use Rattle.fdp_book.specs.Logged.{IsLogged};
ghost use Rattle.fdp_book.specs.Outlined.{Counts};
ghost use Rattle.fdp_book.specs.Saving.{AreSmall};
ghost use Rattle.fdp_book.specs.Relocating.{Relocates, Tells};
ghost use Rattle.fdp_readings.specs.fdp_collector.Leaving.{StepMayLeave};
ghost use Rattle.fdp_flash.specs.Runs.{Runs};
ghost use Rattle.fdp_readings.specs.fdp_locations.Stored.{HoldsWritten};
ghost use Rattle.fdp_units.specs.UnitTable.{toil_of};

use super::Book;
use crate::log::Log;
use crate::tables::count;
use fdp_base::{Aside, Entry, Erased, Retired, Worn};
use fdp_flash::Flash;
use fdp_outline::Outline;
use fdp_readings::{Lost, Step};

impl Book {
    /// The next step of relocation in a group, with the entry that tells of it. It makes at most two calls of the flash.
    pub fn relocate<F: Flash>(
        &mut self,
        flash: &mut F,
        block: &mut [u8],
        rg: u16,
        may_erase: bool,
    ) -> Step
        requires group { rg < self.old.config.groups }
        requires room { 0 < self.old.room }
        requires geometry { (F.state flash.old).geometry ≡ geometry_of self.old.config }
        requires stored { IsTrue (F.state flash.old).told → HoldsWritten (F.state flash.old).geometry (F.state flash.old).cells (written_in self.old) self.old.pages.units }
        requires size { length block.old ≡ (F.state flash.old).geometry.block }
        ensures step { Relocates self.old self.new (F.state flash.old) (F.state flash.new) rg may_erase result }
        ensures run { Runs (F.state flash.old) (F.state flash.new) (λ m image. StepMayLeave may_erase (F.state flash.old).geometry self.old.pages.units self.old.pages.owners (F.state flash.old).cells image) }
        ensures stored { IsTrue (F.state flash.old).told → HoldsWritten (F.state flash.old).geometry (F.state flash.new).cells (written_in self.new) self.new.pages.units }
        ensures block { length block.new ≡ length block.old }
    {
        let _ = self.log.position(); // proof: the sums are small
        self.tables.pages.joined(); // proof
        let step = self.tables.pages.advance(flash, block, rg, may_erase);
        tell(&mut self.log, &mut self.tables.outline, rg, step);
        step
    }

    /// The work that relocation has in a group: the pages of its closed units that are not live, and those of its targets. It takes a
    /// constant time.
    pub fn toil(&self, rg: u16) -> u32
        requires { rg < self.now.config.groups }
        ensures { result ≡ toil_of self.now.pages.units rg }
    {
        self.tables.pages.units().toil(rg)
    }
}

/// The entry that tells of a step of relocation in a group, if one does, with what it counts.
fn tell(log: &mut Log, outline: &mut Outline, rg: u16, step: Step)
    requires room { 0 < log.old.room }
    requires small { AreSmall outline.old.totals }
    ensures { Tells rg step log.old log.new outline.old outline.new }
{
    match step {
        Step::Copied(copy) => note(log, outline, Entry::Copied(copy), 1, 0),
        Step::Erased(unit) => note(log, outline, Entry::Erased(Erased { unit }), 0, 1),
        Step::Starved => note(log, outline, Entry::Worn(Worn { rg }), 0, 0),
        Step::Fault(Lost::Aside(unit)) => note(log, outline, Entry::Aside(Aside { unit }), 0, 0),
        Step::Fault(Lost::Retired(unit)) => {
            note(log, outline, Entry::Retired(Retired { unit }), 0, 0)
        }
        Step::Nothing | Step::ReadyToMove | Step::EraseDue | Step::Fault(Lost::None) => {}
    }
}

/// An entry that counts so many pages of data that were programmed, and units that were erased.
fn note(log: &mut Log, outline: &mut Outline, entry: Entry, pages: u64, erases: u64)
    requires room { 0 < log.old.room }
    requires small { AreSmall outline.old.totals }
    requires pages { pages ≤ 1 }
    requires erases { erases ≤ 1 }
    ensures log { IsLogged log.old log.new (entry ∷ []) }
    ensures outline { Counts pages erases outline.old outline.new }
{
    log.push(entry);
    count(outline, pages, erases);
}
