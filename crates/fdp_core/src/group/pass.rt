ghost use Rattle.std.specs.Prelude.{◌+◌, ◌≤◌, ◌<◌, IsTrue, length};
ghost use Rattle.fdp_core.specs.Passes.{EndsPass, EndsRest, MayBeginPass, MayEndPass};
ghost use Rattle.fdp_core.specs.Seen.{Stands, stage_of};
ghost use Rattle.fdp_core.specs.Stops.{IsSafeNow, Outlasts, RetainsBehind};
ghost use Rattle.fdp_loading.specs.fdp_isolation.Laned.{IsKnown};
ghost use Rattle.fdp_relocation.specs.fdp_pages.PageTables.{passes_at};
ghost use Rattle.fdp_passes.specs.declared.due.Due.TheVariants.{Move};
ghost use Rattle.fdp_passes.specs.Due.{IsDue};
ghost use Rattle.fdp_core.specs.Advancing.{Advances, TellsMore};
ghost use Rattle.fdp_relocation.specs.Collected.{Collects};

use super::Group;
use fdp_flash::Flash;
use fdp_relocation::{Advance, collect};

/// How a relocation pass within a step ended.
#[derive(Clone, Copy, Debug, PartialEq, Eq)]
pub enum PassEnd {
    /// Its victim was erased.
    Made,
    /// None is under way, and none would gain a page.
    Nothing,
    /// No unit is free for a copy: the group is worn.
    Starved,
    /// A call of the flash failed.
    Fault,
}

impl<F: Flash> Group<F> {
    /// Makes a relocation pass in a group that is short of free units, or ends the one under way. It copies each live page of the victim at
    /// most once.
    pub(super) fn make_pass(&mut self, rg: u16) -> PassEnd
        requires may { MayBeginPass self.old.book rg }
        ensures step { EndsPass F.state self.old self.new rg result }
        ensures stops { Outlasts F.state self.old self.new }
        ensures safe { IsSafeNow (F.state self.new.flash) self.new.book self.new.keeper }
    {
        match self.advance(rg) {
            Advance::Copied => self.end_pass(rg),
            Advance::Moved => self.end_pass(rg),
            Advance::Erased => PassEnd::Made,
            Advance::Nothing => PassEnd::Nothing,
            Advance::Starved => PassEnd::Starved,
            Advance::Fault => PassEnd::Fault,
        }
    }

    /// Ends the pass under way in a group.
    fn end_pass(&mut self, rg: u16) -> PassEnd
        requires may { MayEndPass self.old.book rg }
        ensures step { EndsRest F.state self.old self.new rg result }
        ensures stops { Outlasts F.state self.old self.new }
        ensures safe { IsSafeNow (F.state self.new.flash) self.new.book self.new.keeper }
    {
        loop {
            match self.advance(rg) {
                Advance::Copied => {}
                Advance::Moved => {}
                Advance::Erased => return PassEnd::Made,
                // A pass is under way, so a step is due.
                Advance::Nothing => unreachable!(),
                Advance::Starved => return PassEnd::Starved,
                Advance::Fault => return PassEnd::Fault,
            }
        }
    }

    /// The next step of relocation in a group.
    pub(super) fn advance(&mut self, rg: u16) -> Advance
        requires group { rg < self.old.book.config.groups }
        requires room { 0 < self.old.book.room }
        requires may_move { IsDue (passes_at self.old.book.pages rg) self.old.book.pages.units self.old.book.pages.owners rg Move → IsTrue self.old.book.may_move }
        ensures step { Advances F.state self.old self.new rg result }
        ensures collects { Collects F.state (stage_of self.old) (stage_of self.new) rg result }
        ensures told { TellsMore F.state self.old self.new rg result }
        ensures stops { Outlasts F.state self.old self.new }
        ensures retains { RetainsBehind self.old.book (F.state self.old.flash) (F.state self.new.flash) result }
        ensures safe { IsSafeNow (F.state self.new.flash) self.new.book self.new.keeper }
        ensures epochs { self.new.keeper.saver.stamp.epoch + length self.old.book.entries ≤ self.old.keeper.saver.stamp.epoch + length self.new.book.entries }
        ensures old { Stands (F.state self.old.flash) self.old.book }
        ensures new { IsKnown self.new.book }
    {
        self.can_save();
        let advance = collect(
            &mut self.book,
            &mut self.keeper,
            &mut self.flash,
            &mut self.block,
            rg,
        );
        self.book.known(); // proof
        advance
    }
}
