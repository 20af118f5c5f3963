ghost use Rattle.std.specs.Prelude.{◌≡◌, ◌<◌, IfSome, IsTrue, Some, length, slice_get, slice_set};
ghost use Rattle.fdp_collector.specs.Leaving.{StepMayLeave};
ghost use Rattle.fdp_collector.specs.Ready.{AreOfFlash, IsStored};
ghost use Rattle.fdp_collector.specs.Step.{IsStep};
ghost use Rattle.fdp_flash.specs.Runs.{Runs};
ghost use Rattle.fdp_owners.specs.OwnerTable.{owner_at, with_owner};
ghost use Rattle.fdp_pages.specs.Filling.{MayFill};
ghost use Rattle.fdp_pages.specs.PageTables.{copies_at, is_under_way, passes_at, relocation_at};
ghost use Rattle.fdp_pages.specs.Steps.{ChangesOwners, HasMoved, ended_move, moved};
ghost use Rattle.fdp_units.specs.UnitTable.{IsGroup};

use crate::pages::Pages;
use fdp_base::Spot;
use fdp_collector::{Step, advance};
use fdp_flash::Flash;
use fdp_owners::Owner;

impl Pages {
    /// The next step of relocation in a group. It makes at most two calls of the flash.
    pub fn advance<F: Flash>(
        &mut self,
        flash: &mut F,
        block: &mut [u8],
        rg: u16,
        may_erase: bool,
    ) -> Step
        requires group { IsGroup self.old.units rg }
        requires flash { AreOfFlash self.old.units (F.state flash.old).geometry }
        requires stored { IsTrue (F.state flash.old).told → IsStored (F.state flash.old).geometry (F.state flash.old).cells self.old.owners self.old.units }
        requires size { length block.old ≡ (F.state flash.old).geometry.block }
        ensures step { IsStep self.old.owners self.old.handles.classes rg may_erase (relocation_at self.old rg) (relocation_at self.new rg) (F.state flash.old) (F.state flash.new) result }
        ensures rest { self.new ≡ record self.old { units = self.new.units; passes = slice_set self.old.passes rg (passes_at self.new rg) } }
        ensures run { Runs (F.state flash.old) (F.state flash.new) (λ m image. StepMayLeave may_erase (F.state flash.old).geometry self.old.units self.old.owners (F.state flash.old).cells image) }
        ensures stored { IsTrue (F.state flash.old).told → IsStored (F.state flash.old).geometry (F.state flash.new).cells self.old.owners self.new.units }
        ensures block { length block.new ≡ length block.old }
    {
        let passes = &mut self.passes[rg as usize];
        advance(
            passes,
            &mut self.units,
            &self.owners,
            self.handles.classes(),
            flash,
            block,
            rg,
            may_erase,
        )
    }

    /// Where the old page of a copy of the pass under way is live its owner gets the new page, and is told.
    pub fn move_copy(&mut self, rg: u16, index: u32) -> Option<Owner>
        requires group { IsGroup self.old.units rg }
        requires copy { index < length (copies_at self.old rg) }
        ensures owner { IfSome (slice_get (copies_at self.old rg) index) (λ copy. result ≡ owner_at self.old.owners copy.from) }
        ensures owners { IfSome (slice_get (copies_at self.old rg) index) (λ copy. owner_at self.new.owners ≡ moved (owner_at self.old.owners) copy) }
        ensures rest { ChangesOwners self.old self.new }
    {
        let passes = &self.passes[rg as usize];
        let copy = passes.copies()[index as usize];
        let owner = self.owners.get(copy.from);
        if let Some(owner) = owner {
            self.clear(copy.from);
            self.fill(copy.to, owner);
        }
        owner
    }

    /// A page that was used gets an owner.
    pub(super) fn fill(&mut self, spot: Spot, owner: Owner)
        requires { MayFill self.old spot owner }
        ensures owners { owner_at self.new.owners ≡ with_owner (owner_at self.old.owners) spot (Some owner) }
        ensures rest { ChangesOwners self.old self.new }
    {
        self.owners.put(spot, owner);
        self.units.raise(spot.unit);
    }

    /// The copies of the pass under way were moved; the pass goes on without them.
    pub fn end_move(&mut self, rg: u16)
        requires group { IsGroup self.old.units rg }
        requires pass { IsTrue (is_under_way self.old rg) }
        requires moved { HasMoved self.old rg }
        ensures { self.new ≡ record self.old { passes = slice_set self.old.passes rg (ended_move (passes_at self.old rg)) } }
    {
        let passes = &mut self.passes[rg as usize];
        passes.moved();
    }
}
