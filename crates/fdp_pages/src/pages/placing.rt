ghost use Rattle.std.specs.Prelude.{◌≡◌, ◌<◌, IfSome, IsSome, length};
ghost use Rattle.fdp_pages.specs.PageTables.{unit_of};
ghost use Rattle.fdp_pages.specs.Steps.{ClosesUnit, MayPut, PutsPage, ShutsUnit, UpdatesHandle};
ghost use Rattle.fdp_units.specs.UnitTable.{IsGroup};

use crate::pages::Pages;
use crate::taking::{close_open, use_next, waste_next};
use fdp_base::Spot;
use fdp_owners::Owner;

impl Pages {
    /// The next page of a handle was programmed: it belongs to its owner, and one less is left for the handle.
    pub fn place(&mut self, rg: u16, ruh: u8, spot: Spot, owner: Owner)
        requires page { MayPut self.old rg ruh spot }
        requires owner { owner.spare.ruh ≡ ruh }
        ensures { PutsPage self.old self.new rg ruh spot owner }
    {
        use_next(&mut self.units, spot.unit);
        self.units.raise(spot.unit);
        self.owners.put(spot, owner);
        self.handles.place(rg, ruh, spot.unit);
    }

    /// The program of the next page of a handle failed: the page is used for nothing, its unit is closed, and the handle has none.
    pub fn shut(&mut self, rg: u16, ruh: u8, spot: Spot)
        requires page { MayPut self.old rg ruh spot }
        ensures { ShutsUnit self.old self.new rg ruh spot }
    {
        waste_next(&mut self.units, spot.unit);
        self.handles.shut(rg, ruh);
    }

    /// The unit of a handle gets no page more: it is closed, and the handle has none.
    pub fn close(&mut self, rg: u16, ruh: u8)
        requires group { IsGroup self.old.units rg }
        requires handle { ruh < length self.old.handles.classes }
        requires unit { IsSome (unit_of self.old rg ruh) }
        ensures { IfSome (unit_of self.old rg ruh) (λ unit. ClosesUnit self.old self.new rg ruh unit) }
    {
        match self.handles.unit(rg, ruh) {
            Some(unit) => {
                close_open(&mut self.units, unit);
                self.handles.shut(rg, ruh);
            }
            // It is asked of a handle with an open unit.
            None => unreachable!(),
        }
    }

    /// A handle is updated: where its unit is partly written that gets no page more, and the handle has none. A handle without a unit is
    /// left as it is.
    pub fn update(&mut self, rg: u16, ruh: u8)
        requires group { IsGroup self.old.units rg }
        requires handle { ruh < length self.old.handles.classes }
        ensures { UpdatesHandle self.old self.new rg ruh }
    {
        self.joined(); // proof
        if self.handles.unit(rg, ruh).is_some() {
            self.close(rg, ruh);
        }
    }
}
