ghost use Rattle.std.specs.Prelude.{◌≡◌, ◌<◌, Decides, IsTrue, MatchOption, None, Some, length};
ghost use Rattle.fdp_base.specs.declared.entry.Spot.{Spot as Page};
ghost use Rattle.fdp_owners.specs.OwnerTable.{owner_at, with_owner};
ghost use Rattle.fdp_pages.specs.Finding.{FindsUsed, GoWith, MayFind, lane_of_handle, of_found};
ghost use Rattle.fdp_pages.specs.Steps.{ChangesOwners};
ghost use Rattle.fdp_passes.specs.GroupPasses.{slot_of};
ghost use Rattle.fdp_units.specs.DataUnits.{is_free};
ghost use Rattle.fdp_units.specs.UnitTable.{IsUnit, state_at};

use crate::pages::Pages;
use fdp_base::{DataSpare, Spot};
use fdp_owners::{Holder, Owner};
use fdp_passes::Lane;
use fdp_units::UnitState;

impl Pages {
    /// An opening found a free unit used: it gets no page before it is erased.
    pub fn find_used(&mut self, unit: u32)
        requires unit { IsUnit self.old.units unit }
        requires free { IsTrue (is_free (state_at self.old.units unit)) }
        ensures { FindsUsed self.old self.new unit }
    {
        self.units.turn(unit, UnitState::Closed);
    }

    /// An opening found that a page holds the block which its spare names.
    pub fn find_block(&mut self, spot: Spot, spare: DataSpare)
        requires { MayFind self.old spot spare }
        ensures owners { owner_at self.new.owners ≡ with_owner (owner_at self.old.owners) spot (Some (of_found spare)) }
        ensures rest { ChangesOwners self.old self.new }
    {
        self.joined(); // proof
        self.fill(
            spot,
            Owner {
                holder: Holder::Block,
                spare,
            },
        );
    }

    /// Whether the live pages of a unit go the way of a handle. It looks at the owners of its pages, up to the first.
    pub fn goes_with(&self, unit: u32, ruh: u8) -> bool
        requires unit { IsUnit self.now.units unit }
        requires handle { ruh < length self.now.handles.classes }
        ensures { Decides result (GoWith self.now unit ruh) }
    {
        self.joined(); // proof
        match self.first_owner(unit) {
            Some(owner) => self.slot(owner.spare.ruh) == self.slot(ruh),
            None => true,
        }
    }

    /// The owner of the first page of a unit that has one.
    fn first_owner(&self, unit: u32) -> Option<Owner>
        requires { IsUnit self.now.units unit }
        ensures { MatchOption result ((page : Page) → page.unit ≡ unit → owner_at self.now.owners page ≡ None) (λ x. (page : Page) × (page.unit ≡ unit) × (owner_at self.now.owners page ≡ Some x)) }
    {
        for page in 0..self.units.unit_pages() {
            let owner = self.owners.get(Spot { unit, page });
            if owner.is_some() {
                return owner;
            }
        }
        None
    }

    /// The place of the way that the data of a handle goes.
    fn slot(&self, ruh: u8) -> usize
        requires { ruh < length self.now.handles.classes }
        ensures { result ≡ slot_of (lane_of_handle self.now.handles.classes ruh) }
    {
        let _ = &self.handles; // proof
        Lane::of(self.handles.class(ruh), ruh).slot()
    }
}
