ghost use Rattle.std.specs.Prelude.{◌≡◌, ℕ, ◌<◌, IsSome, None, Some, option_map, slice_get};
ghost use Rattle.fdp_owners.specs.OwnerTable.{held_by, owner_at, with_owner};
ghost use Rattle.fdp_pages.specs.Steps.{AreOwned, ChangesOwners, without};

use crate::pages::Pages;
use fdp_base::Spot;
use fdp_owners::Holder;

impl Pages {
    /// A page loses its owner.
    pub fn clear(&mut self, spot: Spot)
        requires { IsSome (owner_at self.old.owners spot) }
        ensures owners { owner_at self.new.owners ≡ with_owner (owner_at self.old.owners) spot None }
        ensures rest { ChangesOwners self.old self.new }
    {
        self.owners.clear(spot);
        self.units.lower(spot.unit);
    }

    /// These pages lose their owners.
    pub fn release(&mut self, spots: &[Spot])
        requires { AreOwned self.old.owners spots.now }
        ensures owners { owner_at self.new.owners ≡ without (owner_at self.old.owners) spots.now }
        ensures rest { ChangesOwners self.old self.new }
    {
        self.joined(); // proof
        for spot in spots {
            self.clear(*spot);
        }
    }

    /// A page comes into other hands; its spare stays.
    pub fn hand_over(&mut self, spot: Spot, holder: Holder)
        requires { IsSome (owner_at self.old.owners spot) }
        ensures owners { owner_at self.new.owners ≡ with_owner (owner_at self.old.owners) spot (option_map (held_by holder) (owner_at self.old.owners spot)) }
        ensures rest { ChangesOwners self.old self.new }
    {
        self.owners.hand_over(spot, holder);
    }
}
