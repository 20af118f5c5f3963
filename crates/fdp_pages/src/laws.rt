ghost use Rattle.std.specs.Prelude.{◌≡◌, ◌≢◌, ℕ, ◌+◌, ◌<◌, IsSome, IsTrue, None, Option, Some, length, slice_get};
ghost use Rattle.fdp_base.specs.declared.entry.Copied.{Copied};
ghost use Rattle.fdp_base.specs.declared.entry.Spot.{Spot};
ghost use Rattle.fdp_owners.specs.declared.owner.Owner.{Owner};
ghost use Rattle.fdp_owners.specs.OwnerTable.{owner_at, with_owner};
ghost use Rattle.fdp_pages.specs.Joined.{AreJoined};
ghost use Rattle.fdp_pages.specs.PageTables.{PageTables, copies_at, target_of, unit_of};
ghost use Rattle.fdp_pages.specs.Steps.{ChangesOwners, moved};
ghost use Rattle.fdp_units.specs.declared.data_unit.DataUnit.{DataUnit};
ghost use Rattle.fdp_units.specs.DataUnits.{is_referenced, is_target};
ghost use Rattle.fdp_units.specs.UnitTable.{Changes, IsGroup, IsUnit, UnitTable, group_in, live_at, state_at, unit_at};

/// A referenced unit is that of a handle in its group, and a target that of the lane of a handle: so there are no more of each in a
/// group than there are handles.
pub fn open_units_are_held()
    ensures referenced { (t : PageTables) (rg unit : ℕ) → AreJoined t → IsUnit t.units unit → group_in t.units unit ≡ rg → IsTrue (is_referenced (state_at t.units unit)) → (ruh : ℕ) × (ruh < length t.handles.classes) × (unit_of t rg ruh ≡ Some unit) }
    ensures targets { (t : PageTables) (rg unit : ℕ) → AreJoined t → IsGroup t.units rg → IsUnit t.units unit → group_in t.units unit ≡ rg → IsTrue (is_target (state_at t.units unit)) → (ruh : ℕ) × (ruh < length t.handles.classes) × (target_of t rg ruh ≡ Some unit) }
{}

/// Where one unit becomes another, the live pages of its group are as many more or less as its own are, and those of other
/// groups as many as before.
pub fn live_pages_follow_units()
    ensures own { (t new : UnitTable) (unit : ℕ) (x : DataUnit) → IsUnit t unit → Changes t new unit x → live_at new (group_in t unit) + (unit_at t unit).live ≡ live_at t (group_in t unit) + x.live }
    ensures others { (t new : UnitTable) (unit rg : ℕ) (x : DataUnit) → group_in t unit ≢ rg → Changes t new unit x → live_at new rg ≡ live_at t rg }
{}

/// Where only owners change, the live pages of a group follow them: one less in the group of a page that lost its owner, as many in
/// all other groups; as many in each group where a copy of a pass was moved.
pub fn live_pages_follow_owners()
    ensures cleared { (old new : PageTables) (spot : Spot) → AreJoined old → ChangesOwners old new → IsSome (owner_at old.owners spot) → owner_at new.owners ≡ with_owner (owner_at old.owners) spot None → live_at new.units (group_in old.units spot.unit) + 1 ≡ live_at old.units (group_in old.units spot.unit) }
    ensures elsewhere { (old new : PageTables) (spot : Spot) (rg : ℕ) (value : Option Owner) → AreJoined old → ChangesOwners old new → IsGroup old.units rg → group_in old.units spot.unit ≢ rg → owner_at new.owners ≡ with_owner (owner_at old.owners) spot value → live_at new.units rg ≡ live_at old.units rg }
    ensures moved { (old new : PageTables) (rg index : ℕ) (copy : Copied) (other : ℕ) → AreJoined old → IsGroup old.units rg → ChangesOwners old new → slice_get (copies_at old rg) index ≡ Some copy → owner_at new.owners ≡ moved (owner_at old.owners) copy → IsGroup old.units other → live_at new.units other ≡ live_at old.units other }
{}
