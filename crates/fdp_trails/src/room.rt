ghost use Rattle.std.specs.Prelude.{◌≡◌, ℕ, ◌+◌, ◌*◌, ◌<◌, ◌≤◌, Bool, IsTrue, Option, Some};
ghost use Rattle.fdp_base.specs.declared.command.Write.{Write};
ghost use Rattle.fdp_base.specs.declared.config.DriveConfig.{DriveConfig};
ghost use Rattle.fdp_base.specs.CommandKinds.{write_of};
ghost use Rattle.fdp_rules.specs.PlainState.{Going, PlainState};
ghost use Rattle.fdp_rules.specs.Point.{Point};
ghost use Rattle.fdp_rules.specs.Room.{is_over_budget, stored};
ghost use Rattle.fdp_rules.specs.Step.{exceeds_budget};
ghost use Rattle.fdp_history.specs.OrderlyState.{IsOrderlyState};
ghost use Rattle.fdp_history.specs.Standing.{IsStanding};
ghost use Rattle.fdp_pointers.specs.Facts.{IsTableOf, Page};
ghost use Rattle.fdp_pointers.specs.Pointers.{Behind};
ghost use Rattle.fdp_owners.specs.Owned.{AreOwners};
ghost use Rattle.fdp_owners.specs.OwnerTable.{OwnerTable, live_in, owner_at};
ghost use Rattle.fdp_units.specs.declared.state.UnitState.{UnitState};
ghost use Rattle.fdp_units.specs.UnitTable.{IsGroup, IsUnit, UnitTable, count_in, group_in, live_at, state_at, unit_at};
ghost use Rattle.fdp_trails.specs.Crowded.{IsCrowded};

/// Where a group has no room, each write of one block or more to it exceeds its budget; so a host that finds no page there is told so
/// with cause.
pub fn crowded_groups_are_over_budget()
    ensures write { (t : UnitTable) (c : DriveConfig) (s : PlainState) (rg nsid slba count : ℕ) → IsCrowded t c s rg → 1 ≤ count → IsTrue (is_over_budget c s rg nsid slba count) }
    ensures going { (t : UnitTable) (c : DriveConfig) (s : PlainState) (g : Going) (w : Write) → IsCrowded t c s g.rg → write_of g.command ≡ Some w → 1 ≤ w.count → IsTrue (exceeds_budget c s g) }
{}

/// The live pages of a group are at most its stored blocks and the pages of writes that are going.
pub fn live_pages_are_stored_or_going()
    ensures { (c : DriveConfig) (p : Point) (pages : ℕ → ℕ) (at : Behind Page) (t : UnitTable) (o : OwnerTable) (rg : ℕ) → IsOrderlyState c p.state → IsStanding c p → IsTableOf c p pages at → AreOwners (owner_at o) at → c.units ≡ t.group_units → IsGroup t rg → ((unit : ℕ) → IsUnit t unit → (unit_at t unit).live ≡ live_in o unit) → live_at t rg ≤ stored p.state rg + c.queues * c.blocks_per_command }
{}

/// Units of a group that are each held by another of so many handles are at most so many.
pub fn held_units_are_few()
    ensures { (t : UnitTable) (rg handles : ℕ) (test : UnitState → Bool) (holds : ℕ → Option ℕ) → IsGroup t rg → ((unit : ℕ) → IsUnit t unit → group_in t unit ≡ rg → IsTrue (test (state_at t unit)) → (ruh : ℕ) × (ruh < handles) × (holds ruh ≡ Some unit)) → count_in t rg test ≤ handles }
{}
