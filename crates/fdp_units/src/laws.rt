ghost use Rattle.std.specs.Prelude.{◌≡◌, ℕ, ◌+◌, ◌*◌, ◌≤◌};
ghost use Rattle.fdp_units.specs.DataUnits.{is_closed, is_free, is_lost, is_referenced, is_target};
ghost use Rattle.fdp_units.specs.UnitTable.{HasNoVictim, IsGroup, UnitTable, count_in, live_at};

/// Each unit of a group is free, referenced, a target, closed or lost.
pub fn units_are_counted_once()
    ensures { (t : UnitTable) (rg : ℕ) → count_in t rg is_free + count_in t rg is_referenced + count_in t rg is_target + count_in t rg is_closed + count_in t rg is_lost ≡ t.group_units }
{}

/// Where relocation gains nothing in a group, the pages of its closed units are all live.
pub fn full_units_are_live()
    ensures { (t : UnitTable) (rg : ℕ) → IsGroup t rg → HasNoVictim t rg → t.unit_pages * count_in t rg is_closed ≤ live_at t rg }
{}
