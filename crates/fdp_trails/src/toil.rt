ghost use Rattle.std.specs.Prelude.{◌≡◌, ◌≢◌, ◌||◌, ℕ, ◌+◌, ◌<◌, ◌≤◌, IsTrue, List, not};
ghost use Rattle.fdp_base.specs.declared.entry.Copied.{Copied};
ghost use Rattle.fdp_owners.specs.OwnerTable.{OwnerTable};
ghost use Rattle.fdp_units.specs.declared.data_unit.DataUnit.{DataUnit};
ghost use Rattle.fdp_units.specs.declared.state.UnitState.{UnitState};
ghost use Rattle.fdp_units.specs.declared.state.UnitState.TheVariants.{Closed, Target};
ghost use Rattle.fdp_units.specs.DataUnits.{IsSound, gain_of, is_closed, is_end_of_erase, is_free, is_target, lowered, raised, turned, used};
ghost use Rattle.fdp_units.specs.UnitTable.{Changes, IsGroup, IsUnit, UnitTable, group_in, toil_of, unit_at};
ghost use Rattle.fdp_trails.specs.Toil.{AreTallied, MovesOwners, is_live, is_stale, pages_where};

/// The toil of a group lies between the pages of it that relocation can win and all its pages that are not live.
pub fn toil_is_what_can_be_won()
    ensures least { (t : UnitTable) (o : OwnerTable) (rg : ℕ) → IsGroup t rg → AreTallied t o → pages_where t rg (is_stale t o) ≤ toil_of t rg }
    ensures most { (t : UnitTable) (o : OwnerTable) (rg : ℕ) → IsGroup t rg → AreTallied t o → toil_of t rg ≤ pages_where t rg (λ spot. not (is_live o spot)) }
{}

/// What the changes of one unit make of the toil of its group: the use of a page of a target adds one, a target that is taken adds nothing,
/// the move of an owner out of a closed unit adds what it takes away where it comes in, and an erase takes all pages of the unit away. So a
/// pass lowers the toil by the pages of its unit, but for as many as it copied.
pub fn toil_falls_by_passes()
    ensures one { (old new : UnitTable) (unit : ℕ) (x : DataUnit) → IsUnit old unit → Changes old new unit x → toil_of new (group_in old unit) + gain_of old.unit_pages (unit_at old unit) ≡ toil_of old (group_in old unit) + gain_of old.unit_pages x }
    ensures others { (old new : UnitTable) (unit rg : ℕ) (x : DataUnit) → group_in old unit ≢ rg → Changes old new unit x → toil_of new rg ≡ toil_of old rg }
    ensures copied { (pages : ℕ) (x : DataUnit) → IsSound pages x → x.state ≡ Target → gain_of pages (used pages x) ≡ gain_of pages x + 1 }
    ensures taken { (pages : ℕ) (x : DataUnit) → IsSound pages x → IsTrue (is_free x.state) → gain_of pages (turned pages Target x) ≡ gain_of pages x }
    ensures moved_out { (pages : ℕ) (x : DataUnit) → IsSound pages x → x.state ≡ Closed → 1 ≤ x.live → gain_of pages (lowered x) ≡ gain_of pages x + 1 }
    ensures moved_in { (pages : ℕ) (x : DataUnit) → IsSound pages x → IsTrue (is_target x.state || is_closed x.state) → x.live < x.next → gain_of pages (raised x) + 1 ≡ gain_of pages x }
    ensures erased { (pages : ℕ) (x : DataUnit) (to : UnitState) → x.state ≡ Closed → x.live ≡ 0 → IsTrue (is_end_of_erase to) → gain_of pages (turned pages to x) + pages ≡ gain_of pages x }
{}

/// The move of the copies of a pass leaves the toil of its group as it is: what the unit that is emptied gains, the targets lose.
pub fn moves_keep_toil()
    ensures { (old new : UnitTable) (o now : OwnerTable) (rg : ℕ) (copies : List Copied) → IsGroup old rg → MovesOwners old new o now rg copies → toil_of new rg ≡ toil_of old rg }
{}
