//! How a handle uses the next page of a unit.
ghost use Rattle.std.specs.Prelude.{◌≡◌, ◌+◌, ◌||◌, IsTrue};
ghost use Rattle.fdp_pages.specs.Steps.{closed_after, taken};
ghost use Rattle.fdp_units.specs.DataUnits.{is_closed, is_free, is_open, is_referenced, used};
ghost use Rattle.fdp_units.specs.UnitTable.{Changes, IsUnit, is_worn_at, state_at, unit_at};

use fdp_units::{UnitState, Units};

/// A handle takes a unit where it is free.
fn take_free(units: &mut Units, unit: u32)
    requires unit { IsUnit units.old unit }
    requires state { IsTrue (is_free (state_at units.old unit) || is_referenced (state_at units.old unit)) }
    ensures unit { Changes units.old units.new unit (taken (unit_at units.old unit)) }
    ensures worn { is_worn_at units.new ≡ is_worn_at units.old }
{
    if units.get(unit).state.is_free() {
        units.turn(unit, UnitState::Referenced);
    }
}

/// The next page of a unit is used by a handle, which takes the unit where it is free.
pub(crate) fn use_next(units: &mut Units, unit: u32)
    requires unit { IsUnit units.old unit }
    requires state { IsTrue (is_free (state_at units.old unit) || is_referenced (state_at units.old unit)) }
    ensures unit { Changes units.old units.new unit (used units.old.unit_pages (taken (unit_at units.old unit))) }
    ensures worn { is_worn_at units.new ≡ is_worn_at units.old }
{
    take_free(units, unit);
    units.use_page(unit);
}

/// An open unit is closed, unless it is full and so closed already.
pub(crate) fn close_open(units: &mut Units, unit: u32)
    requires unit { IsUnit units.old unit }
    requires state { IsTrue (is_open (state_at units.old unit) || is_closed (state_at units.old unit)) }
    ensures unit { Changes units.old units.new unit (record (unit_at units.old unit) { state = UnitState.Closed }) }
    ensures worn { is_worn_at units.new ≡ is_worn_at units.old }
{
    if units.get(unit).state.is_open() {
        units.turn(unit, UnitState::Closed);
    }
}

/// The next page of a unit is used for nothing, and the unit is closed.
pub(crate) fn waste_next(units: &mut Units, unit: u32)
    requires unit { IsUnit units.old unit }
    requires state { IsTrue (is_free (state_at units.old unit) || is_referenced (state_at units.old unit)) }
    ensures unit { Changes units.old units.new unit (closed_after (unit_at units.old unit)) }
    ensures worn { is_worn_at units.new ≡ is_worn_at units.old }
{
    use_next(units, unit);
    close_open(units, unit);
}
