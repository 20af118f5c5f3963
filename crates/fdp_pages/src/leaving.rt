//! How the targets of a group are closed.
ghost use Rattle.std.specs.Prelude.{◌≡◌, ◌⊎◌, ◌≤◌, ◌||◌, ℕ, IsTrue, Some, length};
ghost use Rattle.fdp_pages.specs.Leaving.{ClosesTarget, ClosesTargets};
ghost use Rattle.fdp_passes.specs.declared.lane.Lane.{Lane as Way};
ghost use Rattle.fdp_passes.specs.GroupPasses.{IsLane, target_at};
ghost use Rattle.fdp_units.specs.declared.state.UnitState.TheVariants.{Closed};
ghost use Rattle.fdp_units.specs.DataUnits.{is_closed, is_open};
ghost use Rattle.fdp_units.specs.UnitTable.{IsUnit, cut_of, is_worn_at, state_at, unit_at};

use crate::taking::close_open;
use fdp_base::Class;
use fdp_passes::{GroupPasses, Lane};
use fdp_units::Units;

/// The target of a lane is closed, if it has one.
fn close_target(units: &mut Units, passes: &GroupPasses, lane: Lane)
    requires lane { IsLane lane }
    requires target { (unit : ℕ) → target_at passes.now lane ≡ Some unit → IsUnit units.old unit × IsTrue (is_open (state_at units.old unit) || is_closed (state_at units.old unit)) }
    ensures units { (unit : ℕ) → (unit_at units.new unit ≡ unit_at units.old unit) ⊎ ClosesTarget passes.now units.old units.new unit }
    ensures closed { (unit : ℕ) → target_at passes.now lane ≡ Some unit → state_at units.new unit ≡ Closed }
    ensures cut { cut_of units.new ≡ cut_of units.old }
    ensures worn { is_worn_at units.new ≡ is_worn_at units.old }
{
    if let Some(unit) = passes.target(lane) {
        close_open(units, unit);
    }
}

/// The targets of a group are closed: those of the lanes of these handles.
pub(crate) fn close_targets(units: &mut Units, passes: &GroupPasses, classes: &[Class])
    requires few { length classes.now ≤ 16 }
    requires targets { (lane : Way) (unit : ℕ) → target_at passes.now lane ≡ Some unit → IsUnit units.old unit × IsTrue (is_open (state_at units.old unit)) }
    ensures { ClosesTargets passes.now classes.now (length classes.now) units.old units.new }
{
    for ruh in 0..classes.len() as u8 {
        close_target(units, passes, Lane::of(classes[usize::from(ruh)], ruh));
    }
}
