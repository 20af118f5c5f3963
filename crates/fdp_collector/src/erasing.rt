ghost use Rattle.std.specs.Prelude.{[], ◌∷◌, ◌≡◌, ◌<◌, ℕ, None};
ghost use Rattle.fdp_base.specs.Geometry.{all_units};
ghost use Rattle.fdp_calls.specs.Calls.{MakesCalls, erase_at};
ghost use Rattle.fdp_collector.specs.Erasing.{state_after, worn_after};
ghost use Rattle.fdp_flash.specs.Answers.{Erases, wrote_failed};
ghost use Rattle.fdp_flash.specs.Cells.{EraseMayLeave};
ghost use Rattle.fdp_flash.specs.Runs.{Runs};
ghost use Rattle.fdp_units.specs.DataUnits.{turned};
ghost use Rattle.fdp_units.specs.UnitTable.{Changes, IsUnit, is_worn_at, state_at, unit_at};

use fdp_flash::{Flash, Wrote};
use fdp_passes::GroupPasses;
use fdp_units::{UnitState, Units};

/// Erases a closed unit without a live page, and ends the pass. A unit whose erase failed is retired. It makes one call of the
/// flash.
pub fn erase_victim<F: Flash>(
    passes: &mut GroupPasses,
    units: &mut Units,
    flash: &mut F,
    unit: u32,
) -> Wrote
    requires unit { IsUnit units.old unit }
    requires closed { state_at units.old unit ≡ UnitState.Closed }
    requires empty { (unit_at units.old unit).live ≡ 0 }
    requires place { unit < all_units (F.state flash.old).geometry }
    ensures run { Runs (F.state flash.old) (F.state flash.new) (λ m image. EraseMayLeave (F.state flash.old).geometry (F.state flash.old).cells unit image) }
    ensures answer { Erases (F.state flash.old) (F.state flash.new) unit result }
    ensures made { MakesCalls (F.state flash.old) (F.state flash.new) (erase_at unit (wrote_failed result) ∷ []) }
    ensures passes { passes.new ≡ record passes.old { pass = None } }
    ensures unit { Changes units.old units.new unit (turned units.old.unit_pages (state_after result) (unit_at units.old unit)) }
    ensures worn { is_worn_at units.new ≡ worn_after units.old unit result }
{
    passes.end();
    match flash.erase(unit) {
        Wrote::Done => {
            units.turn(unit, UnitState::Free);
            Wrote::Done
        }
        Wrote::Failed => {
            units.turn(unit, UnitState::Retired);
            Wrote::Failed
        }
    }
}
