ghost use Rattle.std.specs.Prelude.{◌≡◌, ℕ, IfSome, IsSome};
ghost use Rattle.fdp_passes.specs.GroupPasses.{IsLane, target_at};
ghost use Rattle.fdp_passes.specs.Place.{IsFreePlace, IsPlaceFor};
ghost use Rattle.fdp_units.specs.UnitTable.{IsGroup, IsUnit};

use crate::group_passes::GroupPasses;
use crate::lane::Lane;
use fdp_base::Spot;
use fdp_units::Units;

/// Where the next copy of a lane goes.
#[derive(Clone, Copy, Debug, PartialEq, Eq)]
pub enum Place {
    /// To this page of its target.
    At(Spot),
    /// The lane has no target: this free unit becomes it.
    Take(u32),
    /// It has none, and no unit is free.
    Worn,
    /// It has none any more, and the pass took a free unit before.
    Full,
}

/// Where the next copy of a lane goes.
pub fn next_place(passes: &GroupPasses, units: &Units, lane: Lane, rg: u16) -> Place
    requires group { IsGroup units.now rg }
    requires lane { IsLane lane }
    requires pass { IsSome passes.now.pass }
    requires target { IfSome (target_at passes.now lane) (λ unit. IsUnit units.now unit) }
    ensures { IsPlaceFor passes.now units.now rg lane result }
{
    match passes.target(lane) {
        Some(unit) => Place::At(Spot {
            unit,
            page: units.get(unit).next,
        }),
        None => {
            if passes.took_unit() {
                Place::Full
            } else {
                place_in_free(units, rg)
            }
        }
    }
}

/// The lowest free unit of a group as a place.
fn place_in_free(units: &Units, rg: u16) -> Place
    requires { IsGroup units.now rg }
    ensures { IsFreePlace units.now rg result }
{
    match units.lowest_free(rg) {
        Some(unit) => Place::Take(unit),
        None => Place::Worn,
    }
}
