ghost use Rattle.std.specs.Prelude.{◌≡◌, ◌-◌, ◌≤◌, Decides, IfSome, IsSome};
ghost use Rattle.fdp_passes.specs.Due.{AreOfOneCut, HasPages};
ghost use Rattle.fdp_passes.specs.GroupPasses.{IsLane, target_at};
ghost use Rattle.fdp_passes.specs.Room.{left_in, live_among, room_in, wanted_in};
ghost use Rattle.fdp_units.specs.UnitTable.{IsUnit};

use crate::group_passes::GroupPasses;
use crate::lane::Lane;
use fdp_base::Spot;
use fdp_owners::Owners;
use fdp_units::Units;

/// How many pages of a unit are live from a page on. It looks at each of them.
fn live_from(owners: &Owners, unit: u32, first: u32) -> u32
    requires pages { HasPages owners.now unit }
    requires first { first ≤ owners.now.unit_pages }
    ensures { result ≡ live_among owners.now unit first (owners.now.unit_pages - first) }
{
    let mut live = 0;
    for page in first..owners.unit_pages() {
        live += u32::from(owners.get(Spot { unit, page }).is_some());
    }
    live
}

/// How many pages are left of the target of a lane.
fn left_of_target(passes: &GroupPasses, units: &Units, lane: Lane) -> u32
    requires lane { IsLane lane }
    requires target { IfSome (target_at passes.now lane) (λ unit. IsUnit units.now unit) }
    ensures { result ≡ left_in passes.now units.now lane }
{
    match passes.target(lane) {
        Some(unit) => units.unit_pages() - units.get(unit).next,
        None => 0,
    }
}

/// Whether the pages that a pass may still use for a lane suffice for the live pages that it has not copied.
pub fn suffices(passes: &GroupPasses, units: &Units, owners: &Owners, lane: Lane) -> bool
    requires cut { AreOfOneCut passes.now units.now owners.now }
    requires lane { IsLane lane }
    requires pass { IfSome passes.now.pass (λ pass. IsUnit units.now pass.victim) }
    requires target { IfSome (target_at passes.now lane) (λ unit. IsUnit units.now unit) }
    ensures { Decides result (wanted_in passes.now owners.now ≤ room_in passes.now units.now lane) }
{
    let left = left_of_target(passes, units, lane);
    match passes.victim() {
        Some(unit) => {
            let wanted = live_from(owners, unit, passes.next_page());
            if passes.took_unit() {
                wanted <= left
            } else {
                u64::from(wanted) <= u64::from(left) + u64::from(units.unit_pages())
            }
        }
        None => true,
    }
}
