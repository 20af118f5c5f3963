ghost use Rattle.std.specs.Prelude.{◌≡◌, ◌≤◌, ◌<◌, IfSome, IsFalse, IsTrue, Some};
ghost use Rattle.fdp_passes.specs.Due.{AreOfOneCut};
ghost use Rattle.fdp_passes.specs.GroupPasses.{IsLane, target_at};
ghost use Rattle.fdp_passes.specs.Room.{room_in};
ghost use Rattle.fdp_passes.specs.Targets.{HasNoPlace, HasPlace, OpensPage, OpensTarget, UsesPage, goes_on, pass_in, with_pass};
ghost use Rattle.fdp_units.specs.declared.state.UnitState.TheVariants.{Target};
ghost use Rattle.fdp_units.specs.DataUnits.{is_open};
ghost use Rattle.fdp_units.specs.UnitTable.{IsGroup, IsUnit, state_at};

use crate::group_passes::GroupPasses;
use crate::lane::Lane;
use crate::place::{Place, next_place};
use crate::room::suffices;
use fdp_base::Spot;
use fdp_owners::Owners;
use fdp_units::{UnitState, Units};

/// A pass begins, unless one is under way.
fn enter_pass(passes: &mut GroupPasses, victim: u32)
    ensures { passes.new ≡ with_pass (pass_in passes.old victim) passes.old }
{
    if passes.victim().is_none() {
        passes.begin(victim);
    }
}

/// Whether a page can be had for the next copy of a lane: in its target, or in a free unit.
pub fn has_place(passes: &GroupPasses, units: &Units, lane: Lane, rg: u16) -> bool
    requires group { IsGroup units.now rg }
    requires lane { IsLane lane }
    ensures place { IsTrue result → HasPlace passes.now units.now rg lane }
    ensures none { IsFalse result → HasNoPlace passes.now units.now rg lane }
{
    match passes.target(lane) {
        Some(_) => true,
        None => units.lowest_free(rg).is_some(),
    }
}

/// The target of a lane: a lane that has none takes the lowest free unit.
fn open_target(passes: &mut GroupPasses, units: &mut Units, lane: Lane, rg: u16, victim: u32) -> u32
    requires group { IsGroup units.old rg }
    requires lane { IsLane lane }
    requires target { IfSome (target_at passes.old lane) (λ unit. IsUnit units.old unit) }
    requires room { 1 ≤ room_in passes.old units.old lane }
    requires place { HasPlace passes.old units.old rg lane }
    ensures opened { OpensTarget passes.old passes.new units.old units.new rg victim lane result }
    ensures now { target_at passes.new lane ≡ Some result }
{
    enter_pass(passes, victim);
    match next_place(passes, units, lane, rg) {
        Place::At(spot) => spot.unit,
        Place::Take(unit) => {
            units.turn(unit, UnitState::Target);
            passes.take_target(lane, unit);
            unit
        }
        // It is asked only where a place can be had.
        Place::Worn => unreachable!(),
        Place::Full => unreachable!(),
    }
}

/// The page of the next copy of a lane: the next one of its target, for which the lowest free unit is taken where it has none.
pub fn open_page(
    passes: &mut GroupPasses,
    units: &mut Units,
    lane: Lane,
    rg: u16,
    victim: u32,
) -> Spot
    requires group { IsGroup units.old rg }
    requires lane { IsLane lane }
    requires target { IfSome (target_at passes.old lane) (λ unit. IsUnit units.old unit × (state_at units.old unit ≡ Target)) }
    requires room { 1 ≤ room_in passes.old units.old lane }
    requires place { HasPlace passes.old units.old rg lane }
    ensures { OpensPage passes.old passes.new units.old units.new rg victim lane result }
{
    let unit = open_target(passes, units, lane, rg, victim);
    Spot {
        unit,
        page: units.get(unit).next,
    }
}

/// The page of a copy was used: it was programmed, or its program failed. A target without pages left is none any more.
pub fn use_target(passes: &mut GroupPasses, units: &mut Units, lane: Lane, unit: u32)
    requires lane { IsLane lane }
    requires unit { IsUnit units.old unit }
    requires open { IsTrue (is_open (state_at units.old unit)) }
    ensures { UsesPage passes.old passes.new units.old units.new lane unit }
{
    units.use_page(unit);
    if units.get(unit).state.is_closed() {
        passes.drop_target(lane);
    }
}

/// A pass is given up where the pages that it may still use for a lane do not suffice for what it has to copy. It looks at the pages of
/// the victim that are left.
pub fn go_on(passes: &mut GroupPasses, units: &Units, owners: &Owners, lane: Lane)
    requires cut { AreOfOneCut passes.old units.now owners.now }
    requires lane { IsLane lane }
    requires pass { IfSome passes.old.pass (λ pass. IsUnit units.now pass.victim) }
    requires target { IfSome (target_at passes.old lane) (λ unit. IsUnit units.now unit) }
    ensures { passes.new ≡ goes_on passes.old units.now owners.now lane }
{
    if !suffices(passes, units, owners, lane) {
        passes.end();
    }
}
