ghost use Rattle.std.specs.Prelude.{◌≡◌, ℕ, ◌≤◌, ◌<◌, Bool, IfSome, IsSome, IsTrue, Some, length};
ghost use Rattle.fdp_collector.specs.Leaving.{StepMayLeave};
ghost use Rattle.fdp_collector.specs.Ready.{AreOfFlash, IsReady, IsStored, Relocation, lane_at};
ghost use Rattle.fdp_collector.specs.Step.{AddsCopy, GoesAside, IsStep, SkipsPage};
ghost use Rattle.fdp_flash.specs.Runs.{Runs};
ghost use Rattle.fdp_owners.specs.OwnerTable.{owner_at};
ghost use Rattle.fdp_passes.specs.declared.due.Due.TheVariants as due;
ghost use Rattle.fdp_passes.specs.Due.{AreOfOneCut, IsDue};
ghost use Rattle.fdp_passes.specs.GroupPasses.{IsLane, target_at};
ghost use Rattle.fdp_passes.specs.Targets.{HasPlace};
ghost use Rattle.fdp_units.specs.DataUnits.{is_open};
ghost use Rattle.fdp_units.specs.UnitTable.{IsGroup, IsUnit, state_at};

use crate::copying::read_page;
use crate::step::{Lost, Step};
use fdp_base::{Class, Copied, Spot};
use fdp_flash::{Flash, Wrote};
use fdp_owners::{Owner, Owners};
use fdp_passes::{GroupPasses, Lane, go_on, has_place, open_page, use_target};
use fdp_units::{UnitState, Units};

/// Where the copy of a page goes.
fn lane_of_owner(classes: &[Class], owner: &Owner) -> Lane
    requires handle { owner.now.spare.ruh < length classes.now }
    requires few { length classes.now ≤ 16 }
    ensures value { result ≡ lane_at classes.now owner.now }
    ensures lane { IsLane result }
{
    let ruh = owner.spare.ruh;
    Lane::of(classes[usize::from(ruh)], ruh)
}

/// The page of a copy was used, and the pass has one copy more.
fn add_copy(passes: &mut GroupPasses, units: &mut Units, lane: Lane, copy: Copied)
    requires lane { IsLane lane }
    requires unit { IsUnit units.old copy.to.unit }
    requires open { IsTrue (is_open (state_at units.old copy.to.unit)) }
    requires pass { IsSome passes.old.pass }
    requires page { copy.from.page < passes.old.unit_pages }
    requires order { IfSome passes.old.pass (λ pass. pass.next ≤ copy.from.page) }
    ensures { AddsCopy (record { passes = passes.old; units = units.old }) (record { passes = passes.new; units = units.new }) lane copy }
{
    use_target(passes, units, lane, copy.to.unit);
    passes.copied(copy);
}

/// The page of a copy was used for nothing: the pass is given up where the pages left do not suffice. It looks at the pages of the
/// victim that are left.
fn skip_page(passes: &mut GroupPasses, units: &mut Units, owners: &Owners, lane: Lane, unit: u32)
    requires lane { IsLane lane }
    requires unit { IsUnit units.old unit }
    requires open { IsTrue (is_open (state_at units.old unit)) }
    requires target { target_at passes.old lane ≡ Some unit }
    requires cut { AreOfOneCut passes.old units.old owners.now }
    requires pass { IfSome passes.old.pass (λ pass. IsUnit units.old pass.victim) }
    ensures { SkipsPage (record { passes = passes.old; units = units.old }) (record { passes = passes.new; units = units.new }) owners.now lane unit }
{
    use_target(passes, units, lane, unit);
    go_on(passes, units, owners, lane);
}

/// A victim that could not be read is out of use, and its pass is given up.
fn set_aside(passes: &mut GroupPasses, units: &mut Units, unit: u32)
    requires unit { IsUnit units.old unit }
    requires closed { state_at units.old unit ≡ UnitState.Closed }
    ensures { GoesAside (record { passes = passes.old; units = units.old }) (record { passes = passes.new; units = units.new }) unit }
{
    units.turn(unit, UnitState::Aside);
    passes.end();
}

/// Copies the next live page of the victim.
pub(crate) fn copy_next<F: Flash>(
    passes: &mut GroupPasses,
    units: &mut Units,
    owners: &Owners,
    classes: &[Class],
    flash: &mut F,
    block: &mut [u8],
    rg: u16,
    from: Spot,
) -> Step
    requires group { IsGroup units.old rg }
    requires ready { IsReady (record { passes = passes.old; units = units.old }) owners.now classes.now rg }
    requires due { IsDue passes.old units.old owners.now rg (due.Copy from) }
    requires flash { AreOfFlash units.old (F.state flash.old).geometry }
    requires stored { IsTrue (F.state flash.old).told → IsStored (F.state flash.old).geometry (F.state flash.old).cells owners.now units.old }
    requires size { length block.old ≡ (F.state flash.old).geometry.block }
    ensures step { (may_erase : Bool) → IsStep owners.now classes.now rg may_erase (record { passes = passes.old; units = units.old }) (record { passes = passes.new; units = units.new }) (F.state flash.old) (F.state flash.new) result }
    ensures run { (may_erase : Bool) → Runs (F.state flash.old) (F.state flash.new) (λ m image. StepMayLeave may_erase (F.state flash.old).geometry units.old owners.now (F.state flash.old).cells image) }
    ensures block { length block.new ≡ length block.old }
{
    match owners.get(from) {
        Some(owner) => {
            let lane = lane_of_owner(classes, &owner);
            if has_place(passes, units, lane, rg) {
                copy_live(
                    passes, units, owners, classes, flash, block, rg, from, &owner,
                )
            } else {
                units.wear(rg);
                passes.end();
                Step::Starved
            }
        }
        // A live page has an owner.
        None => unreachable!(),
    }
}

/// Copies a live page for which a page can be had: that is taken once the live one was fetched.
fn copy_live<F: Flash>(
    passes: &mut GroupPasses,
    units: &mut Units,
    owners: &Owners,
    classes: &[Class],
    flash: &mut F,
    block: &mut [u8],
    rg: u16,
    from: Spot,
    owner: &Owner,
) -> Step
    requires group { IsGroup units.old rg }
    requires ready { IsReady (record { passes = passes.old; units = units.old }) owners.now classes.now rg }
    requires due { IsDue passes.old units.old owners.now rg (due.Copy from) }
    requires owned { owner_at owners.now from ≡ Some owner.now }
    requires place { HasPlace passes.old units.old rg (lane_at classes.now owner.now) }
    requires flash { AreOfFlash units.old (F.state flash.old).geometry }
    requires stored { IsTrue (F.state flash.old).told → IsStored (F.state flash.old).geometry (F.state flash.old).cells owners.now units.old }
    requires size { length block.old ≡ (F.state flash.old).geometry.block }
    ensures step { (may_erase : Bool) → IsStep owners.now classes.now rg may_erase (record { passes = passes.old; units = units.old }) (record { passes = passes.new; units = units.new }) (F.state flash.old) (F.state flash.new) result }
    ensures run { (may_erase : Bool) → Runs (F.state flash.old) (F.state flash.new) (λ m image. StepMayLeave may_erase (F.state flash.old).geometry units.old owners.now (F.state flash.old).cells image) }
    ensures block { length block.new ≡ length block.old }
{
    let lane = lane_of_owner(classes, owner);
    let spare = owner.spare.encode();
    if !read_page(flash, from, &spare, block) {
        set_aside(passes, units, from.unit);
        return Step::Fault(Lost::Aside(from.unit));
    }
    let to = open_page(passes, units, lane, rg, from.unit);
    match flash.program(to, &spare, block) {
        Wrote::Done => {
            let copy = Copied { from, to };
            add_copy(passes, units, lane, copy);
            Step::Copied(copy)
        }
        Wrote::Failed => {
            skip_page(passes, units, owners, lane, to.unit);
            Step::Fault(Lost::None)
        }
    }
}
