ghost use Rattle.std.specs.Prelude.{◌≡◌, IsTrue, length};
ghost use Rattle.fdp_collector.specs.Leaving.{StepMayLeave};
ghost use Rattle.fdp_collector.specs.Ready.{AreOfFlash, IsReady, IsStored, Relocation};
ghost use Rattle.fdp_collector.specs.Step.{IsStep};
ghost use Rattle.fdp_flash.specs.Runs.{Runs};
ghost use Rattle.fdp_units.specs.UnitTable.{IsGroup};

use crate::copy_step::copy_next;
use crate::erasing::erase_victim;
use fdp_base::{Class, Copied};
use fdp_flash::{Flash, Wrote};
use fdp_owners::Owners;
use fdp_passes::{Due, GroupPasses, next_step};
use fdp_units::Units;

/// What a failed call made of a unit.
#[derive(Clone, Copy, Debug, PartialEq, Eq)]
pub enum Lost {
    /// Nothing: a page of a target was skipped.
    None,
    /// A page of this victim could not be read: it is out of use, and its pass is given up.
    Aside(u32),
    /// The erase of this victim failed: it is out of use.
    Retired(u32),
}

/// One step of relocation.
#[derive(Clone, Copy, Debug, PartialEq, Eq)]
pub enum Step {
    /// No pass is under way, and none is to begin.
    Nothing,
    /// A live page of the victim was copied.
    Copied(Copied),
    /// Each live page of the victim is copied: the copies are to be moved.
    ReadyToMove,
    /// The victim was erased.
    Erased(u32),
    /// The victim is to be erased, which may not be done yet.
    EraseDue,
    /// No unit is free for the next copy: the group is worn, and the pass given up.
    Starved,
    /// A call of the flash failed.
    Fault(Lost),
}

/// The next step of relocation in a group. Live pages stay as they are: who owns them is changed by the move, which is another's.
/// It makes at most two calls of the flash, and takes no memory. It looks at the pages of the victim up to the next live one, after a
/// failed program at all that are left.
pub fn advance<F: Flash>(
    passes: &mut GroupPasses,
    units: &mut Units,
    owners: &Owners,
    classes: &[Class],
    flash: &mut F,
    block: &mut [u8],
    rg: u16,
    may_erase: bool,
) -> Step
    requires group { IsGroup units.old rg }
    requires ready { IsReady (record { passes = passes.old; units = units.old }) owners.now classes.now rg }
    requires flash { AreOfFlash units.old (F.state flash.old).geometry }
    requires stored { IsTrue (F.state flash.old).told → IsStored (F.state flash.old).geometry (F.state flash.old).cells owners.now units.old }
    requires size { length block.old ≡ (F.state flash.old).geometry.block }
    ensures step { IsStep owners.now classes.now rg may_erase (record { passes = passes.old; units = units.old }) (record { passes = passes.new; units = units.new }) (F.state flash.old) (F.state flash.new) result }
    ensures ready { IsReady (record { passes = passes.new; units = units.new }) owners.now classes.now rg }
    ensures run { Runs (F.state flash.old) (F.state flash.new) (λ m image. StepMayLeave may_erase (F.state flash.old).geometry units.old owners.now (F.state flash.old).cells image) }
    ensures stored { IsTrue (F.state flash.old).told → IsStored (F.state flash.old).geometry (F.state flash.new).cells owners.now units.new }
    ensures block { length block.new ≡ length block.old }
{
    make_step(passes, units, owners, classes, flash, block, rg, may_erase)
}

/// What is due, as it is said of `advance`.
fn make_step<F: Flash>(
    passes: &mut GroupPasses,
    units: &mut Units,
    owners: &Owners,
    classes: &[Class],
    flash: &mut F,
    block: &mut [u8],
    rg: u16,
    may_erase: bool,
) -> Step
    requires group { IsGroup units.old rg }
    requires ready { IsReady (record { passes = passes.old; units = units.old }) owners.now classes.now rg }
    requires flash { AreOfFlash units.old (F.state flash.old).geometry }
    requires stored { IsTrue (F.state flash.old).told → IsStored (F.state flash.old).geometry (F.state flash.old).cells owners.now units.old }
    requires size { length block.old ≡ (F.state flash.old).geometry.block }
    ensures step { IsStep owners.now classes.now rg may_erase (record { passes = passes.old; units = units.old }) (record { passes = passes.new; units = units.new }) (F.state flash.old) (F.state flash.new) result }
    ensures run { Runs (F.state flash.old) (F.state flash.new) (λ m image. StepMayLeave may_erase (F.state flash.old).geometry units.old owners.now (F.state flash.old).cells image) }
    ensures block { length block.new ≡ length block.old }
{
    match next_step(passes, units, owners, rg) {
        Due::Nothing => Step::Nothing,
        Due::Copy(from) => copy_next(passes, units, owners, classes, flash, block, rg, from),
        Due::Move => Step::ReadyToMove,
        Due::Erase(unit) => {
            if may_erase {
                match erase_victim(passes, units, flash, unit) {
                    Wrote::Done => Step::Erased(unit),
                    Wrote::Failed => Step::Fault(Lost::Retired(unit)),
                }
            } else {
                Step::EraseDue
            }
        }
    }
}
