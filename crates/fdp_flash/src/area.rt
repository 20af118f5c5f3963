ghost use Rattle.std.specs.Prelude.{◌≡◌, ◌+◌, ◌≤◌, IsTrue};
ghost use Rattle.fdp_flash.specs.Area.{AreaMayLeave, IsBlankArea};
ghost use Rattle.fdp_flash.specs.Failing.{FailsLast};
ghost use Rattle.fdp_flash.specs.Planned.{MakesPlanned, calls_from, erase_of};
ghost use Rattle.fdp_base.specs.Geometry.{all_units};
ghost use Rattle.fdp_flash.specs.Runs.{Holds};

use crate::answer::Wrote;
use crate::flash::Flash;

/// Erases units that follow one another, lowest first, up to the first erase that fails. It makes one call a unit.
pub fn erase_area<F: Flash>(flash: &mut F, first: u32, count: u32) -> Wrote
    requires place { first + count ≤ all_units (F.state flash.old).geometry }
    ensures held { Holds (AreaMayLeave (F.state flash.old).geometry first count (F.state flash.old).cells) (F.state flash.old) (F.state flash.new) }
    ensures done { IsTrue (F.state flash.old).told → result ≡ Wrote.Done → IsBlankArea (F.state flash.old).geometry first count (F.state flash.new).cells }
    ensures faultless { result ≡ Wrote.Done → (F.state flash.new).faults ≡ (F.state flash.old).faults }
    ensures calls { MakesPlanned (F.state flash.old) (F.state flash.new) (calls_from erase_of first count) result }
    ensures failed { result ≡ Wrote.Failed → FailsLast (F.state flash.old) (F.state flash.new) (F.state flash.new).moment }
    ensures programs { (F.state flash.new).programs ≡ (F.state flash.old).programs }
{
    for i in 0..count {
        match flash.erase(first + i) {
            Wrote::Done => {}
            Wrote::Failed => return Wrote::Failed,
        }
    }
    Wrote::Done
}
