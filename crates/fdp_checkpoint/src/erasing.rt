ghost use Rattle.std.specs.Prelude.{◌≡◌, ◌≤◌, IsTrue};
ghost use Rattle.fdp_base.specs.Geometry.{IsValidGeometry};
ghost use Rattle.fdp_checkpoint.specs.Writing.{IsErasing};
ghost use Rattle.fdp_flash.specs.Failing.{FailsLast};
ghost use Rattle.fdp_flash.specs.Planned.{MakesPlanned, calls_from, erase_of};
ghost use Rattle.fdp_flash.specs.Runs.{Holds};
ghost use Rattle.fdp_image.specs.Areas.{area_of, area_unit};
ghost use Rattle.fdp_image.specs.Saving.{AreBlankFrom};

use crate::target::Target;
use fdp_flash::{Flash, Wrote, erase_area};

/// Erases the area, unit by unit. What a stop leaves of it is not sealed, or sealed as it was with a beginning of its journal.
pub fn erase<F: Flash>(flash: &mut F, target: &Target) -> Wrote
    requires geometry { target.now.geometry ≡ (F.state flash.old).geometry }
    requires valid { IsValidGeometry target.now.geometry }
    requires area { target.now.area ≤ 1 }
    ensures held { Holds (IsErasing target.now.geometry target.now.area (F.state flash.old).cells) (F.state flash.old) (F.state flash.new) }
    ensures done { IsTrue (F.state flash.old).told → result ≡ Wrote.Done → AreBlankFrom 0 (area_of target.now.geometry target.now.area (F.state flash.new).cells) }
    ensures faultless { result ≡ Wrote.Done → (F.state flash.new).faults ≡ (F.state flash.old).faults }
    ensures programs { (F.state flash.new).programs ≡ (F.state flash.old).programs }
    ensures calls { MakesPlanned (F.state flash.old) (F.state flash.new) (calls_from erase_of (area_unit target.now.geometry target.now.area) target.now.geometry.area_units) result }
    ensures failed { result ≡ Wrote.Failed → FailsLast (F.state flash.old) (F.state flash.new) (F.state flash.new).moment }
{
    let geometry = &target.geometry;
    let first = geometry.data_units() + u32::from(target.area) * geometry.area_units;
    erase_area(flash, first, geometry.area_units)
}
