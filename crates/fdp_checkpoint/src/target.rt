ghost use Rattle.std.specs.Prelude.{◌≡◌, ◌≤◌, ◌<◌, IsTrue, length};
ghost use Rattle.fdp_base.specs.Geometry.{IsValidGeometry, area_pages};
ghost use Rattle.fdp_checkpoint.specs.Target.{ProgramsIn};
ghost use Rattle.fdp_image.specs.Areas.{area_of};
ghost use Rattle.fdp_image.specs.Saving.{AreBlankFrom};

use fdp_base::Geometry;
use fdp_flash::{Flash, Wrote};
use fdp_image::page_of_area;
use fdp_records::{Stamp, SystemKind, SystemSpare};

/// The version of the images that are written.
pub const VERSION: u8 = 1;

/// Where a checkpoint goes: a flash of this geometry, one of its system areas, and the version and epoch of the pages.
#[derive(Debug, Drop)]
pub struct Target {
    pub geometry: Geometry,
    pub area: u8,
    pub stamp: Stamp,
}

/// Programs this page of the area with its kind and number.
pub fn program_page<F: Flash>(
    flash: &mut F,
    target: &Target,
    kind: SystemKind,
    number: u32,
    place: u32,
    page: &[u8],
) -> Wrote
    requires geometry { target.now.geometry ≡ (F.state flash.old).geometry }
    requires valid { IsValidGeometry target.now.geometry }
    requires area { target.now.area ≤ 1 }
    requires place { place < area_pages target.now.geometry }
    requires size { length page.now ≡ target.now.geometry.block }
    requires order { IsTrue (F.state flash.old).told → AreBlankFrom place (area_of target.now.geometry target.now.area (F.state flash.old).cells) }
    ensures { ProgramsIn target.now kind number place page.now (F.state flash.old) (F.state flash.new) result }
{
    let at = page_of_area(&target.geometry, target.area, place);
    let spare = SystemSpare {
        kind,
        number,
        stamp: target.stamp,
    };
    flash.program(at, &spare.encode(), page)
}
