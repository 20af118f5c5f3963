ghost use Rattle.std.specs.Prelude.{◌≡◌, ◌≤◌, ◌<◌, IsTrue, length};
ghost use Rattle.fdp_base.specs.Geometry.{IsValidGeometry, area_pages};
ghost use Rattle.fdp_image.specs.Areas.{area_of};
ghost use Rattle.fdp_areas.specs.Looking.{EndsLook, Shows};
ghost use Rattle.fdp_flash.specs.OnlyReads.{ReadsOnly};

use fdp_base::Geometry;
use fdp_flash::{Flash, Seen};
use fdp_image::page_of_area;

/// Looks at a page of a system area, by its number in the area. The buffers count only where it is whole.
pub fn look_at<F: Flash>(
    flash: &mut F,
    geometry: &Geometry,
    area: u8,
    number: u32,
    spare: &mut [u8; 32],
    page: &mut [u8],
) -> Seen
    requires geometry { geometry.now ≡ (F.state flash.old).geometry }
    requires valid { IsValidGeometry geometry.now }
    requires area { area ≤ 1 }
    requires number { number < area_pages geometry.now }
    requires room { length page.old ≡ geometry.now.block }
    ensures looks { ReadsOnly 1 (F.state flash.old) (F.state flash.new) }
    ensures shown { IsTrue (F.state flash.old).told → Shows (area_of geometry.now area (F.state flash.old).cells) number spare.new page.new result }
    ensures ends { EndsLook (F.state flash.old) (F.state flash.new) result }
{
    let at = page_of_area(geometry, area, number);
    flash.look(at, spare, page)
}
