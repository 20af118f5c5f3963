ghost use Rattle.std.specs.Prelude.{◌≡◌, ◌≤◌, ◌<◌, ◌+◌};
ghost use Rattle.fdp_base.specs.Geometry.{IsValidGeometry, area_pages};
ghost use Rattle.fdp_flash.specs.Layout.{first_page};
ghost use Rattle.fdp_image.specs.Areas.{area_unit};

use fdp_base::Geometry;
use fdp_image::page_of_area;

/// The number in the flash of a page of a system area.
pub fn number_in(geometry: &Geometry, area: u8, page: u32) -> u32
    requires geometry { IsValidGeometry geometry.now }
    requires area { area ≤ 1 }
    requires page { page < area_pages geometry.now }
    ensures { result ≡ first_page geometry.now (area_unit geometry.now area) + page }
{
    let at = page_of_area(geometry, area, page);
    at.unit * geometry.unit_pages + at.page
}
