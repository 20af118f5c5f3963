ghost use Rattle.std.specs.Prelude.{◌≡◌, ◌≤◌, ◌<◌, ◌↔◌, IsTrue};
ghost use Rattle.fdp_base.specs.Geometry.{IsValidGeometry, all_units, data_units};
ghost use Rattle.fdp_flash.specs.Layout.{IsIn, first_page, page_number};

use fdp_base::{Geometry, Spot};

/// The number of the first page of a unit.
pub fn first_index(geometry: Geometry, unit: u32) -> usize
    requires unit { unit < all_units geometry }
    requires valid { IsValidGeometry geometry }
    ensures { result ≡ first_page geometry unit }
{
    unit as usize * geometry.unit_pages as usize
}

/// The number of a page.
pub fn page_index(geometry: Geometry, at: Spot) -> usize
    requires place { IsIn geometry at }
    requires valid { IsValidGeometry geometry }
    ensures { result ≡ page_number geometry at }
{
    first_index(geometry, at.unit) + at.page as usize
}

/// Whether a unit is one of data.
pub fn is_data_unit(geometry: Geometry, unit: u32) -> bool
    requires { IsValidGeometry geometry }
    ensures { IsTrue result ↔ (unit < data_units geometry) }
{
    unit < geometry.data_units()
}

/// Whether a page is one of the flash.
pub fn has_place(geometry: Geometry, at: Spot) -> bool
    requires { IsValidGeometry geometry }
    ensures { IsTrue result ↔ IsIn geometry at }
{
    at.page < geometry.unit_pages && at.unit < geometry.all_units()
}
