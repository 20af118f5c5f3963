//! The reclaim groups of data units and pages.

ghost use Rattle.std.specs.Prelude.{◌≡◌, ◌<◌, slice_index};
ghost use Rattle.fdp_base.specs.Config.{IsInRange};
ghost use Rattle.fdp_base.specs.Geometry.{data_units};
ghost use Rattle.fdp_base.specs.Placement.{geometry_of};
ghost use Rattle.fdp_rules.specs.Sites.{group_of};
ghost use Rattle.fdp_image.specs.Areas.{data_pages};
ghost use Rattle.fdp_image.specs.Reading.{group_of_page};

use fdp_base::DriveConfig;

/// The reclaim group of a data unit.
pub fn group_of(config: &DriveConfig, unit: u32) -> u16
    requires config { IsInRange config.now }
    requires unit { unit < data_units (geometry_of config.now) }
    ensures value { result ≡ group_of config.now unit }
{
    (unit / config.units) as u16
}

/// The reclaim group in which a data page lies.
pub fn group_of_page(config: &DriveConfig, page: u32) -> u16
    requires config { IsInRange config.now }
    requires page { page < data_pages (geometry_of config.now) }
    ensures value { result ≡ group_of_page config.now page }
{
    group_of(config, page / config.unit_pages)
}

/// The first page of a write.
pub fn first_page(pages: &[u32]) -> u32
    ensures { result ≡ slice_index pages.now 0 }
{
    match pages.first() {
        Some(page) => *page,
        None => 0,
    }
}
