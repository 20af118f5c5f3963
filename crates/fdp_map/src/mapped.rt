ghost use Rattle.std.specs.Prelude.{◌≡◌, ◌<◌, IfSome, option_map};
ghost use Rattle.fdp_map.specs.MapTable.{IsCut, IsPageOf};
ghost use Rattle.fdp_map.specs.PageLists.{data_pages, number_of, placed_on};

use fdp_base::{Geometry, Spot};

/// Where a block stands.
#[derive(Clone, Copy, Debug, PartialEq, Eq)]
pub struct Mapped {
    /// The page that holds the block.
    pub spot: Spot,
    /// The reclaim group of the page.
    pub rg: u16,
}

/// The number of a page of a data unit.
pub fn number_of(geometry: Geometry, spot: Spot) -> u32
    requires cut { IsCut geometry }
    requires page { IsPageOf geometry spot }
    ensures value { result ≡ number_of geometry spot }
    ensures within { result < data_pages geometry }
{
    spot.unit * geometry.unit_pages + spot.page
}

/// A block on the page with this number.
pub fn placed_on(geometry: Geometry, page: u32) -> Mapped
    requires cut { IsCut geometry }
    requires page { page < data_pages geometry }
    ensures { result ≡ placed_on geometry page }
{
    let unit = page / geometry.unit_pages;
    Mapped {
        spot: Spot {
            unit,
            page: page % geometry.unit_pages,
        },
        rg: (unit / geometry.units) as u16,
    }
}

/// A block on a page, if there is one.
pub fn placed(geometry: Geometry, page: Option<u32>) -> Option<Mapped>
    requires cut { IsCut geometry }
    requires page { IfSome page (λ n. n < data_pages geometry) }
    ensures { result ≡ option_map (placed_on geometry) page }
{
    match page {
        Some(page) => Some(placed_on(geometry, page)),
        None => None,
    }
}
