ghost use Rattle.std.specs.Prelude.{◌≡◌, ◌≤◌, ◌<◌, None, IfSome};
ghost use Rattle.fdp_base.specs.Geometry.{IsValidGeometry, area_pages};
ghost use Rattle.fdp_image.specs.Replacing.{pages_for};

use fdp_base::Geometry;
use fdp_snapshot::{FIXED_SIZE, Summary, end_of_blocks};

/// How many pages the checkpoint of a state takes, where a system area has room for them and for their seal.
pub fn page_count(geometry: &Geometry, summary: &Summary) -> Option<u32>
    requires { IsValidGeometry geometry.now }
    ensures count { IfSome result (λ count. count ≡ pages_for geometry.now.block summary.now) }
    ensures fits { IfSome result (λ count. count < area_pages geometry.now) }
    ensures none { result ≡ None → area_pages geometry.now ≤ pages_for geometry.now.block summary.now }
{
    let block = geometry.block as usize;
    let room = geometry.area_pages() as usize * block;
    if room < FIXED_SIZE {
        return None;
    }
    let end = end_of_blocks(summary.spaces.as_slice(), room)?;
    let count = ((end + (block - 1)) / block) as u32;
    if count < geometry.area_pages() {
        Some(count)
    } else {
        None
    }
}
