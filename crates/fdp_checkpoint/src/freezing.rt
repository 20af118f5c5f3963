ghost use Rattle.std.specs.Prelude.{◌≡◌, ◌<◌, ◌*◌, length};
ghost use Rattle.fdp_base.specs.Geometry.{IsValidGeometry, area_pages};
ghost use Rattle.fdp_checkpoint.specs.Writing.{IsFrozen, with_pages};
ghost use Rattle.fdp_image.specs.Replacing.{pages_for};
ghost use Rattle.fdp_snapshot.specs.Checkpoint.{IsState};

use crate::target::VERSION;
use fdp_base::Geometry;
use fdp_snapshot::{FIXED_SIZE, PageList, Summary, put_fixed, put_page};

/// Puts the pages of the checkpoint of a state, its summary and the pages of its blocks, into room one behind another, so that they can be
/// programmed later. It looks for each block through at most sixteen lists, and takes no memory.
pub fn freeze(geometry: &Geometry, summary: &Summary, pages: &[PageList], room: &mut [u8])
    requires valid { IsValidGeometry geometry.now }
    requires state { IsState (with_pages summary.now pages.now) }
    requires fits { pages_for geometry.now.block summary.now < area_pages geometry.now }
    requires room { length room.old ≡ pages_for geometry.now.block summary.now * geometry.now.block }
    ensures { IsFrozen geometry.now.block (with_pages summary.now pages.now) room.new }
{
    let block = geometry.block as usize;
    let mut fixed = [0u8; FIXED_SIZE];
    put_fixed(summary, VERSION, fixed.as_mut_slice());
    for number in 0..room.len() / block {
        let start = number * block;
        put_page(
            fixed.as_slice(),
            pages,
            number,
            &mut room[start..start + block],
        );
    }
}
