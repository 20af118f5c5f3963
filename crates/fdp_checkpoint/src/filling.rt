ghost use Rattle.std.specs.Prelude.{◌≡◌, ◌≤◌, ◌<◌, ◌*◌, IsTrue, length};
ghost use Rattle.fdp_base.specs.Geometry.{IsValidGeometry, area_pages};
ghost use Rattle.fdp_checkpoint.specs.Writing.{HasPages, IsUnsealed, page_call, with_pages};
ghost use Rattle.fdp_flash.specs.Failing.{FailsLast};
ghost use Rattle.fdp_flash.specs.Planned.{MakesPlanned, calls_from};
ghost use Rattle.fdp_flash.specs.Runs.{Holds};
ghost use Rattle.fdp_image.specs.Areas.{area_of};
ghost use Rattle.fdp_image.specs.Saving.{AreBlankFrom};
ghost use Rattle.fdp_snapshot.specs.Checkpoint.{IsState, checkpoint_of, checkpoint_size};
ghost use Rattle.fdp_snapshot.specs.Fixed.{fixed_of, fixed_size};

use crate::target::{Target, program_page};
use fdp_flash::{Flash, Wrote};
use fdp_records::SystemKind;
use fdp_snapshot::{PageList, Summary, put_page};

/// Programs the pages of a checkpoint into a blank area, in order, up to the first program that fails. `fixed` is its fixed part.
pub fn fill<F: Flash>(
    flash: &mut F,
    target: &Target,
    summary: &Summary,
    pages: &[PageList],
    fixed: &[u8],
    count: u32,
    page: &mut [u8],
) -> Wrote
    requires geometry { target.now.geometry ≡ (F.state flash.old).geometry }
    requires valid { IsValidGeometry target.now.geometry }
    requires area { target.now.area ≤ 1 }
    requires count { count < area_pages target.now.geometry }
    requires state { IsState (with_pages summary.now pages.now) }
    requires fits { checkpoint_size summary.now ≤ count * target.now.geometry.block }
    requires fixed { fixed.now ≡ fixed_of 1 summary.now }
    requires long { length fixed.now ≡ fixed_size }
    requires room { length page.old ≡ target.now.geometry.block }
    requires blank { IsTrue (F.state flash.old).told → AreBlankFrom 0 (area_of target.now.geometry target.now.area (F.state flash.old).cells) }
    ensures size { length page.new ≡ length page.old }
    ensures held { Holds (IsUnsealed target.now.geometry target.now.area (F.state flash.old).cells) (F.state flash.old) (F.state flash.new) }
    ensures done { IsTrue (F.state flash.old).told → result ≡ Wrote.Done → HasPages target.now.geometry.block target.now.stamp (checkpoint_of 1 (count * target.now.geometry.block) (with_pages summary.now pages.now)) (area_of target.now.geometry target.now.area (F.state flash.new).cells) count }
    ensures faultless { result ≡ Wrote.Done → (F.state flash.new).faults ≡ (F.state flash.old).faults }
    ensures programs { (F.state flash.new).programs ≡ (F.state flash.old).programs }
    ensures calls { MakesPlanned (F.state flash.old) (F.state flash.new) (calls_from (page_call target.now.geometry target.now.area) 0 count) result }
    ensures failed { result ≡ Wrote.Failed → FailsLast (F.state flash.old) (F.state flash.new) (F.state flash.new).moment }
{
    for number in 0..count {
        put_page(fixed, pages, number as usize, page);
        match program_page(flash, target, SystemKind::Checkpoint, number, number, page) {
            Wrote::Done => {}
            Wrote::Failed => return Wrote::Failed,
        }
    }
    Wrote::Done
}
