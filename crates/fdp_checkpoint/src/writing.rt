ghost use Rattle.std.specs.Prelude.{◌≡◌, ◌≤◌, ◌<◌, ◌+◌, ◌^◌, [], IsTrue, length};
ghost use Rattle.fdp_base.specs.Geometry.{IsValidGeometry, area_pages};
ghost use Rattle.fdp_checkpoint.specs.Writing.{IsSealing, IsWritten, checkpoint_calls, page_call, with_pages};
ghost use Rattle.fdp_flash.specs.Failing.{FailsLast};
ghost use Rattle.fdp_flash.specs.Planned.{MakesPlanned, calls_from};
ghost use Rattle.fdp_flash.specs.Runs.{Holds};
ghost use Rattle.fdp_image.specs.Areas.{area_of};
ghost use Rattle.fdp_image.specs.Replacing.{MayBeWritten, new_stamp, pages_for};
ghost use Rattle.fdp_image.specs.Saving.{AreBlankFrom};
ghost use Rattle.fdp_snapshot.specs.Checkpoint.{IsState};
ghost use Rattle.fdp_snapshot.specs.Fixed.{fixed_of};
ghost use Rattle.fdp_snapshot.specs.Sizes.{SummaryFits};

use crate::count::page_count;
use crate::erasing::erase;
use crate::filling::fill;
use crate::sealing::seal;
use crate::target::{Target, VERSION};
use fdp_flash::{Flash, Wrote};
use fdp_records::Stamp;
use fdp_snapshot::{FIXED_SIZE, PageList, Summary, put_fixed};

/// Writes the checkpoint of a state, its summary and the pages of its blocks, into a system area: erases the area unit by unit, programs the pages of the checkpoint in order, and
/// then the seal, which alone makes the area a sealed one. It stops at the first call that fails. `page` is room for the bytes of a page;
/// it takes no memory.
///
/// Whatever a stop or a failure leaves, the pages beside the area are as they were, and where the area was not the current one and the
/// current one has a lower epoch, an image reads as before, or as this state.
pub fn write<F: Flash>(
    flash: &mut F,
    area: u8,
    epoch: u64,
    summary: &Summary,
    pages: &[PageList],
    page: &mut [u8],
) -> Wrote
    requires area { area ≤ 1 }
    requires state { IsState (with_pages summary.now pages.now) }
    requires fits { pages_for (F.state flash.old).geometry.block summary.now < area_pages (F.state flash.old).geometry }
    requires room { length page.old ≡ (F.state flash.old).geometry.block }
    ensures held { Holds (MayBeWritten (F.state flash.old).geometry area epoch (with_pages summary.now pages.now) (F.state flash.old).cells) (F.state flash.old) (F.state flash.new) }
    ensures done { IsTrue (F.state flash.old).told → result ≡ Wrote.Done → IsWritten (F.state flash.old).geometry area epoch (with_pages summary.now pages.now) (F.state flash.new).cells }
    ensures faultless { result ≡ Wrote.Done → (F.state flash.new).faults ≡ (F.state flash.old).faults }
    ensures programs { (F.state flash.new).programs ≡ (F.state flash.old).programs }
    ensures failed { result ≡ Wrote.Failed → FailsLast (F.state flash.old) (F.state flash.new) (F.state flash.new).moment }
    ensures calls { MakesPlanned (F.state flash.old) (F.state flash.new) (checkpoint_calls (F.state flash.old).geometry area (pages_for (F.state flash.old).geometry.block summary.now)) result }
{
    let geometry = flash.geometry();
    let count = match page_count(&geometry, summary) {
        Some(count) => count,
        // A valid configuration has room for a checkpoint in an area.
        None => unreachable!(),
    };
    let target = Target {
        geometry,
        area,
        stamp: Stamp {
            version: VERSION,
            epoch,
        },
    };
    let mut fixed = [0u8; FIXED_SIZE];
    put_fixed(summary, VERSION, fixed.as_mut_slice());
    match erase(flash, &target) {
        Wrote::Done => put_content(
            flash,
            &target,
            summary,
            pages,
            fixed.as_slice(),
            count,
            page,
        ),
        Wrote::Failed => Wrote::Failed,
    }
}

/// Programs the pages of a checkpoint and then its seal into a blank area.
fn put_content<F: Flash>(
    flash: &mut F,
    target: &Target,
    summary: &Summary,
    pages: &[PageList],
    fixed: &[u8],
    count: u32,
    page: &mut [u8],
) -> Wrote
    requires geometry { target.now.geometry ≡ (F.state flash.old).geometry }
    requires valid { IsValidGeometry target.now.geometry }
    requires area { target.now.area ≤ 1 }
    requires stamp { target.now.stamp ≡ new_stamp target.now.stamp.epoch }
    requires epoch { target.now.stamp.epoch < 2 ^ 64 }
    requires count { count ≡ pages_for target.now.geometry.block summary.now }
    requires inside { count < area_pages target.now.geometry }
    requires state { IsState (with_pages summary.now pages.now) }
    requires fits { SummaryFits summary.now }
    requires fixed { fixed.now ≡ fixed_of 1 summary.now }
    requires room { length page.old ≡ target.now.geometry.block }
    requires blank { IsTrue (F.state flash.old).told → AreBlankFrom 0 (area_of target.now.geometry target.now.area (F.state flash.old).cells) }
    ensures held { Holds (IsSealing target.now.geometry target.now.area target.now.stamp.epoch (with_pages summary.now pages.now) [] (F.state flash.old).cells) (F.state flash.old) (F.state flash.new) }
    ensures done { IsTrue (F.state flash.old).told → result ≡ Wrote.Done → IsWritten target.now.geometry target.now.area target.now.stamp.epoch (with_pages summary.now pages.now) (F.state flash.new).cells }
    ensures faultless { result ≡ Wrote.Done → (F.state flash.new).faults ≡ (F.state flash.old).faults }
    ensures programs { (F.state flash.new).programs ≡ (F.state flash.old).programs }
    ensures calls { MakesPlanned (F.state flash.old) (F.state flash.new) (calls_from (page_call target.now.geometry target.now.area) 0 (count + 1)) result }
    ensures failed { result ≡ Wrote.Failed → FailsLast (F.state flash.old) (F.state flash.new) (F.state flash.new).moment }
{
    match fill(flash, target, summary, pages, fixed, count, page) {
        Wrote::Done => seal(flash, target, count, &[]),
        Wrote::Failed => Wrote::Failed,
    }
}
