//! A checkpoint in slices: its erases and programs, some at a time.

ghost use Rattle.std.specs.Prelude.{◌≡◌, ◌≤◌, ◌<◌, ◌+◌, ◌-◌, ◌*◌, ◌∷◌, [], IsTrue, length};
ghost use Rattle.fdp_base.specs.Geometry.{IsValidGeometry, area_pages};
ghost use Rattle.fdp_checkpoint.specs.Slices.{IsPartDone, IsSliced, slice_call};
ghost use Rattle.fdp_checkpoint.specs.Target.{ProgramsIn};
ghost use Rattle.fdp_checkpoint.specs.Writing.{page_in};
ghost use Rattle.fdp_flash.specs.Failing.{FailsLast};
ghost use Rattle.fdp_flash.specs.Planned.{MakesPlanned, calls_from};
ghost use Rattle.fdp_flash.specs.Runs.{Holds};
ghost use Rattle.fdp_image.specs.Areas.{area_of};
ghost use Rattle.fdp_image.specs.Saving.{AreBlankFrom};

use crate::target::{Target, program_page};
use fdp_flash::{Flash, Wrote};
use fdp_records::SystemKind;

/// Does some of the calls of a checkpoint in slices, from this one on and in order, up to the first that fails: they erase each unit of the
/// area, and then program each page of the frozen ones. What one slice has done is where the next begins. It takes no memory.
///
/// Whatever a stop or a failure leaves, the pages beside the area are as they were, and while units are erased the area is not sealed, or as
/// it was but for the end of its journal; from then on it has no seal.
pub fn slice<F: Flash>(
    flash: &mut F,
    target: &Target,
    frozen: &[u8],
    first: u32,
    count: u32,
) -> Wrote
    requires geometry { target.now.geometry ≡ (F.state flash.old).geometry }
    requires valid { IsValidGeometry target.now.geometry }
    requires area { target.now.area ≤ 1 }
    requires pages { (first + count - target.now.geometry.area_units) * target.now.geometry.block ≤ length frozen.now }
    requires inside { first + count ≤ target.now.geometry.area_units + area_pages target.now.geometry }
    requires begun { IsTrue (F.state flash.old).told → IsPartDone target.now frozen.now first (F.state flash.old).cells }
    ensures held { Holds (IsSliced target.now.geometry target.now.area (F.state flash.old).cells) (F.state flash.old) (F.state flash.new) }
    ensures done { IsTrue (F.state flash.old).told → result ≡ Wrote.Done → IsPartDone target.now frozen.now (first + count) (F.state flash.new).cells }
    ensures faultless { result ≡ Wrote.Done → (F.state flash.new).faults ≡ (F.state flash.old).faults }
    ensures programs { (F.state flash.new).programs ≡ (F.state flash.old).programs }
    ensures calls { MakesPlanned (F.state flash.old) (F.state flash.new) (calls_from (slice_call target.now.geometry target.now.area) first count) result }
    ensures failed { result ≡ Wrote.Failed → FailsLast (F.state flash.old) (F.state flash.new) (F.state flash.new).moment }
{
    for number in first..first + count {
        match make_call(flash, target, frozen, number) {
            Wrote::Done => {}
            Wrote::Failed => return Wrote::Failed,
        }
    }
    Wrote::Done
}

/// Does one call of a checkpoint in slices, by its number.
fn make_call<F: Flash>(flash: &mut F, target: &Target, frozen: &[u8], number: u32) -> Wrote
    requires geometry { target.now.geometry ≡ (F.state flash.old).geometry }
    requires valid { IsValidGeometry target.now.geometry }
    requires area { target.now.area ≤ 1 }
    requires pages { (number + 1 - target.now.geometry.area_units) * target.now.geometry.block ≤ length frozen.now }
    requires inside { number < target.now.geometry.area_units + area_pages target.now.geometry }
    requires begun { IsTrue (F.state flash.old).told → IsPartDone target.now frozen.now number (F.state flash.old).cells }
    ensures held { Holds (IsSliced target.now.geometry target.now.area (F.state flash.old).cells) (F.state flash.old) (F.state flash.new) }
    ensures done { IsTrue (F.state flash.old).told → result ≡ Wrote.Done → IsPartDone target.now frozen.now (number + 1) (F.state flash.new).cells }
    ensures faultless { result ≡ Wrote.Done → (F.state flash.new).faults ≡ (F.state flash.old).faults }
    ensures programs { (F.state flash.new).programs ≡ (F.state flash.old).programs }
    ensures calls { MakesPlanned (F.state flash.old) (F.state flash.new) (slice_call target.now.geometry target.now.area number ∷ []) result }
    ensures failed { result ≡ Wrote.Failed → FailsLast (F.state flash.old) (F.state flash.new) (F.state flash.new).moment }
{
    let geometry = &target.geometry;
    if number < geometry.area_units {
        let first = geometry.data_units() + u32::from(target.area) * geometry.area_units;
        flash.erase(first + number)
    } else {
        program_frozen(flash, target, frozen, number - geometry.area_units)
    }
}

/// Programs a page of the frozen ones, by its number.
fn program_frozen<F: Flash>(flash: &mut F, target: &Target, frozen: &[u8], number: u32) -> Wrote
    requires geometry { target.now.geometry ≡ (F.state flash.old).geometry }
    requires valid { IsValidGeometry target.now.geometry }
    requires area { target.now.area ≤ 1 }
    requires pages { (number + 1) * target.now.geometry.block ≤ length frozen.now }
    requires inside { number < area_pages target.now.geometry }
    requires blank { IsTrue (F.state flash.old).told → AreBlankFrom number (area_of target.now.geometry target.now.area (F.state flash.old).cells) }
    ensures { ProgramsIn target.now SystemKind.Checkpoint number number (page_in target.now.geometry.block frozen.now number) (F.state flash.old) (F.state flash.new) result }
{
    let block = target.geometry.block as usize;
    let start = number as usize * block;
    let page = &frozen[start..start + block];
    program_page(flash, target, SystemKind::Checkpoint, number, number, page)
}
