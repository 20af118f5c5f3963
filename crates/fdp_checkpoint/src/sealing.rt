ghost use Rattle.std.specs.Prelude.{◌≡◌, ◌≤◌, ◌<◌, ◌+◌, ◌^◌, All, IsTrue, length};
ghost use Rattle.fdp_base.specs.Geometry.{IsValidGeometry, area_pages};
ghost use Rattle.fdp_checkpoint.specs.Target.{ProgramsIn};
ghost use Rattle.fdp_checkpoint.specs.Writing.{HasCheckpoint, IsSealing, IsWrittenWith, page_call};
ghost use Rattle.fdp_flash.specs.Failing.{FailsLast};
ghost use Rattle.fdp_flash.specs.Planned.{MakesPlanned, calls_from};
ghost use Rattle.fdp_flash.specs.Runs.{Holds};
ghost use Rattle.fdp_image.specs.Areas.{area_of};
ghost use Rattle.fdp_image.specs.Replacing.{HasNoSeal, new_stamp};
ghost use Rattle.fdp_image.specs.Saving.{AreBlankFrom};
ghost use Rattle.fdp_snapshot.specs.Rows.{zeros};
ghost use Rattle.fdp_snapshot.specs.declared.state.State.{State};

use crate::keeping::keep;
use crate::target::{Target, program_page};
use fdp_base::Bytes;
use fdp_flash::{Flash, Wrote};
use fdp_records::SystemKind;

/// Programs the kept journal pages behind the pages of a checkpoint, so many, in order and numbered from 0 on, and then the seal, which alone
/// makes the area a sealed one. It stops at the first call that fails, and takes no memory.
pub fn seal<F: Flash>(flash: &mut F, target: &Target, count: u32, kept: &[Bytes]) -> Wrote
    requires geometry { target.now.geometry ≡ (F.state flash.old).geometry }
    requires valid { IsValidGeometry target.now.geometry }
    requires area { target.now.area ≤ 1 }
    requires stamp { target.now.stamp ≡ new_stamp target.now.stamp.epoch }
    requires epoch { target.now.stamp.epoch < 2 ^ 64 }
    requires inside { count + length kept.now < area_pages target.now.geometry }
    requires sizes { All (λ page. length page ≡ target.now.geometry.block) kept.now }
    requires none { IsTrue (F.state flash.old).told → HasNoSeal (area_of target.now.geometry target.now.area (F.state flash.old).cells) }
    requires blank { IsTrue (F.state flash.old).told → AreBlankFrom count (area_of target.now.geometry target.now.area (F.state flash.old).cells) }
    ensures held { (s : State) → (IsTrue (F.state flash.old).told → HasCheckpoint target.now count s (F.state flash.old).cells) → Holds (IsSealing target.now.geometry target.now.area target.now.stamp.epoch s kept.now (F.state flash.old).cells) (F.state flash.old) (F.state flash.new) }
    ensures done { (s : State) → IsTrue (F.state flash.old).told → HasCheckpoint target.now count s (F.state flash.old).cells → result ≡ Wrote.Done → IsWrittenWith target.now.geometry target.now.area target.now.stamp.epoch s kept.now (F.state flash.new).cells }
    ensures faultless { result ≡ Wrote.Done → (F.state flash.new).faults ≡ (F.state flash.old).faults }
    ensures programs { (F.state flash.new).programs ≡ (F.state flash.old).programs }
    ensures calls { MakesPlanned (F.state flash.old) (F.state flash.new) (calls_from (page_call target.now.geometry target.now.area) count (length kept.now + 1)) result }
    ensures failed { result ≡ Wrote.Failed → FailsLast (F.state flash.old) (F.state flash.new) (F.state flash.new).moment }
{
    match keep(flash, target, count, kept) {
        Wrote::Done => program_seal(flash, target, count + kept.len() as u32),
        Wrote::Failed => Wrote::Failed,
    }
}

/// Programs the seal with this number.
fn program_seal<F: Flash>(flash: &mut F, target: &Target, number: u32) -> Wrote
    requires geometry { target.now.geometry ≡ (F.state flash.old).geometry }
    requires valid { IsValidGeometry target.now.geometry }
    requires area { target.now.area ≤ 1 }
    requires inside { number < area_pages target.now.geometry }
    requires blank { IsTrue (F.state flash.old).told → AreBlankFrom number (area_of target.now.geometry target.now.area (F.state flash.old).cells) }
    ensures { ProgramsIn target.now SystemKind.Seal number number (zeros target.now.geometry.block) (F.state flash.old) (F.state flash.new) result }
{
    let zeros = [0u8; 4096];
    let block = target.geometry.block as usize;
    program_page(
        flash,
        target,
        SystemKind::Seal,
        number,
        number,
        &zeros[..block],
    )
}
