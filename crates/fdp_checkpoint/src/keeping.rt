ghost use Rattle.std.specs.Prelude.{◌≡◌, ◌≤◌, ◌<◌, ◌+◌, All, IsTrue, length};
ghost use Rattle.fdp_base.specs.Geometry.{IsValidGeometry, area_pages};
ghost use Rattle.fdp_checkpoint.specs.Writing.{IsKeptBehind, IsUnsealed, page_call};
ghost use Rattle.fdp_flash.specs.Failing.{FailsLast};
ghost use Rattle.fdp_flash.specs.Planned.{MakesPlanned, calls_from};
ghost use Rattle.fdp_flash.specs.Runs.{Holds};
ghost use Rattle.fdp_image.specs.Areas.{area_of};
ghost use Rattle.fdp_image.specs.Replacing.{HasNoSeal};
ghost use Rattle.fdp_image.specs.Saving.{AreBlankFrom};

use crate::target::{Target, program_page};
use fdp_base::Bytes;
use fdp_flash::{Flash, Wrote};
use fdp_records::SystemKind;

/// Programs journal pages behind so many checkpoint pages, numbered from 0 on, up to the first program that fails.
pub fn keep<F: Flash>(flash: &mut F, target: &Target, count: u32, kept: &[Bytes]) -> Wrote
    requires geometry { target.now.geometry ≡ (F.state flash.old).geometry }
    requires valid { IsValidGeometry target.now.geometry }
    requires area { target.now.area ≤ 1 }
    requires inside { count + length kept.now < area_pages target.now.geometry }
    requires sizes { All (λ page. length page ≡ target.now.geometry.block) kept.now }
    requires none { IsTrue (F.state flash.old).told → HasNoSeal (area_of target.now.geometry target.now.area (F.state flash.old).cells) }
    requires blank { IsTrue (F.state flash.old).told → AreBlankFrom count (area_of target.now.geometry target.now.area (F.state flash.old).cells) }
    ensures held { Holds (IsUnsealed target.now.geometry target.now.area (F.state flash.old).cells) (F.state flash.old) (F.state flash.new) }
    ensures done { IsTrue (F.state flash.old).told → result ≡ Wrote.Done → IsKeptBehind target.now.stamp count kept.now (length kept.now) (area_of target.now.geometry target.now.area (F.state flash.old).cells) (area_of target.now.geometry target.now.area (F.state flash.new).cells) }
    ensures faultless { result ≡ Wrote.Done → (F.state flash.new).faults ≡ (F.state flash.old).faults }
    ensures programs { (F.state flash.new).programs ≡ (F.state flash.old).programs }
    ensures calls { MakesPlanned (F.state flash.old) (F.state flash.new) (calls_from (page_call target.now.geometry target.now.area) count (length kept.now)) result }
    ensures failed { result ≡ Wrote.Failed → FailsLast (F.state flash.old) (F.state flash.new) (F.state flash.new).moment }
{
    let most = kept.len() as u32;
    for number in 0..most {
        let page = kept[number as usize].as_slice();
        match program_page(
            flash,
            target,
            SystemKind::Journal,
            number,
            count + number,
            page,
        ) {
            Wrote::Done => {}
            Wrote::Failed => return Wrote::Failed,
        }
    }
    Wrote::Done
}
