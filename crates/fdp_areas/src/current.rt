ghost use Rattle.std.specs.Prelude.{◌≡◌, ◌+◌, IsTrue, IfOk, IfSome, length};
ghost use Rattle.fdp_base.specs.Geometry.{area_pages};
ghost use Rattle.fdp_areas.specs.Looking.{Ends};
ghost use Rattle.fdp_flash.specs.OnlyReads.{ReadsOnly};
ghost use Rattle.fdp_areas.specs.Seals.{LiesIn, TellsCurrent, later_seal};

use crate::seal::{Current, LookFailed, Seal};
use crate::search::find_seal;
use fdp_flash::Flash;

/// Searches both system areas for their seals, with a look at each of their checkpoint pages. The current area is the sealed one with
/// the higher epoch, the first where they are equal. `page` is room for the bytes of a page.
pub fn find_current<F: Flash>(flash: &mut F, page: &mut [u8]) -> Result<Option<Current>, LookFailed>
    requires { length page.old ≡ (F.state flash.old).geometry.block }
    ensures looks { ReadsOnly (area_pages (F.state flash.old).geometry + area_pages (F.state flash.old).geometry) (F.state flash.old) (F.state flash.new) }
    ensures inside { IfOk result (λ found. IfSome found (LiesIn (F.state flash.old).geometry)) }
    ensures found { IsTrue (F.state flash.old).told → IfOk result (TellsCurrent (F.state flash.old).geometry (F.state flash.old).cells) }
    ensures ends { Ends (F.state flash.old) (F.state flash.new) result }
{
    match find_seal(flash, 0, page) {
        Ok(first) => match find_seal(flash, 1, page) {
            Ok(second) => Ok(later_of(first, second)),
            Err(failed) => Err(failed),
        },
        Err(failed) => Err(failed),
    }
}

/// Of the seals of both areas the one with the higher epoch, the first where they are equal.
fn later_of(first: Option<Seal>, second: Option<Seal>) -> Option<Current>
    ensures { result ≡ later_seal first second }
{
    match (first, second) {
        (None, None) => None,
        (Some(seal), None) => Some(Current { area: 0, seal }),
        (None, Some(seal)) => Some(Current { area: 1, seal }),
        (Some(seal), Some(other)) => {
            if seal.stamp.epoch < other.stamp.epoch {
                Some(Current {
                    area: 1,
                    seal: other,
                })
            } else {
                Some(Current { area: 0, seal })
            }
        }
    }
}
