ghost use Rattle.std.specs.Prelude.{◌≡◌, IsTrue, Some, length};
ghost use Rattle.fdp_base.specs.Geometry.{area_pages};
ghost use Rattle.fdp_flash.specs.OnlyReads.{ReadsOnly};
ghost use Rattle.fdp_areas.specs.Seals.{IsCurrentSeal, LiesIn};
ghost use Rattle.fdp_replay.specs.Replay.{EndsReplay, NamesWithin, TellsJournal};
ghost use Rattle.fdp_image.specs.Areas.{Sealed, current_area};

use crate::record::{RecordFault, take_record};
use crate::replayed::{ReplayFault, Replayed};
use fdp_areas::{Current, is_page, look_at};
use fdp_flash::{Flash, Seen};
use fdp_records::SystemKind;
use std::alloc::Global;

/// Reads the journal of a sealed area into a state: applies the change of each of its pages in order, those before the seal first, up to the first page that is not
/// whole with the next number and the version and epoch of the area. It looks at each page once. The answer is how many pages the
/// journal has. `page` is room for the bytes of a page.
pub fn replay<F: Flash, R: Replayed>(
    alloc: Global,
    flash: &mut F,
    current: &Current,
    page: &mut [u8],
    state: &mut R,
) -> Result<u32, ReplayFault>
    requires inside { LiesIn (F.state flash.old).geometry current.now }
    requires room { length page.old ≡ (F.state flash.old).geometry.block }
    requires current { IsTrue (F.state flash.old).told → IsCurrentSeal (F.state flash.old).geometry (F.state flash.old).cells current.now }
    ensures looks { ReadsOnly (area_pages (F.state flash.old).geometry) (F.state flash.old) (F.state flash.new) }
    ensures config { R.config state.new ≡ R.config state.old }
    ensures told { IsTrue (F.state flash.old).told → (area : Sealed) → current_area (F.state flash.old).geometry (F.state flash.old).cells ≡ Some (current.now.area, area) → TellsJournal R.fits (R.config state.old) area.journal (R.reading state.old) (R.reading state.new) result }
    ensures ends { EndsReplay (F.state flash.old) (F.state flash.new) result }
    ensures within { NamesWithin (F.state flash.old).geometry current.now result }
{
    let geometry = flash.geometry();
    let stamp = current.seal.stamp;
    // All pages of the area but its checkpoint pages and the seal.
    let left = geometry.area_pages() - (1 + current.seal.checkpoint);
    let mut spare = [0; 32];
    for number in 0..left {
        match look_at(
            flash,
            &geometry,
            current.area,
            current.seal.record_page(number),
            &mut spare,
            page,
        ) {
            Seen::Whole => {
                if !is_page(&spare, SystemKind::Journal, number, stamp) {
                    return Ok(number);
                }
                match take_record(alloc, page, state) {
                    Ok(()) => {}
                    Err(RecordFault::Bad) => return Err(ReplayFault::Bad { number }),
                    Err(RecordFault::Unfit) => return Err(ReplayFault::Unfit { number }),
                    Err(RecordFault::NoMemory) => return Err(ReplayFault::NoMemory),
                }
            }
            Seen::Blank => return Ok(number),
            Seen::Torn => return Ok(number),
            Seen::Failed => {
                return Err(ReplayFault::Failed {
                    moment: flash.moment(),
                });
            }
        }
    }
    Ok(left)
}
