ghost use Rattle.std.specs.Prelude.{◌≡◌, ◌≤◌, ◌<◌, ◌+◌, ◌-◌, ◌^◌, IsTrue, IfOk, IfSome, Some, bytes_eq, length, slice_get};
ghost use Rattle.std.specs.Option.{option_and_then};
ghost use Rattle.fdp_base.specs.Geometry.{IsValidGeometry, area_pages};
ghost use Rattle.fdp_image.specs.Areas.{area_of, first_stamp, stamp_of};
ghost use Rattle.fdp_image.specs.Fields.{are_zeros};
ghost use Rattle.fdp_records.specs.Spares.{said_by_system, system_spare};
ghost use Rattle.fdp_areas.specs.Looking.{Ends};
ghost use Rattle.fdp_flash.specs.OnlyReads.{ReadsOnly};
ghost use Rattle.fdp_areas.specs.Seals.{IsStep, Tells};

use crate::look::look_at;
use crate::seal::{LookFailed, Seal, Step};
use fdp_base::Geometry;
use fdp_flash::{Flash, Seen};
use fdp_records::{Stamp, SystemKind, SystemSpare};

/// The version of the images that are read.
const VERSION: u8 = 1;

/// Searches a system area for its seal: looks at its checkpoint pages and at the journal pages that follow them, up to the first page that is none, each
/// once. A seal counts only behind all of them. `page` is room for the bytes of a page.
pub fn find_seal<F: Flash>(
    flash: &mut F,
    area: u8,
    page: &mut [u8],
) -> Result<Option<Seal>, LookFailed>
    requires area { area ≤ 1 }
    requires room { length page.old ≡ (F.state flash.old).geometry.block }
    ensures looks { ReadsOnly (area_pages (F.state flash.old).geometry) (F.state flash.old) (F.state flash.new) }
    ensures inside { IfOk result (λ found. IfSome found (λ seal. seal.checkpoint + seal.before < area_pages (F.state flash.old).geometry)) }
    ensures found { IsTrue (F.state flash.old).told → IfOk result (Tells (area_of (F.state flash.old).geometry area (F.state flash.old).cells)) }
    ensures ends { Ends (F.state flash.old) (F.state flash.new) result }
{
    let geometry = flash.geometry();
    if geometry.area_pages() == 0 {
        return Ok(None);
    }
    match find_stamp(flash, &geometry, area, page) {
        Ok(Some(stamp)) => walk(flash, &geometry, area, stamp, page),
        Ok(None) => Ok(None),
        Err(failed) => Err(failed),
    }
}

/// The version and epoch of the first checkpoint page of an area, if it has one.
fn find_stamp<F: Flash>(
    flash: &mut F,
    geometry: &Geometry,
    area: u8,
    page: &mut [u8],
) -> Result<Option<Stamp>, LookFailed>
    requires geometry { geometry.now ≡ (F.state flash.old).geometry }
    requires valid { IsValidGeometry geometry.now }
    requires area { area ≤ 1 }
    requires some { 0 < area_pages geometry.now }
    requires room { length page.old ≡ geometry.now.block }
    ensures looks { ReadsOnly 1 (F.state flash.old) (F.state flash.new) }
    ensures found { IsTrue (F.state flash.old).told → IfOk result (λ stamp. option_and_then stamp_of (slice_get (area_of geometry.now area (F.state flash.old).cells) 0) ≡ stamp) }
    ensures ends { Ends (F.state flash.old) (F.state flash.new) result }
{
    let mut spare = [0; 32];
    match look_at(flash, geometry, area, 0, &mut spare, page) {
        Seen::Whole => Ok(first_stamp(&spare)),
        Seen::Blank => Ok(None),
        Seen::Torn => Ok(None),
        Seen::Failed => Err(LookFailed {
            moment: flash.moment(),
        }),
    }
}

/// The version and epoch that spare bytes say, if they are those of a first checkpoint page.
fn first_stamp(spare: &[u8; 32]) -> Option<Stamp>
    ensures { result ≡ option_and_then first_stamp (said_by_system spare.now) }
{
    let said = SystemSpare::decode(spare)?;
    if said.kind == SystemKind::Checkpoint && said.number == 0 && said.stamp.version == VERSION {
        Some(said.stamp)
    } else {
        None
    }
}

/// Looks at the pages behind the first: at checkpoint pages, then at journal pages, up to the first that is neither.
fn walk<F: Flash>(
    flash: &mut F,
    geometry: &Geometry,
    area: u8,
    stamp: Stamp,
    page: &mut [u8],
) -> Result<Option<Seal>, LookFailed>
    requires geometry { geometry.now ≡ (F.state flash.old).geometry }
    requires valid { IsValidGeometry geometry.now }
    requires area { area ≤ 1 }
    requires some { 0 < area_pages geometry.now }
    requires room { length page.old ≡ geometry.now.block }
    requires first { IsTrue (F.state flash.old).told → option_and_then stamp_of (slice_get (area_of geometry.now area (F.state flash.old).cells) 0) ≡ Some stamp }
    ensures looks { ReadsOnly (area_pages geometry.now - 1) (F.state flash.old) (F.state flash.new) }
    ensures inside { IfOk result (λ found. IfSome found (λ seal. seal.checkpoint + seal.before < area_pages geometry.now)) }
    ensures found { IsTrue (F.state flash.old).told → IfOk result (Tells (area_of geometry.now area (F.state flash.old).cells)) }
    ensures ends { Ends (F.state flash.old) (F.state flash.new) result }
{
    let mut spare = [0; 32];
    let mut checkpoint = 1;
    let mut before = 0;
    for number in 1..geometry.area_pages() {
        match look_at(flash, geometry, area, number, &mut spare, page) {
            Seen::Whole => match step(&spare, page, checkpoint, before, stamp) {
                Step::More => checkpoint += 1,
                Step::Record => before += 1,
                Step::Seal => {
                    return Ok(Some(Seal {
                        stamp,
                        checkpoint,
                        before,
                    }));
                }
                Step::Other => return Ok(None),
            },
            Seen::Blank => return Ok(None),
            Seen::Torn => return Ok(None),
            Seen::Failed => {
                return Err(LookFailed {
                    moment: flash.moment(),
                });
            }
        }
    }
    Ok(None)
}

/// What a whole page is that comes behind so many checkpoint pages and, behind these, so many journal pages.
#[tactic(auto, unfolding(fdp_image::specs::Areas::page_bytes))]
fn step(spare: &[u8; 32], bytes: &[u8], checkpoint: u32, before: u32, stamp: Stamp) -> Step
    requires { checkpoint + before < 2 ^ 31 }
    ensures { IsStep checkpoint before stamp spare.now bytes.now result }
{
    // A checkpoint page behind a journal page is none of those that come first.
    if before == 0 && is_page(spare, SystemKind::Checkpoint, checkpoint, stamp) {
        return Step::More;
    }
    if is_page(spare, SystemKind::Journal, before, stamp) {
        return Step::Record;
    }
    if is_page(spare, SystemKind::Seal, checkpoint + before, stamp) && are_zeros(bytes) {
        return Step::Seal;
    }
    Step::Other
}

/// Whether spare bytes are those of this page.
pub fn is_page(spare: &[u8; 32], kind: SystemKind, number: u32, stamp: Stamp) -> bool
    ensures { result ≡ bytes_eq (system_spare (record { kind = kind; number = number; stamp = stamp })) spare.now }
{
    let expected = SystemSpare {
        kind,
        number,
        stamp,
    };
    expected.encode() == *spare
}

fn are_zeros(bytes: &[u8]) -> bool
    ensures { result ≡ are_zeros bytes.now }
{
    bytes.iter().all(|b| *b == 0)
}
