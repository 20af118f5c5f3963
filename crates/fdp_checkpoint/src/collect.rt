//! The pages of the checkpoint that an area holds.

ghost use Rattle.std.specs.Prelude.{◌≡◌, ◌≤◌, ◌<◌, ◌*◌, IsTrue, IfOk, Some, length, slice_get};
ghost use Rattle.std.specs.List.{concat};
ghost use Rattle.fdp_base.specs.Geometry.{IsValidGeometry, area_pages};
ghost use Rattle.fdp_checkpoint.specs.Ends.{EndsCollect, EndsFetch};
ghost use Rattle.fdp_flash.specs.declared.cell.Cell.TheVariants.{Whole};
ghost use Rattle.fdp_flash.specs.OnlyReads.{ReadsOnly};
ghost use Rattle.fdp_image.specs.Areas.{area_of, leading};
ghost use Rattle.fdp_records.specs.declared.spare.SystemKind.TheVariants as kinds;
ghost use Rattle.fdp_records.specs.Spares.{system_spare};

use crate::fault::CollectFault;
use fdp_areas::Seal;
use fdp_base::{Bytes, Geometry, Sequence};
use fdp_flash::{Fetched, Flash};
use fdp_image::page_of_area;
use fdp_records::{Stamp, SystemKind, SystemSpare};
use std::alloc::Global;

/// The bytes of the checkpoint pages before a seal. It fetches each of them once, and takes memory for their bytes.
pub fn collect<F: Flash>(
    alloc: Global,
    flash: &mut F,
    geometry: &Geometry,
    area: u8,
    seal: &Seal,
    page: &mut [u8],
) -> Result<Bytes, CollectFault>
    requires geometry { geometry.now ≡ (F.state flash.old).geometry }
    requires valid { IsValidGeometry geometry.now }
    requires area { area ≤ 1 }
    requires inside { seal.now.checkpoint < area_pages geometry.now }
    requires room { length page.old ≡ geometry.now.block }
    requires pages { IsTrue (F.state flash.old).told → length (leading kinds.Checkpoint 0 seal.now.stamp (area_of geometry.now area (F.state flash.old).cells)) ≡ seal.now.checkpoint }
    ensures size { length page.new ≡ length page.old }
    ensures reads { ReadsOnly seal.now.checkpoint (F.state flash.old) (F.state flash.new) }
    ensures bytes { IsTrue (F.state flash.old).told → IfOk result (λ bytes. bytes ≡ concat (leading kinds.Checkpoint 0 seal.now.stamp (area_of geometry.now area (F.state flash.old).cells))) }
    ensures long { IfOk result (λ bytes. length bytes ≡ seal.now.checkpoint * geometry.now.block) }
    ensures ends { EndsCollect (F.state flash.old) (F.state flash.new) result }
{
    let mut bytes = Vec::new(alloc);
    for number in 0..seal.checkpoint {
        if !fetch_page(flash, geometry, area, number, seal.stamp, page) {
            return Err(CollectFault::Failed {
                moment: flash.moment(),
            });
        }
        match bytes.extend_from_slice(page) {
            Ok(()) => {}
            Err(_) => return Err(CollectFault::NoMemory),
        }
    }
    Ok(Sequence::from_vec(bytes))
}

/// Fetches a checkpoint page by its number, and says whether that was done. The buffer has its bytes then.
fn fetch_page<F: Flash>(
    flash: &mut F,
    geometry: &Geometry,
    area: u8,
    number: u32,
    stamp: Stamp,
    page: &mut [u8],
) -> bool
    requires geometry { geometry.now ≡ (F.state flash.old).geometry }
    requires valid { IsValidGeometry geometry.now }
    requires area { area ≤ 1 }
    requires number { number < area_pages geometry.now }
    requires room { length page.old ≡ geometry.now.block }
    requires page { IsTrue (F.state flash.old).told → number < length (leading kinds.Checkpoint 0 stamp (area_of geometry.now area (F.state flash.old).cells)) }
    ensures size { length page.new ≡ length page.old }
    ensures reads { ReadsOnly 1 (F.state flash.old) (F.state flash.new) }
    ensures bytes { IsTrue (F.state flash.old).told → IsTrue result → slice_get (leading kinds.Checkpoint 0 stamp (area_of geometry.now area (F.state flash.old).cells)) number ≡ Some page.new }
    ensures ends { EndsFetch (F.state flash.old) (F.state flash.new) result }
{
    let at = page_of_area(geometry, area, number);
    let spare = SystemSpare {
        kind: SystemKind::Checkpoint,
        number,
        stamp,
    };
    match flash.fetch(at, &spare.encode(), page) {
        Fetched::Whole => true,
        Fetched::Other => false,
        Fetched::Failed => false,
    }
}
