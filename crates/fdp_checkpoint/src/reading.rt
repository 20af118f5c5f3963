ghost use Rattle.std.specs.Prelude.{◌≡◌, ◌≢◌, ◌+◌, ◌*◌, ◌^◌, ◌≤◌, ◌<◌, ◌/◌, ℕ, true, false, Err, IfOk, IsTrue, Some, length};
ghost use Rattle.fdp_areas.specs.Seals.{IsSealed};
ghost use Rattle.fdp_base.specs.Geometry.{IsValidGeometry, area_pages};
ghost use Rattle.fdp_checkpoint.specs.Ends.{EndsContent, EndsRead};
ghost use Rattle.fdp_checkpoint.specs.Pages.{TellsArea, TellsBytes, TellsContent};
ghost use Rattle.fdp_flash.specs.Layout.{first_page};
ghost use Rattle.fdp_flash.specs.OnlyReads.{ReadsOnly};
ghost use Rattle.fdp_image.specs.Areas.{Sealed, area_of, area_unit, sealed_in};
ghost use Rattle.fdp_snapshot.specs.Checkpoint.{IsState, checkpoint_size};

use crate::collect::collect;
use crate::fault::{CheckpointFault, CollectFault, ContentFault, FoundCheckpoint};
use fdp_areas::{Seal, find_seal};
use fdp_base::Geometry;
use fdp_flash::Flash;
use fdp_snapshot::{BadCheckpoint, State, decode, end_of_blocks};
use std::alloc::Global;

/// Reads the checkpoint that a system area holds. It looks at its checkpoint pages up to their seal (`find_seal`), and then fetches each of
/// them once (`read_content`). `page` is room for the bytes of a page.
pub fn read<F: Flash>(
    alloc: Global,
    flash: &mut F,
    area: u8,
    page: &mut [u8],
) -> Result<FoundCheckpoint, CheckpointFault>
    requires area { area ≤ 1 }
    requires room { length page.old ≡ (F.state flash.old).geometry.block }
    ensures reads { ReadsOnly (area_pages (F.state flash.old).geometry + area_pages (F.state flash.old).geometry) (F.state flash.old) (F.state flash.new) }
    ensures told { IsTrue (F.state flash.old).told → TellsArea (F.state flash.old).geometry area (area_of (F.state flash.old).geometry area (F.state flash.old).cells) result }
    ensures ends { EndsRead (F.state flash.old) (F.state flash.new) result }
{
    let seal = match find_seal(flash, area, page) {
        Ok(Some(seal)) => seal,
        Ok(None) => return Err(CheckpointFault::NoCheckpoint),
        Err(failed) => {
            return Err(CheckpointFault::Failed {
                moment: failed.moment,
            });
        }
    };
    match read_content(alloc, flash, area, &seal, page) {
        Ok(state) => Ok(FoundCheckpoint { state, seal }),
        Err(ContentFault::Bad { page }) => Err(CheckpointFault::Bad { page }),
        Err(ContentFault::Failed { moment }) => Err(CheckpointFault::Failed { moment }),
        Err(ContentFault::NoMemory) => Err(CheckpointFault::NoMemory),
    }
}

/// Reads the content of a sealed area. It fetches each of its checkpoint pages once, takes memory for their bytes and for the state, and
/// changes nothing. `page` is room for the bytes of a page.
pub fn read_content<F: Flash>(
    alloc: Global,
    flash: &mut F,
    area: u8,
    seal: &Seal,
    page: &mut [u8],
) -> Result<State, ContentFault>
    requires area { area ≤ 1 }
    requires inside { seal.now.checkpoint < area_pages (F.state flash.old).geometry }
    requires room { length page.old ≡ (F.state flash.old).geometry.block }
    requires sealed { IsTrue (F.state flash.old).told → IsSealed (area_of (F.state flash.old).geometry area (F.state flash.old).cells) seal.now }
    ensures size { length page.new ≡ length page.old }
    ensures reads { ReadsOnly seal.now.checkpoint (F.state flash.old) (F.state flash.new) }
    ensures told { IsTrue (F.state flash.old).told → (z : Sealed) → sealed_in (area_of (F.state flash.old).geometry area (F.state flash.old).cells) ≡ Some z → TellsContent (F.state flash.old).geometry area z result }
    ensures ends { EndsContent (F.state flash.old) (F.state flash.new) result }
    ensures writable { IfOk result IsState }
    ensures holds { IfOk result (λ s. checkpoint_size s.summary ≤ seal.now.checkpoint * (F.state flash.old).geometry.block) }
{
    let geometry = flash.geometry();
    match collect(alloc, flash, &geometry, area, seal, page) {
        Ok(bytes) => tell(alloc, geometry, area, seal, bytes.as_slice()),
        Err(CollectFault::Failed { moment }) => Err(ContentFault::Failed { moment }),
        Err(CollectFault::NoMemory) => Err(ContentFault::NoMemory),
    }
}

/// What the checkpoint pages of an area tell, from their bytes.
fn tell(
    alloc: Global,
    geometry: Geometry,
    area: u8,
    seal: &Seal,
    bytes: &[u8],
) -> Result<State, ContentFault>
    requires valid { IsValidGeometry geometry }
    requires area { area ≤ 1 }
    requires within { seal.now.checkpoint < area_pages geometry }
    requires size { length bytes.now ≡ seal.now.checkpoint * geometry.block }
    ensures told { TellsBytes geometry area seal.now.stamp.version bytes.now result }
    ensures not_failed { (moment : ℕ) → result ≢ Err (ContentFault.Failed moment) }
    ensures writable { IfOk result IsState }
    ensures holds { IfOk result (λ s. checkpoint_size s.summary ≤ length bytes.now) }
{
    let block = geometry.block as usize;
    let state = match decode(alloc, seal.stamp.version, bytes) {
        Ok(state) => state,
        Err(BadCheckpoint::At(at)) => {
            return Err(ContentFault::Bad {
                page: page_with(&geometry, area, at),
            });
        }
        Err(BadCheckpoint::NoMemory) => return Err(ContentFault::NoMemory),
    };
    if is_overlong(&state, bytes.len(), block) {
        return Err(ContentFault::Bad {
            page: first_of_area(&geometry, area) + (seal.checkpoint - 1),
        });
    }
    Ok(state)
}

/// The number of the page that has the byte at an offset in a system area.
fn page_with(geometry: &Geometry, area: u8, at: usize) -> u32
    requires valid { IsValidGeometry geometry.now }
    requires area { area ≤ 1 }
    requires small { at ≤ 2 ^ 30 }
    ensures { result ≡ first_page geometry.now (area_unit geometry.now area) + at / geometry.now.block }
{
    first_of_area(geometry, area) + (at / geometry.block as usize) as u32
}

/// The number of the first page of a system area.
fn first_of_area(geometry: &Geometry, area: u8) -> u32
    requires valid { IsValidGeometry geometry.now }
    requires area { area ≤ 1 }
    ensures value { result ≡ first_page geometry.now (area_unit geometry.now area) }
    ensures bound { result ≤ 262144 }
{
    (geometry.data_units() + u32::from(area) * geometry.area_units) * geometry.unit_pages
}

/// Whether a checkpoint does not reach into the last page of so many bytes.
#[tactic(auto, using(crate::proofs::Telling::size_is))]
fn is_overlong(state: &State, len: usize, block: usize) -> bool
    requires fits { checkpoint_size state.now.summary ≤ len }
    requires block { block ≤ 4096 }
    ensures long { result ≡ true → checkpoint_size state.now.summary + block ≤ len }
    ensures short { result ≡ false → len < checkpoint_size state.now.summary + block }
{
    match end_of_blocks(state.summary.spaces.as_slice(), len) {
        Some(end) => len - end >= block,
        // The state was read from these bytes, so its blocks end within them.
        None => unreachable!(),
    }
}
