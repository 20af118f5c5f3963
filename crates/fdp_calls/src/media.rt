ghost use Rattle.std.specs.Prelude.{◌≡◌, ◌<◌, IsTrue, OnOk, OnErr, length, slice_get, Some, [], ◌∷◌, false, true};
ghost use Rattle.fdp_base.specs.Geometry.{data_units};
ghost use Rattle.fdp_base.specs.Pattern.{HasBlock, payload_block};
ghost use Rattle.fdp_flash.specs.declared.cell.Cell.TheVariants.{Whole};
ghost use Rattle.fdp_flash.specs.Cells.{IsBlankFrom, ProgramMayLeave};
ghost use Rattle.fdp_flash.specs.Layout.{IsIn, page_number};
ghost use Rattle.fdp_flash.specs.Runs.{Runs};
ghost use Rattle.fdp_calls.specs.Calls.{IsKept, IsWholeAt, MakesCalls, fetch_at, program_at};
ghost use Rattle.fdp_calls.specs.Media.{IsProgrammedTo, IsReadFrom};

use fdp_base::{Payload, Spot};
use fdp_flash::{Fetched, Flash, Wrote};

/// A call of the flash failed, and was counted.
#[derive(Clone, Copy, Debug, PartialEq, Eq)]
pub struct MediaError;

/// Fetches the page that has this spare, as far as the cells are told.
pub fn fetch<F: Flash>(
    flash: &mut F,
    at: Spot,
    spare: &[u8; 32],
    block: &mut [u8],
) -> Result<(), MediaError>
    requires place { IsIn (F.state flash.old).geometry at }
    requires size { length block.old ≡ (F.state flash.old).geometry.block }
    requires there { IsTrue (F.state flash.old).told → IsWholeAt (F.state flash.old) at spare.now }
    ensures read { IsReadFrom (F.state flash.old) (F.state flash.new) }
    ensures size { length block.new ≡ length block.old }
    ensures block { OnOk result (IsTrue (F.state flash.old).told → slice_get (F.state flash.old).cells (page_number (F.state flash.old).geometry at) ≡ Some (Whole spare.now block.new)) }
    ensures called { OnOk result (MakesCalls (F.state flash.old) (F.state flash.new) (fetch_at at false ∷ [])) }
    ensures failed { OnErr result (MakesCalls (F.state flash.old) (F.state flash.new) (fetch_at at true ∷ [])) }
{
    match flash.fetch(at, spare, block) {
        Fetched::Whole => Ok(()),
        Fetched::Other => Err(MediaError),
        Fetched::Failed => Err(MediaError),
    }
}

/// Programs block `index` of a payload at a page of data. `block` is a buffer for it.
pub fn program<F: Flash>(
    flash: &mut F,
    at: Spot,
    spare: &[u8; 32],
    payload: &Payload,
    index: u32,
    block: &mut [u8],
) -> Result<(), MediaError>
    requires place { IsIn (F.state flash.old).geometry at }
    requires unit { at.unit < data_units (F.state flash.old).geometry }
    requires size { length block.old ≡ (F.state flash.old).geometry.block }
    requires payload { HasBlock (length block.old) payload.now index }
    requires order { IsTrue (F.state flash.old).told → IsBlankFrom (F.state flash.old).geometry (F.state flash.old).cells at }
    ensures kept { IsKept (F.state flash.old) (F.state flash.new) }
    ensures stops { Runs (F.state flash.old) (F.state flash.new) (λ m image. ProgramMayLeave (F.state flash.old).geometry (F.state flash.old).cells at spare.now (payload_block (length block.old) payload.now index) image) }
    ensures done { OnOk result (IsProgrammedTo (F.state flash.old) (F.state flash.new) (page_number (F.state flash.old).geometry at) (Whole spare.now (payload_block (length block.old) payload.now index))) }
    ensures size { length block.new ≡ length block.old }
    ensures called { OnOk result (MakesCalls (F.state flash.old) (F.state flash.new) (program_at at false ∷ [])) }
    ensures failed { OnErr result (MakesCalls (F.state flash.old) (F.state flash.new) (program_at at true ∷ [])) }
    ensures left { OnErr result (IsTrue (F.state flash.old).told → ProgramMayLeave (F.state flash.old).geometry (F.state flash.old).cells at spare.now (payload_block (length block.old) payload.now index) (F.state flash.new).cells) }
    ensures not_done { OnErr result ((F.state flash.new).programs ≡ (F.state flash.old).programs) }
{
    payload.fill(index, block);
    match flash.program(at, spare, block) {
        Wrote::Done => Ok(()),
        Wrote::Failed => Err(MediaError),
    }
}
