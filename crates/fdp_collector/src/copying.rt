ghost use Rattle.std.specs.Prelude.{◌≡◌, ℕ, IsFalse, IsTrue, List, length};
ghost use Rattle.fdp_collector.specs.Copying.{FailsToFetch, Holds, IsDataPage};
ghost use Rattle.fdp_flash.specs.declared.answer.Fetched.TheVariants as fetched;
ghost use Rattle.fdp_flash.specs.Answers.{Fetches};
ghost use Rattle.fdp_flash.specs.FlashState.{Begins};
ghost use Rattle.fdp_flash.specs.Runs.{Runs};

use fdp_base::Spot;
use fdp_flash::{Fetched, Flash};

/// Fetches a page that has this spare, as far as the cells are told. False comes only where the call failed.
pub(crate) fn read_page<F: Flash>(
    flash: &mut F,
    at: Spot,
    spare: &[u8; 32],
    block: &mut [u8],
) -> bool
    requires place { IsDataPage (F.state flash.old).geometry at }
    requires size { length block.old ≡ (F.state flash.old).geometry.block }
    requires held { IsTrue (F.state flash.old).told → (bytes : List ℕ) × Holds (F.state flash.old).geometry (F.state flash.old).cells at spare.now bytes }
    ensures call { Begins (F.state flash.old) (F.state flash.new) }
    ensures run { Runs (F.state flash.old) (F.state flash.new) (λ m image. image ≡ (F.state flash.old).cells) }
    ensures read { IsTrue result → Fetches (F.state flash.old) (F.state flash.new) at spare.now block.new fetched.Whole }
    ensures failed { IsFalse result → FailsToFetch (F.state flash.old) (F.state flash.new) at }
    ensures block { length block.new ≡ length block.old }
{
    match flash.fetch(at, spare, block) {
        Fetched::Whole => true,
        Fetched::Other => false,
        Fetched::Failed => false,
    }
}
