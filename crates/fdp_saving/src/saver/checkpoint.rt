ghost use Rattle.std.specs.Prelude.{◌≡◌, ◌+◌, ◌<◌, ◌^◌, IsTrue};
ghost use Rattle.fdp_base.specs.Geometry.{area_pages};
ghost use Rattle.fdp_base.specs.declared.config.DriveConfig.{DriveConfig};
ghost use Rattle.fdp_checkpoint.specs.Writing.{with_pages};
ghost use Rattle.fdp_flash.specs.Runs.{Holds};
ghost use Rattle.fdp_image.specs.Reading.{Reading};
ghost use Rattle.fdp_image.specs.Replacing.{pages_for};
ghost use Rattle.fdp_snapshot.specs.Checkpoint.{IsState};
ghost use Rattle.fdp_saving.specs.Calls.{AreCallsOfCheckpoint, MakesSystemCalls};
ghost use Rattle.fdp_saving.specs.Said.{AreasSay, ReadsAsOneOf};
ghost use Rattle.fdp_saving.specs.Saver.{IsSaverIn, after_checkpoint};
ghost use Rattle.fdp_saving.specs.Saving.{EndsCheckpoint, IsOfDrive, SayAfterCheckpoint, within_checkpoint};

use crate::saver::Saver;
use fdp_checkpoint::{VERSION, page_count, write};
use fdp_flash::{Flash, Wrote};
use fdp_records::Stamp;
use fdp_snapshot::{PageList, Summary};

impl Saver {
    /// Writes a checkpoint of the drive, its summary and the pages of its blocks, into the other area than its own, with the next epoch. Once
    /// that is done it is its own and the current one, and there is no doubt. It erases each unit of that area and programs each page of the checkpoint and
    /// its seal, up to the first call that fails.
    ///
    /// Whatever a stop or a failure leaves reads as before, as the saver's own area says, or as the given drive.
    pub fn checkpoint<F: Flash>(
        &mut self,
        flash: &mut F,
        summary: &Summary,
        pages: &[PageList],
    ) -> Wrote
        requires geometry { (F.state flash.old).geometry ≡ self.old.geometry }
        requires state { IsState (with_pages summary.now pages.now) }
        requires room { pages_for self.old.geometry.block summary.now < area_pages self.old.geometry }
        requires epoch { self.old.stamp.epoch + 1 < 2 ^ 64 }
        requires saver { IsTrue (F.state flash.old).told → IsSaverIn (F.state flash.old).cells self.old }
        ensures saver { self.new ≡ after_checkpoint self.old summary.now result }
        ensures stands { IsTrue (F.state flash.old).told → IsSaverIn (F.state flash.new).cells self.new }
        ensures stops { (c : DriveConfig) (own tried : Reading) → IsOfDrive c self.old (with_pages summary.now pages.now) → (IsTrue (F.state flash.old).told → AreasSay c self.old (F.state flash.old).cells own tried) → Holds (ReadsAsOneOf c (F.state flash.old).cells (within_checkpoint own tried (with_pages summary.now pages.now))) (F.state flash.old) (F.state flash.new) }
        ensures said { (c : DriveConfig) (own tried : Reading) → IsOfDrive c self.old (with_pages summary.now pages.now) → IsTrue (F.state flash.old).told → AreasSay c self.old (F.state flash.old).cells own tried → SayAfterCheckpoint c self.new (F.state flash.new).cells own tried (with_pages summary.now pages.now) result }
        ensures calls { MakesSystemCalls (F.state flash.old) (F.state flash.new) (AreCallsOfCheckpoint self.old summary.now result) }
        ensures ends { EndsCheckpoint (F.state flash.old) (F.state flash.new) result }
    {
        let count = match page_count(&flash.geometry(), summary) {
            Some(count) => count,
            // A valid configuration has room for a checkpoint in an area.
            None => unreachable!(),
        };
        let area = 1 - self.journal.area();
        let stamp = Stamp {
            version: VERSION,
            epoch: self.journal.stamp().epoch + 1,
        };
        let page = self.page.as_mut_slice();
        match write(flash, area, stamp.epoch, summary, pages, page) {
            Wrote::Done => {
                self.journal.restart(area, stamp, count);
                Wrote::Done
            }
            Wrote::Failed => {
                self.journal.doubt();
                Wrote::Failed
            }
        }
    }
}
