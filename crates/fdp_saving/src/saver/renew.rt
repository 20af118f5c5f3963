ghost use Rattle.std.specs.Prelude.{◌≡◌, ◌+◌, ◌<◌, ◌^◌, IsTrue, false};
ghost use Rattle.fdp_base.specs.Geometry.{area_pages};
ghost use Rattle.fdp_base.specs.declared.config.DriveConfig.{DriveConfig};
ghost use Rattle.fdp_checkpoint.specs.Writing.{with_pages};
ghost use Rattle.fdp_flash.specs.Runs.{Holds};
ghost use Rattle.fdp_image.specs.Reading.{Reading};
ghost use Rattle.fdp_image.specs.Replacing.{pages_for};
ghost use Rattle.fdp_snapshot.specs.Checkpoint.{IsState};
ghost use Rattle.fdp_saving.specs.Calls.{AreCallsOfRenewal, MakesSystemCalls};
ghost use Rattle.fdp_saving.specs.Said.{AreasSay, ReadsAsOneOf};
ghost use Rattle.fdp_saving.specs.Saver.{IsSaverIn, after_renewal, needs_checkpoint};
ghost use Rattle.fdp_saving.specs.Saving.{EndsCheckpoint, IsOfDrive, SayAfterRenewal, base_of, within_renewal};

use crate::saver::Saver;
use fdp_flash::{Flash, Wrote};
use fdp_snapshot::{PageList, Summary};

impl Saver {
    /// Ends a doubt by a checkpoint, which may fail; where there is none it does nothing, and is done. A step that erases a data unit settles first.
    pub fn settle<F: Flash>(
        &mut self,
        flash: &mut F,
        summary: &Summary,
        pages: &[PageList],
    ) -> Wrote
        requires geometry { (F.state flash.old).geometry ≡ self.old.geometry }
        requires state { IsState (with_pages summary.now pages.now) }
        requires room { pages_for self.old.geometry.block summary.now < area_pages self.old.geometry }
        requires epoch { self.old.stamp.epoch + 1 < 2 ^ 64 }
        requires saver { IsTrue (F.state flash.old).told → IsSaverIn (F.state flash.old).cells self.old }
        ensures sure { result ≡ Wrote.Done → self.new.in_doubt ≡ false }
        ensures saver { self.new ≡ after_renewal self.old.in_doubt self.old summary.now result }
        ensures stands { IsTrue (F.state flash.old).told → IsSaverIn (F.state flash.new).cells self.new }
        ensures stops { (c : DriveConfig) (own tried : Reading) → IsOfDrive c self.old (with_pages summary.now pages.now) → (IsTrue (F.state flash.old).told → AreasSay c self.old (F.state flash.old).cells own tried) → Holds (ReadsAsOneOf c (F.state flash.old).cells (within_renewal self.old.in_doubt own tried (with_pages summary.now pages.now))) (F.state flash.old) (F.state flash.new) }
        ensures said { (c : DriveConfig) (own tried : Reading) → IsOfDrive c self.old (with_pages summary.now pages.now) → IsTrue (F.state flash.old).told → AreasSay c self.old (F.state flash.old).cells own tried → SayAfterRenewal c self.new (F.state flash.new).cells own tried (with_pages summary.now pages.now) (base_of self.old.in_doubt own (with_pages summary.now pages.now)) result }
        ensures calls { MakesSystemCalls (F.state flash.old) (F.state flash.new) (AreCallsOfRenewal self.old.in_doubt self.old summary.now result) }
        ensures ends { EndsCheckpoint (F.state flash.old) (F.state flash.new) result }
    {
        self.renew(self.is_in_doubt(), flash, summary, pages)
    }

    /// Writes a checkpoint where one has to come before the next record.
    pub(super) fn make_ready<F: Flash>(
        &mut self,
        flash: &mut F,
        summary: &Summary,
        pages: &[PageList],
    ) -> Wrote
        requires geometry { (F.state flash.old).geometry ≡ self.old.geometry }
        requires state { IsState (with_pages summary.now pages.now) }
        requires room { pages_for self.old.geometry.block summary.now < area_pages self.old.geometry }
        requires epoch { self.old.stamp.epoch + 1 < 2 ^ 64 }
        requires saver { IsTrue (F.state flash.old).told → IsSaverIn (F.state flash.old).cells self.old }
        ensures saver { self.new ≡ after_renewal (needs_checkpoint self.old) self.old summary.now result }
        ensures stands { IsTrue (F.state flash.old).told → IsSaverIn (F.state flash.new).cells self.new }
        ensures stops { (c : DriveConfig) (own tried : Reading) → IsOfDrive c self.old (with_pages summary.now pages.now) → (IsTrue (F.state flash.old).told → AreasSay c self.old (F.state flash.old).cells own tried) → Holds (ReadsAsOneOf c (F.state flash.old).cells (within_renewal (needs_checkpoint self.old) own tried (with_pages summary.now pages.now))) (F.state flash.old) (F.state flash.new) }
        ensures said { (c : DriveConfig) (own tried : Reading) → IsOfDrive c self.old (with_pages summary.now pages.now) → IsTrue (F.state flash.old).told → AreasSay c self.old (F.state flash.old).cells own tried → SayAfterRenewal c self.new (F.state flash.new).cells own tried (with_pages summary.now pages.now) (base_of (needs_checkpoint self.old) own (with_pages summary.now pages.now)) result }
        ensures calls { MakesSystemCalls (F.state flash.old) (F.state flash.new) (AreCallsOfRenewal (needs_checkpoint self.old) self.old summary.now result) }
        ensures ends { EndsCheckpoint (F.state flash.old) (F.state flash.new) result }
    {
        self.renew(self.needs_checkpoint(), flash, summary, pages)
    }

    /// Writes a checkpoint where one is wanted, as it is at least in doubt.
    fn renew<F: Flash>(
        &mut self,
        wanted: bool,
        flash: &mut F,
        summary: &Summary,
        pages: &[PageList],
    ) -> Wrote
        requires sure { wanted ≡ false → self.old.in_doubt ≡ false }
        requires geometry { (F.state flash.old).geometry ≡ self.old.geometry }
        requires state { IsState (with_pages summary.now pages.now) }
        requires room { pages_for self.old.geometry.block summary.now < area_pages self.old.geometry }
        requires epoch { self.old.stamp.epoch + 1 < 2 ^ 64 }
        requires saver { IsTrue (F.state flash.old).told → IsSaverIn (F.state flash.old).cells self.old }
        ensures saver { self.new ≡ after_renewal wanted self.old summary.now result }
        ensures stands { IsTrue (F.state flash.old).told → IsSaverIn (F.state flash.new).cells self.new }
        ensures stops { (c : DriveConfig) (own tried : Reading) → IsOfDrive c self.old (with_pages summary.now pages.now) → (IsTrue (F.state flash.old).told → AreasSay c self.old (F.state flash.old).cells own tried) → Holds (ReadsAsOneOf c (F.state flash.old).cells (within_renewal wanted own tried (with_pages summary.now pages.now))) (F.state flash.old) (F.state flash.new) }
        ensures said { (c : DriveConfig) (own tried : Reading) → IsOfDrive c self.old (with_pages summary.now pages.now) → IsTrue (F.state flash.old).told → AreasSay c self.old (F.state flash.old).cells own tried → SayAfterRenewal c self.new (F.state flash.new).cells own tried (with_pages summary.now pages.now) (base_of wanted own (with_pages summary.now pages.now)) result }
        ensures calls { MakesSystemCalls (F.state flash.old) (F.state flash.new) (AreCallsOfRenewal wanted self.old summary.now result) }
        ensures ends { EndsCheckpoint (F.state flash.old) (F.state flash.new) result }
    {
        if wanted {
            self.checkpoint(flash, summary, pages)
        } else {
            Wrote::Done
        }
    }
}
