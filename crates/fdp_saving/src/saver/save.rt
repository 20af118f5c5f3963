ghost use Rattle.std.specs.Prelude.{◌≡◌, ◌+◌, ◌<◌, ◌^◌, ◌∷◌, [], suc, IsTrue, false};
ghost use Rattle.fdp_base.specs.Geometry.{area_pages};
ghost use Rattle.fdp_base.specs.Placement.{geometry_of};
ghost use Rattle.fdp_base.specs.declared.config.DriveConfig.{DriveConfig};
ghost use Rattle.fdp_checkpoint.specs.Writing.{with_pages};
ghost use Rattle.fdp_flash.specs.Runs.{Holds};
ghost use Rattle.fdp_image.specs.Fits.{all_fit, fits};
ghost use Rattle.fdp_image.specs.Reading.{Reading};
ghost use Rattle.fdp_image.specs.Reads.{reads_as};
ghost use Rattle.fdp_image.specs.Replacing.{pages_for};
ghost use Rattle.fdp_journal.specs.JournalState.{next_in};
ghost use Rattle.fdp_records.specs.Borrowed.{change_of};
ghost use Rattle.fdp_records.specs.Limits.{is_within_limits};
ghost use Rattle.fdp_snapshot.specs.Checkpoint.{IsState};
ghost use Rattle.fdp_saving.specs.Calls.{AreCallsOfAppend, AreCallsOfSaving, MakesSystemCalls};
ghost use Rattle.fdp_saving.specs.Said.{AreasSay, ReadsAsOneOf};
ghost use Rattle.fdp_saving.specs.Saver.{IsSaverIn, after_append, after_saving, needs_checkpoint};
ghost use Rattle.fdp_saving.specs.Saving.{EndsCheckpoint, EndsSaving, IsOfDrive, SayAfterAppend, SayAfterSaving, base_of, within_append, within_saved};

use crate::saved::Saved;
use crate::saver::Saver;
use fdp_base::Totals;
use fdp_flash::{Flash, Wrote};
use fdp_journal::Appended;
use fdp_records::ChangeRef;
use fdp_snapshot::{PageList, Summary};

impl Saver {
    /// Saves a change of the drive, with the totals at its position; summary and pages are the drive before it. In doubt, or where the area is
    /// full, it writes a checkpoint of that first; then it appends the record of the change. Where no checkpoint is needed it makes one call,
    /// the program of the record.
    ///
    /// Whatever a stop or a failure leaves reads as before, as the saver's own area says, as the given drive where a checkpoint was needed, or as
    /// that upon which the change is saved with the change, which fits that.
    pub fn save<F: Flash>(
        &mut self,
        flash: &mut F,
        change: ChangeRef<'_>,
        totals: &Totals,
        summary: &Summary,
        pages: &[PageList],
    ) -> Saved
        requires limits { IsTrue (is_within_limits (change_of change)) }
        requires geometry { (F.state flash.old).geometry ≡ self.old.geometry }
        requires state { IsState (with_pages summary.now pages.now) }
        requires room { suc (pages_for self.old.geometry.block summary.now) < area_pages self.old.geometry }
        requires epoch { self.old.stamp.epoch + 1 < 2 ^ 64 }
        requires saver { IsTrue (F.state flash.old).told → IsSaverIn (F.state flash.old).cells self.old }
        ensures saver { self.new ≡ after_saving self.old summary.now result }
        ensures stands { IsTrue (F.state flash.old).told → IsSaverIn (F.state flash.new).cells self.new }
        ensures stops { (c : DriveConfig) (own tried : Reading) → IsOfDrive c self.old (with_pages summary.now pages.now) → (IsTrue (F.state flash.old).told → AreasSay c self.old (F.state flash.old).cells own tried) → (IsTrue (F.state flash.old).told → IsTrue (all_fit fits c (base_of (needs_checkpoint self.old) own (with_pages summary.now pages.now)) ((change_of change.entry, totals.now) ∷ []))) → Holds (ReadsAsOneOf c (F.state flash.old).cells (within_saved c (needs_checkpoint self.old) own tried (with_pages summary.now pages.now) ((change_of change.entry, totals.now) ∷ []) result)) (F.state flash.old) (F.state flash.new) }
        ensures said { (c : DriveConfig) (own tried : Reading) → IsOfDrive c self.old (with_pages summary.now pages.now) → IsTrue (F.state flash.old).told → AreasSay c self.old (F.state flash.old).cells own tried → IsTrue (all_fit fits c (base_of (needs_checkpoint self.old) own (with_pages summary.now pages.now)) ((change_of change.entry, totals.now) ∷ [])) → SayAfterSaving c self.new (F.state flash.new).cells own tried (with_pages summary.now pages.now) (base_of (needs_checkpoint self.old) own (with_pages summary.now pages.now)) ((change_of change.entry, totals.now) ∷ []) result }
        ensures calls { MakesSystemCalls (F.state flash.old) (F.state flash.new) (AreCallsOfSaving self.old summary.now result) }
        ensures ends { EndsSaving (F.state flash.old) (F.state flash.new) result }
    {
        match self.make_ready(flash, summary, pages) {
            Wrote::Done => match self.append(flash, change, totals) {
                Wrote::Done => Saved::Done,
                Wrote::Failed => Saved::Doubtful {
                    moment: flash.moment(),
                },
            },
            Wrote::Failed => Saved::Unsaved {
                moment: flash.moment(),
            },
        }
    }

    /// Appends the record of a change.
    fn append<F: Flash>(&mut self, flash: &mut F, change: ChangeRef<'_>, totals: &Totals) -> Wrote
        requires sure { self.old.in_doubt ≡ false }
        requires room { next_in self.old < area_pages self.old.geometry }
        requires limits { IsTrue (is_within_limits (change_of change)) }
        requires geometry { (F.state flash.old).geometry ≡ self.old.geometry }
        requires saver { IsTrue (F.state flash.old).told → IsSaverIn (F.state flash.old).cells self.old }
        ensures saver { self.new ≡ after_append self.old result }
        ensures stands { IsTrue (F.state flash.old).told → IsSaverIn (F.state flash.new).cells self.new }
        ensures stops { (c : DriveConfig) (own : Reading) → geometry_of c ≡ self.old.geometry → (IsTrue (F.state flash.old).told → reads_as c (F.state flash.old).cells ≡ Some own) → (IsTrue (F.state flash.old).told → IsTrue (all_fit fits c own ((change_of change.entry, totals.now) ∷ []))) → Holds (ReadsAsOneOf c (F.state flash.old).cells (within_append c own ((change_of change.entry, totals.now) ∷ []))) (F.state flash.old) (F.state flash.new) }
        ensures said { (c : DriveConfig) (own : Reading) → geometry_of c ≡ self.old.geometry → IsTrue (F.state flash.old).told → reads_as c (F.state flash.old).cells ≡ Some own → IsTrue (all_fit fits c own ((change_of change.entry, totals.now) ∷ [])) → SayAfterAppend c self.new (F.state flash.new).cells own ((change_of change.entry, totals.now) ∷ []) result }
        ensures calls { MakesSystemCalls (F.state flash.old) (F.state flash.new) (AreCallsOfAppend self.old result) }
        ensures ends { EndsCheckpoint (F.state flash.old) (F.state flash.new) result }
    {
        match self.journal.append(flash, change, totals) {
            Appended::Done => Wrote::Done,
            Appended::Doubt { moment: _ } => Wrote::Failed,
            // It is asked only where the area has room.
            Appended::AreaFull => unreachable!(),
        }
    }
}
