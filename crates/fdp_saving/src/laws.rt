ghost use Rattle.std.specs.Prelude.{◌≡◌, ◌⊎◌, ℕ, ◌+◌, ◌<◌, ◌≤◌, Bool, false, List, Some, None, length, slice_get};
ghost use Rattle.std.specs.List.{list_any};
ghost use Rattle.fdp_base.specs.Config.{IsValidConfig};
ghost use Rattle.fdp_base.specs.Geometry.{IsValidGeometry, all_pages, area_pages};
ghost use Rattle.fdp_base.specs.Placement.{geometry_of, most_blocks};
ghost use Rattle.fdp_base.specs.declared.config.DriveConfig.{DriveConfig};
ghost use Rattle.fdp_base.specs.declared.config.Geometry.{Geometry};
ghost use Rattle.fdp_calls.specs.Calls.{has_failed};
ghost use Rattle.fdp_flash.specs.declared.answer.Wrote.TheVariants as wrote;
ghost use Rattle.fdp_flash.specs.Cells.{IsBlankFlash};
ghost use Rattle.fdp_flash.specs.FlashState.{Call};
ghost use Rattle.fdp_flash.specs.declared.cell.Cell.{Cell};
ghost use Rattle.fdp_image.specs.Areas.{Sealed, current_area, data_pages};
ghost use Rattle.fdp_image.specs.Reading.{Reading};
ghost use Rattle.fdp_image.specs.Reads.{reads_as};
ghost use Rattle.fdp_image.specs.Replacing.{pages_for};
ghost use Rattle.fdp_journal.specs.JournalState.{JournalState};
ghost use Rattle.fdp_snapshot.specs.Reading.{blocks_in};
ghost use Rattle.fdp_snapshot.specs.declared.state.Summary.{Summary};
ghost use Rattle.fdp_saving.specs.Calls.{AreCallsOfCheckpoint, AreCallsOfRenewal, AreCallsOfSaving, FailAtEnd};
ghost use Rattle.fdp_saving.specs.declared.saved.Saved.TheVariants as answers;
ghost use Rattle.fdp_saving.specs.Said.{AreasSay};
ghost use Rattle.fdp_saving.specs.Saver.{IsSaverIn, first_saver};

/// An image reads as one of the two areas of its saver.
pub fn an_image_reads_as_one_of_its_areas()
    ensures { (c : DriveConfig) (s : JournalState) (cells : List Cell) (own tried : Reading) → AreasSay c s cells own tried → (reads_as c cells ≡ Some own) ⊎ (reads_as c cells ≡ Some tried) }
{}

/// While its saver is not in doubt, an image reads as the saver's area.
pub fn while_there_is_no_doubt_the_area_is_what_is_read()
    ensures { (c : DriveConfig) (s : JournalState) (cells : List Cell) (own tried : Reading) → geometry_of c ≡ s.geometry → IsSaverIn cells s → s.in_doubt ≡ false → AreasSay c s cells own tried → reads_as c cells ≡ Some own }
{}

/// An image with a current area is that of a saver that begins with it, and the area says what the image reads as.
pub fn an_image_is_that_of_a_saver_of_its_area()
    ensures stands { (g : Geometry) (cells : List Cell) (area : ℕ) (z : Sealed) → current_area g cells ≡ Some (area, z) → IsSaverIn cells (first_saver g area z.stamp.epoch) }
    ensures says { (c : DriveConfig) (cells : List Cell) (area : ℕ) (z : Sealed) (r : Reading) → current_area (geometry_of c) cells ≡ Some (area, z) → reads_as c cells ≡ Some r → AreasSay c (first_saver (geometry_of c) area z.stamp.epoch) cells r r }
{}

/// A flash without a sealed area, as a blank one is, is that of a saver that begins fresh.
pub fn a_flash_without_an_area_is_that_of_a_new_saver()
    ensures blank { (g : Geometry) (cells : List Cell) → IsValidGeometry g → length cells ≡ all_pages g → IsBlankFlash g cells → current_area g cells ≡ None }
    ensures stands { (g : Geometry) (cells : List Cell) → current_area g cells ≡ None → IsSaverIn cells (first_saver g 1 0) }
    ensures says { (c : DriveConfig) (cells : List Cell) (r : Reading) → current_area (geometry_of c) cells ≡ None → reads_as c cells ≡ Some r → AreasSay c (first_saver (geometry_of c) 1 0) cells r r }
{}

/// Once an area is sealed, no change of the data pages concerns the saver or what the areas say.
pub fn data_pages_may_change()
    ensures stands { (s : JournalState) (old new : List Cell) → ((page : ℕ) → data_pages s.geometry ≤ page → slice_get new page ≡ slice_get old page) → IsSaverIn old s → IsSaverIn new s }
    ensures says { (c : DriveConfig) (s : JournalState) (old new : List Cell) (own tried : Reading) → geometry_of c ≡ s.geometry → 0 < s.stamp.epoch → ((page : ℕ) → data_pages s.geometry ≤ page → slice_get new page ≡ slice_get old page) → IsSaverIn old s → AreasSay c s old own tried → AreasSay c s new own tried }
{}

/// Behind the checkpoint of a drive of a valid configuration and its seal an area has room for sixteen records.
pub fn a_checkpoint_leaves_room_for_a_journal()
    ensures { (c : DriveConfig) (summary : Summary) → IsValidConfig c → blocks_in summary.spaces ≤ most_blocks c → pages_for c.block summary + 17 ≤ area_pages (geometry_of c) }
{}

/// Of the calls of a saving, of a checkpoint, and of one that was wanted or not, none failed where it is done, and else just the last.
pub fn only_the_last_call_fails()
    ensures saved { (s : JournalState) (summary : Summary) (calls : List Call) → AreCallsOfSaving s summary answers.Done calls → list_any has_failed calls ≡ false }
    ensures doubtful { (s : JournalState) (summary : Summary) (moment : ℕ) (calls : List Call) → AreCallsOfSaving s summary (answers.Doubtful moment) calls → FailAtEnd calls }
    ensures unsaved { (s : JournalState) (summary : Summary) (moment : ℕ) (calls : List Call) → AreCallsOfSaving s summary (answers.Unsaved moment) calls → FailAtEnd calls }
    ensures written { (s : JournalState) (summary : Summary) (calls : List Call) → AreCallsOfCheckpoint s summary wrote.Done calls → list_any has_failed calls ≡ false }
    ensures stopped { (s : JournalState) (summary : Summary) (calls : List Call) → AreCallsOfCheckpoint s summary wrote.Failed calls → FailAtEnd calls }
    ensures renewed { (wanted : Bool) (s : JournalState) (summary : Summary) (calls : List Call) → AreCallsOfRenewal wanted s summary wrote.Done calls → list_any has_failed calls ≡ false }
    ensures failed { (wanted : Bool) (s : JournalState) (summary : Summary) (calls : List Call) → AreCallsOfRenewal wanted s summary wrote.Failed calls → FailAtEnd calls }
{}
