ghost use Rattle.std.specs.Prelude.{◌≡◌, ◌≢◌, ◌⊎◌, ◌<◌, ◌≤◌, ◌+◌, ◌++◌, ℕ, false, IsTrue, List, Some};
ghost use Rattle.std.specs.List.{concat, list_all};
ghost use Rattle.fdp_base.specs.declared.config.DriveConfig.{DriveConfig};
ghost use Rattle.fdp_base.specs.Placement.{geometry_of};
ghost use Rattle.fdp_base.specs.declared.config.Geometry.{Geometry};
ghost use Rattle.fdp_base.specs.declared.entry.Totals.{Totals};
ghost use Rattle.fdp_checkpoint.specs.Pages.{IsBadIn};
ghost use Rattle.fdp_checkpoint.specs.Slices.{IsPartDone, IsSliced, slice_call};
ghost use Rattle.fdp_checkpoint.specs.Writing.{HasCheckpoint, IsErasing, IsFrozen, IsSealing, page_call};
ghost use Rattle.fdp_checkpoint.specs.declared.target.Target.{Target};
ghost use Rattle.fdp_flash.specs.declared.cell.Cell.{Cell};
ghost use Rattle.fdp_flash.specs.Planned.{calls_from, erase_of};
ghost use Rattle.fdp_image.specs.Applied.{with_changes};
ghost use Rattle.fdp_image.specs.Areas.{Sealed, area_of, area_unit, current_area};
ghost use Rattle.fdp_image.specs.Checkpoint.{reading_of_state, said_by_checkpoint};
ghost use Rattle.fdp_image.specs.CheckpointFields.{same_keys};
ghost use Rattle.fdp_image.specs.Fits.{all_fit, fits};
ghost use Rattle.fdp_image.specs.Reads.{changes_in, is_checkpoint_of, reads_as};
ghost use Rattle.fdp_image.specs.Replacing.{HasNoSeal, IsCheckpointOf, IsSavedBy, pages_for};
ghost use Rattle.fdp_records.specs.declared.change.Change.{Change};
ghost use Rattle.fdp_snapshot.specs.declared.state.State.{State};

/// What is read of an area is what an image with that area says: its checkpoint is one of a drive with these sizes exactly
/// where the state names them, and it reads as the state.
pub fn checkpoint_is_that_of_the_image()
    ensures sizes { (c : DriveConfig) (z : Sealed) (s : State) → IsCheckpointOf z.stamp.version c.block (concat z.checkpoint) s → is_checkpoint_of c z ≡ list_all (λ same. same) (same_keys c s.summary.keys) }
    ensures reads { (block : ℕ) (z : Sealed) (s : State) → IsCheckpointOf z.stamp.version block (concat z.checkpoint) s → said_by_checkpoint (concat z.checkpoint) ≡ reading_of_state s }
{}

/// An area with a bad page holds no checkpoint of a drive, whatever its sizes.
pub fn bad_checkpoint_is_none_of_the_image()
    ensures { (c : DriveConfig) (area : ℕ) (z : Sealed) (page : ℕ) → IsBadIn (geometry_of c) area z.stamp.version (concat z.checkpoint) page → is_checkpoint_of c z ≡ false }
{}

/// Whatever a stop in a slice leaves, its area is not sealed, or as it was but for the end of its journal, and without a seal where it had
/// none. Where another area is current it stays current, and an image reads as before. Two slices, one after the other, leave what one may.
pub fn a_slice_leaves_the_current_area()
    ensures left { (g : Geometry) (area : ℕ) (old new : List Cell) → IsSliced g area old new → IsErasing g area old new }
    ensures unsealed { (g : Geometry) (area : ℕ) (old new : List Cell) → HasNoSeal (area_of g area old) → IsSliced g area old new → HasNoSeal (area_of g area new) }
    ensures joined { (g : Geometry) (area : ℕ) (old now new : List Cell) → IsSliced g area old now → IsSliced g area now new → IsSliced g area old new }
    ensures current { (g : Geometry) (area : ℕ) (old new : List Cell) (number : ℕ) (s : Sealed) → area ≤ 1 → current_area g old ≡ Some (number, s) → number ≢ area → IsSliced g area old new → current_area g new ≡ Some (number, s) }
    ensures reads { (c : DriveConfig) (area : ℕ) (old new : List Cell) (number : ℕ) (s : Sealed) → area ≤ 1 → current_area (geometry_of c) old ≡ Some (number, s) → number ≢ area → IsSliced (geometry_of c) area old new → reads_as c new ≡ reads_as c old }
{}

/// The calls of a checkpoint in slices are the erases of the units of its area and then the programs of its pages. Before the first of them nothing has to stand in its area. Once all are done no page of the area is a seal, and
/// the frozen pages stand there as the checkpoint of their state.
pub fn slices_make_a_checkpoint()
    ensures calls { (g : Geometry) (area count : ℕ) → calls_from (slice_call g area) 0 (g.area_units + count) ≡ calls_from erase_of (area_unit g area) g.area_units ++ calls_from (page_call g area) 0 count }
    ensures begun { (x : Target) (frozen : List ℕ) (cells : List Cell) → 0 < x.geometry.area_units → IsPartDone x frozen 0 cells }
    ensures unsealed { (x : Target) (frozen : List ℕ) (done : ℕ) (cells : List Cell) → x.geometry.area_units ≤ done → IsPartDone x frozen done cells → HasNoSeal (area_of x.geometry x.area cells) }
    ensures done { (x : Target) (frozen : List ℕ) (count : ℕ) (s : State) (cells : List Cell) → IsFrozen x.geometry.block s frozen → count ≡ pages_for x.geometry.block s.summary → IsPartDone x frozen (x.geometry.area_units + count) cells → HasCheckpoint x count s cells }
{}

/// Where another area is current, with a lower epoch, an image within the seal reads as before, or as the state of the checkpoint with the
/// changes of the kept pages.
pub fn a_seal_says_its_state_with_the_kept_changes()
    ensures { (c : DriveConfig) (area epoch : ℕ) (s : State) (kept : List (List ℕ)) (xs : List (Change × Totals)) (old new : List Cell) (number : ℕ) (own : Sealed) → area ≤ 1 → current_area (geometry_of c) old ≡ Some (number, own) → number ≢ area → own.stamp.epoch < epoch → IsSavedBy c s → changes_in kept ≡ Some xs → IsTrue (all_fit fits c (reading_of_state s) xs) → IsSealing (geometry_of c) area epoch s kept old new → (reads_as c new ≡ reads_as c old) ⊎ (reads_as c new ≡ Some (with_changes c (reading_of_state s) xs)) }
{}
