ghost use Rattle.std.specs.Prelude.{◌≡◌, ◌⊎◌, ℕ, ◌<◌, ◌≤◌, ◌++◌, ◌∷◌, [], IsTrue, List, Some, None, length, slice_set};
ghost use Rattle.fdp_base.specs.declared.config.DriveConfig.{DriveConfig};
ghost use Rattle.fdp_flash.specs.declared.cell.Cell.{Cell};
ghost use Rattle.fdp_base.specs.declared.entry.Spot.{Spot};
ghost use Rattle.fdp_base.specs.declared.entry.Totals.{Totals};
ghost use Rattle.fdp_base.specs.Geometry.{all_pages};
ghost use Rattle.fdp_base.specs.Placement.{geometry_of};
ghost use Rattle.fdp_flash.specs.Cells.{IsProgrammed, ProgramMayLeave};
ghost use Rattle.fdp_records.specs.declared.change.Change.{Change};
ghost use Rattle.fdp_records.specs.declared.spare.SystemKind.TheVariants.{Journal};
ghost use Rattle.fdp_rules.specs.History.{fresh};
ghost use Rattle.fdp_base.specs.declared.config.Geometry.{Geometry};
ghost use Rattle.fdp_image.specs.Areas.{Sealed, area_of, page_bytes, sealed_in};
ghost use Rattle.fdp_image.specs.Checkpoint.{reading_of_state};
ghost use Rattle.fdp_image.specs.Replacing.{IsReplacedIn, IsSameBeside, IsShortened, IsWiped, IsSavedBy, MayBeReplaced};
ghost use Rattle.fdp_snapshot.specs.declared.state.State.{State};
ghost use Rattle.fdp_image.specs.Fits.{all_fit, fits};
ghost use Rattle.fdp_image.specs.Reads.{fresh_reading, next_page, reads_as};
ghost use Rattle.fdp_image.specs.Reading.{Reading};
ghost use Rattle.fdp_image.specs.Saving.{AreBlankFrom, IsNextRecord, IsSavedIn, ReadsWithOrWithout};
ghost use Rattle.fdp_image.specs.StandsFor.{Says};

/// The fresh drive says what the empty history of its configuration gives.
pub fn fresh_drive_says_its_history()
    ensures { (c : DriveConfig) (image : List Cell) → Says c (fresh c) image [] (fresh_reading c) }
{}

/// A page that is programmed behind the journal of a sealed area, the pages behind it being blank, adds its bytes where it is
/// whole with the next number and the version and epoch of the area. Any other page there adds nothing.
pub fn journal_grows_by_its_next_page()
    ensures added { (cells : List Cell) (s : Sealed) (cell : Cell) (bytes : List ℕ) → sealed_in cells ≡ Some s → next_page s < length cells → AreBlankFrom (next_page s) cells → page_bytes Journal (length s.journal) s.stamp cell ≡ Some bytes → sealed_in (slice_set cells (next_page s) cell) ≡ Some (record s { journal = s.journal ++ bytes ∷ [] }) }
    ensures left { (cells : List Cell) (s : Sealed) (cell : Cell) → sealed_in cells ≡ Some s → next_page s < length cells → page_bytes Journal (length s.journal) s.stamp cell ≡ None → sealed_in (slice_set cells (next_page s) cell) ≡ Some s }
{}

/// Saving changes by one page, which fit one after another what the image says: whatever a stop or a fault leaves of the program of that page behind the journal, the image reads as it did, or
/// as that with all of them, and its data pages are as they were.
pub fn saving_leaves_the_image_with_or_without_the_changes()
    ensures { (c : DriveConfig) (cells : List Cell) (r : Reading) (at : Spot) (spare bytes : List ℕ) (xs : List (Change × Totals)) (image : List Cell) → length cells ≡ all_pages (geometry_of c) → reads_as c cells ≡ Some r → IsTrue (all_fit fits c r xs) → IsNextRecord c cells at spare bytes xs → ProgramMayLeave (geometry_of c) cells at spare bytes image → ReadsWithOrWithout c cells r xs image }
{}

/// Once the program of their page is done, changes that fit are saved, and the journal can go on behind it.
pub fn a_page_that_is_done_is_saved()
    ensures { (c : DriveConfig) (cells : List Cell) (r : Reading) (at : Spot) (spare bytes : List ℕ) (xs : List (Change × Totals)) (image : List Cell) → length cells ≡ all_pages (geometry_of c) → reads_as c cells ≡ Some r → IsTrue (all_fit fits c r xs) → (next : IsNextRecord c cells at spare bytes xs) → IsProgrammed (geometry_of c) cells at spare bytes image → IsSavedIn c r next.number next.area bytes xs image }
{}

/// An area some of whose pages were wiped, as an erase that stops may leave it, is not sealed, or has the checkpoint pages and the seal
/// that it had, and a beginning of its journal.
pub fn an_erase_leaves_a_beginning()
    ensures { (old new : List Cell) → IsWiped old new → (sealed_in new ≡ None) ⊎ IsShortened old new }
{}

/// Whatever becomes of an area that is not the current one, which has a lower epoch: while it is not sealed, or as it was but for the end
/// of its journal, the image reads as before; once it is sealed with a state that a drive of the configuration saves, it reads as that state.
pub fn another_area_leaves_the_reading_or_gives_its_state()
    ensures { (g : Geometry) (area epoch : ℕ) (s : State) (old new : List Cell) → area ≤ 1 → IsSameBeside g area old new → IsReplacedIn g.block epoch s (area_of g area old) (area_of g area new) → (c : DriveConfig) (r : Reading) → geometry_of c ≡ g → IsSavedBy c s → MayBeReplaced g old area epoch → reads_as c old ≡ Some r → (reads_as c new ≡ Some r) ⊎ (reads_as c new ≡ Some (reading_of_state s)) }
{}
