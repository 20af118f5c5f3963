ghost use Rattle.std.specs.Prelude.{[], ◌++◌, ◌∷◌, ◌≡◌, ◌<◌, ◌≤◌, Bool, IsFalse, IsTrue, List, Option, Some, false, slice_get, true, ℕ};
ghost use Rattle.fdp_base.specs.declared.config.DriveConfig.{DriveConfig};
ghost use Rattle.fdp_base.specs.declared.entry.Entry.{Entry};
ghost use Rattle.fdp_base.specs.declared.entry.Spot.{Spot};
ghost use Rattle.fdp_base.specs.Geometry.{data_units};
ghost use Rattle.fdp_base.specs.Placement.{geometry_of};
ghost use Rattle.fdp_readings.specs.fdp_collector.Copying.{IsDataPage};
ghost use Rattle.fdp_readings.specs.fdp_collector.Leaving.{StepMayLeave};
ghost use Rattle.fdp_durability.specs.Durable.{IsDurable, KeepsUsed, UnitsMoveOn};
ghost use Rattle.fdp_flash.specs.declared.cell.Cell.{Cell};
ghost use Rattle.fdp_flash.specs.declared.cell.Cell.TheVariants.{Blank};
ghost use Rattle.fdp_flash.specs.Cells.{EraseMayLeave, ProgramMayLeave};
ghost use Rattle.fdp_flash.specs.Layout.{page_number};
ghost use Rattle.fdp_history.specs.Orderly.{IsOrderly};
ghost use Rattle.fdp_history.specs.Standing.{IsStanding};
ghost use Rattle.fdp_saving.specs.fdp_journal.JournalState.{JournalState};
ghost use Rattle.fdp_readings.specs.fdp_locations.Located.{AreLed};
ghost use Rattle.fdp_readings.specs.fdp_locations.Written.{Written};
ghost use Rattle.fdp_owners.specs.OwnerTable.{OwnerTable};
ghost use Rattle.fdp_readings.specs.fdp_pages.PageTables.{PageTables};
ghost use Rattle.fdp_passes.specs.Due.{HasNoLive};
ghost use Rattle.fdp_pointers.specs.Contents.{leaves_pages};
ghost use Rattle.fdp_pointers.specs.Facts.{Page};
ghost use Rattle.fdp_pointers.specs.Pointers.{Behind};
ghost use Rattle.fdp_readings.specs.Drawn.{drawn};
ghost use Rattle.fdp_readings.specs.Lasting.{leaves_nothing};
ghost use Rattle.fdp_readings.specs.Named.{KeepsSystem, NamesNone};
ghost use Rattle.fdp_rules.specs.History.{Found, point_of};
ghost use Rattle.fdp_rules.specs.Point.{Point};
ghost use Rattle.fdp_rules.specs.Step.{IsStep};
ghost use Rattle.fdp_units.specs.UnitTable.{UnitTable, cut_of};

/// What is durable stays so over whatever a stop or a fault leaves of the program of a blank data page; of the erase of a data unit of which
/// the history draws no page, while nothing is in doubt; and of all calls that change no system page and no page that was used.
pub fn flash_calls_keep_what_is_durable()
    ensures program { (c : DriveConfig) (f : Found) (es : List Entry) (firm : ℕ) (s : JournalState) (t : UnitTable) (old new : List Cell) (at : Spot) (spare bytes : List ℕ) → geometry_of c ≡ s.geometry → 0 < s.stamp.epoch → IsDataPage (geometry_of c) at → slice_get old (page_number (geometry_of c) at) ≡ Some Blank → ProgramMayLeave (geometry_of c) old at spare bytes new → IsDurable c f es firm s t old → IsDurable c f es firm s t new }
    ensures erase { (c : DriveConfig) (f : Found) (es : List Entry) (firm : ℕ) (s : JournalState) (t : UnitTable) (old new : List Cell) (unit : ℕ) → geometry_of c ≡ s.geometry → 0 < s.stamp.epoch → s.in_doubt ≡ false → unit < data_units (geometry_of c) → NamesNone c (drawn c (point_of c f es)) unit → EraseMayLeave (geometry_of c) old unit new → IsDurable c f es firm s t old → IsDurable c f es firm s t new }
    ensures used { (c : DriveConfig) (f : Found) (es : List Entry) (firm : ℕ) (s : JournalState) (t : UnitTable) (old new : List Cell) → geometry_of c ≡ s.geometry → 0 < s.stamp.epoch → KeepsSystem c old new → KeepsUsed c t old new → IsDurable c f es firm s t old → IsDurable c f es firm s t new }
{}

/// So it stays in each step of relocation, whatever a stop leaves of it, where units are erased only while nothing is in doubt, and of a unit
/// without a live page the history draws none.
pub fn steps_of_relocation_keep_what_is_durable()
    ensures { (c : DriveConfig) (f : Found) (es : List Entry) (firm : ℕ) (s : JournalState) (may_erase : Bool) (t : UnitTable) (o : OwnerTable) (old image : List Cell) → geometry_of c ≡ s.geometry → 0 < s.stamp.epoch → cut_of t ≡ record { unit_pages = c.unit_pages; group_units = c.units; groups = c.groups } → (IsTrue may_erase → s.in_doubt ≡ false) → ((unit : ℕ) → HasNoLive o unit 0 → NamesNone c (drawn c (point_of c f es)) unit) → StepMayLeave may_erase (geometry_of c) t o old image → IsDurable c f es firm s t old → IsDurable c f es firm s t image }
{}

/// The history draws no page of a unit without a live page, which may be erased so.
pub fn units_without_live_pages_are_not_drawn()
    ensures { (c : DriveConfig) (p : Point) (written : Spot → Option Written) (at : Behind Page) (t : PageTables) (unit : ℕ) → IsStanding c p → AreLed c p written at t → HasNoLive t.owners unit 0 → NamesNone c (drawn c p) unit }
{}

/// What is durable is so for a later table of units, where no unit has fewer pages that were used, but one of which the history draws no page,
/// while nothing is in doubt.
pub fn units_move_on()
    ensures { (c : DriveConfig) (f : Found) (es : List Entry) (firm : ℕ) (s : JournalState) (old new : UnitTable) (cells : List Cell) → geometry_of c ≡ s.geometry → UnitsMoveOn c f es s old new → IsDurable c f es firm s old cells → IsDurable c f es firm s new cells }
{}

/// An entry that leaves nothing of what an image keeps needs no saving. One that places, copies, moves or erases pages has to be a step of the
/// history. While something is in doubt no entry does: all of them are saved by the next checkpoint.
pub fn entries_keep_what_is_durable()
    ensures nothing { (told : Bool) (c : DriveConfig) (f : Found) (es : List Entry) (e : Entry) (firm : ℕ) (s : JournalState) (t : UnitTable) (cells : List Cell) → IsTrue (leaves_nothing e) → IsOrderly c (point_of c f es) → IsStanding c (point_of c f es) → (IsFalse (leaves_pages e) → IsStep told c f es e) → IsDurable c f es firm s t cells → IsDurable c f (es ++ e ∷ []) firm s t cells }
    ensures doubt { (c : DriveConfig) (f : Found) (es more : List Entry) (firm : ℕ) (s : JournalState) (t : UnitTable) (cells : List Cell) → s.in_doubt ≡ true → IsDurable c f es firm s t cells → IsDurable c f (es ++ more) firm s t cells }
    ensures less { (c : DriveConfig) (f : Found) (es : List Entry) (firm less : ℕ) (s : JournalState) (t : UnitTable) (cells : List Cell) → less ≤ firm → IsDurable c f es firm s t cells → IsDurable c f es less s t cells }
{}
