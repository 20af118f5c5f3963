ghost use Rattle.std.specs.Prelude.{[], ◌++◌, ◌∷◌, ◌≡◌, Bool, List, false, ℕ};
ghost use Rattle.fdp_base.specs.declared.config.DriveConfig.{DriveConfig};
ghost use Rattle.fdp_base.specs.declared.entry.Entry.{Entry};
ghost use Rattle.fdp_base.specs.declared.entry.Totals.{Totals};
ghost use Rattle.fdp_durability.specs.Beginnings.{CanBeSaved};
ghost use Rattle.fdp_durability.specs.Durable.{IsDurable};
ghost use Rattle.fdp_durability.specs.Saved.{SavesAll, firm_renewed, firm_with, with_saved};
ghost use Rattle.fdp_flash.specs.declared.answer.Wrote.{Wrote};
ghost use Rattle.fdp_flash.specs.declared.cell.Cell.{Cell};
ghost use Rattle.fdp_image.specs.Checkpoint.{reading_of_state};
ghost use Rattle.fdp_image.specs.Kept.{StandsForBeginning};
ghost use Rattle.fdp_image.specs.Saving.{SameDataPages};
ghost use Rattle.fdp_saving.specs.fdp_journal.JournalState.{JournalState};
ghost use Rattle.fdp_readings.specs.Drawn.{drawn};
ghost use Rattle.fdp_records.specs.declared.change.Change.{Change};
ghost use Rattle.fdp_rules.specs.History.{Found, point_of};
ghost use Rattle.fdp_rules.specs.Point.{Point};
ghost use Rattle.fdp_saving.specs.declared.saved.Saved.{Saved};
ghost use Rattle.fdp_saving.specs.Said.{ReadsAsOneOf};
ghost use Rattle.fdp_saving.specs.Saver.{IsSaverIn, after_renewal, after_saving, needs_checkpoint};
ghost use Rattle.fdp_saving.specs.Saving.{SayAfterRenewal, SayAfterSaving, base_of, within_renewal, within_saved};
ghost use Rattle.fdp_snapshot.specs.declared.state.State.{State};
ghost use Rattle.fdp_units.specs.UnitTable.{UnitTable};

/// Entries are saved by the changes of one page upon a history that is durable: each image within stands for a beginning of the history behind the saving
/// that holds all that was firm, and after it that history is durable, and all of it firm where the saving is done.
pub fn savings_keep_what_is_durable()
    ensures images { (c : DriveConfig) (f : Found) (es added : List Entry) (firm : ℕ) (s : JournalState) (t : UnitTable) (old : List Cell) (given : State) (first : Change × Totals) (rest : List (Change × Totals)) → reading_of_state given ≡ drawn c (point_of c f es) → SavesAll c f es added (first ∷ rest) → (h : IsDurable c f es firm s t old) → CanBeSaved c (point_of c f es) t old → CanBeSaved c (point_of c f (es ++ added)) t old → (answer : Saved) (image : List Cell) → ReadsAsOneOf c old (within_saved c (needs_checkpoint s) h.own h.tried given (first ∷ rest) answer) image → StandsForBeginning c f (with_saved es added answer) firm image }
    ensures after { (c : DriveConfig) (f : Found) (es added : List Entry) (firm : ℕ) (s : JournalState) (t : UnitTable) (old : List Cell) (given : State) (first : Change × Totals) (rest : List (Change × Totals)) → reading_of_state given ≡ drawn c (point_of c f es) → SavesAll c f es added (first ∷ rest) → (h : IsDurable c f es firm s t old) → CanBeSaved c (point_of c f es) t old → CanBeSaved c (point_of c f (es ++ added)) t old → (now : JournalState) (new : List Cell) (answer : Saved) → now ≡ after_saving s given.summary answer → SameDataPages c old new → IsSaverIn new now → SayAfterSaving c now new h.own h.tried given (base_of (needs_checkpoint s) h.own given) (first ∷ rest) answer → IsDurable c f (with_saved es added answer) (firm_with es added firm answer) now t new }
{}

/// A drive is saved whole by a checkpoint, where one is wanted, as it is at least in doubt: each image within stands for a beginning of its history
/// that holds all that was firm, and after it the history is durable, and all of it firm where a checkpoint was wanted and is done.
pub fn checkpoints_keep_what_is_durable()
    ensures images { (c : DriveConfig) (f : Found) (es : List Entry) (firm : ℕ) (s : JournalState) (t : UnitTable) (old : List Cell) (given : State) → reading_of_state given ≡ drawn c (point_of c f es) → (h : IsDurable c f es firm s t old) → CanBeSaved c (point_of c f es) t old → (wanted : Bool) (image : List Cell) → ReadsAsOneOf c old (within_renewal wanted h.own h.tried given) image → StandsForBeginning c f es firm image }
    ensures after { (c : DriveConfig) (f : Found) (es : List Entry) (firm : ℕ) (s : JournalState) (t : UnitTable) (old : List Cell) (given : State) → reading_of_state given ≡ drawn c (point_of c f es) → (h : IsDurable c f es firm s t old) → CanBeSaved c (point_of c f es) t old → (wanted : Bool) (now : JournalState) (new : List Cell) (answer : Wrote) → (wanted ≡ false → s.in_doubt ≡ false) → now ≡ after_renewal wanted s given.summary answer → SameDataPages c old new → IsSaverIn new now → SayAfterRenewal c now new h.own h.tried given (base_of wanted h.own given) answer → IsDurable c f es (firm_renewed wanted es firm answer) now t new }
{}

/// What can be saved of a point over some cells can be saved over all with the same data pages.
pub fn data_pages_decide_what_can_be_saved()
    ensures { (c : DriveConfig) (p : Point) (t : UnitTable) (old new : List Cell) → SameDataPages c old new → CanBeSaved c p t old → CanBeSaved c p t new }
{}
