ghost use Rattle.std.specs.Prelude.{◌≡◌, ◌≤◌, ◌++◌, ◌∷◌, [], Bool, IsFalse, IsTrue, List, ℕ};
ghost use Rattle.fdp_base.specs.declared.config.DriveConfig.{DriveConfig};
ghost use Rattle.fdp_base.specs.declared.entry.Entry.{Entry};
ghost use Rattle.fdp_base.specs.declared.entry.Totals.{Totals};
ghost use Rattle.fdp_flash.specs.declared.cell.Cell.{Cell};
ghost use Rattle.fdp_history.specs.Orderly.{IsOrderly};
ghost use Rattle.fdp_history.specs.Standing.{IsStanding};
ghost use Rattle.fdp_image.specs.Reading.{Reading};
ghost use Rattle.fdp_image.specs.StandsFor.{Shows};
ghost use Rattle.fdp_image.specs.Valid.{IsValid};
ghost use Rattle.fdp_pointers.specs.Contents.{leaves_pages};
ghost use Rattle.fdp_readings.specs.Drawn.{drawn};
ghost use Rattle.fdp_readings.specs.Lasting.{leaves_nothing};
ghost use Rattle.fdp_rules.specs.History.{Found, point_of, totals_of};
ghost use Rattle.fdp_rules.specs.Step.{IsStep};

/// An entry that leaves nothing: a reading that showed the history shows it with the entry more, and what the history draws then
/// differs in its totals alone. One that places, copies, moves or erases pages has to be a step of the history.
pub fn entries_that_leave_nothing_keep_a_reading()
    ensures shows { (c : DriveConfig) (f : Found) (es : List Entry) (e : Entry) (cells : List Cell) (r : Reading) → IsTrue (leaves_nothing e) → Shows c f cells es r → Shows c f cells (es ++ e ∷ []) r }
    ensures drawn { (told : Bool) (c : DriveConfig) (f : Found) (es : List Entry) (e : Entry) → IsTrue (leaves_nothing e) → IsOrderly c (point_of c f es) → IsStanding c (point_of c f es) → (IsFalse (leaves_pages e) → IsStep told c f es e) → drawn c (point_of c f (es ++ e ∷ [])) ≡ record (drawn c (point_of c f es)) { totals = totals_of f (es ++ e ∷ []) } }
{}

/// A reading with other totals shows what it showed, and is valid with a later position.
pub fn later_totals_keep_a_reading()
    ensures shows { (c : DriveConfig) (f : Found) (es : List Entry) (cells : List Cell) (r : Reading) (totals : Totals) → Shows c f cells es r → Shows c f cells es (record r { totals = totals }) }
    ensures valid { (c : DriveConfig) (cells : List Cell) (r : Reading) (totals : Totals) → r.totals.position ≤ totals.position → IsValid c cells r → IsValid c cells (record r { totals = totals }) }
{}
