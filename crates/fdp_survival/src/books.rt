ghost use Rattle.std.specs.Prelude.{◌≡◌, ℕ, ◌++◌, List, None, Some, length};
ghost use Rattle.fdp_base.specs.declared.config.DriveConfig.{DriveConfig};
ghost use Rattle.fdp_base.specs.declared.entry.Entry.{Entry};
ghost use Rattle.fdp_base.specs.Placement.{geometry_of};
ghost use Rattle.fdp_isolation.specs.fdp_book.Book.{BookSeen, point_in, written_in};
ghost use Rattle.fdp_durability.specs.Beginnings.{CanBeSaved};
ghost use Rattle.fdp_durability.specs.Durable.{IsDurable};
ghost use Rattle.fdp_durability.specs.fdp_journal.JournalState.{JournalState};
ghost use Rattle.fdp_durability.specs.fdp_locations.Stored.{HoldsWritten};
ghost use Rattle.fdp_durability.specs.fdp_saving.Saver.{first_saver};
ghost use Rattle.fdp_flash.specs.declared.cell.Cell.{Cell};
ghost use Rattle.fdp_image.specs.Areas.{Sealed, current_area};
ghost use Rattle.fdp_image.specs.Reading.{Reading};
ghost use Rattle.fdp_image.specs.Reads.{reads_as};
ghost use Rattle.fdp_isolation.specs.Isolated.{IsIsolatedDrive};
ghost use Rattle.fdp_isolation.specs.Reads.{ReadsApart};
ghost use Rattle.fdp_rules.specs.History.{Found, point_of};
ghost use Rattle.fdp_survival.specs.Apart.{AreSaidApart, StandsApart};
ghost use Rattle.fdp_survival.specs.Books.{IsInOrder};
ghost use Rattle.fdp_survival.specs.Safe.{IsSafeImage};
ghost use Rattle.fdp_units.specs.UnitTable.{UnitTable};

/// What the history of a book draws can be saved over cells that hold what was written.
pub fn books_can_be_saved()
    ensures { (b : BookSeen) (cells : List Cell) → IsInOrder b → HoldsWritten (geometry_of b.config) cells (written_in b) b.pages.units → CanBeSaved b.config (point_in b) b.pages.units cells }
{}

/// Data stands apart in cells over which all is durable, what the areas say is isolated, and the drive is; and an image that is safe of stops is so by
/// each history that goes on.
pub fn durable_things_stand_apart()
    ensures apart { (c : DriveConfig) (f : Found) (es : List Entry) (firm : ℕ) (s : JournalState) (t : UnitTable) (image : List Cell) → IsDurable c f es firm s t image → AreSaidApart c s image → IsIsolatedDrive c (point_of c f es) es image → StandsApart c f es (length es) image }
    ensures grown { (c : DriveConfig) (f : Found) (opened : List Cell) (es more : List Entry) (firm from : ℕ) (image : List Cell) → IsSafeImage c f opened es firm from image → IsSafeImage c f opened (es ++ more) firm from image }
{}

/// What the areas of an image say is isolated, where what the image reads as is, and where no area is sealed.
pub fn isolated_images_are_said_apart()
    ensures found { (c : DriveConfig) (area : ℕ) (z : Sealed) (cells : List Cell) (r : Reading) → current_area (geometry_of c) cells ≡ Some (area, z) → reads_as c cells ≡ Some r → ReadsApart c cells r → AreSaidApart c (first_saver (geometry_of c) area z.stamp.epoch) cells }
    ensures fresh { (c : DriveConfig) (cells : List Cell) (r : Reading) → current_area (geometry_of c) cells ≡ None → reads_as c cells ≡ Some r → AreSaidApart c (first_saver (geometry_of c) 1 0) cells }
{}
