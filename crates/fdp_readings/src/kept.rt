ghost use Rattle.std.specs.Prelude.{◌≡◌, ◌<◌, List, Some, slice_get, ℕ};
ghost use Rattle.fdp_base.specs.declared.config.DriveConfig.{DriveConfig};
ghost use Rattle.fdp_base.specs.declared.entry.Entry.{Entry};
ghost use Rattle.fdp_base.specs.declared.entry.Spot.{Spot};
ghost use Rattle.fdp_base.specs.Geometry.{data_units};
ghost use Rattle.fdp_base.specs.Placement.{geometry_of};
ghost use Rattle.fdp_locations.specs.fdp_collector.Copying.{IsDataPage};
ghost use Rattle.fdp_flash.specs.declared.cell.Cell.{Cell};
ghost use Rattle.fdp_flash.specs.declared.cell.Cell.TheVariants.{Blank};
ghost use Rattle.fdp_flash.specs.Cells.{EraseMayLeave, ProgramMayLeave};
ghost use Rattle.fdp_flash.specs.Layout.{page_number};
ghost use Rattle.fdp_image.specs.Areas.{Sealed, current_area};
ghost use Rattle.fdp_image.specs.Reading.{Reading};
ghost use Rattle.fdp_image.specs.Reads.{reads_as};
ghost use Rattle.fdp_image.specs.Saving.{SameDataPages};
ghost use Rattle.fdp_image.specs.StandsFor.{Says, Shows};
ghost use Rattle.fdp_image.specs.Valid.{IsValid};
ghost use Rattle.fdp_readings.specs.Named.{KeepsNamed, KeepsSystem, NamesNone};
ghost use Rattle.fdp_rules.specs.History.{Found};

/// Cells that keep the pages that a reading names keep it valid, and what it shows and says.
pub fn named_pages_keep_a_reading()
    ensures valid { (c : DriveConfig) (r : Reading) (old new : List Cell) → KeepsNamed r old new → IsValid c old r → IsValid c new r }
    ensures shows { (c : DriveConfig) (f : Found) (es : List Entry) (r : Reading) (old new : List Cell) → KeepsNamed r old new → Shows c f old es r → Shows c f new es r }
    ensures says { (c : DriveConfig) (f : Found) (es : List Entry) (r : Reading) (old new : List Cell) → KeepsNamed r old new → Says c f old es r → Says c f new es r }
{}

/// The pages that a valid reading names stay where only system pages change; under a program of a blank page, whatever a stop or a
/// fault leaves of it; and under an erase of a unit in which it names none.
pub fn calls_keep_named_pages()
    ensures system { (c : DriveConfig) (r : Reading) (old new : List Cell) → IsValid c old r → SameDataPages c old new → KeepsNamed r old new }
    ensures program { (c : DriveConfig) (r : Reading) (old new : List Cell) (at : Spot) (spare bytes : List ℕ) → IsValid c old r → slice_get old (page_number (geometry_of c) at) ≡ Some Blank → ProgramMayLeave (geometry_of c) old at spare bytes new → KeepsNamed r old new }
    ensures erase { (c : DriveConfig) (r : Reading) (old new : List Cell) (unit : ℕ) → NamesNone c r unit → EraseMayLeave (geometry_of c) old unit new → KeepsNamed r old new }
{}

/// A program of a data page, and an erase of a data unit, leave the system pages as they were, whatever a stop or a fault leaves.
pub fn calls_of_data_keep_system_pages()
    ensures program { (c : DriveConfig) (old new : List Cell) (at : Spot) (spare bytes : List ℕ) → IsDataPage (geometry_of c) at → ProgramMayLeave (geometry_of c) old at spare bytes new → KeepsSystem c old new }
    ensures erase { (c : DriveConfig) (old new : List Cell) (unit : ℕ) → unit < data_units (geometry_of c) → EraseMayLeave (geometry_of c) old unit new → KeepsSystem c old new }
{}

/// An image whose system pages stay has the current area that it had, and where there is one reads as it did.
pub fn system_pages_keep_an_image()
    ensures current { (c : DriveConfig) (old new : List Cell) → KeepsSystem c old new → current_area (geometry_of c) new ≡ current_area (geometry_of c) old }
    ensures reads { (c : DriveConfig) (old new : List Cell) (area : ℕ × Sealed) → current_area (geometry_of c) old ≡ Some area → KeepsSystem c old new → reads_as c new ≡ reads_as c old }
{}
