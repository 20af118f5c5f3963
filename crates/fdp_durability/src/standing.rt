ghost use Rattle.std.specs.Prelude.{◌++◌, ◌≤◌, List, ℕ};
ghost use Rattle.fdp_base.specs.declared.config.DriveConfig.{DriveConfig};
ghost use Rattle.fdp_base.specs.declared.entry.Entry.{Entry};
ghost use Rattle.fdp_durability.specs.Durable.{IsDurable};
ghost use Rattle.fdp_flash.specs.declared.cell.Cell.{Cell};
ghost use Rattle.fdp_image.specs.Kept.{StandsForBeginning};
ghost use Rattle.fdp_saving.specs.fdp_journal.JournalState.{JournalState};
ghost use Rattle.fdp_rules.specs.History.{Found};
ghost use Rattle.fdp_units.specs.UnitTable.{UnitTable};

/// An image over which a history is durable stands for a beginning of it that holds all that is firm.
pub fn durable_things_stand()
    ensures { (c : DriveConfig) (f : Found) (es : List Entry) (firm : ℕ) (s : JournalState) (t : UnitTable) (cells : List Cell) → IsDurable c f es firm s t cells → StandsForBeginning c f es firm cells }
{}

/// An image that stands for a beginning of a history does so for each history that goes on from it, and where fewer entries are asked for.
pub fn beginnings_grow()
    ensures less { (c : DriveConfig) (f : Found) (es : List Entry) (most least : ℕ) (image : List Cell) → least ≤ most → StandsForBeginning c f es most image → StandsForBeginning c f es least image }
    ensures more { (c : DriveConfig) (f : Found) (es more : List Entry) (least : ℕ) (image : List Cell) → StandsForBeginning c f es least image → StandsForBeginning c f (es ++ more) least image }
{}
