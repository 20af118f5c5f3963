ghost use Rattle.std.specs.Prelude.{[], ◌≡◌, List, None, Some, ℕ};
ghost use Rattle.fdp_base.specs.declared.config.DriveConfig.{DriveConfig};
ghost use Rattle.fdp_base.specs.declared.entry.Entry.{Entry};
ghost use Rattle.fdp_base.specs.Placement.{geometry_of};
ghost use Rattle.fdp_durability.specs.Beginnings.{NamesUsed};
ghost use Rattle.fdp_durability.specs.Durable.{IsDurable};
ghost use Rattle.fdp_flash.specs.declared.cell.Cell.{Cell};
ghost use Rattle.fdp_image.specs.Areas.{Sealed, current_area};
ghost use Rattle.fdp_image.specs.StandsFor.{StandsFor};
ghost use Rattle.fdp_rules.specs.History.{Found};
ghost use Rattle.fdp_saving.specs.Saver.{first_saver};
ghost use Rattle.fdp_units.specs.UnitTable.{UnitTable};

/// Over an image that stands for a history without an entry, that history and each that goes on from it is durable for a saver that begins with
/// the area of the image, or, where none is sealed, with a fresh one; none of its entries is firm yet.
pub fn runs_begin_durable()
    ensures found { (c : DriveConfig) (f : Found) (more : List Entry) (area : ℕ) (z : Sealed) (t : UnitTable) (cells : List Cell) → current_area (geometry_of c) cells ≡ Some (area, z) → (h : StandsFor c f cells []) → NamesUsed c t h.reading → IsDurable c f more 0 (first_saver (geometry_of c) area z.stamp.epoch) t cells }
    ensures fresh { (c : DriveConfig) (f : Found) (more : List Entry) (t : UnitTable) (cells : List Cell) → current_area (geometry_of c) cells ≡ None → (h : StandsFor c f cells []) → NamesUsed c t h.reading → IsDurable c f more 0 (first_saver (geometry_of c) 1 0) t cells }
{}
