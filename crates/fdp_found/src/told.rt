ghost use Rattle.std.specs.Prelude.{◌≡◌, List, Option};
ghost use Rattle.fdp_base.specs.declared.config.DriveConfig.{DriveConfig};
ghost use Rattle.fdp_base.specs.declared.entry.Spot.{Spot};
ghost use Rattle.fdp_base.specs.Placement.{geometry_of};
ghost use Rattle.fdp_flash.specs.Cells.{AreCells};
ghost use Rattle.fdp_found.specs.Opened.{owner_found};
ghost use Rattle.fdp_found.specs.Told.{AreBlockOwners, cells_of_owners};
ghost use Rattle.fdp_image.specs.Reading.{Reading};
ghost use Rattle.fdp_image.specs.Valid.{IsValid};
ghost use Rattle.fdp_owners.specs.declared.owner.Owner.{Owner};
ghost use Rattle.fdp_opening.specs.fdp_state.Good.{IsGood};

/// Over a flash that does not tell its cells an opening goes by those that the owners tell: they are cells of the flash's cut, what was read
/// is valid over them, and the owners are those that such an image gives.
pub fn owners_tell_cells()
    ensures cells { (c : DriveConfig) (owners : Spot → Option Owner) → AreCells (geometry_of c) (cells_of_owners c owners) }
    ensures valid { (c : DriveConfig) (r : Reading) (owners : Spot → Option Owner) → IsGood c r → AreBlockOwners c r owners → IsValid c (cells_of_owners c owners) r }
    ensures owners { (c : DriveConfig) (r : Reading) (owners : Spot → Option Owner) → AreBlockOwners c r owners → (spot : Spot) → owners spot ≡ owner_found c (cells_of_owners c owners) r spot }
{}
