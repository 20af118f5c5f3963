ghost use Rattle.std.specs.Prelude.{[], List};
ghost use Rattle.fdp_base.specs.declared.config.DriveConfig.{DriveConfig};
ghost use Rattle.fdp_base.specs.Config.{IsValidConfig};
ghost use Rattle.fdp_base.specs.Placement.{geometry_of};
ghost use Rattle.fdp_flash.specs.declared.cell.Cell.{Cell};
ghost use Rattle.fdp_flash.specs.Cells.{AreCells};
ghost use Rattle.fdp_found.specs.Beginning.{CanBegin};
ghost use Rattle.fdp_found.specs.Finding.{found_in};
ghost use Rattle.fdp_history.specs.Listed.{IsListed};
ghost use Rattle.fdp_history.specs.Orderly.{IsOrderly};
ghost use Rattle.fdp_history.specs.Standing.{IsStanding};
ghost use Rattle.fdp_image.specs.Reading.{Reading};
ghost use Rattle.fdp_image.specs.Valid.{IsValid};
ghost use Rattle.fdp_rules.specs.History.{first_state, point_of};

/// A run that begins with what is found in an image begins in order: what stands is orderly, each block stands where it was found, and
/// the lists of handles and the sizes of the namespaces are as after each history of a drive.
pub fn found_drives_are_in_order()
    ensures orderly { (c : DriveConfig) (cells : List Cell) (r : Reading) → IsValidConfig c → AreCells (geometry_of c) cells → IsValid c cells r → CanBegin r → IsOrderly c (point_of c (found_in c cells r) []) }
    ensures standing { (c : DriveConfig) (cells : List Cell) (r : Reading) → IsValidConfig c → IsValid c cells r → CanBegin r → IsStanding c (point_of c (found_in c cells r) []) }
    ensures listed { (c : DriveConfig) (cells : List Cell) (r : Reading) → IsValid c cells r → CanBegin r → IsListed c (first_state c (found_in c cells r)) }
{}
