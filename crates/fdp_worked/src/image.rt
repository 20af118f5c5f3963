ghost use Rattle.std.specs.Prelude.{[]};
ghost use Rattle.fdp_base.specs.Config.{IsValidConfig};
ghost use Rattle.fdp_rules.specs.History.{first_state, point_of};
ghost use Rattle.fdp_history.specs.Listed.{IsListed};
ghost use Rattle.fdp_history.specs.Orderly.{IsOrderly};
ghost use Rattle.fdp_history.specs.Standing.{IsStanding};
ghost use Rattle.fdp_worked.specs.Drives.{drive_s, drive_t};
ghost use Rattle.fdp_worked.specs.FoundImage.{image};

/// Drives can be made with both configurations.
pub fn drives_are_valid()
    ensures s { IsValidConfig drive_s }
    ensures t { IsValidConfig drive_t }
{}

/// What the laws of histories ask of an image holds of this one.
pub fn image_is_orderly()
    ensures orderly { IsOrderly drive_t (point_of drive_t image []) }
    ensures standing { IsStanding drive_t (point_of drive_t image []) }
    ensures listed { IsListed drive_t (first_state drive_t image) }
{}
