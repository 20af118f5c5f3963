ghost use Rattle.std.specs.Prelude.{[], ◌∷◌, Bool, IsTrue, List, Option};
ghost use Rattle.fdp_base.specs.declared.config.DriveConfig.{DriveConfig};
ghost use Rattle.fdp_base.specs.declared.entry.Entry.TheVariants as entries;
ghost use Rattle.fdp_base.specs.declared.entry.Spot.{Spot};
ghost use Rattle.fdp_base.specs.Config.{IsValidConfig};
ghost use Rattle.fdp_history.specs.Listed.{IsListed};
ghost use Rattle.fdp_history.specs.Orderly.{IsOrderly};
ghost use Rattle.fdp_history.specs.Standing.{IsStanding};
ghost use Rattle.fdp_locations.specs.Located.{AreLed, AreUnitsOf};
ghost use Rattle.fdp_locations.specs.Written.{Written, written_by};
ghost use Rattle.fdp_locations.specs.fdp_pages.PageTables.{PageTables};
ghost use Rattle.fdp_pointers.specs.Facts.{Page};
ghost use Rattle.fdp_pointers.specs.Pointers.{Behind};
ghost use Rattle.fdp_rules.specs.History.{Found, first_state, point_of, state_of};
ghost use Rattle.fdp_rules.specs.Legal.{IsLegal};

/// The first entry of a run over an image tells that it was opened. It may follow, and leaves what stands in order.
pub fn openings_keep_order()
    ensures legal { (told : Bool) (c : DriveConfig) (f : Found) → IsTrue f.is_image → IsLegal told c f (entries.Reopened ∷ []) }
    ensures orderly { (c : DriveConfig) (f : Found) → IsValidConfig c → IsTrue f.is_image → IsOrderly c (point_of c f []) → IsOrderly c (point_of c f (entries.Reopened ∷ [])) }
    ensures standing { (c : DriveConfig) (f : Found) → IsTrue f.is_image → IsOrderly c (point_of c f []) → IsStanding c (point_of c f []) → IsStanding c (point_of c f (entries.Reopened ∷ [])) }
    ensures listed { (c : DriveConfig) (f : Found) → IsTrue f.is_image → IsOrderly c (point_of c f []) → IsListed c (first_state c f) → IsListed c (state_of c f (entries.Reopened ∷ [])) }
{}

/// Nor does it change where the pointers lead, and what the tables of the pages stand for.
pub fn openings_keep_tables()
    ensures led { (c : DriveConfig) (f : Found) (first : Spot → Option Written) (at : Behind Page) (t : PageTables) → IsTrue f.is_image → IsOrderly c (point_of c f []) → AreLed c (point_of c f []) first at t → AreLed c (point_of c f (entries.Reopened ∷ [])) (written_by c f first (entries.Reopened ∷ [])) at t }
    ensures units { (c : DriveConfig) (f : Found) (t : PageTables) → AreUnitsOf c (point_of c f []).state t → AreUnitsOf c (point_of c f (entries.Reopened ∷ [])).state t }
{}
