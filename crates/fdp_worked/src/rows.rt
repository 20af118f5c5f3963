ghost use Rattle.std.specs.Prelude.{◌≡◌, true, [], ◌∷◌, take};
ghost use Rattle.fdp_rules.specs.History.{fresh, point_of};
ghost use Rattle.fdp_rules.specs.Legal.{IsLegal};
ghost use Rattle.fdp_rules.specs.Queue.{IsSilent};
ghost use Rattle.fdp_rules.specs.Seats.{marks_of};
ghost use Rattle.fdp_rules.specs.Sites.{live_pages};
ghost use Rattle.fdp_output.specs.RunOutput.{output_of};
ghost use Rattle.fdp_worked.specs.ClosedUnits.{entries_of_closed_units, text_of_closed_units};
ghost use Rattle.fdp_worked.specs.Drives.{drive_s, drive_t};
ghost use Rattle.fdp_worked.specs.FoundImage.{entries_over_image, image, marks_over_image, text_over_image};
ghost use Rattle.fdp_worked.specs.InvalidIdentifier.{entries_of_invalid_identifier, text_of_invalid_identifier};

/// The whole output of a run in which a write had an invalid placement identifier.
pub fn invalid_identifier_is_printed()
    ensures { output_of drive_t (fresh drive_t) 1 entries_of_invalid_identifier ≡ text_of_invalid_identifier }
{}

/// The whole output of a run with three updates, of which one closed a unit.
pub fn closed_units_are_printed()
    ensures { output_of drive_s (fresh drive_s) 1 entries_of_closed_units ≡ text_of_closed_units }
{}

/// The whole output of a run over an image.
pub fn image_is_printed()
    ensures { output_of drive_t image 1 entries_over_image ≡ text_over_image }
{}

/// A run over an image is legal that reads a block as it was found, writes another, and moves one.
pub fn image_runs_on_legally()
    ensures { IsLegal true drive_t image entries_over_image }
{}

/// Which pages are live in that run: those of the found blocks and of the write that is going, before the write has ended; and
/// at the end those where the blocks stand.
pub fn image_has_live_pages()
    ensures found { live_pages drive_t (point_of drive_t image (take 4 entries_over_image)) 3 ≡ 0 ∷ 1 ∷ [] }
    ensures going { live_pages drive_t (point_of drive_t image (take 4 entries_over_image)) 0 ≡ 0 ∷ [] }
    ensures left { live_pages drive_t (point_of drive_t image entries_over_image) 3 ≡ [] }
    ensures moved { live_pages drive_t (point_of drive_t image entries_over_image) 4 ≡ 0 ∷ [] }
    ensures written { live_pages drive_t (point_of drive_t image entries_over_image) 0 ≡ 0 ∷ [] }
{}

/// Whose its entries are, and what they count; queue 2 is silent, and queue 1 is not.
pub fn image_run_is_marked()
    ensures marks { marks_of image entries_over_image ≡ marks_over_image }
    ensures silent { IsSilent 2 entries_over_image }
    ensures busy { IsSilent 1 entries_over_image → ⊥ }
{}
