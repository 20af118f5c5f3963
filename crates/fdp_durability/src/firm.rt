ghost use Rattle.std.specs.Prelude.{◌++◌, ◌≤◌, All, IsFalse, List, length, ℕ};
ghost use Rattle.fdp_base.specs.declared.config.DriveConfig.{DriveConfig};
ghost use Rattle.fdp_base.specs.declared.entry.Entry.{Entry};
ghost use Rattle.fdp_base.specs.declared.entry.Entry.TheVariants as entries;
ghost use Rattle.fdp_base.specs.declared.entry.Host.{Host};
ghost use Rattle.fdp_durability.specs.Firm.{completes};
ghost use Rattle.fdp_flash.specs.declared.cell.Cell.{Cell};
ghost use Rattle.fdp_image.specs.Kept.{AreFirm, StandsForBeginning, StandsForKept, is_owed};
ghost use Rattle.fdp_rules.specs.History.{Found};

/// All entries may be called firm. As many as were stay firm while no entry completes a change.
pub fn firm_numbers_grow()
    ensures all { (es : List Entry) → AreFirm es (length es) }
    ensures on { (es more : List Entry) (firm : ℕ) → AreFirm es firm → All (λ e. IsFalse (completes e)) more → AreFirm (es ++ more) firm }
{}

/// An image that stands for a beginning which holds all that was firm stands for one that is kept at a moment at which none of the entries
/// that were added is owed. An entry is not owed that completes no change, or none before the moment; what is not owed at a moment is not
/// owed at an earlier one.
pub fn firm_entries_are_kept()
    ensures kept { (c : DriveConfig) (f : Found) (es more : List Entry) (firm m : ℕ) (image : List Cell) → AreFirm es firm → All (λ e. IsFalse (is_owed m e)) more → StandsForBeginning c f (es ++ more) firm image → StandsForKept c f (es ++ more) firm m image }
    ensures none { (m : ℕ) (e : Entry) → IsFalse (completes e) → IsFalse (is_owed m e) }
    ensures late { (m : ℕ) (h : Host) → m ≤ h.moment → IsFalse (is_owed m (entries.Host h)) }
    ensures earlier { (m n : ℕ) (e : Entry) → m ≤ n → IsFalse (is_owed n e) → IsFalse (is_owed m e) }
{}
