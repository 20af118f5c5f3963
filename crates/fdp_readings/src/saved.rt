ghost use Rattle.std.specs.Prelude.{[], ◌≡◌, ◌<◌, All, IsTrue, List, Option, Some, ℕ};
ghost use Rattle.fdp_base.specs.declared.command.Command.TheVariants as commands;
ghost use Rattle.fdp_base.specs.declared.command.Write.{Write};
ghost use Rattle.fdp_base.specs.declared.config.DriveConfig.{DriveConfig};
ghost use Rattle.fdp_base.specs.declared.entry.Copied.{Copied};
ghost use Rattle.fdp_base.specs.declared.entry.Entry.TheVariants as entries;
ghost use Rattle.fdp_base.specs.declared.entry.Reply.{Reply};
ghost use Rattle.fdp_base.specs.declared.entry.Spot.{Spot};
ghost use Rattle.fdp_base.specs.declared.entry.Totals.{Totals};
ghost use Rattle.fdp_history.specs.Orderly.{IsOrderly};
ghost use Rattle.fdp_history.specs.Standing.{IsStanding};
ghost use Rattle.fdp_image.specs.Applied.{applied};
ghost use Rattle.fdp_image.specs.Reading.{Reading};
ghost use Rattle.fdp_locations.specs.Located.{AreLed};
ghost use Rattle.fdp_locations.specs.Written.{Written};
ghost use Rattle.fdp_owners.specs.declared.owner.Owner.{Owner};
ghost use Rattle.fdp_owners.specs.Owned.{AreOwners};
ghost use Rattle.fdp_owners.specs.OwnerTable.{owner_at};
ghost use Rattle.fdp_locations.specs.fdp_pages.PageTables.{PageTables};
ghost use Rattle.fdp_passes.specs.Due.{copies_in};
ghost use Rattle.fdp_passes.specs.GroupPasses.{GroupPasses};
ghost use Rattle.fdp_pointers.specs.Facts.{IsTableOf, Page};
ghost use Rattle.fdp_pointers.specs.Pointers.{Behind};
ghost use Rattle.fdp_readings.specs.Changes.{AreItsPages, IsPlacedBy, MoveBlocks, NamesCopies, Saves, change_of_write, completed, copies_of_blocks, known_handle};
ghost use Rattle.fdp_records.specs.declared.change.Change.{Change};
ghost use Rattle.fdp_records.specs.declared.change.Change.TheVariants as changes;
ghost use Rattle.fdp_records.specs.declared.change.UnitPages.{UnitPages};
ghost use Rattle.fdp_rules.specs.PlainState.{Going};
ghost use Rattle.fdp_rules.specs.Point.{Point};
ghost use Rattle.fdp_rules.specs.Sites.{moved_blocks};
ghost use Rattle.fdp_rules.specs.Step.{MaySucceed};
ghost use Rattle.fdp_locations.specs.fdp_trails.Followed.{IsPassOf};

/// What a point draws with the change of a write that takes effect is what is drawn after the write, whether its saving failed or not:
/// the pages of its blocks, and its event, if it has one.
pub fn a_saved_write_is_drawn()
    ensures { (c : DriveConfig) (p : Point) (queue number : ℕ) (w : Write) (reply : Reply) (moment : ℕ) (g : Going) (spots : List Spot) → IsOrderly c p → IsStanding c p → p.state.going queue ≡ Some g → g.command ≡ commands.Write w → MaySucceed c p g → AreItsPages p g spots → IsTrue reply.applied → Saves c p (change_of_write c w g spots) (completed queue number (commands.Write w) reply moment) }
{}

/// So it is with the change of a handle that is left without a unit.
pub fn a_saved_shut_is_drawn()
    ensures { (c : DriveConfig) (p : Point) (rg ruh : ℕ) → IsOrderly c p → Saves c p (changes.Shut rg ruh) (entries.Shut (record { rg = rg; ruh = ruh })) }
{}

/// So it is with the change of a move that names copies which move the blocks as the pass of the group does.
pub fn a_saved_move_is_drawn()
    ensures drawn { (c : DriveConfig) (p : Point) (rg : ℕ) (copies : List Copied) (ruh_of : Copied → ℕ) (victim first : UnitPages) (second : Option UnitPages) (handles : List ℕ) → IsOrderly c p → IsStanding c p → MoveBlocks p rg copies → NamesCopies c p rg copies ruh_of victim first second handles → Saves c p (changes.Moved victim first second handles) (entries.Moved (record { rg = rg; blocks = moved_blocks p rg })) }
    ensures pass { (c : DriveConfig) (p : Point) (rg : ℕ) (pages : ℕ → ℕ) (at : Behind Page) (owners : Spot → Option Owner) (passes : GroupPasses) → IsOrderly c p → IsTableOf c p pages at → AreOwners owners at → IsPassOf at p.trail rg passes → (copies_in passes ≡ [] → ⊥) → MoveBlocks p rg (copies_of_blocks owners (copies_in passes)) }
{}

/// The old pages of the copies of blocks lie within their units, and the blocks there were placed by the handles that the owners know.
pub fn copies_of_blocks_have_known_handles()
    ensures inside { (c : DriveConfig) (p : Point) (written : Spot → Option Written) (at : Behind Page) (t : PageTables) (copies : List Copied) → IsStanding c p → AreLed c p written at t → All (λ (x : Copied). x.from.page < c.unit_pages) (copies_of_blocks (owner_at t.owners) copies) }
    ensures placed { (c : DriveConfig) (p : Point) (written : Spot → Option Written) (at : Behind Page) (t : PageTables) (copies : List Copied) → IsStanding c p → AreLed c p written at t → All (λ (x : Copied). IsPlacedBy p x.from (known_handle (owner_at t.owners) x.from)) (copies_of_blocks (owner_at t.owners) copies) }
{}

/// A change leaves no trace of the totals before it.
pub fn changes_forget_totals()
    ensures { (c : DriveConfig) (r : Reading) (totals : Totals) (x : Change × Totals) → applied c (record r { totals = totals }) x ≡ applied c r x }
{}
