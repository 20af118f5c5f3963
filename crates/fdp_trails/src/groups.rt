ghost use Rattle.std.specs.Prelude.{[], ◌≡◌, ◌≢◌, ℕ, ◌<◌, Bool, IfSome, IsTrue, List, Some, option_map};
ghost use Rattle.fdp_base.specs.declared.config.DriveConfig.{DriveConfig};
ghost use Rattle.fdp_base.specs.declared.entry.BlockName.{BlockName};
ghost use Rattle.fdp_base.specs.declared.entry.Copied.{Copied};
ghost use Rattle.fdp_base.specs.declared.entry.Entry.{Entry};
ghost use Rattle.fdp_base.specs.declared.entry.Entry.TheVariants as entries;
ghost use Rattle.fdp_base.specs.declared.entry.Placed.{Placed};
ghost use Rattle.fdp_base.specs.declared.entry.Spot.{Spot};
ghost use Rattle.fdp_rules.specs.Next.{next};
ghost use Rattle.fdp_rules.specs.Point.{Point, Trail};
ghost use Rattle.fdp_rules.specs.Sites.{group_of, moved_by, pass_in};
ghost use Rattle.fdp_rules.specs.Step.{Follows};
ghost use Rattle.fdp_history.specs.Orderly.{IsOrderly};
ghost use Rattle.fdp_pointers.specs.Contents.{leaves_pages, renamed_by};
ghost use Rattle.fdp_pointers.specs.Facts.{Page, put_at};
ghost use Rattle.fdp_pointers.specs.Pointers.{Behind, moved, pointed, renamed};
ghost use Rattle.fdp_owners.specs.OwnerTable.{OwnerTable};
ghost use Rattle.fdp_passes.specs.declared.due.Due.TheVariants as due;
ghost use Rattle.fdp_passes.specs.declared.lane.Lane.{Lane};
ghost use Rattle.fdp_passes.specs.Due.{IsDue, copies_in};
ghost use Rattle.fdp_passes.specs.GroupPasses.{GroupPasses, Pass, with_copy};
ghost use Rattle.fdp_passes.specs.Targets.{OpensPage, UsesPage};
ghost use Rattle.fdp_units.specs.UnitTable.{UnitTable};
ghost use Rattle.fdp_trails.specs.Followed.{ArePassesOf, HasNoEarlier, IsLeft, IsNextCopy, ended_by};

/// Each entry leaves the passes of all groups those of the trail: it adds a copy to one pass or ends its copies, and leaves the
/// passes of all other groups. A page that is skipped and a pass that is given up leave them so, without an entry.
pub fn all_passes_follow_entries()
    ensures left { (at : Behind Page) (t : Trail) (groups : ℕ) (passes now : ℕ → GroupPasses) → ((rg : ℕ) → rg < groups → IsLeft (passes rg) (now rg)) → ArePassesOf at t groups passes → ArePassesOf at t groups now }
    ensures renames { (c : DriveConfig) (p : Point) (e : Entry) (at : Behind Page) (groups : ℕ) (passes now : ℕ → GroupPasses) → IsTrue (leaves_pages e) → ((rg : ℕ) → rg < groups → IsLeft (passes rg) (now rg)) → ((rg : ℕ) → rg < groups → ended_by c e ≡ Some rg → copies_in (now rg) ≡ []) → ArePassesOf at p.trail groups passes → ArePassesOf (renamed (renamed_by p.state e) at) (next c p e).trail groups now }
    ensures placed { (c : DriveConfig) (p : Point) (placed : Placed) (queue index : ℕ) (y : Page) (at : Behind Page) (groups : ℕ) (passes now : ℕ → GroupPasses) → ((rg : ℕ) → rg < groups → IsLeft (passes rg) (now rg)) → ((rg : ℕ) → rg < groups → IfSome (now rg).pass (λ (pass : Pass). y.spot.unit ≢ pass.victim)) → ArePassesOf at p.trail groups passes → ArePassesOf (pointed at queue index y) (next c p (entries.Placed placed)).trail groups now }
    ensures copied { (told : Bool) (c : DriveConfig) (p : Point) (copy : Copied) (at : Behind Page) (groups : ℕ) (passes now : ℕ → GroupPasses) → Follows told c p (entries.Copied copy) → ((rg : ℕ) → rg < groups → group_of c copy.from.unit ≢ rg → IsLeft (passes rg) (now rg)) → IsNextCopy (passes (group_of c copy.from.unit)) (now (group_of c copy.from.unit)) copy → (copies_in (passes (group_of c copy.from.unit)) ≡ [] → HasNoEarlier at copy.from) → ArePassesOf at p.trail groups passes → ArePassesOf at (next c p (entries.Copied copy)).trail groups now }
    ensures moved { (c : DriveConfig) (p : Point) (rg : ℕ) (blocks : List BlockName) (at : Behind Page) (groups : ℕ) (passes now : ℕ → GroupPasses) → IsOrderly c p → ((other : ℕ) → other < groups → IsLeft (passes other) (now other)) → copies_in (now rg) ≡ [] → ArePassesOf at p.trail groups passes → ArePassesOf (moved (put_at (moved_by (pass_in p.trail rg))) at) (next c p (entries.Moved (record { rg = rg; blocks = blocks }))).trail groups now }
    ensures erased { (c : DriveConfig) (p : Point) (unit : ℕ) (at : Behind Page) (groups : ℕ) (passes now : ℕ → GroupPasses) → ((rg : ℕ) → rg < groups → IsLeft (passes rg) (now rg)) → copies_in (now (group_of c unit)) ≡ [] → ArePassesOf at p.trail groups passes → ArePassesOf at (next c p (entries.Erased (record { unit = unit }))).trail groups now }
{}

/// A copy for which a page was opened, and that a pass then adds, is the next one of it.
pub fn due_copies_are_next()
    ensures { (o : OwnerTable) (t opened used : UnitTable) (p middle after now : GroupPasses) (rg : ℕ) (lane : Lane) (copy : Copied) → IsDue p t o rg (due.Copy copy.from) → OpensPage p middle t opened rg copy.from.unit lane copy.to → UsesPage middle after opened used lane copy.to.unit → now.pass ≡ option_map (with_copy copy) after.pass → IsNextCopy p now copy }
{}
