ghost use Rattle.std.specs.Prelude.{[], ◌≡◌, ◌≢◌, ℕ, Bool, IfSome, IsTrue, List, None, Option, Some};
ghost use Rattle.fdp_base.specs.declared.config.DriveConfig.{DriveConfig};
ghost use Rattle.fdp_base.specs.declared.entry.BlockName.{BlockName};
ghost use Rattle.fdp_base.specs.declared.entry.Copied.{Copied};
ghost use Rattle.fdp_base.specs.declared.entry.Entry.{Entry};
ghost use Rattle.fdp_base.specs.declared.entry.Entry.TheVariants as entries;
ghost use Rattle.fdp_base.specs.declared.entry.Placed.{Placed};
ghost use Rattle.fdp_base.specs.declared.entry.Spot.{Spot};
ghost use Rattle.fdp_rules.specs.Next.{next};
ghost use Rattle.fdp_rules.specs.Point.{Point, Trail};
ghost use Rattle.fdp_rules.specs.Sites.{group_of, moved_by, pass_in, site_of};
ghost use Rattle.fdp_rules.specs.Step.{Follows};
ghost use Rattle.fdp_history.specs.Orderly.{IsOrderly};
ghost use Rattle.fdp_pointers.specs.Contents.{leaves_pages, renamed_by};
ghost use Rattle.fdp_pointers.specs.Facts.{IsFree, IsTableOf, Page, put_at};
ghost use Rattle.fdp_pointers.specs.Pointers.{Behind, Pointer, moved, pointed, renamed};
ghost use Rattle.fdp_owners.specs.Owned.{AreOwners};
ghost use Rattle.fdp_owners.specs.OwnerTable.{OwnerTable, live_in, owner_at};
ghost use Rattle.fdp_passes.specs.Due.{HasCopied, HasNoLive, IsFirstLive, copies_in, next_in};
ghost use Rattle.fdp_passes.specs.GroupPasses.{GroupPasses, Pass};
ghost use Rattle.fdp_trails.specs.Followed.{HasNoEarlier, IsNextCopy, IsPassOf, ended_by};

/// A copy that a pass makes is the next of its trail. Where it is the first of the pass, no pointer may lead to an earlier page of
/// the victim: so it is where the page that is copied is the first live one.
pub fn copies_follow_the_trail()
    ensures copied { (told : Bool) (c : DriveConfig) (p : Point) (rg : ℕ) (copy : Copied) (at : Behind Page) (passes now : GroupPasses) → group_of c copy.from.unit ≡ rg → Follows told c p (entries.Copied copy) → IsPassOf at p.trail rg passes → IsNextCopy passes now copy → (copies_in passes ≡ [] → HasNoEarlier at copy.from) → IsPassOf at (next c p (entries.Copied copy)).trail rg now }
    ensures first { (o : OwnerTable) (at : Behind Page) (passes : GroupPasses) (spot : Spot) → AreOwners (owner_at o) at → HasCopied passes o → IfSome passes.pass (λ (pass : Pass). pass.victim ≡ spot.unit) → IsFirstLive o (next_in passes) spot → copies_in passes ≡ [] → HasNoEarlier at spot }
{}

/// What each other entry leaves of the pass of a group. A pass without copies follows any trail: so it is after each entry that ends the
/// copies of the group. A pass with copies follows the next trail after a page was placed outside of its victim, after each entry
/// of another group, and after each that only renames pointers.
pub fn passes_follow_entries()
    ensures ended { (at : Behind Page) (t : Trail) (rg : ℕ) (passes : GroupPasses) → copies_in passes ≡ [] → IsPassOf at t rg passes }
    ensures renames { (c : DriveConfig) (p : Point) (e : Entry) (rg : ℕ) (at : Behind Page) (passes : GroupPasses) → IsTrue (leaves_pages e) → ended_by c e ≢ Some rg → IsPassOf at p.trail rg passes → IsPassOf (renamed (renamed_by p.state e) at) (next c p e).trail rg passes }
    ensures placed { (c : DriveConfig) (p : Point) (placed : Placed) (rg queue index : ℕ) (y : Page) (at : Behind Page) (passes : GroupPasses) → IfSome passes.pass (λ (pass : Pass). y.spot.unit ≢ pass.victim) → IsPassOf at p.trail rg passes → IsPassOf (pointed at queue index y) (next c p (entries.Placed placed)).trail rg passes }
    ensures copied { (c : DriveConfig) (p : Point) (copy : Copied) (rg : ℕ) (at : Behind Page) (passes : GroupPasses) → group_of c copy.from.unit ≢ rg → IsPassOf at p.trail rg passes → IsPassOf at (next c p (entries.Copied copy)).trail rg passes }
    ensures moved { (c : DriveConfig) (p : Point) (other rg : ℕ) (blocks : List BlockName) (at : Behind Page) (passes : GroupPasses) → IsOrderly c p → other ≢ rg → IsPassOf at p.trail rg passes → IsPassOf (moved (put_at (moved_by (pass_in p.trail other))) at) (next c p (entries.Moved (record { rg = other; blocks = blocks }))).trail rg passes }
    ensures erased { (c : DriveConfig) (p : Point) (unit rg : ℕ) (at : Behind Page) (passes : GroupPasses) → group_of c unit ≢ rg → IsPassOf at p.trail rg passes → IsPassOf at (next c p (entries.Erased (record { unit = unit }))).trail rg passes }
{}

/// A unit without a live page is free of pointers, and no block stands there: so it may be erased as far as its pages go.
pub fn empty_units_are_erasable()
    ensures counted { (o : OwnerTable) (at : Behind Page) (unit : ℕ) → AreOwners (owner_at o) at → live_in o unit ≡ 0 → IsFree unit at }
    ensures free { (o : OwnerTable) (at : Behind Page) (unit : ℕ) → AreOwners (owner_at o) at → HasNoLive o unit 0 → IsFree unit at }
    ensures empty { (c : DriveConfig) (p : Point) (pages : ℕ → ℕ) (at : Behind Page) (o : OwnerTable) (unit : ℕ) → IsTableOf c p pages at → AreOwners (owner_at o) at → HasNoLive o unit 0 → (nsid lba : ℕ) → IfSome (site_of p nsid lba) (λ (spot : Spot). spot.unit ≢ unit) }
{}
