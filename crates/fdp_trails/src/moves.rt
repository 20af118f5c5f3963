ghost use Rattle.std.specs.Prelude.{[], ◌∷◌, ◌++◌, ◌≡◌, ◌≢◌, ◌⊎◌, ℕ, All, Contains, List, None, Option, Some};
ghost use Rattle.fdp_base.specs.declared.config.DriveConfig.{DriveConfig};
ghost use Rattle.fdp_base.specs.declared.entry.Copied.{Copied};
ghost use Rattle.fdp_base.specs.declared.entry.Spot.{Spot};
ghost use Rattle.fdp_rules.specs.Point.{Point};
ghost use Rattle.fdp_rules.specs.Sites.{moved_blocks, moved_by, pass_in};
ghost use Rattle.fdp_history.specs.OrderlyState.{IsOrderlyState};
ghost use Rattle.fdp_pointers.specs.Facts.{IsTableOf, Page, put_at};
ghost use Rattle.fdp_pointers.specs.Pointers.{Behind, Pointer, moved};
ghost use Rattle.fdp_owners.specs.declared.owner.Owner.{Owner};
ghost use Rattle.fdp_owners.specs.Owned.{AreOwners};
ghost use Rattle.fdp_passes.specs.Due.{copies_in};
ghost use Rattle.fdp_passes.specs.GroupPasses.{GroupPasses};
ghost use Rattle.fdp_trails.specs.Followed.{IsPassOf};
ghost use Rattle.fdp_trails.specs.Moves.{AreMovable, names_of, owners_moved};

/// One copy after another is moved: the new page of each still has no owner when its turn comes, and the old one the owner that it had.
pub fn owners_move()
    ensures free { (owners : Spot → Option Owner) (done rest : List Copied) (x : Copied) → AreMovable owners (done ++ x ∷ rest) → owners_moved owners done x.to ≡ None }
    ensures kept { (owners : Spot → Option Owner) (done rest : List Copied) (x : Copied) → AreMovable owners (done ++ x ∷ rest) → owners_moved owners done x.from ≡ owners x.from }
{}

/// The copies of a pass under way may be moved. The move of a pass with copies lists the blocks whose pages are its old pages, in the
/// order of its copies; each pointer to an old page then leads to the copy of it, and each other one where it led; and so do the owners
/// tell it after one copy after another was moved.
pub fn moves_follow_the_pass()
    ensures movable { (c : DriveConfig) (p : Point) (rg : ℕ) (pages : ℕ → ℕ) (at : Behind Page) (owners : Spot → Option Owner) (passes : GroupPasses) → IsTableOf c p pages at → AreOwners owners at → IsPassOf at p.trail rg passes → AreMovable owners (copies_in passes) }
    ensures listed { (c : DriveConfig) (p : Point) (rg : ℕ) (pages : ℕ → ℕ) (at : Behind Page) (owners : Spot → Option Owner) (passes : GroupPasses) → IsOrderlyState c p.state → IsTableOf c p pages at → AreOwners owners at → IsPassOf at p.trail rg passes → (copies_in passes ≡ [] → ⊥) → moved_blocks p rg ≡ names_of owners (copies_in passes) }
    ensures to_copies { (c : DriveConfig) (p : Point) (rg : ℕ) (pages : ℕ → ℕ) (at : Behind Page) (passes : GroupPasses) → IsTableOf c p pages at → IsPassOf at p.trail rg passes → (copies_in passes ≡ [] → ⊥) → (q : Pointer) (y : Page) → at q ≡ Some y → All (λ (x : Copied). x.from ≡ y.spot → moved_by (pass_in p.trail rg) y.spot ≡ x.to) (copies_in passes) }
    ensures elsewhere { (c : DriveConfig) (p : Point) (rg : ℕ) (pages : ℕ → ℕ) (at : Behind Page) (passes : GroupPasses) → IsTableOf c p pages at → IsPassOf at p.trail rg passes → (copies_in passes ≡ [] → ⊥) → (q : Pointer) (y : Page) → at q ≡ Some y → All (λ (x : Copied). x.from ≢ y.spot) (copies_in passes) → moved_by (pass_in p.trail rg) y.spot ≡ y.spot }
    ensures page { (c : DriveConfig) (p : Point) (rg : ℕ) (pages : ℕ → ℕ) (at : Behind Page) (passes : GroupPasses) → IsTableOf c p pages at → IsPassOf at p.trail rg passes → (copies_in passes ≡ [] → ⊥) → (q : Pointer) (y : Page) → at q ≡ Some y → (moved_by (pass_in p.trail rg) y.spot ≡ y.spot) ⊎ ((x : Copied) × Contains (copies_in passes) x × (x.from ≡ y.spot) × (moved_by (pass_in p.trail rg) y.spot ≡ x.to)) }
    ensures owners { (c : DriveConfig) (p : Point) (rg : ℕ) (pages : ℕ → ℕ) (at : Behind Page) (owners : Spot → Option Owner) (passes : GroupPasses) → IsTableOf c p pages at → AreOwners owners at → IsPassOf at p.trail rg passes → (copies_in passes ≡ [] → ⊥) → AreOwners (owners_moved owners (copies_in passes)) (moved (put_at (moved_by (pass_in p.trail rg))) at) }
{}
