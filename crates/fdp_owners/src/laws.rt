ghost use Rattle.std.specs.Prelude.{◌≡◌, ◌≢◌, ℕ, ◌≤◌, ◌<◌, None, Option, Some};
ghost use Rattle.fdp_base.specs.declared.entry.Spot.{Spot};
ghost use Rattle.fdp_pointers.specs.Facts.{IsApart, IsFree, Page};
ghost use Rattle.fdp_pointers.specs.Pointers.{Behind, Pointer};
ghost use Rattle.fdp_owners.specs.declared.owner.Holder.{Holder};
ghost use Rattle.fdp_owners.specs.declared.owner.Owner.{Owner};
ghost use Rattle.fdp_owners.specs.Owned.{AreOwners, page_of, with_pointer};
ghost use Rattle.fdp_owners.specs.OwnerTable.{OwnerTable, held_by, live_in, owner_at, pointer_of, with_owner};

/// Where owners and pointers tell the same, they do so after a page gets an owner to which no page was kept, after it
/// loses its owner, and after its owner gets another page.
pub fn owners_point()
    ensures none { AreOwners (λ spot. None) (λ p. None) }
    ensures put { (owners : Spot → Option Owner) (at : Behind Page) (spot : Spot) (x : Owner) → AreOwners owners at → owners spot ≡ None → at (pointer_of x) ≡ None → AreOwners (with_owner owners spot (Some x)) (with_pointer at (pointer_of x) (Some (page_of spot x))) }
    ensures cleared { (owners : Spot → Option Owner) (at : Behind Page) (spot : Spot) (x : Owner) → AreOwners owners at → owners spot ≡ Some x → AreOwners (with_owner owners spot None) (with_pointer at (pointer_of x) None) }
    ensures moved { (owners : Spot → Option Owner) (at : Behind Page) (from to : Spot) (x : Owner) → AreOwners owners at → owners from ≡ Some x → owners to ≡ None → AreOwners (with_owner (with_owner owners from None) to (Some x)) (with_pointer at (pointer_of x) (Some (page_of to x))) }
{}

/// Likewise after a page comes into the hands of one to whom no page was kept.
pub fn owners_are_handed_over()
    ensures { (owners : Spot → Option Owner) (at : Behind Page) (spot : Spot) (x : Owner) (holder : Holder) → AreOwners owners at → owners spot ≡ Some x → at (pointer_of (held_by holder x)) ≡ None → AreOwners (with_owner owners spot (Some (held_by holder x))) (with_pointer (with_pointer at (pointer_of x) None) (pointer_of (held_by holder x)) (Some (page_of spot x))) }
{}

/// No two pointers lead to one page that has an owner; into a unit without a live page none leads.
pub fn owners_keep_pointers_apart()
    ensures apart { (owners : Spot → Option Owner) (at : Behind Page) → AreOwners owners at → IsApart at }
    ensures free { (t : OwnerTable) (at : Behind Page) (unit : ℕ) → AreOwners (owner_at t) at → live_in t unit ≡ 0 → IsFree unit at }
{}

/// Where each page of a unit that has an owner lies below a page, no more are live than lie below it, and fewer where one
/// of them has no owner.
pub fn live_pages_are_used()
    ensures most { (t : OwnerTable) (unit next : ℕ) → next ≤ t.unit_pages → ((page : ℕ) → next ≤ page → owner_at t (record { unit = unit; page = page }) ≡ None) → live_in t unit ≤ next }
    ensures fewer { (t : OwnerTable) (unit next page : ℕ) → next ≤ t.unit_pages → ((later : ℕ) → next ≤ later → owner_at t (record { unit = unit; page = later }) ≡ None) → page < next → owner_at t (record { unit = unit; page = page }) ≡ None → live_in t unit < next }
{}
