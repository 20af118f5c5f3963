//! Pages of a unit as bits.

ghost use Rattle.std.specs.Prelude.{◌≡◌, ◌+◌, ◌≤◌, ◌<◌, ◌++◌, ◌∷◌, []};
ghost use Rattle.std.specs.Prelude.{All, List, Some, drop, length, map, slice_get, take, ℕ};
ghost use Rattle.fdp_base.specs.declared.entry.Copied.{Copied as Copy};
ghost use Rattle.fdp_keeper.specs.Moves.{HasPages, IsSetOf, LieInSome, OldInOrder};
ghost use Rattle.fdp_durability.specs.fdp_pages.Joined.{LieInOrder};

use fdp_base::Copied;
use fdp_records::PageSet;

/// Puts a page behind those of a set.
pub fn put(set: &mut PageSet, page: u32)
    requires { page < 256 }
    ensures { (pages : List ℕ) (next : ℕ) → HasPages set.old pages next → next ≤ page → HasPages set.new (pages ++ page ∷ []) (page + 1) }
{
    let at = (page / 8) as usize;
    set.bits[at] |= 1 << (page % 8);
}

/// Puts the old pages of copies that lie in order.
pub fn put_old(set: &mut PageSet, copies: &[Copied])
    requires { All (λ (x : Copy). x.from.page < 256) copies.now }
    ensures { (unit next : ℕ) (pages : List ℕ) → OldInOrder unit next copies.now → HasPages set.old pages next → IsSetOf set.new (pages ++ map (λ (x : Copy). x.from.page) copies.now) }
{
    match copies.split_first() {
        Some((copy, rest)) => {
            put(set, copy.from.page);
            put_old(set, rest);
        }
        None => {}
    }
}

/// Puts the new pages of copies, as long as they lie in order in a unit, from a page on, and tells how many did.
pub fn put_new(set: &mut PageSet, unit: u32, next: u32, copies: &[Copied]) -> usize
    requires { All (λ (x : Copy). x.to.page < 256) copies.now }
    ensures within { result ≤ length copies.now }
    ensures set { (pages : List ℕ) → HasPages set.old pages next → IsSetOf set.new (pages ++ map (λ (x : Copy). x.to.page) (take result copies.now)) }
    ensures order { LieInOrder unit next (take result copies.now) }
    ensures some { (x : Copy) → slice_get copies.now 0 ≡ Some x → x.to.unit ≡ unit → next ≤ x.to.page → 0 < result }
    ensures all { LieInOrder unit next copies.now → result ≡ length copies.now }
    ensures rest { (first last : List Copy) (other : ℕ) → copies.now ≡ first ++ last → LieInOrder unit next first → LieInOrder other 0 last → LieInSome (drop result copies.now) }
{
    match copies.split_first() {
        Some((copy, rest)) => {
            if copy.to.unit != unit || copy.to.page < next {
                return 0;
            }
            put(set, copy.to.page);
            1 + put_new(set, unit, copy.to.page + 1, rest)
        }
        None => 0,
    }
}
