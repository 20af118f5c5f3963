//! Where rows are listed of which pages move.

ghost use Rattle.std.specs.Prelude.{◌≡◌, ℕ, IsTrue, Option, Some, map, slice_get};
ghost use Rattle.std.specs.List.{list_all};
ghost use Rattle.std.specs.Option.{option_flatten};
ghost use Rattle.std.specs.Vec.{vec_items};
ghost use Rattle.fdp_base.specs.declared.entry.Spot.{Spot};
ghost use Rattle.fdp_rules.specs.Sites.{moved_by};
ghost use Rattle.fdp_tables.specs.Copies.{copy_of};
ghost use Rattle.fdp_tables.specs.Index.{Lists, is_listed};
ghost use Rattle.fdp_tables.specs.PageSites.{leaves, site_in};

use crate::index::Index;
use crate::site_change::moved;
use fdp_base::Spot;

/// The unit of the first page of a pass. The others lie there too, as `are_leaving` finds.
pub(crate) fn unit_of(pass: &[(Spot, Spot)]) -> u32 {
    match pass.first() {
        Some(copy) => copy.0.unit,
        None => 0,
    }
}

/// Whether all these copies leave a unit for others.
pub(crate) fn are_leaving(pass: &[(Spot, Spot)], unit: u32) -> bool
    ensures { result ≡ list_all (leaves unit) pass.now }
{
    pass.iter()
        .all(|copy| copy.0.unit == unit && copy.1.unit != unit)
}

/// Lists the tickets of rows of which pages stand in a unit under the units where a pass moves these pages.
pub(crate) fn list_moved(
    index: &mut Index,
    rows: &[Vec<Option<Spot>>],
    tickets: &[u64],
    unit: u32,
    pass: &[(Spot, Spot)],
)
    ensures kept { (k v : ℕ) → Lists index.old k v → Lists index.new k v }
    ensures listed { (ticket i : ℕ) (spot : Spot) → IsTrue (is_listed ticket tickets.now) → site_in (map vec_items rows.now) ticket i ≡ Some spot → spot.unit ≡ unit → Lists index.new (moved_by (map copy_of pass.now) spot).unit ticket }
{
    for ticket in tickets {
        list_at(index, rows, *ticket, unit, pass);
    }
}

fn list_at(
    index: &mut Index,
    rows: &[Vec<Option<Spot>>],
    ticket: u64,
    unit: u32,
    pass: &[(Spot, Spot)],
)
    ensures kept { (k v : ℕ) → Lists index.old k v → Lists index.new k v }
    ensures listed { (i : ℕ) (spot : Spot) → site_in (map vec_items rows.now) ticket i ≡ Some spot → spot.unit ≡ unit → Lists index.new (moved_by (map copy_of pass.now) spot).unit ticket }
{
    if let Some(pages) = rows.get(ticket as usize) {
        list_row(index, pages.as_slice(), ticket, unit, pass);
    }
}

fn list_row(
    index: &mut Index,
    pages: &[Option<Spot>],
    ticket: u64,
    unit: u32,
    pass: &[(Spot, Spot)],
)
    ensures kept { (k v : ℕ) → Lists index.old k v → Lists index.new k v }
    ensures listed { (i : ℕ) (spot : Spot) → option_flatten (slice_get pages.now i) ≡ Some spot → spot.unit ≡ unit → Lists index.new (moved_by (map copy_of pass.now) spot).unit ticket }
{
    for page in pages {
        list_page(index, *page, ticket, unit, pass);
    }
}

fn list_page(index: &mut Index, page: Option<Spot>, ticket: u64, unit: u32, pass: &[(Spot, Spot)])
    ensures kept { (k v : ℕ) → Lists index.old k v → Lists index.new k v }
    ensures listed { (spot : Spot) → page ≡ Some spot → spot.unit ≡ unit → Lists index.new (moved_by (map copy_of pass.now) spot).unit ticket }
{
    if let Some(spot) = page {
        if spot.unit == unit {
            index.add(u64::from(moved(spot, pass).unit), ticket);
        }
    }
}
