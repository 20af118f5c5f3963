//! What an erase or a move makes of the rows of a table.

ghost use Rattle.std.specs.Prelude.{◌≡◌, ℕ, [], None, Option, false, map, slice_index_or};
ghost use Rattle.std.specs.Vec.{vec_items};
ghost use Rattle.fdp_base.specs.declared.entry.Spot.{Spot};
ghost use Rattle.fdp_rules.specs.Sites.{moved_by, outside};
ghost use Rattle.fdp_tables.specs.Copies.{copy_of};
ghost use Rattle.fdp_tables.specs.Index.{is_listed};
ghost use Rattle.fdp_tables.specs.PageSites.{changed_by, changed_in};

use fdp_base::Spot;

/// What becomes of pages that stand somewhere.
#[derive(Clone, Copy, Debug)]
pub(crate) enum SiteChange<'a> {
    /// Those of this unit stand nowhere any longer.
    Erased(u32),
    /// Those that these copies name stand at the copy.
    Moved(&'a [(Spot, Spot)]),
}

/// Changes the rows of these tickets: once changed, a page stays as it is, and no row of another ticket has one that is changed.
pub(crate) fn change_rows(
    rows: &mut Vec<Vec<Option<Spot>>>,
    tickets: &[u64],
    change: SiteChange<'_>,
)
    requires once { (page : Option Spot) → changed_by change (changed_by change page) ≡ changed_by change page }
    requires others { (ticket : ℕ) → is_listed ticket tickets.now ≡ false → map (changed_by change) (slice_index_or (map vec_items rows.old.items) ticket []) ≡ slice_index_or (map vec_items rows.old.items) ticket [] }
    ensures { map vec_items rows.new.items ≡ map (map (changed_by change.entry)) (map vec_items rows.old.items) }
{
    for ticket in tickets {
        change_at(rows, *ticket as usize, change);
    }
}

/// Changes all rows.
pub(crate) fn change_all(rows: &mut Vec<Vec<Option<Spot>>>, change: SiteChange<'_>)
    ensures { map vec_items rows.new.items ≡ map (map (changed_by change.entry)) (map vec_items rows.old.items) }
{
    for ticket in 0..rows.len() {
        change_at(rows, ticket, change);
    }
}

/// Changes the row of a ticket, where there is one.
fn change_at(rows: &mut Vec<Vec<Option<Spot>>>, ticket: usize, change: SiteChange<'_>)
    ensures { map vec_items rows.new.items ≡ changed_in (map (changed_by change.entry)) ticket (map vec_items rows.old.items) }
{
    if ticket < rows.len() {
        change_row(&mut rows[ticket], change);
    }
}

fn change_row(pages: &mut Vec<Option<Spot>>, change: SiteChange<'_>)
    ensures { pages.new.items ≡ map (changed_by change.entry) pages.old.items }
{
    change_pages(pages.as_mut_slice(), change);
}

#[tactic(auto, using(crate::proofs::Walks::mapped_start, crate::proofs::Walks::mapped_end))]
fn change_pages(pages: &mut [Option<Spot>], change: SiteChange<'_>)
    ensures { pages.new ≡ map (changed_by change.entry) pages.old }
{
    for page in pages.iter_mut() {
        *page = changed(*page, change);
    }
}

fn changed(page: Option<Spot>, change: SiteChange<'_>) -> Option<Spot>
    ensures { result ≡ changed_by change.entry page }
{
    match (page, change) {
        (None, _) => None,
        (Some(spot), SiteChange::Erased(unit)) => outside(unit, spot),
        (Some(spot), SiteChange::Moved(pass)) => Some(moved(spot, pass)),
    }
}

fn outside(unit: u32, spot: Spot) -> Option<Spot>
    ensures { result ≡ outside unit spot }
{
    if spot.unit == unit { None } else { Some(spot) }
}

/// Where a pass moves what stands at a page.
#[tactic(auto, using(crate::proofs::Walks::seeking_copy_next, crate::proofs::Walks::seeking_copy_found, crate::proofs::Walks::seeking_copy_end))]
pub(crate) fn moved(spot: Spot, pass: &[(Spot, Spot)]) -> Spot
    ensures { result ≡ moved_by (map copy_of pass.now) spot }
{
    for (from, to) in pass {
        if *from == spot {
            return *to;
        }
    }
    spot
}
