ghost use Rattle.std.specs.Prelude.{◌≡◌, ◌+◌, ◌≤◌};
ghost use Rattle.fdp_rules.specs.Totals.{erases, erases_of, media_blocks, media_blocks_of};

use fdp_base::{Entry, Totals};

/// The sums without what these entries add of pages that were programmed and units that were erased.
pub(crate) fn sums_before(totals: Totals, entries: &[Entry]) -> Totals
    requires media { media_blocks entries.now ≤ totals.media_blocks }
    requires erases { erases entries.now ≤ totals.erases }
    ensures hosts { result.host_blocks ≡ totals.host_blocks }
    ensures media { result.media_blocks + media_blocks entries.now ≡ totals.media_blocks }
    ensures erases { result.erases + erases entries.now ≡ totals.erases }
{
    let mut before = totals;
    for entry in entries {
        let (pages, units) = pages_and_units_of(entry);
        before.media_blocks -= pages;
        before.erases -= units;
    }
    before
}

/// The pages that were programmed for an entry, and the units that were erased.
fn pages_and_units_of(entry: &Entry) -> (u64, u64)
    ensures pages { result.0 ≡ media_blocks_of entry.now }
    ensures units { result.1 ≡ erases_of entry.now }
{
    match entry {
        Entry::Placed(_) | Entry::Copied(_) => (1, 0),
        Entry::Erased(_) => (0, 1),
        Entry::Host(_)
        | Entry::Started(_)
        | Entry::Moved(_)
        | Entry::Retired(_)
        | Entry::Aside(_)
        | Entry::Shut(_)
        | Entry::Worn(_)
        | Entry::Reopened => (0, 0),
    }
}
