//! How a run goes on from the one before it, in the tables.

ghost use Rattle.std.specs.Prelude.{◌≡◌, ℕ, ◌+◌, ◌∷◌, ◌++◌, [], IfOk, OnErr, OnOk, length, map, replicate};
ghost use Rattle.std.specs.Vec.{vec_items};
ghost use Rattle.fdp_base.specs.Config.{IsValidConfig};
ghost use Rattle.fdp_plain_effects.specs.Rows.{KeepsRows};
ghost use Rattle.fdp_tables.specs.State.{own_entries, row};
ghost use Rattle.fdp_plain.specs.Reopening.{Forgets, IsNamed, IsNext, tables_of};
ghost use Rattle.fdp_plain.specs.Telling.{TellsHistory, run_of};

use crate::naming::name_spaces;
use fdp_base::Spot;
use fdp_plain_effects::begin_again;
use fdp_tables::{Kept, PageSites};
use std::alloc::{AllocError, Global};

/// What the tables of the next run need memory for.
#[derive(Debug, Drop)]
pub(crate) struct Next {
    pub(crate) starts: Vec<usize>,
    pub(crate) sites: PageSites,
    pub(crate) found: PageSites,
    pub(crate) copies: Vec<Vec<(Spot, Spot)>>,
}

/// The run ends, and the tables tell of one that goes on from it. All that needs memory is made before anything changes.
pub(crate) fn reopen(kept: &mut Kept, alloc: Global) -> Result<(), AllocError>
    requires { TellsHistory kept.old }
    ensures history { TellsHistory kept.new }
    ensures reopened { OnOk result (run_of kept.new ≡ record { config = kept.old.config; earlier = (run_of kept.old).earlier ++ own_entries kept.old ∷ []; entries = [] }) }
    ensures failed { OnErr result (kept.new ≡ kept.old) }
{
    let next = next_run(kept, alloc)?;
    begin_run(kept, next);
    Ok(())
}

/// What the next run needs, which starts behind all entries.
fn next_run(kept: &Kept, alloc: Global) -> Result<Next, AllocError>
    requires { IsValidConfig kept.now.config }
    ensures { IfOk result (λ next. IsNext kept.now next) }
{
    let units = kept.config.geometry().data_units();
    let count = kept.entries.len();
    Ok(Next {
        starts: starts_with(alloc, kept.starts.as_slice(), count)?,
        sites: PageSites::without_pages(alloc, count + 1)?,
        found: PageSites::of_units(alloc, units, kept.config.unit_pages)?,
        copies: no_copies(alloc, usize::from(kept.config.groups))?,
    })
}

/// These starts, and one more.
fn starts_with(alloc: Global, starts: &[usize], next: usize) -> Result<Vec<usize>, AllocError>
    ensures { IfOk result (λ longer. longer.items ≡ starts.now ++ next ∷ []) }
{
    let mut longer = Vec::from_slice(alloc, starts)?;
    longer.push(next)?;
    Ok(longer)
}

#[tactic(auto, using(std::proofs::lemmas::List::replicate_more))]
fn no_copies(alloc: Global, count: usize) -> Result<Vec<Vec<(Spot, Spot)>>, AllocError>
    ensures { IfOk result (λ rows. map vec_items rows.items ≡ replicate count []) }
{
    let mut rows = Vec::new(alloc);
    for _ in 0..count {
        rows.push(Vec::new(alloc))?;
    }
    Ok(rows)
}

/// Each block is named by where it stands, what does not last is forgotten, and the tables of the next run take the place of the old.
fn begin_run(kept: &mut Kept, next: Next)
    ensures named { (nsid : ℕ) → IsNamed (tables_of kept.old) (row kept.old.spaces.items nsid) (row kept.new.spaces.items nsid) }
    ensures forgets { Forgets kept.old kept.new }
    ensures rows { KeepsRows kept.old kept.new }
    ensures rest { kept.new ≡ record kept.old { starts = next.starts; spaces = kept.new.spaces; references = kept.new.references; going = kept.new.going; lost = kept.new.lost; worn = kept.new.worn; media = kept.new.media; sites = next.sites; found = next.found; copies = next.copies } }
{
    let Next {
        starts,
        sites,
        found,
        copies,
    } = next;
    name_spaces(kept.spaces.as_mut_slice(), &kept.sites, &kept.found);
    begin_again(kept);
    kept.media.clear();
    kept.starts = starts;
    kept.sites = sites;
    kept.found = found;
    kept.copies = copies;
}
