//! What an opening leaves of the state.

ghost use Rattle.fdp_base.specs.declared.entry.Entry.TheVariants as entries;
ghost use Rattle.fdp_plain_effects.specs.Rows.{KeepsRows};
ghost use Rattle.fdp_rules.specs.Change.{changed_by};
ghost use Rattle.fdp_tables.specs.State.{plain_of};
ghost use Rattle.std.specs.Prelude.{◌≡◌, None, false, length, map};

use crate::feature::forget_references;
use fdp_tables::{Kept, KeptGoing};

/// The drive is opened again: no handle references a unit, no write is going, no unit is out of use and no group worn. It looks at
/// each row of these tables.
#[tactic(auto, unfolding(fdp_rules::specs::Change::changed_by))]
pub fn begin_again(kept: &mut Kept)
    ensures state { plain_of kept.new ≡ changed_by kept.old.config (plain_of kept.old) entries.Reopened }
    ensures rest { kept.new ≡ record kept.old { references = kept.new.references; going = kept.new.going; lost = kept.new.lost; worn = kept.new.worn } }
    ensures rows { KeepsRows kept.old kept.new }
{
    forget_references(kept);
    forget_writes(kept);
    forget_lost(kept);
    forget_worn(kept);
}

/// No write is going any longer.
fn forget_writes(kept: &mut Kept)
    ensures state { plain_of kept.new ≡ record (plain_of kept.old) { going = λ queue. None } }
    ensures rest { kept.new ≡ record kept.old { going = kept.new.going } }
    ensures rows { length kept.new.going.items ≡ length kept.old.going.items }
{
    clear_writes(kept.going.as_mut_slice());
}

/// No unit is out of use any longer.
fn forget_lost(kept: &mut Kept)
    ensures state { plain_of kept.new ≡ record (plain_of kept.old) { is_lost = λ unit. false } }
    ensures rest { kept.new ≡ record kept.old { lost = kept.new.lost } }
    ensures rows { length kept.new.lost.items ≡ length kept.old.lost.items }
{
    clear_marks(kept.lost.as_mut_slice());
}

/// No group is worn any longer.
fn forget_worn(kept: &mut Kept)
    ensures state { plain_of kept.new ≡ record (plain_of kept.old) { is_worn = λ rg. false } }
    ensures rest { kept.new ≡ record kept.old { worn = kept.new.worn } }
    ensures rows { length kept.new.worn.items ≡ length kept.old.worn.items }
{
    clear_marks(kept.worn.as_mut_slice());
}

fn clear_writes(rows: &mut [Option<KeptGoing>])
    ensures { rows.new ≡ map (λ x. None) rows.old }
{
    for going in rows.iter_mut() {
        clear_write(going);
    }
}

fn clear_write(going: &mut Option<KeptGoing>)
    ensures { going.new ≡ None }
{
    *going = None;
}

fn clear_marks(rows: &mut [bool])
    ensures { rows.new ≡ map (λ x. false) rows.old }
{
    for mark in rows.iter_mut() {
        *mark = false;
    }
}
