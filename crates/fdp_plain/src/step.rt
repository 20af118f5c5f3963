ghost use Rattle.std.specs.Prelude.{◌≡◌, ◌∷◌, ◌++◌, [], true, OnErr, OnOk};
ghost use Rattle.fdp_rules.specs.Step.{Follows};
ghost use Rattle.fdp_tables.specs.State.{plain_of, point_kept};
ghost use Rattle.fdp_plain.specs.Refusing.{IsIllegalIn};
ghost use Rattle.fdp_plain.specs.Telling.{TellsHistory, run_of};

use crate::commit::commit;
use crate::prepare::{kept_events, prepare};
use crate::refused::Refused;
use crate::reserve::reserve;
use fdp_base::Entry;
use fdp_plain_judge::rule_of;
use fdp_tables::{Kept, Standing};
use std::alloc::{AllocError, Global};

/// Takes an entry that may follow. All that needs memory is made before anything changes.
pub(crate) fn take_step(kept: &mut Kept, alloc: Global, entry: &Entry) -> Result<(), AllocError>
    requires history { TellsHistory kept.old }
    requires follows { Follows true kept.old.config (point_kept kept.old) entry.now }
    ensures history { TellsHistory kept.new }
    ensures taken { OnOk result (run_of kept.new ≡ record (run_of kept.old) { entries = (run_of kept.old).entries ++ entry.now ∷ [] }) }
    ensures failed { OnErr result (run_of kept.new ≡ run_of kept.old) }
{
    let events = kept_events(kept, alloc, entry)?;
    reserve(kept, entry, events.len())?;
    let prepared = prepare(kept, alloc, entry)?;
    commit(kept, prepared, events.as_slice());
    Ok(())
}

/// Why an entry is refused that is no step.
pub(crate) fn refusal(kept: &Kept, entry: &Entry) -> Refused
    requires { TellsHistory kept.now }
    ensures { IsIllegalIn (plain_of kept.now) entry.now result }
{
    Refused::Illegal {
        at: kept.next_position(),
        why: rule_of(&Standing::new(kept), entry).number(),
    }
}
