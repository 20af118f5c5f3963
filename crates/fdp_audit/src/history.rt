//! The history of a record, judged entry by entry.

ghost use Rattle.std.specs.Prelude.{◌≡◌, ◌+◌, ◌<◌, ◌^◌, ◌∷◌, ◌++◌, [], IfErr, OnOk, length, true};
ghost use Rattle.fdp_plain.specs.Run.{found_of, next_position};
ghost use Rattle.fdp_rules.specs.Legal.{IsLegal};
ghost use Rattle.fdp_rules.specs.Step.{IsStep};
ghost use Rattle.fdp_audit.specs.Audit.{behind, placed_from};
ghost use Rattle.fdp_audit.specs.Steps.{IsIllegalIn, IsRefusedNext, IsRefusedStep};

use crate::fault::RunFault;
use fdp_base::Entry;
use fdp_plain::Plain;
use std::alloc::Global;

/// Has a plain drive that has no entry of its run yet take these, each at the position that its line shows; or tells of the first that it does not take.
pub(crate) fn judge(
    alloc: Global,
    plain: &mut Plain,
    entries: Vec<(u64, Entry)>,
) -> Result<(), RunFault>
    requires begins { plain.old.entries ≡ [] }
    requires room { next_position plain.old + length entries.items < 2 ^ 64 }
    ensures same { OnOk result (plain.new ≡ behind plain.old plain.new.entries) }
    ensures whole { OnOk result (entries.items ≡ placed_from (next_position plain.old) plain.new.entries) }
    ensures legal { OnOk result (IsLegal true plain.old.config (found_of plain.old) plain.new.entries) }
    ensures illegal { IfErr result (IsIllegalIn plain.old entries.items) }
{
    let mut due = plain.next_position();
    for (position, entry) in entries.into_iter() {
        match take_next(alloc, plain, due, position, entry) {
            Ok(()) => due += 1,
            Err(fault) => return Err(fault),
        }
    }
    Ok(())
}

/// Takes the entry that is next, whose line shows a position.
fn take_next(
    alloc: Global,
    plain: &mut Plain,
    due: u64,
    position: u64,
    entry: Entry,
) -> Result<(), RunFault>
    ensures position { OnOk result (position ≡ due) }
    ensures taken { OnOk result (IsStep true plain.old.config (found_of plain.old) plain.old.entries entry
        × (plain.new ≡ record plain.old { entries = plain.old.entries ++ entry ∷ [] })) }
    ensures refused { IfErr result (IsRefusedNext plain.old due position entry) }
{
    if position != due {
        return Err(RunFault::Illegal { at: due, why: 0 });
    }
    take(alloc, plain, &entry)
}

fn take(alloc: Global, plain: &mut Plain, entry: &Entry) -> Result<(), RunFault>
    ensures taken { OnOk result (IsStep true plain.old.config (found_of plain.old) plain.old.entries entry.now
        × (plain.new ≡ record plain.old { entries = plain.old.entries ++ entry.now ∷ [] })) }
    ensures refused { IfErr result (IsRefusedStep plain.old entry.now) }
{
    plain.take(alloc, entry)?;
    Ok(())
}
