ghost use Rattle.fdp_commands.specs.Targets.{target_at};
ghost use Rattle.fdp_plain_answers.specs.Keeping.{kept_of, references_in};
ghost use Rattle.fdp_rules.specs.Effect.{updated_at, updated_by, with_reference};
ghost use Rattle.fdp_rules.specs.Events.{closing_event, update_events};
ghost use Rattle.fdp_rules.specs.Target.{named_by};
ghost use Rattle.fdp_tables.specs.State.{plain_of, reference_of};
ghost use Rattle.std.specs.Prelude.{◌≡◌, ◌+◌, ◌*◌, ◌<◌, ◌++◌, Some, length, OnOk};

use crate::events::not_fully_written;
use crate::kept_events::keep;
use fdp_base::Event;
use fdp_commands::{Destination, named_by};
use fdp_tables::{KeptReference, Standing};
use std::alloc::AllocError;

/// The events of an update that are kept, in the order of its placement identifiers. The references themselves stay:
/// the update is tried on a copy of them.
pub(crate) fn push_closings(
    kept: &Standing,
    nsid: u32,
    pids: &[u16],
    into: &mut Vec<Event>,
) -> Result<(), AllocError>
    ensures { OnOk result (into.new.items ≡ into.old.items ++ kept_of (plain_of kept.now) (update_events kept.now.config (plain_of kept.now) nsid (plain_of kept.now).references pids.now)) }
{
    let mut rows = kept.tables().references.clone()?;
    for pid in pids {
        push_closing(kept, nsid, *pid, &mut rows, into)?;
    }
    Ok(())
}

/// The event of one placement identifier of an update, where it closes a unit, if that event is kept.
fn push_closing(
    kept: &Standing,
    nsid: u32,
    pid: u16,
    rows: &mut Vec<KeptReference>,
    into: &mut Vec<Event>,
) -> Result<(), AllocError>
    ensures events { OnOk result (into.new.items ≡ into.old.items ++ kept_of (plain_of kept.now) (closing_event kept.now.config (plain_of kept.now) nsid (references_in kept.now.config rows.old.items) pid (named_by kept.now.config (plain_of kept.now) nsid pid))) }
    ensures references { OnOk result (references_in kept.now.config rows.new.items ≡ updated_by kept.now.config (plain_of kept.now) nsid (references_in kept.now.config rows.old.items) pid) }
{
    match named_by(kept, nsid, pid) {
        Some(target) => close_in(kept, nsid, pid, &target, rows, into),
        None => Ok(()),
    }
}

fn close_in(
    kept: &Standing,
    nsid: u32,
    pid: u16,
    target: &Destination,
    rows: &mut Vec<KeptReference>,
    into: &mut Vec<Event>,
) -> Result<(), AllocError>
    ensures events { OnOk result (into.new.items ≡ into.old.items ++ kept_of (plain_of kept.now) (closing_event kept.now.config (plain_of kept.now) nsid (references_in kept.now.config rows.old.items) pid (Some (target_at target.now)))) }
    ensures references { OnOk result (references_in kept.now.config rows.new.items ≡ updated_at kept.now.config (references_in kept.now.config rows.old.items) (target_at target.now)) }
{
    let reference = reference_in(kept, rows, target.rg, u16::from(target.ruh));
    if kept.tables().is_partly_written(&reference) {
        let none = kept.tables().no_reference();
        put_reference(kept, rows, target.rg, u16::from(target.ruh), none);
        keep(kept, not_fully_written(kept, nsid, pid, target), into)
    } else {
        Ok(())
    }
}

/// What a handle of a group references, by these rows.
fn reference_in(kept: &Standing, rows: &Vec<KeptReference>, rg: u16, ruh: u16) -> KeptReference
    ensures { reference_of result ≡ references_in kept.now.config rows.now.items rg ruh }
{
    if ruh < 16 {
        let place = 16 * usize::from(rg) + usize::from(ruh);
        match rows.as_slice().get(place) {
            Some(reference) => *reference,
            None => kept.tables().no_reference(),
        }
    } else {
        kept.tables().no_reference()
    }
}

fn put_reference(
    kept: &Standing,
    rows: &mut Vec<KeptReference>,
    rg: u16,
    ruh: u16,
    reference: KeptReference,
)
    requires handle { ruh < 16 }
    requires group { 16 * rg + ruh < length rows.old.items }
    ensures { references_in kept.now.config rows.new.items ≡ with_reference (references_in kept.now.config rows.old.items) rg ruh (reference_of reference) }
{
    rows[16 * usize::from(rg) + usize::from(ruh)] = reference;
}
