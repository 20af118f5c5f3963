ghost use Rattle.fdp_base.specs.Numbers.{numbers_below};
ghost use Rattle.fdp_base.specs.declared.event.EventKind.TheVariants as kinds;
ghost use Rattle.fdp_plain_answers.specs.Keeping.{kept_of};
ghost use Rattle.fdp_rules.specs.Events.{handle_event};
ghost use Rattle.fdp_rules.specs.Room.{handles_in_force};
ghost use Rattle.fdp_tables.specs.State.{plain_of};
ghost use Rattle.std.specs.Prelude.{◌≡◌, ◌++◌, ◌∷◌, [], OnOk, flat_map, map};

use crate::events::handle_event;
use crate::kept_events::keep;
use fdp_base::{Event, EventKind};
use fdp_tables::Standing;
use std::alloc::AllocError;

/// The events of an opening that are kept: of each handle of each group.
pub(crate) fn push_openings(kept: &Standing, into: &mut Vec<Event>) -> Result<(), AllocError>
    ensures { OnOk result (into.new.items ≡ into.old.items ++ kept_of (plain_of kept.now) (flat_map (λ rg. map (handle_event (plain_of kept.now) kinds.HandlesModified rg) (numbers_below (handles_in_force kept.now.config (plain_of kept.now)))) (numbers_below kept.now.config.groups))) }
{
    for rg in 0..kept.config().groups {
        push_opening(kept, rg, into)?;
    }
    Ok(())
}

/// Those of a group.
fn push_opening(kept: &Standing, rg: u16, into: &mut Vec<Event>) -> Result<(), AllocError>
    ensures { OnOk result (into.new.items ≡ into.old.items ++ kept_of (plain_of kept.now) (map (handle_event (plain_of kept.now) kinds.HandlesModified rg) (numbers_below (handles_in_force kept.now.config (plain_of kept.now))))) }
{
    for ruh in 0..kept.handles_in_force() {
        push_modified(kept, rg, ruh, into)?;
    }
    Ok(())
}

/// That of a handle.
fn push_modified(kept: &Standing, rg: u16, ruh: u8, into: &mut Vec<Event>) -> Result<(), AllocError>
    ensures { OnOk result (into.new.items ≡ into.old.items ++ kept_of (plain_of kept.now) (handle_event (plain_of kept.now) kinds.HandlesModified rg ruh ∷ [])) }
{
    keep(
        kept,
        handle_event(kept, EventKind::HandlesModified, rg, ruh),
        into,
    )
}
