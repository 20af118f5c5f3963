ghost use Rattle.std.specs.Prelude.{◌≡◌, true, IfOk};
ghost use Rattle.fdp_rules.specs.Events.{kept_of_entry};
ghost use Rattle.fdp_tables.specs.Sound.{IsSound};
ghost use Rattle.fdp_tables.specs.State.{plain_of, point_kept};
ghost use Rattle.fdp_rules.specs.Step.{Follows};
ghost use Rattle.fdp_plain.specs.Prepared.{IsPrepared};
ghost use Rattle.fdp_plain.specs.Reserved.{HasMomentSpare};

use crate::copied::copied;
use crate::made::make;
use crate::pages::{no_pages, pages_of};
use fdp_base::{Entry, Event, Spot};
use fdp_plain_answers::push_kept;
use fdp_plain_effects::Made;
use fdp_tables::{Kept, Standing};
use std::alloc::{AllocError, Global};

/// What an entry that may follow needs memory for.
#[derive(Debug, Drop)]
pub(crate) struct Prepared {
    /// What its change needs.
    pub(crate) made: Made,
    /// A place for the site of each of its pages.
    pub(crate) pages: Vec<Option<Spot>>,
    /// The entry itself.
    pub(crate) entry: Entry,
}

/// All that an entry needs memory for but its events.
pub(crate) fn prepare(kept: &Kept, alloc: Global, entry: &Entry) -> Result<Prepared, AllocError>
    requires sound { IsSound kept.now }
    requires follows { Follows true kept.now.config (point_kept kept.now) entry.now }
    requires moment { HasMomentSpare kept.now }
    ensures entry { IfOk result (λ prepared. prepared.entry ≡ entry.now) }
    ensures ready { IfOk result (λ prepared. IsPrepared kept.now prepared) }
{
    Ok(Prepared {
        made: make(kept, alloc, entry)?,
        pages: no_pages(alloc, pages_of(entry))?,
        entry: copied(alloc, entry)?,
    })
}

/// The events of an entry that are kept.
pub(crate) fn kept_events(
    kept: &Kept,
    alloc: Global,
    entry: &Entry,
) -> Result<Vec<Event>, AllocError>
    requires sound { IsSound kept.now }
    requires follows { Follows true kept.now.config (point_kept kept.now) entry.now }
    ensures { IfOk result (λ events. events.items ≡ kept_of_entry kept.now.config (plain_of kept.now) entry.now) }
{
    let mut events = Vec::new(alloc);
    push_kept(&Standing::new(kept), alloc, entry, &mut events)?;
    Ok(events)
}
