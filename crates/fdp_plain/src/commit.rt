ghost use Rattle.std.specs.Prelude.{◌≡◌, ◌+◌, ◌<◌, ◌≤◌, ◌∷◌, ◌++◌, [], None, length, replicate, true};
ghost use Rattle.std.specs.Vec.{vec_capacity, vec_len};
ghost use Rattle.fdp_rules.specs.Events.{kept_of_entry};
ghost use Rattle.fdp_rules.specs.Step.{Follows};
ghost use Rattle.fdp_plain_trail.specs.Counted.{HasCountRoom};
ghost use Rattle.fdp_plain_trail.specs.Places.{HasPlaces};
ghost use Rattle.fdp_tables.specs.State.{plain_of, point_kept};
ghost use Rattle.fdp_plain.specs.Longer.{IsLonger, IsTraced, TracesFound};
ghost use Rattle.fdp_plain.specs.Prepared.{IsPrepared};
ghost use Rattle.fdp_plain.specs.Reserved.{HasSpare};
ghost use Rattle.fdp_plain.specs.Telling.{TellsHistory, run_of};

use crate::prepare::Prepared;
use fdp_base::{Entry, Event, Spot};
use fdp_plain_effects::change;
use fdp_plain_trail::count;
use fdp_tables::Kept;

/// Takes an entry that may follow, with the events that it makes. All that needs memory was made, so it cannot fail.
pub(crate) fn commit(kept: &mut Kept, prepared: Prepared, events: &[Event])
    requires history { TellsHistory kept.old }
    requires follows { Follows true kept.old.config (point_kept kept.old) prepared.entry }
    requires prepared { IsPrepared kept.old prepared }
    requires spare { HasSpare kept.old prepared.entry (length events.now) }
    requires events { events.now ≡ kept_of_entry kept.old.config (plain_of kept.old) prepared.entry }
    ensures history { TellsHistory kept.new }
    ensures run { run_of kept.new ≡ record (run_of kept.old) { entries = (run_of kept.old).entries ++ prepared.entry ∷ [] } }
{
    let Prepared { made, pages, entry } = prepared;
    change(kept, &entry, made);
    trace(kept, pages, &entry);
    lengthen(kept, entry, events);
}

/// The pages that are to be written get their places, and what stands moves as an entry says.
fn trace(kept: &mut Kept, pages: Vec<Option<Spot>>, entry: &Entry)
    requires places { HasPlaces kept.old entry.now }
    requires row_room { 0 < kept.old.sites.row_room }
    requires blank { pages.items ≡ replicate (length pages.items) None }
    ensures traced { IsTraced kept.old kept.new entry.now (length pages.items) }
    ensures found { TracesFound kept.old kept.new entry.now }
{
    kept.sites.push(pages);
    fdp_plain_trail::trace(kept, entry);
}

/// An entry more is counted, its events are kept, and it stands behind the others.
fn lengthen(kept: &mut Kept, entry: Entry, events: &[Event])
    requires count { HasCountRoom kept.old }
    requires entries { vec_len kept.old.entries < vec_capacity kept.old.entries }
    requires events { vec_len kept.old.events + length events.now ≤ vec_capacity kept.old.events }
    ensures { IsLonger kept.old kept.new entry events.now }
{
    count(kept, &entry);
    append(&mut kept.events, events);
    kept.entries.push_reserved(entry);
}

/// Puts events behind others.
fn append(kept: &mut Vec<Event>, events: &[Event])
    requires { vec_len kept.old + length events.now ≤ vec_capacity kept.old }
    ensures { kept.new.items ≡ kept.old.items ++ events.now }
{
    for event in events {
        kept.push_reserved(*event);
    }
}
