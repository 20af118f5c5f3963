ghost use Rattle.std.specs.Prelude.{◌≡◌, ◌<◌, length};
ghost use Rattle.fdp_rules.specs.PlainState.{PlainState};
ghost use Rattle.fdp_book.specs.Forgetting.{EndsIn, Forgets, IsThereIn, MayForget, is_there_in, live_pages};
ghost use Rattle.fdp_book.specs.Held.{flight_in};
ghost use Rattle.fdp_readings.specs.fdp_pages.Steps.{ChangesOwners};

use crate::extent::extent_of;
use crate::flight::Flight;
use crate::tables::Tables;
use fdp_base::{Command, Spot};
use fdp_outline::Outline;

/// Whether the namespace of a write is there, and is the one that it was when the write was started.
pub(super) fn is_there(outline: &Outline, flight: &Flight) -> bool
    ensures table { result ≡ is_there_in outline.now flight.now }
    ensures state { (s : PlainState) → IsThereIn s outline.now flight.now result }
{
    match outline.birth(flight.extent.nsid) {
        Some(birth) => birth == flight.birth,
        None => false,
    }
}

/// The pages of a write that may be going, as long as its namespace is there.
fn live_pages<'a>(outline: &Outline, flight: &'a Option<Flight>) -> &'a [Spot]
    ensures { result.now ≡ live_pages outline.now flight.now }
{
    match flight {
        Some(flight) => {
            if is_there(outline, flight) {
                flight.pages.as_slice()
            } else {
                &[]
            }
        }
        None => &[],
    }
}

/// No write is going in a queue any more: its pages have no owner. It takes a step for each of them.
pub(super) fn forget(tables: &mut Tables, queue: u8) -> Option<Flight>
    requires { MayForget tables.old queue }
    ensures { Forgets tables.old tables.new queue result }
{
    let flight = tables.flights[usize::from(queue)].take();
    tables.pages.release(live_pages(&tables.outline, &flight));
    flight
}

/// No write is going in a queue any more, and what it was is gone.
pub(super) fn drop_flight(tables: &mut Tables, queue: u8)
    requires { MayForget tables.old queue }
    ensures { Forgets tables.old tables.new queue (flight_in tables.old.flights.items queue) }
{
    // Its pages are released; what it was, nobody asks.
    let _ = forget(tables, queue);
}

/// A command ends in a queue: after a write none is going there.
pub(super) fn end_in(tables: &mut Tables, queue: u8, command: &Command)
    requires { MayForget tables.old queue }
    ensures ends { EndsIn tables.old tables.new queue command.now }
    ensures pages { ChangesOwners tables.old.pages tables.new.pages }
{
    if extent_of(command).is_some() {
        drop_flight(tables, queue);
    } else {
        tables.pages.joined(); // proof
    }
}
