//! What a plain drive tells of itself outside of its log pages.
ghost use Rattle.fdp_base.specs.declared.event.Event.{Event};
ghost use Rattle.fdp_rules.specs.Events.{is_host_event};
ghost use Rattle.fdp_rules.specs.LogPages.{usage_of};
ghost use Rattle.fdp_rules.specs.Room.{handles_in_force};
ghost use Rattle.fdp_tables.specs.State.{plain_of, point_kept};
ghost use Rattle.std.specs.Prelude.{◌≡◌, ◌≤◌, None, Some, filter, length, nat_lt, not, slice_get, if◌then◌else◌};

use crate::log::is_of_class;
use crate::pages::usage_of;
use fdp_base::{Event, Totals};
use fdp_layouts::Coded;
use fdp_tables::Standing;

/// The position of the last entry, and the sums.
pub fn totals(kept: &Standing) -> Totals
    ensures { result ≡ (point_kept kept.now).totals }
{
    let tables = kept.tables();
    let entries = tables.entries.as_slice();
    Totals {
        position: entries.len() as u64,
        host_blocks: tables.host_blocks as u64,
        media_blocks: tables.media_blocks as u64,
        erases: tables.erases as u64,
    }
}

/// Who specified a handle: 0 nobody, since no namespace uses it; 1 a host; 2 the controller. None where there is no such handle.
pub fn usage(kept: &Standing, ruh: u8) -> Option<u8>
    ensures { result ≡ if nat_lt ruh (handles_in_force kept.now.config (plain_of kept.now)) then Some (usage_of (plain_of kept.now) ruh) else None }
{
    if ruh < kept.handles_in_force() {
        Some(usage_of(kept, u16::from(ruh)).code())
    } else {
        None
    }
}

/// An event that is kept of a class, the oldest with index 0; the events of hosts, or those of the controller. It looks at each event
/// that was kept.
pub fn event(kept: &Standing, host: bool, index: u32) -> Option<Event>
    ensures { result ≡ slice_get (if host then (point_kept kept.now).host_events else (point_kept kept.now).controller_events) index }
{
    let events = kept.events();
    let first = count_of_class(events, host).saturating_sub(32);
    event_of_class(events, host, first + index as usize)
}

/// How many events are of a class.
fn count_of_class(events: &[Event], host: bool) -> usize
    ensures count { result ≡ length (filter (λ (e : Event). if host then is_host_event e else not (is_host_event e)) events.now) }
    ensures most { result ≤ length events.now }
{
    events
        .iter()
        .filter(|event| is_of_class(host, **event))
        .count()
}

/// The event of a class before which so many of that class lie.
fn event_of_class(events: &[Event], host: bool, before: usize) -> Option<Event>
    ensures { result ≡ slice_get (filter (λ (e : Event). if host then is_host_event e else not (is_host_event e)) events.now) before }
{
    events
        .iter()
        .filter(|event| is_of_class(host, **event))
        .nth(before)
        .copied()
}
