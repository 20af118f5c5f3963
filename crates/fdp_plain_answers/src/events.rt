ghost use Rattle.fdp_commands.specs.Targets.{target_at};
ghost use Rattle.fdp_rules.specs.Events.{handle_event, invalid_identifier, not_fully_written};
ghost use Rattle.fdp_tables.specs.State.{going_of, keeps, plain_of};
ghost use Rattle.std.specs.Prelude.{◌≡◌};

use fdp_base::{Event, EventFlags, EventKind};
use fdp_commands::Destination;
use fdp_tables::{KeptGoing, KeptReports, Standing};

const ALL_VALID: EventFlags = EventFlags {
    pid_valid: true,
    nsid_valid: true,
    location_valid: true,
};

const ONLY_LOCATION_VALID: EventFlags = EventFlags {
    pid_valid: false,
    nsid_valid: false,
    location_valid: true,
};

/// Whether an event that is made now is kept.
pub(crate) fn keeps(kept: &Standing, event: &Event) -> bool
    ensures { result ≡ (plain_of kept.now).reports event.now.ruh event.now.kind }
{
    match kept.tables().reports.as_slice().get(usize::from(event.ruh)) {
        Some(kept) => is_kept(kept, event.kind),
        None => false,
    }
}

/// An update closed a unit that was not fully written.
pub(crate) fn not_fully_written(kept: &Standing, nsid: u32, pid: u16, target: &Destination) -> Event
    ensures { result ≡ not_fully_written (plain_of kept.now) nsid pid (target_at target.now) }
{
    Event {
        kind: EventKind::NotFullyWritten,
        flags: ALL_VALID,
        pid,
        position: kept.next_position(),
        nsid,
        moved: 0,
        lba: 0,
        rg: target.rg,
        ruh: target.ruh,
    }
}

/// A write took effect whose placement identifier was invalid.
pub(crate) fn invalid_identifier(kept: &Standing, nsid: u32, pid: u16, going: &KeptGoing) -> Event
    ensures { result ≡ invalid_identifier (plain_of kept.now) nsid pid (going_of going.now) }
{
    Event {
        kind: EventKind::InvalidPlacementIdentifier,
        flags: ALL_VALID,
        pid,
        position: kept.next_position(),
        nsid,
        moved: 0,
        lba: 0,
        rg: going.rg,
        ruh: going.ruh,
    }
}

/// An event of a handle in a group, of which only the location is valid.
pub(crate) fn handle_event(kept: &Standing, kind: EventKind, rg: u16, ruh: u8) -> Event
    ensures { result ≡ handle_event (plain_of kept.now) kind rg ruh }
{
    Event {
        kind,
        flags: ONLY_LOCATION_VALID,
        pid: 0,
        position: kept.next_position(),
        nsid: 0,
        moved: 0,
        lba: 0,
        rg,
        ruh,
    }
}

fn is_kept(kept: &KeptReports, kind: EventKind) -> bool
    ensures { result ≡ keeps kind kept.now }
{
    match kind {
        EventKind::NotFullyWritten => kept.not_fully_written,
        EventKind::TimeLimitExceeded => kept.time_limit_exceeded,
        EventKind::HandlesModified => kept.handles_modified,
        EventKind::InvalidPlacementIdentifier => kept.invalid_identifier,
        EventKind::MediaReallocated => kept.media_reallocated,
        EventKind::ImplicitlyModified => kept.implicitly_modified,
    }
}
