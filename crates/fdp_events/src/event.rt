//! The events that a drive keeps, at the position of their entry.

ghost use Rattle.std.specs.Prelude.{◌≡◌};
ghost use Rattle.fdp_base.specs.declared.event.Event.{Event as Told};
ghost use Rattle.fdp_rules.specs.Events.{all_valid, is_host_event, nsid_and_location_valid, only_location_valid, told_moved};
ghost use Rattle.fdp_snapshot.specs.Events.{IsPlain};

use fdp_base::{BlockName, Event, EventFlags, EventKind};

/// Whether hosts ask for events of a kind; the others are the controller's.
pub fn is_host(kind: EventKind) -> bool
    ensures { (e : Told) → e.kind ≡ kind → result ≡ is_host_event e }
{
    (kind as u8) < 0x80
}

/// An event of a handle in a group.
pub fn handle_event(kind: EventKind, position: u64, rg: u16, ruh: u8) -> Event
    ensures event { result ≡ record { kind = kind; flags = only_location_valid; pid = 0; position = position; nsid = 0; moved = 0; lba = 0; rg = rg; ruh = ruh } }
    ensures plain { IsPlain result }
{
    Event {
        kind,
        flags: EventFlags {
            pid_valid: false,
            nsid_valid: false,
            location_valid: true,
        },
        pid: 0,
        position,
        nsid: 0,
        moved: 0,
        lba: 0,
        rg,
        ruh,
    }
}

/// An event of a placement identifier of a namespace, and of a handle in a group.
pub fn identifier_event(
    kind: EventKind,
    position: u64,
    nsid: u32,
    pid: u16,
    rg: u16,
    ruh: u8,
) -> Event
    ensures event { result ≡ record { kind = kind; flags = all_valid; pid = pid; position = position; nsid = nsid; moved = 0; lba = 0; rg = rg; ruh = ruh } }
    ensures plain { IsPlain result }
{
    Event {
        kind,
        flags: EventFlags {
            pid_valid: true,
            nsid_valid: true,
            location_valid: true,
        },
        pid,
        position,
        nsid,
        moved: 0,
        lba: 0,
        rg,
        ruh,
    }
}

/// The event of so many moved blocks of a handle, of which this is the first.
pub fn reallocated_event(position: u64, rg: u16, ruh: u8, first: BlockName, count: usize) -> Event
    ensures event { result ≡ record { kind = EventKind.MediaReallocated; flags = nsid_and_location_valid; pid = 0; position = position; nsid = first.nsid; moved = told_moved count; lba = first.lba; rg = rg; ruh = ruh } }
    ensures plain { IsPlain result }
{
    Event {
        kind: EventKind::MediaReallocated,
        flags: EventFlags {
            pid_valid: false,
            nsid_valid: true,
            location_valid: true,
        },
        pid: 0,
        position,
        nsid: first.nsid,
        moved: told_moved(count),
        lba: first.lba,
        rg,
        ruh,
    }
}

fn told_moved(count: usize) -> u16
    ensures { result ≡ told_moved count }
{
    if count < 0x10000 {
        count as u16
    } else {
        0xffff
    }
}
