//! An event as it stands in log page 23h, 64 bytes.

ghost use Rattle.std.specs.Prelude.{◌≡◌, ◌≤◌, ◌+◌, length, slice_index, IfOk};
ghost use Rattle.fdp_records.specs.Bytes.{◌⊕◌, value};
ghost use Rattle.fdp_rules.specs.LogPages.{event_bytes};
ghost use Rattle.fdp_snapshot.specs.Lengths.{event_long};
ghost use Rattle.fdp_snapshot.specs.Events.{event_at, flags_at, if_moved, kind_or_first};
ghost use Rattle.fdp_snapshot.specs.Sizes.{AnyEvent, EventFits};

use crate::row::Row;
use fdp_base::{Event, EventFlags, EventKind};
use fdp_logs::event_frame;
use fdp_records::{put, read_u16, read_u32, read_u64};
use std::alloc::{AllocError, Global};

impl Row for Event {
    ghost width = { 64 };

    ghost bytes_of = { event_bytes };

    ghost read_from = { event_at };

    ghost Is = { AnyEvent };

    ghost Fits = { EventFits };

    ghost long = { event_long };

    fn size() -> usize {
        64
    }

    fn put(&self, into: &mut [u8], at: usize) {
        let _position = self.position; // proof
        let _pid = self.pid; // proof
        let _nsid = self.nsid; // proof
        let _moved = self.moved; // proof
        let _lba = self.lba; // proof
        let _rg = self.rg; // proof
        put(into, at, &event_frame(self));
    }

    fn read(alloc: Global, bytes: &[u8]) -> Result<Event, AllocError> {
        let _alloc = alloc; // proof
        Ok(Event {
            kind: kind_or_first(bytes[0]),
            flags: flags_at(bytes[1]),
            pid: read_u16(bytes, 2),
            position: read_u64(bytes, 4),
            nsid: read_u32(bytes, 12),
            moved: moved_at(bytes),
            lba: lba_at(bytes),
            rg: read_u16(bytes, 32),
            ruh: bytes[34],
        })
    }
}

/// How many blocks were moved, which only an event of moved blocks says.
fn moved_at(bytes: &[u8]) -> u16
    requires { length bytes.now ≡ 64 }
    ensures { result ≡ if_moved (slice_index bytes.now 0) (value (18 ⊕ 2) bytes.now) }
{
    if bytes[0] == 0x80 {
        read_u16(bytes, 18)
    } else {
        0
    }
}

/// Where the first of them stands.
fn lba_at(bytes: &[u8]) -> u64
    requires { length bytes.now ≡ 64 }
    ensures { result ≡ if_moved (slice_index bytes.now 0) (value (20 ⊕ 8) bytes.now) }
{
    if bytes[0] == 0x80 {
        read_u64(bytes, 20)
    } else {
        0
    }
}

/// The kind of event with a code; for any other code the first.
fn kind_or_first(code: u8) -> EventKind
    ensures { result ≡ kind_or_first code }
{
    match code {
        0x01 => EventKind::TimeLimitExceeded,
        0x02 => EventKind::HandlesModified,
        0x03 => EventKind::InvalidPlacementIdentifier,
        0x80 => EventKind::MediaReallocated,
        0x81 => EventKind::ImplicitlyModified,
        _ => EventKind::NotFullyWritten,
    }
}

fn flags_at(code: u8) -> EventFlags
    ensures { result ≡ flags_at code }
{
    EventFlags {
        pid_valid: code % 2 == 1,
        nsid_valid: code / 2 % 2 == 1,
        location_valid: code / 4 % 2 == 1,
    }
}
