ghost use Rattle.std.specs.Prelude.{◌+◌, ◌≤◌, flat_map, length};
ghost use Rattle.fdp_pieces.specs.Parts.{PutsPiece};
ghost use Rattle.fdp_rules.specs.LogPages.{event_bytes, events_log};

use fdp_base::Event;
use fdp_logs::{event_frame, events_head};
use fdp_pieces::{is_outside, put_piece};
use fdp_snapshot::EventRing;

/// Puts log 23h of these events: how many there are, and each, oldest first.
pub fn put_events(into: &mut [u8], offset: u64, events: &EventRing)
    ensures { PutsPiece offset 0 (events_log events.now) into.old into.new }
{
    let (older, newer) = events.pieces();
    put_piece(into, offset, 0, &events_head(events.len() as u32));
    put_each_event(into, offset, 64, older);
    put_each_event(into, offset, 64 + 64 * older.len() as u64, newer);
}

/// Puts the events one behind another, from a place of the log on.
fn put_each_event(into: &mut [u8], offset: u64, start: u64, events: &[Event])
    requires few { length events.now ≤ 32 }
    requires start { start ≤ 4096 }
    ensures { PutsPiece offset start (flat_map event_bytes events.now) into.old into.new }
{
    for index in 0..events.len() {
        put_event(into, offset, start + 64 * index as u64, &events[index]);
    }
}

/// Puts an event, unless it lies outside.
fn put_event(into: &mut [u8], offset: u64, at: u64, event: &Event)
    ensures { PutsPiece offset at (event_bytes event.now) into.old into.new }
{
    if is_outside(into.len(), offset, at, 64) {
        return;
    }
    put_piece(into, offset, at, &event_frame(event));
}
