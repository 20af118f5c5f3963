ghost use Rattle.std.specs.Prelude.{◌≡◌, ◌++◌};
ghost use Rattle.std.specs.Int.{to_le_bytes, w32};
ghost use Rattle.fdp_rules.specs.LogPages.{event_bytes, zeros};

use fdp_base::Event;
use fdp_layouts::{EventDesc, EventHead, Frame};

/// The head of log 23h: how many events stand behind it.
pub fn events_head(events: u32) -> [u8; 64]
    ensures { result ≡ to_le_bytes w32 events ++ zeros 60 }
{
    EventHead { events }.encode()
}

/// An event of log 23h.
pub fn event_frame(event: &Event) -> [u8; 64]
    ensures { result ≡ event_bytes event.now }
{
    EventDesc::of(event).encode()
}
