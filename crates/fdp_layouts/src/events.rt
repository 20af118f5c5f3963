//! The FDP Events log page (NVM Express Base Specification 2.1, "FDP Events (Log Page Identifier 23h)").
//!
//! `EventHead`, 64 bytes:
//!
//! | Offset | Bytes | Field |
//! |---|---|---|
//! | 0 | 4 | number of events |
//!
//! `EventDesc`, 64 bytes:
//!
//! | Offset | Bytes | Field |
//! |---|---|---|
//! | 0 | 1 | event type: 00h to 03h, 80h, 81h |
//! | 1 | 1 | flags: placement identifier valid bit 0, NSID valid bit 1, location valid bit 2, bits 7:3 zero |
//! | 2 | 2 | placement identifier |
//! | 4 | 8 | timestamp |
//! | 12 | 4 | NSID |
//! | 16 | 16 | type specific |
//! | 32 | 2 | reclaim group |
//! | 34 | 1 | reclaim unit handle identifier |
//! | 40 | 24 | vendor specific |
//!
//! `ReallocatedDesc`, the 16 type specific bytes of event type 80h:
//!
//! | Offset | Bytes | Field |
//! |---|---|---|
//! | 0 | 1 | flags: LBA valid bit 0, bits 7:1 zero |
//! | 2 | 2 | number of LBAs moved (NLBAM) |
//! | 4 | 8 | LBA |

ghost use Rattle.std.specs.Prelude.{◌≡◌, ℕ, refl};
ghost use Rattle.fdp_layouts.specs.Events.{kind_parts, kind_numbers, event_flags_parts, event_flags_numbers, event_head, event_head_numbers, event_desc, event_desc_numbers, flag_parts, flag_numbers, reallocated_desc, reallocated_desc_numbers, described, specific_of};

use crate::bad_frame::BadFrame;
use crate::coded::Coded;
use crate::frame::Frame;
use crate::number::{
    put_bytes, put_u8, put_u16, put_u32, put_u64, read_bytes, read_u8, read_u16, read_u32, read_u64,
};
use crate::span::{Span, first_reserved};
use crate::table::{decode, encode, len, made, put, take};
use fdp_base::{Event, EventFlags, EventKind};

const EVENTS: usize = 0;

const KIND: usize = 0;

const FLAGS: usize = 1;

const PID: usize = 2;

const TIMESTAMP: usize = 4;

const NSID: usize = 12;

const SPECIFIC: usize = 16;

const RG: usize = 32;

const RUHID: usize = 34;

const VENDOR: usize = 40;

const LBA_VALID: usize = 0;

const NLBAM: usize = 2;

const LBA: usize = 4;

macro_rules! event_head {
    ($direction:ident, $subject:ident) => {
        $direction!($subject, EventHead[64] {
            events: u32 at EVENTS,
        })
    };
}

macro_rules! event_desc {
    ($direction:ident, $subject:ident) => {
        $direction!($subject, EventDesc[64] {
            kind: (EventKind: u8) at KIND,
            flags: (EventFlags: u8) at FLAGS,
            pid: u16 at PID,
            timestamp: u64 at TIMESTAMP,
            nsid: u32 at NSID,
            specific: [16] at SPECIFIC,
            rg: u16 at RG,
            ruhid: u8 at RUHID,
            vendor: [24] at VENDOR,
        })
    };
}

macro_rules! reallocated_desc {
    ($direction:ident, $subject:ident) => {
        $direction!($subject, ReallocatedDesc[16] {
            lba_valid: (bool: u8) at LBA_VALID,
            nlbam: u16 at NLBAM,
            lba: u64 at LBA,
        })
    };
}

/// The head of the log page.
#[derive(Clone, Copy, Debug, PartialEq, Eq)]
pub struct EventHead {
    /// The events behind the head.
    pub events: u32,
}

/// An event.
#[derive(Clone, Copy, Debug, PartialEq, Eq)]
pub struct EventDesc {
    pub kind: EventKind,
    pub flags: EventFlags,
    pub pid: u16,
    pub timestamp: u64,
    pub nsid: u32,
    pub specific: [u8; 16],
    pub rg: u16,
    pub ruhid: u8,
    pub vendor: [u8; 24],
}

/// What an event of reallocated media says of it.
#[derive(Clone, Copy, Debug, PartialEq, Eq)]
pub struct ReallocatedDesc {
    /// Whether the address means something.
    pub lba_valid: bool,
    /// Blocks that were moved.
    pub nlbam: u16,
    /// The address of the first of them.
    pub lba: u64,
}

impl EventDesc {
    /// An event of the drive. The position of the entry that made it stands in place of a time.
    pub fn of(event: &Event) -> EventDesc
        ensures { result ≡ described event.now }
    {
        EventDesc {
            kind: event.kind,
            flags: event.flags,
            pid: event.pid,
            timestamp: event.position,
            nsid: event.nsid,
            specific: specific_of(event),
            rg: event.rg,
            ruhid: event.ruh,
            vendor: [0; 24],
        }
    }
}

fn specific_of(event: &Event) -> [u8; 16]
    ensures { result ≡ specific_of event.now }
{
    match event.kind {
        EventKind::MediaReallocated => {
            let reallocated = ReallocatedDesc {
                lba_valid: true,
                nlbam: event.moved,
                lba: event.lba,
            };
            reallocated.encode()
        }
        EventKind::NotFullyWritten
        | EventKind::TimeLimitExceeded
        | EventKind::HandlesModified
        | EventKind::InvalidPlacementIdentifier
        | EventKind::ImplicitlyModified => [0; 16],
    }
}

impl Coded for EventKind {
    ghost parts = { kind_parts };

    ghost numbers = { kind_numbers };

    fn code(&self) -> u8 {
        match self {
            EventKind::NotFullyWritten => 0x00,
            EventKind::TimeLimitExceeded => 0x01,
            EventKind::HandlesModified => 0x02,
            EventKind::InvalidPlacementIdentifier => 0x03,
            EventKind::MediaReallocated => 0x80,
            EventKind::ImplicitlyModified => 0x81,
        }
    }

    fn from_code(code: u8) -> Option<EventKind> {
        match code {
            0x00 => Some(EventKind::NotFullyWritten),
            0x01 => Some(EventKind::TimeLimitExceeded),
            0x02 => Some(EventKind::HandlesModified),
            0x03 => Some(EventKind::InvalidPlacementIdentifier),
            0x80 => Some(EventKind::MediaReallocated),
            0x81 => Some(EventKind::ImplicitlyModified),
            _ => None,
        }
    }
}

impl Coded for EventFlags {
    ghost parts = { event_flags_parts };

    ghost numbers = { event_flags_numbers };

    fn code(&self) -> u8 {
        u8::from(self.pid_valid) + 2 * u8::from(self.nsid_valid) + 4 * u8::from(self.location_valid)
    }

    fn from_code(code: u8) -> Option<EventFlags> {
        if code >> 3 != 0 {
            return None;
        }
        Some(EventFlags {
            pid_valid: code & 1 == 1,
            nsid_valid: code >> 1 & 1 == 1,
            location_valid: code >> 2 & 1 == 1,
        })
    }
}

impl Coded for bool {
    ghost parts = { flag_parts };

    ghost numbers = { flag_numbers };

    fn code(&self) -> u8 {
        u8::from(*self)
    }

    fn from_code(code: u8) -> Option<bool> {
        match code {
            0 => Some(false),
            1 => Some(true),
            _ => None,
        }
    }
}

impl Frame<64> for EventHead {
    ghost fields = { event_head };

    ghost numbers = { event_head_numbers };

    ghost in_order = { refl };

    ghost small = { refl };

    fn encode(&self) -> [u8; 64] {
        event_head!(encode, self)
    }

    fn read(bytes: &[u8; 64]) -> Result<EventHead, BadFrame> {
        event_head!(decode, bytes)
    }
}

impl Frame<64> for EventDesc {
    ghost fields = { event_desc };

    ghost numbers = { event_desc_numbers };

    ghost in_order = { refl };

    ghost small = { refl };

    fn encode(&self) -> [u8; 64] {
        event_desc!(encode, self)
    }

    fn read(bytes: &[u8; 64]) -> Result<EventDesc, BadFrame> {
        event_desc!(decode, bytes)
    }
}

impl Frame<16> for ReallocatedDesc {
    ghost fields = { reallocated_desc };

    ghost numbers = { reallocated_desc_numbers };

    ghost in_order = { refl };

    ghost small = { refl };

    fn encode(&self) -> [u8; 16] {
        reallocated_desc!(encode, self)
    }

    fn read(bytes: &[u8; 16]) -> Result<ReallocatedDesc, BadFrame> {
        reallocated_desc!(decode, bytes)
    }
}
