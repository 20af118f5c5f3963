//! The Reclaim Unit Handle Status of an I/O Management Receive (NVM Command Set Specification, "Reclaim Unit Handle Status").
//!
//! `RuhStatusHead`, 16 bytes:
//!
//! | Offset | Bytes | Field |
//! |---|---|---|
//! | 14 | 2 | number of descriptors |
//!
//! `RuhStatusDesc`, 32 bytes:
//!
//! | Offset | Bytes | Field |
//! |---|---|---|
//! | 0 | 2 | placement identifier |
//! | 2 | 2 | reclaim unit handle identifier |
//! | 4 | 4 | estimated active reclaim unit time remaining (EARUTR) |
//! | 8 | 8 | reclaim unit available media writes (RUAMW) |

ghost use Rattle.std.specs.Prelude.{◌≡◌, ℕ, refl};
ghost use Rattle.fdp_layouts.specs.HandleStatus.{ruh_status_head, ruh_status_head_numbers, ruh_status_desc, ruh_status_desc_numbers};

use crate::bad_frame::BadFrame;
use crate::frame::Frame;
use crate::number::{put_u16, put_u32, put_u64, read_u16, read_u32, read_u64};
use crate::span::{Span, first_reserved};
use crate::table::{decode, encode, len, made, put, take};

const DESCRIPTORS: usize = 14;

const PID: usize = 0;

const RUHID: usize = 2;

const EARUTR: usize = 4;

const RUAMW: usize = 8;

macro_rules! ruh_status_head {
    ($direction:ident, $subject:ident) => {
        $direction!($subject, RuhStatusHead[16] {
            descriptors: u16 at DESCRIPTORS,
        })
    };
}

macro_rules! ruh_status_desc {
    ($direction:ident, $subject:ident) => {
        $direction!($subject, RuhStatusDesc[32] {
            pid: u16 at PID,
            ruhid: u16 at RUHID,
            earutr: u32 at EARUTR,
            ruamw: u64 at RUAMW,
        })
    };
}

/// The head of the status.
#[derive(Clone, Copy, Debug, PartialEq, Eq)]
pub struct RuhStatusHead {
    /// The descriptors behind the head.
    pub descriptors: u16,
}

/// Where writes with a placement identifier go.
#[derive(Clone, Copy, Debug, PartialEq, Eq)]
pub struct RuhStatusDesc {
    pub pid: u16,
    pub ruhid: u16,
    /// Seconds that the reclaim unit may stay open; 0 where that is not told.
    pub earutr: u32,
    /// Blocks that the reclaim unit still takes.
    pub ruamw: u64,
}

impl Frame<16> for RuhStatusHead {
    ghost fields = { ruh_status_head };

    ghost numbers = { ruh_status_head_numbers };

    ghost in_order = { refl };

    ghost small = { refl };

    fn encode(&self) -> [u8; 16] {
        ruh_status_head!(encode, self)
    }

    fn read(bytes: &[u8; 16]) -> Result<RuhStatusHead, BadFrame> {
        ruh_status_head!(decode, bytes)
    }
}

impl Frame<32> for RuhStatusDesc {
    ghost fields = { ruh_status_desc };

    ghost numbers = { ruh_status_desc_numbers };

    ghost in_order = { refl };

    ghost small = { refl };

    fn encode(&self) -> [u8; 32] {
        ruh_status_desc!(encode, self)
    }

    fn read(bytes: &[u8; 32]) -> Result<RuhStatusDesc, BadFrame> {
        ruh_status_desc!(decode, bytes)
    }
}
