//! The FDP Statistics log page (NVM Express Base Specification 2.1, "FDP Statistics (Log Page Identifier 22h)").
//!
//! | Offset | Bytes | Field |
//! |---|---|---|
//! | 0 | 16 | host bytes with metadata written (HBMW) |
//! | 16 | 16 | media bytes with metadata written (MBMW) |
//! | 32 | 16 | media bytes erased (MBE) |

ghost use Rattle.std.specs.Prelude.{◌≡◌, ℕ, refl};
ghost use Rattle.fdp_layouts.specs.Statistics.{stats, stats_numbers};

use crate::bad_frame::BadFrame;
use crate::frame::Frame;
use crate::number::{put_u128, read_u128};
use crate::span::{Span, first_reserved};
use crate::table::{decode, encode, len, made, put, take};

const HBMW: usize = 0;

const MBMW: usize = 16;

const MBE: usize = 32;

macro_rules! stats {
    ($direction:ident, $subject:ident) => {
        $direction!($subject, Stats[64] {
            hbmw: u128 at HBMW,
            mbmw: u128 at MBMW,
            mbe: u128 at MBE,
        })
    };
}

/// The sums of an endurance group, in bytes.
#[derive(Clone, Copy, Debug, PartialEq, Eq)]
pub struct Stats {
    /// That hosts wrote.
    pub hbmw: u128,
    /// That were programmed.
    pub mbmw: u128,
    /// That were erased.
    pub mbe: u128,
}

impl Frame<64> for Stats {
    ghost fields = { stats };

    ghost numbers = { stats_numbers };

    ghost in_order = { refl };

    ghost small = { refl };

    fn encode(&self) -> [u8; 64] {
        stats!(encode, self)
    }

    fn read(bytes: &[u8; 64]) -> Result<Stats, BadFrame> {
        stats!(decode, bytes)
    }
}
