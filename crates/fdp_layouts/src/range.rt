//! A range of a Dataset Management command (NVM Command Set Specification, "Dataset Management command").
//!
//! | Offset | Bytes | Field |
//! |---|---|---|
//! | 0 | 4 | context attributes |
//! | 4 | 4 | length in blocks |
//! | 8 | 8 | starting LBA |

ghost use Rattle.std.specs.Prelude.{◌≡◌, ℕ, refl};
ghost use Rattle.fdp_layouts.specs.Range.{dsm_range, dsm_range_numbers};

use crate::bad_frame::BadFrame;
use crate::frame::Frame;
use crate::number::{put_u32, put_u64, read_u32, read_u64};
use crate::span::{Span, first_reserved};
use crate::table::{decode, encode, len, made, put, take};

const ATTRIBUTES: usize = 0;

const LENGTH: usize = 4;

const SLBA: usize = 8;

macro_rules! dsm_range {
    ($direction:ident, $subject:ident) => {
        $direction!($subject, DsmRange[16] {
            attributes: u32 at ATTRIBUTES,
            length: u32 at LENGTH,
            slba: u64 at SLBA,
        })
    };
}

/// `length` blocks from `slba` on.
#[derive(Clone, Copy, Debug, PartialEq, Eq)]
pub struct DsmRange {
    pub attributes: u32,
    pub length: u32,
    pub slba: u64,
}

impl Frame<16> for DsmRange {
    ghost fields = { dsm_range };

    ghost numbers = { dsm_range_numbers };

    ghost in_order = { refl };

    ghost small = { refl };

    fn encode(&self) -> [u8; 16] {
        dsm_range!(encode, self)
    }

    fn read(bytes: &[u8; 16]) -> Result<DsmRange, BadFrame> {
        dsm_range!(decode, bytes)
    }
}
