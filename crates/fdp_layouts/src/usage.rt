//! The Reclaim Unit Handle Usage log page (NVM Express Base Specification 2.1, "Reclaim Unit Handle Usage (Log Page Identifier 21h)").
//!
//! `RuhUseHead`, 8 bytes:
//!
//! | Offset | Bytes | Field |
//! |---|---|---|
//! | 0 | 2 | number of reclaim unit handles (NRUH) |
//!
//! `RuhUse`, 8 bytes:
//!
//! | Offset | Bytes | Field |
//! |---|---|---|
//! | 0 | 1 | usage: 0 unused, 1 host specified, 2 controller specified |

ghost use Rattle.std.specs.Prelude.{◌≡◌, ℕ, refl};
ghost use Rattle.fdp_layouts.specs.Usage.{usage_parts, usage_numbers, ruh_use_head, ruh_use_head_numbers, ruh_use, ruh_use_numbers};

use crate::bad_frame::BadFrame;
use crate::coded::Coded;
use crate::frame::Frame;
use crate::number::{put_u8, put_u16, read_u8, read_u16};
use crate::span::{Span, first_reserved};
use crate::table::{decode, encode, len, made, put, take};

const NRUH: usize = 0;

const USAGE: usize = 0;

macro_rules! ruh_use_head {
    ($direction:ident, $subject:ident) => {
        $direction!($subject, RuhUseHead[8] {
            nruh: u16 at NRUH,
        })
    };
}

macro_rules! ruh_use {
    ($direction:ident, $subject:ident) => {
        $direction!($subject, RuhUse[8] {
            usage: (Usage: u8) at USAGE,
        })
    };
}

/// The head of the log page.
#[derive(Clone, Copy, Debug, PartialEq, Eq)]
pub struct RuhUseHead {
    /// Reclaim unit handles, each with a descriptor behind the head.
    pub nruh: u16,
}

/// How a reclaim unit handle is used.
#[derive(Clone, Copy, Debug, PartialEq, Eq)]
pub struct RuhUse {
    pub usage: Usage,
}

/// Who chose a reclaim unit handle for a namespace.
#[derive(Clone, Copy, Debug, PartialEq, Eq)]
pub enum Usage {
    /// No namespace has it.
    Unused = 0,
    /// The host gave it in the list of a namespace.
    HostSpecified = 1,
    /// The controller chose it.
    ControllerSpecified = 2,
}

impl Coded for Usage {
    ghost parts = { usage_parts };

    ghost numbers = { usage_numbers };

    fn code(&self) -> u8 {
        match self {
            Usage::Unused => 0,
            Usage::HostSpecified => 1,
            Usage::ControllerSpecified => 2,
        }
    }

    fn from_code(code: u8) -> Option<Usage> {
        match code {
            0 => Some(Usage::Unused),
            1 => Some(Usage::HostSpecified),
            2 => Some(Usage::ControllerSpecified),
            _ => None,
        }
    }
}

impl Frame<8> for RuhUseHead {
    ghost fields = { ruh_use_head };

    ghost numbers = { ruh_use_head_numbers };

    ghost in_order = { refl };

    ghost small = { refl };

    fn encode(&self) -> [u8; 8] {
        ruh_use_head!(encode, self)
    }

    fn read(bytes: &[u8; 8]) -> Result<RuhUseHead, BadFrame> {
        ruh_use_head!(decode, bytes)
    }
}

impl Frame<8> for RuhUse {
    ghost fields = { ruh_use };

    ghost numbers = { ruh_use_numbers };

    ghost in_order = { refl };

    ghost small = { refl };

    fn encode(&self) -> [u8; 8] {
        ruh_use!(encode, self)
    }

    fn read(bytes: &[u8; 8]) -> Result<RuhUse, BadFrame> {
        ruh_use!(decode, bytes)
    }
}
