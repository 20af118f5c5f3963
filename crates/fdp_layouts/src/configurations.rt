//! The FDP Configurations log page (NVM Express Base Specification 2.1, "FDP Configurations (Log Page Identifier 20h)").
//!
//! `ConfigHead`, 16 bytes:
//!
//! | Offset | Bytes | Field |
//! |---|---|---|
//! | 0 | 2 | number of configurations, zero-based |
//! | 2 | 1 | version, 0 |
//! | 4 | 4 | size of the whole log |
//!
//! `ConfigDesc`, 64 bytes:
//!
//! | Offset | Bytes | Field |
//! |---|---|---|
//! | 0 | 2 | descriptor size |
//! | 2 | 1 | attributes: RGIF bits 3:0, volatile write cache bit 4, bits 6:5 zero, valid bit 7 |
//! | 3 | 1 | vendor specific size, 0 |
//! | 4 | 4 | number of reclaim groups (NRG) |
//! | 8 | 2 | number of reclaim unit handles (NRUH) |
//! | 10 | 2 | maximum placement identifiers (MAXPIDS) |
//! | 12 | 4 | number of namespaces supported (NNSS) |
//! | 16 | 8 | reclaim unit nominal size (RUNS) |
//! | 24 | 4 | estimated reclaim unit time limit (ERUTL) |
//!
//! `RuhClass`, 4 bytes:
//!
//! | Offset | Bytes | Field |
//! |---|---|---|
//! | 0 | 1 | class: 1 initially isolated, 2 persistently isolated |

ghost use Rattle.std.specs.Prelude.{◌≡◌, ℕ, ◌<◌, refl};
ghost use Rattle.fdp_layouts.specs.Configurations.{attributes_parts, attributes_numbers, class_parts, class_numbers, config_head, config_head_numbers, config_desc, config_desc_numbers, ruh_class, ruh_class_numbers};

use crate::bad_frame::BadFrame;
use crate::coded::Coded;
use crate::frame::Frame;
use crate::group_bits::GroupBits;
use crate::number::{put_u8, put_u16, put_u32, put_u64, read_u8, read_u16, read_u32, read_u64};
use crate::span::{Span, first_reserved};
use crate::table::{decode, encode, len, made, put, take};
use fdp_base::Class;

const CONFIGURATIONS: usize = 0;

const VERSION: usize = 2;

const LOG_SIZE: usize = 4;

const DESCRIPTOR_SIZE: usize = 0;

const ATTRIBUTES: usize = 2;

const VENDOR_SIZE: usize = 3;

const NRG: usize = 4;

const NRUH: usize = 8;

const MAXPIDS: usize = 10;

const NNSS: usize = 12;

const RUNS: usize = 16;

const ERUTL: usize = 24;

const CLASS: usize = 0;

macro_rules! config_head {
    ($direction:ident, $subject:ident) => {
        $direction!($subject, ConfigHead[16] {
            configurations: u16 at CONFIGURATIONS,
            version: zero at VERSION,
            size: u32 at LOG_SIZE,
        })
    };
}

macro_rules! config_desc {
    ($direction:ident, $subject:ident) => {
        $direction!($subject, ConfigDesc[64] {
            size: u16 at DESCRIPTOR_SIZE,
            attributes: (Attributes: u8) at ATTRIBUTES,
            vendor_size: zero at VENDOR_SIZE,
            nrg: u32 at NRG,
            nruh: u16 at NRUH,
            max_pids: u16 at MAXPIDS,
            nnss: u32 at NNSS,
            runs: u64 at RUNS,
            erutl: u32 at ERUTL,
        })
    };
}

macro_rules! ruh_class {
    ($direction:ident, $subject:ident) => {
        $direction!($subject, RuhClass[4] {
            class: (Class: u8) at CLASS,
        })
    };
}

/// The head of the log page.
#[derive(Clone, Copy, Debug, PartialEq, Eq)]
pub struct ConfigHead {
    /// One less than the number of configurations.
    pub configurations: u16,
    /// Bytes of the whole log page.
    pub size: u32,
}

/// An FDP configuration.
#[derive(Clone, Copy, Debug, PartialEq, Eq)]
pub struct ConfigDesc {
    /// Bytes of the descriptor with its handle descriptors and padding.
    pub size: u16,
    pub attributes: Attributes,
    /// Reclaim groups.
    pub nrg: u32,
    /// Reclaim unit handles.
    pub nruh: u16,
    /// One less than the number of placement identifiers of a namespace.
    pub max_pids: u16,
    /// Namespaces that are supported.
    pub nnss: u32,
    /// Bytes of a reclaim unit.
    pub runs: u64,
    /// Seconds that a reclaim unit may stay open; 0 where there is no limit.
    pub erutl: u32,
}

/// The attributes of a configuration.
#[derive(Clone, Copy, Debug, PartialEq, Eq)]
pub struct Attributes {
    pub rgif: GroupBits,
    pub volatile_cache: bool,
    pub valid: bool,
}

/// A reclaim unit handle of a configuration.
#[derive(Clone, Copy, Debug, PartialEq, Eq)]
pub struct RuhClass {
    pub class: Class,
}

impl Coded for Attributes {
    ghost parts = { attributes_parts };

    ghost numbers = { attributes_numbers };

    fn code(&self) -> u8 {
        self.rgif.bits() + 16 * u8::from(self.volatile_cache) + 128 * u8::from(self.valid)
    }

    fn from_code(code: u8) -> Option<Attributes> {
        if code >> 5 & 3 != 0 {
            return None;
        }
        Some(Attributes {
            rgif: GroupBits::new(code & 0xf),
            volatile_cache: code >> 4 & 1 == 1,
            valid: code >> 7 == 1,
        })
    }
}

impl Coded for Class {
    ghost parts = { class_parts };

    ghost numbers = { class_numbers };

    fn code(&self) -> u8 {
        match self {
            Class::Initial => 1,
            Class::Persistent => 2,
        }
    }

    fn from_code(code: u8) -> Option<Class> {
        match code {
            1 => Some(Class::Initial),
            2 => Some(Class::Persistent),
            _ => None,
        }
    }
}

impl Frame<16> for ConfigHead {
    ghost fields = { config_head };

    ghost numbers = { config_head_numbers };

    ghost in_order = { refl };

    ghost small = { refl };

    fn encode(&self) -> [u8; 16] {
        config_head!(encode, self)
    }

    fn read(bytes: &[u8; 16]) -> Result<ConfigHead, BadFrame> {
        config_head!(decode, bytes)
    }
}

impl Frame<64> for ConfigDesc {
    ghost fields = { config_desc };

    ghost numbers = { config_desc_numbers };

    ghost in_order = { refl };

    ghost small = { refl };

    fn encode(&self) -> [u8; 64] {
        config_desc!(encode, self)
    }

    fn read(bytes: &[u8; 64]) -> Result<ConfigDesc, BadFrame> {
        config_desc!(decode, bytes)
    }
}

impl Frame<4> for RuhClass {
    ghost fields = { ruh_class };

    ghost numbers = { ruh_class_numbers };

    ghost in_order = { refl };

    ghost small = { refl };

    fn encode(&self) -> [u8; 4] {
        ruh_class!(encode, self)
    }

    fn read(bytes: &[u8; 4]) -> Result<RuhClass, BadFrame> {
        ruh_class!(decode, bytes)
    }
}
