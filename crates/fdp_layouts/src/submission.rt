//! Submission queue entries (NVM Express Base Specification 2.1, "Submission Queue Entry").
//!
//! | Offset | Bytes | Field |
//! |---|---|---|
//! | 0 | 1 | opcode |
//! | 1 | 1 | FUSE bits 1:0, bits 5:2 zero, PSDT bits 7:6 |
//! | 2 | 2 | command identifier |
//! | 4 | 4 | NSID |
//! | 8, 12 | 4 | CDW2, CDW3 |
//! | 16 | 8 | metadata pointer |
//! | 24 | 16 | data pointer |
//! | 40, 44, 48, 52, 56, 60 | 4 | CDW10 to CDW15 |

ghost use Rattle.std.specs.Prelude.{◌≡◌, ℕ, ◌<◌, refl};
ghost use Rattle.fdp_layouts.specs.Submission.{fuse_code, psdt_code, flags_parts, flags_numbers, sqe, sqe_numbers};

use crate::bad_frame::BadFrame;
use crate::coded::Coded;
use crate::frame::Frame;
use crate::number::{
    put_bytes, put_u8, put_u16, put_u32, put_u64, read_bytes, read_u8, read_u16, read_u32, read_u64,
};
use crate::span::{Span, first_reserved};
use crate::table::{decode, encode, len, made, put, take};

const OPCODE: usize = 0;

const FLAGS: usize = 1;

const CID: usize = 2;

const NSID: usize = 4;

const CDW2: usize = 8;

const CDW3: usize = 12;

const MPTR: usize = 16;

const DPTR: usize = 24;

const CDW10: usize = 40;

const CDW11: usize = 44;

const CDW12: usize = 48;

const CDW13: usize = 52;

const CDW14: usize = 56;

const CDW15: usize = 60;

macro_rules! sqe {
    ($direction:ident, $subject:ident) => {
        $direction!($subject, Sqe[64] {
            opcode: u8 at OPCODE,
            flags: (EntryFlags: u8) at FLAGS,
            cid: u16 at CID,
            nsid: u32 at NSID,
            cdw2: u32 at CDW2,
            cdw3: u32 at CDW3,
            mptr: u64 at MPTR,
            dptr: [16] at DPTR,
            cdw10: u32 at CDW10,
            cdw11: u32 at CDW11,
            cdw12: u32 at CDW12,
            cdw13: u32 at CDW13,
            cdw14: u32 at CDW14,
            cdw15: u32 at CDW15,
        })
    };
}

/// An entry of a submission queue. CDW10 to CDW15 are the command's own.
#[derive(Clone, Copy, Debug, PartialEq, Eq)]
pub struct Sqe {
    pub opcode: u8,
    pub flags: EntryFlags,
    pub cid: u16,
    pub nsid: u32,
    pub cdw2: u32,
    pub cdw3: u32,
    pub mptr: u64,
    pub dptr: [u8; 16],
    pub cdw10: u32,
    pub cdw11: u32,
    pub cdw12: u32,
    pub cdw13: u32,
    pub cdw14: u32,
    pub cdw15: u32,
}

/// The flags of an entry: how it goes with its neighbours, and how its data are pointed at.
#[derive(Clone, Copy, Debug, PartialEq, Eq)]
pub struct EntryFlags {
    pub fuse: Fuse,
    pub psdt: Psdt,
}

/// Whether a command is one half of a fused operation.
#[derive(Clone, Copy, Debug, PartialEq, Eq)]
pub enum Fuse {
    Normal = 0,
    First = 1,
    Second = 2,
    Reserved = 3,
}

/// How the data of a command are pointed at: by PRP entries or by SGLs.
#[derive(Clone, Copy, Debug, PartialEq, Eq)]
pub enum Psdt {
    Prp = 0,
    SglMetadataBuffer = 1,
    SglMetadataSegment = 2,
    Reserved = 3,
}

impl Fuse {
    pub fn code(self) -> u8
        ensures { result ≡ fuse_code self }
    {
        self as u8
    }

    pub fn from_code(code: u8) -> Fuse
        requires { code < 4 }
        ensures { fuse_code result ≡ code }
    {
        match code {
            0 => Fuse::Normal,
            1 => Fuse::First,
            2 => Fuse::Second,
            _ => Fuse::Reserved,
        }
    }
}

impl Psdt {
    pub fn code(self) -> u8
        ensures { result ≡ psdt_code self }
    {
        self as u8
    }

    pub fn from_code(code: u8) -> Psdt
        requires { code < 4 }
        ensures { psdt_code result ≡ code }
    {
        match code {
            0 => Psdt::Prp,
            1 => Psdt::SglMetadataBuffer,
            2 => Psdt::SglMetadataSegment,
            _ => Psdt::Reserved,
        }
    }
}

impl Coded for EntryFlags {
    ghost parts = { flags_parts };

    ghost numbers = { flags_numbers };

    fn code(&self) -> u8 {
        self.fuse.code() + 64 * self.psdt.code()
    }

    fn from_code(code: u8) -> Option<EntryFlags> {
        if code >> 2 & 0xf != 0 {
            return None;
        }
        Some(EntryFlags {
            fuse: Fuse::from_code(code & 3),
            psdt: Psdt::from_code(code >> 6),
        })
    }
}

impl Frame<64> for Sqe {
    ghost fields = { sqe };

    ghost numbers = { sqe_numbers };

    ghost in_order = { refl };

    ghost small = { refl };

    fn encode(&self) -> [u8; 64] {
        sqe!(encode, self)
    }

    fn read(bytes: &[u8; 64]) -> Result<Sqe, BadFrame> {
        sqe!(decode, bytes)
    }
}
