//! Completion queue entries (NVM Express Base Specification 2.1, "Completion Queue Entry").
//!
//! | Offset | Bytes | Field |
//! |---|---|---|
//! | 0 | 4 | DW0 |
//! | 4 | 4 | DW1 |
//! | 8 | 2 | SQ head pointer |
//! | 10 | 2 | SQ identifier |
//! | 12 | 2 | command identifier |
//! | 14 | 2 | status: phase tag bit 0, SC bits 8:1, SCT bits 11:9, CRD bits 13:12, M bit 14, DNR bit 15 |

ghost use Rattle.std.specs.Prelude.{◌≡◌, ℕ, ◌<◌, false, refl};
ghost use Rattle.fdp_layouts.specs.Frame.{packed, PartsFit, ReadsParts};
ghost use Rattle.fdp_layouts.specs.Completion.{sct_code, crd_code, status_parts, status_numbers, cqe, cqe_numbers};

use crate::bad_frame::BadFrame;
use crate::frame::Frame;
use crate::number::{put_u16, put_u32, read_u16, read_u32};
use crate::span::{Span, first_reserved};
use crate::table::{decode, encode, len, made, put, take};
use fdp_base::Status;

const DW0: usize = 0;

const DW1: usize = 4;

const SQ_HEAD: usize = 8;

const SQ_ID: usize = 10;

const CID: usize = 12;

const STATUS: usize = 14;

macro_rules! cqe {
    ($direction:ident, $subject:ident) => {
        $direction!($subject, Cqe[16] {
            dw0: u32 at DW0,
            dw1: u32 at DW1,
            sq_head: u16 at SQ_HEAD,
            sq_id: u16 at SQ_ID,
            cid: u16 at CID,
            status: (StatusField: u16) at STATUS,
        })
    };
}

/// An entry of a completion queue.
#[derive(Clone, Copy, Debug, PartialEq, Eq)]
pub struct Cqe {
    pub dw0: u32,
    pub dw1: u32,
    pub sq_head: u16,
    pub sq_id: u16,
    pub cid: u16,
    pub status: StatusField,
}

/// The status of a completion, with the phase tag of its entry.
#[derive(Clone, Copy, Debug, PartialEq, Eq)]
pub struct StatusField {
    pub phase: bool,
    pub sc: u8,
    pub sct: StatusCodeType,
    pub crd: RetryDelay,
    pub more: bool,
    pub dnr: bool,
}

/// What kind of status code a completion has.
#[derive(Clone, Copy, Debug, PartialEq, Eq)]
pub enum StatusCodeType {
    Generic = 0,
    CommandSpecific = 1,
    MediaAndDataIntegrity = 2,
    PathRelated = 3,
    Reserved4 = 4,
    Reserved5 = 5,
    Reserved6 = 6,
    VendorSpecific = 7,
}

/// Which of the controller's delays a host waits before it tries again.
#[derive(Clone, Copy, Debug, PartialEq, Eq)]
pub enum RetryDelay {
    None = 0,
    First = 1,
    Second = 2,
    Third = 3,
}

impl StatusCodeType {
    pub fn code(self) -> u8
        ensures { result ≡ sct_code self }
    {
        self as u8
    }

    pub fn from_code(code: u8) -> StatusCodeType
        requires { code < 8 }
        ensures { sct_code result ≡ code }
    {
        match code {
            0 => StatusCodeType::Generic,
            1 => StatusCodeType::CommandSpecific,
            2 => StatusCodeType::MediaAndDataIntegrity,
            3 => StatusCodeType::PathRelated,
            4 => StatusCodeType::Reserved4,
            5 => StatusCodeType::Reserved5,
            6 => StatusCodeType::Reserved6,
            _ => StatusCodeType::VendorSpecific,
        }
    }
}

impl RetryDelay {
    pub fn code(self) -> u8
        ensures { result ≡ crd_code self }
    {
        self as u8
    }

    pub fn from_code(code: u8) -> RetryDelay
        requires { code < 4 }
        ensures { crd_code result ≡ code }
    {
        match code {
            0 => RetryDelay::None,
            1 => RetryDelay::First,
            2 => RetryDelay::Second,
            _ => RetryDelay::Third,
        }
    }
}

impl StatusField {
    /// The field of a completion that needs no further words: CRD, M and DNR are 0.
    pub fn new(phase: bool, status: Status) -> StatusField
        requires { status.sct < 8 }
        ensures phase { result.phase ≡ phase }
        ensures sct { sct_code result.sct ≡ status.sct }
        ensures sc { result.sc ≡ status.sc }
        ensures others { (result.crd ≡ RetryDelay.None) × (result.more ≡ false) × (result.dnr ≡ false) }
    {
        StatusField {
            phase,
            sc: status.sc,
            sct: StatusCodeType::from_code(status.sct),
            crd: RetryDelay::None,
            more: false,
            dnr: false,
        }
    }

    pub fn status(&self) -> Status
        ensures sct { result.sct ≡ sct_code self.now.sct }
        ensures sc { result.sc ≡ self.now.sc }
    {
        Status {
            sct: self.sct.code(),
            sc: self.sc,
        }
    }

    pub fn code(&self) -> u16
        ensures code { result ≡ packed status_parts (status_numbers self.now) }
        ensures fits { PartsFit status_parts (status_numbers self.now) }
    {
        let retry = u16::from(self.crd.code())
            + 4 * (u16::from(self.more) + 2 * u16::from(self.dnr));
        let kind = u16::from(self.sct.code()) + 8 * retry;
        u16::from(self.phase) + 2 * (u16::from(self.sc) + 256 * kind)
    }

    pub fn from_code(code: u16) -> Option<StatusField>
        ensures { ReadsParts status_parts status_numbers code result }
    {
        Some(StatusField {
            phase: code & 1 == 1,
            sc: (code >> 1 & 0xff) as u8,
            sct: StatusCodeType::from_code((code >> 9 & 7) as u8),
            crd: RetryDelay::from_code((code >> 12 & 3) as u8),
            more: code >> 14 & 1 == 1,
            dnr: code >> 15 == 1,
        })
    }
}

impl Frame<16> for Cqe {
    ghost fields = { cqe };

    ghost numbers = { cqe_numbers };

    ghost in_order = { refl };

    ghost small = { refl };

    fn encode(&self) -> [u8; 16] {
        cqe!(encode, self)
    }

    fn read(bytes: &[u8; 16]) -> Result<Cqe, BadFrame> {
        cqe!(decode, bytes)
    }
}
