//! The fields of an entry; `docs/STREAMS.md` has the table.

ghost use Rattle.std.specs.Prelude.{◌≡◌, ◌+◌, ◌<◌, ◌≤◌};
ghost use Rattle.fdp_binary.specs.Fields.{
  bits,
  blocks_in,
  dealloc_in,
  dwords_of,
  feature_in,
  has_feature,
  is_set,
  joined,
  log_in,
  other_in,
  pids_in,
  ranges_in,
  select_in,
  set_events_in,
  set_fdp_in,
  slba_in,
  status_in,
  types_in,
  update_in,
  write_in,
};
ghost use Rattle.fdp_binary.specs.Front.{flags_byte};

use fdp_base::{
    AdminOpcode, EventTypes, GetLog, HandleStatus, HandleUpdate, Other, Payload, Pids, SetEvents,
    SetFdp, Write,
};
use fdp_layouts::{EntryFlags, Sqe};

/// `count` bits of a word, from bit `from` on.
pub fn bits(word: u32, from: u32, count: u32) -> u32
    requires within { from + count ≤ 32 }
    requires above { from < 32 }
    requires short { count < 32 }
    ensures { result ≡ bits word from count }
{
    (word >> from) % (1 << count)
}

/// Eight bits of a word, from bit `from` on.
fn byte(word: u32, from: u32) -> u8
    requires { from ≤ 24 }
    ensures { result ≡ bits word from 8 }
{
    bits(word, from, 8) as u8
}

/// Sixteen bits of a word, from bit `from` on.
fn half(word: u32, from: u32) -> u16
    requires { from ≤ 16 }
    ensures { result ≡ bits word from 16 }
{
    bits(word, from, 16) as u16
}

fn is_set(word: u32, place: u32) -> bool
    requires { place < 32 }
    ensures { result ≡ is_set word place }
{
    bits(word, place, 1) == 1
}

fn joined(low: u32, high: u32) -> u64
    ensures { result ≡ joined low high }
{
    u64::from(low) + (u64::from(high) << 32)
}

/// The number of dwords that a zero-based field says, within 32 bits.
fn dwords_of(numd: u32) -> u32
    ensures { result ≡ dwords_of numd }
{
    numd.saturating_add(1)
}

/// Byte 1 of an entry.
pub fn flags_byte(flags: &EntryFlags) -> u8
    ensures { result ≡ flags_byte flags.now }
{
    flags.fuse.code() + 64 * flags.psdt.code()
}

pub fn feature_in(entry: &Sqe) -> u8
    ensures { result ≡ feature_in entry.now }
{
    byte(entry.cdw10, 0)
}

pub fn select_in(entry: &Sqe) -> u8
    ensures { result ≡ select_in entry.now }
{
    bits(entry.cdw10, 0, 4) as u8
}

pub fn slba_in(entry: &Sqe) -> u64
    ensures { result ≡ slba_in entry.now }
{
    joined(entry.cdw10, entry.cdw11)
}

pub fn blocks_in(entry: &Sqe) -> u32
    ensures { result ≡ blocks_in entry.now }
{
    bits(entry.cdw12, 0, 16) + 1
}

pub fn ranges_in(entry: &Sqe) -> u32
    ensures { result ≡ ranges_in entry.now }
{
    bits(entry.cdw10, 0, 8) + 1
}

pub fn pids_in(entry: &Sqe) -> u32
    ensures { result ≡ pids_in entry.now }
{
    bits(entry.cdw10, 16, 16) + 1
}

pub fn types_in(entry: &Sqe) -> u32
    ensures { result ≡ types_in entry.now }
{
    bits(entry.cdw11, 16, 8)
}

pub fn deallocates(entry: &Sqe) -> bool
    ensures { result ≡ is_set entry.now.cdw11 2 }
{
    is_set(entry.cdw11, 2)
}

pub fn write_in(entry: &Sqe, payload: Payload) -> Write
    ensures { result ≡ write_in entry.now payload }
{
    Write {
        nsid: entry.nsid,
        slba: slba_in(entry),
        count: blocks_in(entry),
        dtype: bits(entry.cdw12, 20, 4) as u8,
        dspec: half(entry.cdw13, 16),
        payload,
    }
}

pub fn status_in(entry: &Sqe) -> HandleStatus
    ensures { result ≡ status_in entry.now }
{
    HandleStatus {
        nsid: entry.nsid,
        mo: byte(entry.cdw10, 0),
        dwords: dwords_of(entry.cdw11),
    }
}

pub fn update_in(entry: &Sqe, pids: Pids) -> HandleUpdate
    ensures { result ≡ update_in entry.now pids }
{
    HandleUpdate {
        nsid: entry.nsid,
        mo: byte(entry.cdw10, 0),
        pids,
    }
}

pub fn log_in(entry: &Sqe) -> GetLog
    ensures { result ≡ log_in entry.now }
{
    let numd = bits(entry.cdw10, 16, 16) + (bits(entry.cdw11, 0, 16) << 16);
    GetLog {
        lid: byte(entry.cdw10, 0),
        lsp: bits(entry.cdw10, 8, 7) as u8,
        group: half(entry.cdw11, 16),
        offset: joined(entry.cdw12, entry.cdw13),
        dwords: dwords_of(numd),
    }
}

pub fn set_fdp_in(entry: &Sqe) -> SetFdp
    ensures { result ≡ set_fdp_in entry.now }
{
    SetFdp {
        group: group_in(entry),
        enable: is_set(entry.cdw12, 0),
        index: byte(entry.cdw12, 8),
    }
}

pub fn group_in(entry: &Sqe) -> u16
    ensures { result ≡ bits entry.now.cdw11 0 16 }
{
    half(entry.cdw11, 0)
}

pub fn set_events_in(entry: &Sqe, types: EventTypes) -> SetEvents
    ensures { result ≡ set_events_in entry.now types }
{
    SetEvents {
        nsid: entry.nsid,
        handle: half(entry.cdw11, 0),
        enable: is_set(entry.cdw12, 0),
        types,
    }
}

/// Whether CDW10 of such an entry begins with a feature or a selection.
fn has_feature(admin: bool, opcode: u8) -> bool
    ensures { result ≡ has_feature admin opcode }
{
    admin
        && (opcode == AdminOpcode::SetFeatures.code()
            || opcode == AdminOpcode::GetFeatures.code()
            || opcode == AdminOpcode::NamespaceManagement.code())
}

pub fn other_in(admin: bool, entry: &Sqe) -> Other
    ensures { result ≡ other_in admin entry.now }
{
    let feature = if has_feature(admin, entry.opcode) {
        feature_in(entry)
    } else {
        0
    };
    Other {
        admin,
        opcode: entry.opcode,
        flags: flags_byte(&entry.flags),
        feature,
    }
}
