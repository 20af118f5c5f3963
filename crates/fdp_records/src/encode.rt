//! What stands behind the head of a record, by its kind:
//!
//! | Kind | Fields |
//! |---|---|
//! | 1 write | address 40+8; placement identifier 48+2; from 56 the number of the page of each block, 4 bytes each; flag bit 0: the identifier is invalid |
//! | 2 clear | from 40 the ranges, each address 8 and length 4 |
//! | 3 update | bits of the identifiers that closed a unit 40+8; from 48 the identifiers, 2 bytes each |
//! | 4 create | size 40+8; from 48 the handles, 1 byte each; flag bit 1: the host gave the list |
//! | 5 delete | none |
//! | 6 placement set | enabled 40+1; index 41+1; generation 44+4 |
//! | 7 events set | handle 40+1; on 41+1; kinds of event as bits 42+1 |
//! | 8 moved | victim 40+4 and its pages as bits 44+32; first target 76+4 and bits 80+32; second target 112+4, all ones for none, and bits 116+32; from 148 the handle of each page that moved, 1 byte each |
//! | 9 shut | group 40+2; handle 42+1 |

ghost use Rattle.std.specs.Prelude.{◌≡◌, ◌≤◌, ◌+◌, ◌*◌, Some, IsTrue, length};
ghost use Rattle.std.specs.Int.{to_le_bytes, w32};
ghost use Rattle.fdp_records.specs.Borrowed.{change_of};
ghost use Rattle.fdp_records.specs.Bytes.{laid, placed};
ghost use Rattle.fdp_records.specs.Limits.{is_within_limits};
ghost use Rattle.fdp_records.specs.Reading.{decoded};
ghost use Rattle.fdp_records.specs.Records.{body_pieces, head_of, record_of, record_size, target_or_none};
ghost use Rattle.fdp_records.specs.Sizes.{IsSized, PagesFit};

use crate::bytes::put;
use crate::change::UnitPages;
use crate::change_ref::ChangeRef;
use crate::head::{Head, put_head};
use crate::item::put_all;
use crate::kind::RecordKind;
use crate::limits::NO_UNIT;
use crate::page_set::PageSet;
use fdp_base::Totals;

impl<'a> ChangeRef<'a> {
    /// Writes the record of the change, with the totals at its position; the rest is zero.
    #[tactic(auto, unfolding(crate::specs::Records::record_of))]
    pub fn encode(&self, totals: &Totals, into: &mut [u8])
        requires limits { IsTrue (is_within_limits (change_of self.now)) }
        requires room { record_size (change_of self.now) ≤ length into.old }
        ensures bytes { into.new ≡ record_of (length into.old) (change_of self.now) totals.now }
        ensures told { decoded into.new ≡ Some (change_of self.now, totals.now) }
    {
        into.fill(0);
        put_head(into, self.head(), totals);
        self.put_body(into);
    }

    #[tactic(auto, unfolding(crate::specs::Limits::is_within_limits))]
    fn head(&self) -> Head
        requires { IsTrue (is_within_limits (change_of self.now)) }
        ensures { result ≡ head_of (change_of self.now) }
    {
        match *self {
            ChangeRef::Write {
                nsid,
                pid_invalid,
                pages,
                ..
            } => Head {
                kind: RecordKind::Write,
                flags: if pid_invalid { 1 } else { 0 },
                count: pages.len() as u16,
                nsid,
            },
            ChangeRef::Clear { nsid, ranges } => Head {
                kind: RecordKind::Clear,
                flags: 0,
                count: ranges.len() as u16,
                nsid,
            },
            ChangeRef::Update { nsid, pids, .. } => Head {
                kind: RecordKind::Update,
                flags: 0,
                count: pids.len() as u16,
                nsid,
            },
            ChangeRef::Create {
                nsid,
                given,
                handles,
                ..
            } => Head {
                kind: RecordKind::Create,
                flags: if given { 2 } else { 0 },
                count: handles.len() as u16,
                nsid,
            },
            ChangeRef::Delete { nsid } => Head {
                kind: RecordKind::Delete,
                flags: 0,
                count: 0,
                nsid,
            },
            ChangeRef::SetFdp { .. } => bare_head(RecordKind::SetFdp),
            ChangeRef::SetEvents { .. } => bare_head(RecordKind::SetEvents),
            ChangeRef::Moved { handles, .. } => Head {
                kind: RecordKind::Moved,
                flags: 0,
                count: handles.len() as u16,
                nsid: 0,
            },
            ChangeRef::Shut { .. } => bare_head(RecordKind::Shut),
        }
    }

    #[tactic(auto, unfolding(crate::specs::Sizes::IsSized))]
    fn put_body(&self, into: &mut [u8])
        requires { record_size (change_of self.now) ≤ length into.old }
        ensures bytes { into.new ≡ laid (body_pieces (change_of self.now)) into.old }
        ensures fit { IsSized (change_of self.now) }
    {
        match self {
            ChangeRef::Write {
                nsid,
                slba,
                pid,
                pages,
                ..
            } => {
                let _nsid = *nsid; // proof
                put(into, 40, &slba.to_le_bytes());
                put(into, 48, &pid.to_le_bytes());
                put_all(into, 56, pages);
            }
            ChangeRef::Clear { nsid, ranges } => {
                let _nsid = *nsid; // proof
                put_all(into, 40, ranges);
            }
            ChangeRef::Update { nsid, closed, pids } => {
                let _nsid = *nsid; // proof
                put(into, 40, &closed.to_le_bytes());
                put_all(into, 48, pids);
            }
            ChangeRef::Create {
                nsid,
                size,
                handles,
                ..
            } => {
                let _nsid = *nsid; // proof
                put(into, 40, &size.to_le_bytes());
                put_all(into, 48, handles);
            }
            ChangeRef::Delete { nsid } => {
                let _nsid = *nsid; // proof
            }
            ChangeRef::SetFdp {
                enabled,
                index,
                generation,
            } => {
                put(into, 40, &[u8::from(*enabled)]);
                put(into, 41, &[*index]);
                put(into, 44, &generation.to_le_bytes());
            }
            ChangeRef::SetEvents { ruh, on, mask } => {
                put(into, 40, &[*ruh]);
                put(into, 41, &[u8::from(*on)]);
                put(into, 42, &[*mask]);
            }
            ChangeRef::Moved {
                victim,
                first,
                second,
                handles,
            } => {
                put_pages(into, 40, victim);
                put_pages(into, 76, first);
                put_pages(into, 112, &target_or_none(second));
                put_all(into, 148, handles);
            }
            ChangeRef::Shut { rg, ruh } => {
                put(into, 40, &rg.to_le_bytes());
                put(into, 42, &[*ruh]);
            }
        }
    }
}

/// The head of a record without a flag, a list or a namespace.
fn bare_head(kind: RecordKind) -> Head
    ensures { result ≡ record { kind = kind; flags = 0; count = 0; nsid = 0 } }
{
    Head {
        kind,
        flags: 0,
        count: 0,
        nsid: 0,
    }
}

/// Writes a unit and pages of it.
fn put_pages(into: &mut [u8], at: usize, pages: &UnitPages)
    requires { at + 36 ≤ length into.old }
    ensures bytes { into.new ≡ placed (at + 4) pages.now.pages.bits (placed at (to_le_bytes w32 pages.now.unit) into.old) }
    ensures fit { PagesFit pages.now }
{
    let unit = pages.unit;
    let bits = pages.pages.bits;
    put(into, at, &unit.to_le_bytes());
    put(into, at + 4, &bits);
}

fn target_or_none(second: &Option<UnitPages>) -> UnitPages
    ensures { result ≡ target_or_none second.now }
{
    match second {
        Some(target) => *target,
        None => UnitPages {
            unit: NO_UNIT,
            pages: PageSet::EMPTY,
        },
    }
}
