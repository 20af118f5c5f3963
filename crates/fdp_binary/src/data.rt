//! Data that are lists: ranges and placement identifiers.

ghost use Rattle.std.specs.Prelude.{◌≡◌, ◌*◌, ◌%◌, ◌^◌, ◌<◌, ◌++◌, IfOk, OnErr, OnOk, flat_map, length};
ghost use Rattle.std.specs.Int.{to_le_bytes, w16};
ghost use Rattle.fdp_queues.specs.Data.{range_bytes, with_attributes};
ghost use Rattle.fdp_binary.specs.Carrying.{Extends};
ghost use Rattle.fdp_binary.specs.Saying.{AreLaid, IsPid, IsRange};

use fdp_base::{Pids, Range, Ranges};
use fdp_layouts::{DsmRange, Frame};
use std::alloc::{AllocError, Global};

/// Bytes of a range.
pub const RANGE: usize = 16;

/// Bytes of a placement identifier.
pub const PID: usize = 2;

/// The ranges of a deallocation.
pub fn ranges_of(alloc: Global, body: &[u8]) -> Result<Ranges, AllocError>
    requires { length body.now % RANGE ≡ 0 }
    ensures count { IfOk result (λ ranges. RANGE * length ranges ≡ length body.now) }
    ensures laid { IfOk result (λ ranges. AreLaid IsRange body.now ranges) }
{
    let mut ranges = Vec::new(alloc);
    for index in 0..body.len() / RANGE {
        let start = RANGE * index;
        ranges.push(range_of(&body[start..start + RANGE]))?;
    }
    Ok(Ranges::from_vec(ranges))
}

fn range_of(piece: &[u8]) -> Range
    requires { length piece.now ≡ RANGE }
    ensures { IsRange piece.now result }
{
    let mut frame = [0; RANGE];
    frame.copy_from_slice(piece);
    match DsmRange::decode(&frame) {
        Ok(range) => {
            let _fits = range.encode(); // proof
            Range {
                slba: range.slba,
                length: range.length,
            }
        }
        // Its fields take all 16 bytes, and each holds any number.
        Err(_) => unreachable!(),
    }
}

/// The placement identifiers of an update.
pub fn pids_of(alloc: Global, body: &[u8]) -> Result<Pids, AllocError>
    requires { length body.now % PID ≡ 0 }
    ensures count { IfOk result (λ pids. PID * length pids ≡ length body.now) }
    ensures laid { IfOk result (λ pids. AreLaid IsPid body.now pids) }
{
    let mut pids = Vec::new(alloc);
    for index in 0..body.len() / PID {
        let start = PID * index;
        pids.push(pid_of(&body[start..start + PID]))?;
    }
    Ok(Pids::from_vec(pids))
}

fn pid_of(piece: &[u8]) -> u16
    requires { length piece.now ≡ PID }
    ensures { IsPid piece.now result }
{
    u16::from_le_bytes([piece[0], piece[1]])
}

/// Appends ranges, without attributes.
pub fn push_ranges(ranges: &[Range], into: &mut Vec<u8>) -> Result<(), AllocError>
    ensures ok { OnOk result (into.new.items ≡ into.old.items ++ flat_map (λ range. range_bytes (with_attributes 0 range)) ranges.now) }
    ensures err { OnErr result (Extends into.old.items into.new.items) }
{
    for range in ranges {
        push_range(range, into)?;
    }
    Ok(())
}

fn push_range(range: &Range, into: &mut Vec<u8>) -> Result<(), AllocError>
    ensures ok { OnOk result (into.new.items ≡ into.old.items ++ range_bytes (with_attributes 0 range.now)) }
    ensures err { OnErr result (into.new.items ≡ into.old.items) }
{
    let frame = DsmRange {
        attributes: 0,
        length: range.length,
        slba: range.slba,
    };
    into.extend_from_slice(&frame.encode())
}

/// Appends placement identifiers.
pub fn push_pids(pids: &[u16], into: &mut Vec<u8>) -> Result<(), AllocError>
    ensures ok { OnOk result (into.new.items ≡ into.old.items ++ flat_map (to_le_bytes w16) pids.now) }
    ensures err { OnErr result (Extends into.old.items into.new.items) }
{
    for pid in pids {
        push_pid(*pid, into)?;
    }
    Ok(())
}

fn push_pid(pid: u16, into: &mut Vec<u8>) -> Result<(), AllocError>
    ensures ok { OnOk result (into.new.items ≡ into.old.items ++ to_le_bytes w16 pid) }
    ensures err { OnErr result (into.new.items ≡ into.old.items) }
{
    into.extend_from_slice(&pid.to_le_bytes())
}
