//! The handles of a namespace, and what a placement identifier names by them.

ghost use Rattle.std.specs.Prelude.{◌≡◌, ◌-◌, ◌^◌, ◌≤◌, length, option_map, slice_index};
ghost use Rattle.fdp_base.specs.Config.{IsInRange};
ghost use Rattle.fdp_base.specs.Placement.{group_bits};
ghost use Rattle.fdp_image.specs.Bits.{has_bit};
ghost use Rattle.fdp_outline.specs.Handles.{handles_at, named_in, named_target};
ghost use Rattle.fdp_outline.specs.Outline.{IsWritable};

use crate::spaces::space_at;
use fdp_base::DriveConfig;
use fdp_snapshot::Summary;

/// Whether a number has the bit of a place.
pub fn has_bit(closed: u64, place: usize) -> bool
    ensures { result ≡ has_bit closed place }
{
    place < 64 && closed >> place & 1 == 1
}

/// The handles of a namespace, none where it is not there.
pub fn handles_at(summary: &Summary, nsid: u32) -> &[u8]
    requires { IsWritable summary.now }
    ensures value { result.now ≡ handles_at summary.now nsid }
    ensures few { length result.now ≤ 16 }
{
    match space_at(summary.spaces.as_slice(), nsid) {
        Some(space) => space.handles.as_slice(),
        None => &[],
    }
}

/// Handle 0 of a namespace.
pub fn first_handle(summary: &Summary, nsid: u32) -> u8
    requires { IsWritable summary.now }
    ensures { result ≡ slice_index (handles_at summary.now nsid) 0 }
{
    match handles_at(summary, nsid).first() {
        Some(ruh) => *ruh,
        None => 0,
    }
}

/// The group and the handle that a placement identifier names for a namespace, if there are such.
pub fn named_by(config: &DriveConfig, summary: &Summary, nsid: u32, pid: u16) -> Option<(u16, u8)>
    requires config { IsInRange config.now }
    requires writable { IsWritable summary.now }
    ensures { option_map named_target result ≡ named_in config.now (handles_at summary.now nsid) pid }
{
    let each = identifiers_of_a_group(config);
    let rg = u32::from(pid) / each;
    if rg < u32::from(config.groups) {
        let handle = u32::from(pid) % each;
        match handles_at(summary, nsid).get(handle as usize) {
            Some(ruh) => Some((rg as u16, *ruh)),
            None => None,
        }
    } else {
        None
    }
}

/// How many placement identifiers each group has.
fn identifiers_of_a_group(config: &DriveConfig) -> u32
    requires { IsInRange config.now }
    ensures { result ≡ 2 ^ (16 - group_bits config.now.groups) }
{
    match config.group_bits() {
        0 => 65536,
        1 => 32768,
        2 => 16384,
        3 => 8192,
        _ => 4096,
    }
}
