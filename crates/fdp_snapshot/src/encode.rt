//! The fixed part of a checkpoint, 5,120 bytes, low byte first:
//!
//! | Offset | Bytes | Field |
//! |---|---|---|
//! | 0 | 8 | text `FDPDRV01` |
//! | 8 | 4 | version of the image |
//! | 12 | 4 | generation |
//! | 16 | 8 | position |
//! | 24 | 8 | host blocks |
//! | 32 | 8 | media blocks |
//! | 40 | 8 | erases |
//! | 48 | 1 | enabled |
//! | 49 | 1 | index |
//! | 64 | 4 | bytes of a block |
//! | 68 | 4 | pages of a unit |
//! | 72 | 4 | groups |
//! | 76 | 4 | units of a group |
//! | 80 | 4 | units of a system area |
//! | 84 | 4 | queues |
//! | 88 | 4 | blocks of a command |
//! | 92 | 4 | number of configurations |
//! | 96 | 16 | four configurations, 4 bytes each |
//! | 112 | 16 | event mask of each handle |
//! | 128 | 640 | sixteen namespaces, 40 bytes each |
//! | 768 | 1 | number of host events |
//! | 769 | 1 | number of controller events |
//! | 832 | 2048 | 32 host events, 64 bytes each |
//! | 2880 | 2048 | 32 controller events, 64 bytes each |

ghost use Rattle.std.specs.Prelude.{◌≡◌, ◌≤◌, ◌+◌, ◌*◌, All, flat_map, length};
ghost use Rattle.fdp_records.specs.Bytes.{laid, placed};
ghost use Rattle.fdp_rules.specs.LogPages.{event_bytes};
ghost use Rattle.fdp_snapshot.specs.Fixed.{IsSummary, fixed_of, fixed_size, head_pieces, key_pieces, list_pieces};
ghost use Rattle.fdp_snapshot.specs.Sizes.{AnyEvent, EventFits, HeadFits, KeysFit, ListsFit, SummaryFits};

use crate::keys::Keys;
use crate::ring::EventRing;
use crate::row::put_all;
use crate::state::Summary;
use fdp_records::put;

/// The bytes before the pages of the blocks.
pub const FIXED_SIZE: usize = 5120;

const TEXT: [u8; 8] = [0x46, 0x44, 0x50, 0x44, 0x52, 0x56, 0x30, 0x31];

/// Writes the fixed part of the checkpoint of a state. It writes each byte at most twice and takes no memory.
#[tactic(auto, unfolding(crate::specs::Fixed::fixed_of))]
pub fn put_fixed(summary: &Summary, version: u8, into: &mut [u8])
    requires room { length into.old ≡ fixed_size }
    requires is { IsSummary summary.now }
    ensures bytes { into.new ≡ fixed_of version summary.now }
    ensures fit { SummaryFits summary.now }
{
    into.fill(0);
    put_head(summary, version, into);
    put_keys(&summary.keys, into);
    put_lists(summary, into);
}

fn put_head(summary: &Summary, version: u8, into: &mut [u8])
    requires { length into.old ≡ fixed_size }
    ensures bytes { into.new ≡ laid (head_pieces version summary.now) into.old }
    ensures fit { HeadFits summary.now }
{
    let generation = summary.generation;
    let totals = &summary.totals;
    put(into, 0, &TEXT);
    put(into, 8, &u32::from(version).to_le_bytes());
    put(into, 12, &generation.to_le_bytes());
    put(into, 16, &totals.position.to_le_bytes());
    put(into, 24, &totals.host_blocks.to_le_bytes());
    put(into, 32, &totals.media_blocks.to_le_bytes());
    put(into, 40, &totals.erases.to_le_bytes());
    put(into, 48, &[u8::from(summary.enabled)]);
    put(into, 49, &[summary.index]);
}

fn put_keys(keys: &Keys, into: &mut [u8])
    requires room { length into.old ≡ fixed_size }
    requires few { length keys.now.configurations ≤ 4 }
    ensures bytes { into.new ≡ laid (key_pieces keys.now) into.old }
    ensures fit { KeysFit keys.now }
{
    put(into, 64, &keys.block.to_le_bytes());
    put(into, 68, &keys.unit_pages.to_le_bytes());
    put(into, 72, &keys.groups.to_le_bytes());
    put(into, 76, &keys.units.to_le_bytes());
    put(into, 80, &keys.area_units.to_le_bytes());
    put(into, 84, &keys.queues.to_le_bytes());
    put(into, 88, &keys.blocks_per_command.to_le_bytes());
    let rows = keys.configurations.as_slice();
    put(into, 92, &(rows.len() as u32).to_le_bytes());
    put_all(into, 96, rows);
}

fn put_lists(summary: &Summary, into: &mut [u8])
    requires room { length into.old ≡ fixed_size }
    requires is { IsSummary summary.now }
    ensures bytes { into.new ≡ laid (list_pieces summary.now) into.old }
    ensures fit { ListsFit summary.now }
{
    let masks = summary.masks;
    let hosts = &summary.host_events;
    let controllers = &summary.controller_events;
    put(into, 112, &masks);
    put_all(into, 128, summary.spaces.as_slice());
    put(into, 768, &[hosts.len() as u8]);
    put(into, 769, &[controllers.len() as u8]);
    put_events(into, 832, hosts);
    put_events(into, 2880, controllers);
}

/// Writes the events one behind another, from an offset on.
fn put_events(into: &mut [u8], at: usize, events: &EventRing)
    requires room { at + 64 * length events.now ≤ length into.old }
    requires are { All AnyEvent events.now }
    ensures bytes { into.new ≡ placed at (flat_map event_bytes events.now) into.old }
    ensures fit { All EventFits events.now }
{
    let (older, newer) = events.pieces();
    put_all(into, at, older);
    put_all(into, at + 64 * older.len(), newer);
}
