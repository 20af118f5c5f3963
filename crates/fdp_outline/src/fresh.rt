//! The summary of a drive as its configuration makes it.

ghost use Rattle.std.specs.Prelude.{◌≡◌, ℕ, ◌+◌, ◌^◌, ◌≤◌, ◌<◌, All, IfOk, [], true, if◌then◌else◌, length, nat_lt, option_map, slice_get, sum_by, unwrap_or};
ghost use Rattle.std.specs.List.{enumerate_from, list_all};
ghost use Rattle.std.specs.Option.{ForSome};
ghost use Rattle.fdp_base.specs.Config.{IsInRange, IsValidConfig};
ghost use Rattle.fdp_base.specs.declared.config.Class.{Class as Kind};
ghost use Rattle.fdp_image.specs.Checkpoint.{namespace_of};
ghost use Rattle.fdp_image.specs.CheckpointFields.{are_rows, is_persistent, is_row, same_keys};
ghost use Rattle.fdp_image.specs.Reads.{fresh_reading};
ghost use Rattle.fdp_rules.specs.Effect.{chosen_handles};
ghost use Rattle.fdp_snapshot.specs.Rows.{IsRoomySpace, IsSpaceRow};
ghost use Rattle.fdp_outline.specs.Fresh.{ArePlaced, HasFewHandles, made_as};
ghost use Rattle.fdp_outline.specs.Outline.{IsOutlineOf, IsWritable};

use fdp_base::{Class, Classes, DriveConfig, HandleList, NamespaceConfig, Sequence, Totals};
use fdp_snapshot::{EventRing, HandleRow, Keys, NamespaceHandles, Space, Summary};
use std::alloc::{AllocError, Global};

/// What a checkpoint says of a drive as its configuration makes it, beside the pages of its blocks.
pub fn fresh_summary(alloc: Global, config: &DriveConfig) -> Result<Summary, AllocError>
    requires { IsValidConfig config.now }
    ensures outline { IfOk result (λ s. IsOutlineOf config.now (fresh_reading config.now) s) }
    ensures writable { IfOk result (λ s. IsWritable s) }
    ensures totals { IfOk result (λ s. s.totals ≡ (fresh_reading config.now).totals) }
{
    let keys = keys_of(alloc, config)?;
    let spaces = configured_spaces(alloc, config.namespaces.as_slice())?;
    let host_events = EventRing::new(alloc)?;
    let controller_events = EventRing::new(alloc)?;
    Ok(Summary {
        keys,
        totals: Totals {
            position: 0,
            host_blocks: 0,
            media_blocks: 0,
            erases: 0,
        },
        enabled: config.enabled,
        index: config.index,
        generation: 0,
        masks: [0; 16],
        spaces: Sequence::from_vec(spaces),
        host_events,
        controller_events,
    })
}

/// The sizes of a drive, as its checkpoint names them.
fn keys_of(alloc: Global, config: &DriveConfig) -> Result<Keys, AllocError>
    requires { IsInRange config.now }
    ensures same { IfOk result (λ keys. list_all (λ same. same) (same_keys config.now keys) ≡ true) }
    ensures few { IfOk result (λ keys. length keys.configurations ≤ 4) }
{
    let rows = configured_rows(alloc, config.fdp.as_slice())?;
    Ok(Keys {
        block: config.block,
        unit_pages: config.unit_pages,
        groups: u32::from(config.groups),
        units: config.units,
        area_units: config.area_units,
        queues: u32::from(config.queues),
        blocks_per_command: u32::from(config.blocks_per_command),
        configurations: Sequence::from_vec(rows),
    })
}

/// How many handles each configuration has, and which of them are persistent.
fn configured_rows(alloc: Global, configurations: &[Classes]) -> Result<Vec<HandleRow>, AllocError>
    requires { All (λ classes. length classes ≤ 16) configurations.now }
    ensures rows { IfOk result (λ rows. are_rows configurations.now rows.items ≡ true) }
    ensures count { IfOk result (λ rows. length rows.items ≡ length configurations.now) }
{
    let mut rows = Vec::new(alloc);
    for index in 0..configurations.len() {
        rows.push(row_of(configurations[index].as_slice()))?;
    }
    Ok(rows)
}

/// How many handles a configuration has, and which of them are persistent.
fn row_of(handles: &[Class]) -> HandleRow
    requires { length handles.now ≤ 16 }
    ensures { is_row handles.now result ≡ true }
{
    HandleRow {
        handles: handles.len() as u8,
        persistent: persistent_mask(handles, 0) as u16,
    }
}

/// The persistent handles of a configuration from a place on, as bits.
#[tactic(auto, using(crate::proofs::Making::mask_more))]
fn persistent_mask(handles: &[Class], place: u32) -> u32
    requires { place + length handles.now ≤ 16 }
    ensures value { result ≡ sum_by (λ (x : ℕ × Kind). if is_persistent x.1 then 2 ^ x.0 else 0) (enumerate_from place handles.now) }
    ensures bound { result + 2 ^ place ≤ 2 ^ (place + length handles.now) }
    ensures small { result < 2 ^ 16 }
{
    match handles.split_first() {
        Some((class, rest)) => bit_of(*class, place) + persistent_mask(rest, place + 1),
        None => 0,
    }
}

fn bit_of(class: Class, place: u32) -> u32
    requires { place < 16 }
    ensures value { result ≡ (if is_persistent class then 2 ^ place else 0) }
    ensures bound { result ≤ 2 ^ place }
    ensures small { result ≤ 65536 }
{
    match class {
        Class::Initial => 0,
        Class::Persistent => 1 << place,
    }
}

/// The places of the namespaces that a drive is made with, sixteen.
fn configured_spaces(
    alloc: Global,
    namespaces: &[NamespaceConfig],
) -> Result<Vec<Option<Space>>, AllocError>
    requires { All HasFewHandles namespaces.now }
    ensures { IfOk result (λ rows. ArePlaced namespaces.now 16 rows.items) }
{
    let mut rows = Vec::new(alloc);
    for place in 0..16u8 {
        rows.push(configured_place(namespaces, place))?;
    }
    Ok(rows)
}

/// The place with a number.
fn configured_place(namespaces: &[NamespaceConfig], place: u8) -> Option<Space>
    requires { All HasFewHandles namespaces.now }
    ensures value { option_map namespace_of result ≡ option_map made_as (slice_get namespaces.now place) }
    ensures fit { IsSpaceRow result }
{
    let index = usize::from(place);
    if index < namespaces.len() {
        Some(configured_space(&namespaces[index]))
    } else {
        None
    }
}

/// A namespace that a drive is made with.
fn configured_space(namespace: &NamespaceConfig) -> Space
    requires { HasFewHandles namespace.now }
    ensures value { namespace_of result ≡ made_as namespace.now }
    ensures fit { IsRoomySpace result }
{
    Space {
        size: namespace.blocks,
        birth: 0,
        given: is_given(&namespace.handles),
        handles: configured_handles(&namespace.handles),
    }
}

/// Whether a list of handles was given; an empty one counts as none.
fn is_given(handles: &Option<HandleList>) -> bool
    ensures { result ≡ nat_lt 0 (length (unwrap_or handles.now [])) }
{
    match handles {
        Some(list) => !list.as_slice().is_empty(),
        None => false,
    }
}

/// The handles that were listed, or handle 0 where none is.
fn configured_handles(handles: &Option<HandleList>) -> NamespaceHandles
    requires few { ForSome handles.now (λ list. length list ≤ 16) }
    requires known { ForSome handles.now (λ list. All (λ ruh. ruh < 16) list) }
    ensures value { result ≡ chosen_handles (unwrap_or handles.now []) }
    ensures few { length result ≤ 16 }
{
    match handles {
        Some(list) => {
            if list.as_slice().is_empty() {
                NamespaceHandles::of_slice(&[0])
            } else {
                listed_handles(list.as_slice())
            }
        }
        None => NamespaceHandles::of_slice(&[0]),
    }
}

fn listed_handles(list: &[u16]) -> NamespaceHandles
    requires few { length list.now ≤ 16 }
    requires known { All (λ ruh. ruh < 16) list.now }
    ensures { result ≡ list.now }
{
    let mut handles = NamespaceHandles::new();
    for place in 0..list.len() {
        handles.push(list[place] as u8);
    }
    handles
}
