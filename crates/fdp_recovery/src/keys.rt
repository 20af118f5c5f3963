//! The values that a flash is made for.

ghost use Rattle.std.specs.Prelude.{◌≡◌, ℕ, ◌==◌, ◌&&◌, ◌∷◌, [], ◌+◌, ◌*◌, ◌^◌, ◌≤◌, ◌<◌, All, None, Some, if◌then◌else◌, length, sum_by};
ghost use Rattle.std.specs.List.{enumerate_from};
ghost use Rattle.fdp_base.specs.Config.{IsInRange};
ghost use Rattle.fdp_base.specs.declared.config.Class.{Class as Kind};
ghost use Rattle.fdp_image.specs.CheckpointFields.{are_rows, is_persistent, is_row};
ghost use Rattle.fdp_recovery.specs.Keys.{first_other, other_key};

use fdp_base::{Class, Classes, DriveConfig, Geometry};
use fdp_config::Key;
use fdp_snapshot::{HandleRow, Keys};

/// The first key that the flash differs in.
pub fn other_cut(config: &DriveConfig, geometry: &Geometry) -> Option<Key>
    ensures { result ≡ other_key config.now geometry.now None }
{
    if geometry.block != config.block {
        Some(Key::Block)
    } else if geometry.unit_pages != config.unit_pages {
        Some(Key::UnitPages)
    } else if geometry.groups != config.groups {
        Some(Key::Groups)
    } else if geometry.units != config.units {
        Some(Key::Units)
    } else if geometry.area_units != config.area_units {
        Some(Key::AreaUnits)
    } else {
        None
    }
}

/// The first key that the flash differs in, or the checkpoint that it holds.
#[tactic(auto, unfolding(fdp_image::specs::CheckpointFields::same_keys))]
pub fn other_key(config: &DriveConfig, geometry: &Geometry, keys: &Keys) -> Option<Key>
    requires { IsInRange config.now }
    ensures { result ≡ other_key config.now geometry.now (Some keys.now) }
{
    if !is_same(geometry.block, keys.block, config.block) {
        Some(Key::Block)
    } else if !is_same(geometry.unit_pages, keys.unit_pages, config.unit_pages) {
        Some(Key::UnitPages)
    } else if !is_same_number(geometry.groups, keys.groups, config.groups) {
        Some(Key::Groups)
    } else if !is_same(geometry.units, keys.units, config.units) {
        Some(Key::Units)
    } else if !is_same(geometry.area_units, keys.area_units, config.area_units) {
        Some(Key::AreaUnits)
    } else {
        other_limit(config, keys)
    }
}

/// The first key that the checkpoint differs in, of those that a flash does not have.
fn other_limit(config: &DriveConfig, keys: &Keys) -> Option<Key>
    requires { IsInRange config.now }
    ensures { result ≡ first_other ((Key.Queues, keys.now.queues == config.now.queues) ∷ (Key.BlocksPerCommand, keys.now.blocks_per_command == config.now.blocks_per_command) ∷ (Key.Fdp, are_rows config.now.fdp keys.now.configurations) ∷ []) }
{
    if keys.queues != u32::from(config.queues) {
        Some(Key::Queues)
    } else if keys.blocks_per_command != u32::from(config.blocks_per_command) {
        Some(Key::BlocksPerCommand)
    } else if !are_rows(config.fdp.as_slice(), keys.configurations.as_slice()) {
        Some(Key::Fdp)
    } else {
        None
    }
}

/// Whether the flash and the checkpoint both have a value.
fn is_same(cut: u32, named: u32, asked: u32) -> bool
    ensures { result ≡ ((cut == asked) && (named == asked)) }
{
    cut == asked && named == asked
}

/// The same of a number of groups.
fn is_same_number(cut: u16, named: u32, asked: u16) -> bool
    ensures { result ≡ ((cut == asked) && (named == asked)) }
{
    cut == asked && named == u32::from(asked)
}

/// Whether each configuration is as its row.
fn are_rows(configurations: &[Classes], rows: &[HandleRow]) -> bool
    requires { All (λ classes. length classes ≤ 16) configurations.now }
    ensures { result ≡ are_rows configurations.now rows.now }
{
    match configurations.split_first() {
        Some((handles, configurations)) => match rows.split_first() {
            Some((row, rows)) => is_row(handles.as_slice(), row) && are_rows(configurations, rows),
            None => false,
        },
        None => rows.is_empty(),
    }
}

/// Whether a configuration has so many handles, of which these are persistent.
fn is_row(handles: &[Class], row: &HandleRow) -> bool
    requires { length handles.now ≤ 16 }
    ensures { result ≡ is_row handles.now row.now }
{
    usize::from(row.handles) == handles.len()
        && u32::from(row.persistent) == persistent_mask(handles, 0)
}

/// The persistent handles of a configuration from a place on, as bits.
#[tactic(auto, using(crate::proofs::Bounds::mask_more))]
fn persistent_mask(handles: &[Class], place: u32) -> u32
    requires { place + length handles.now ≤ 16 }
    ensures value { result ≡ sum_by (λ (x : ℕ × Kind). if is_persistent x.1 then 2 ^ x.0 else 0) (enumerate_from place handles.now) }
    ensures bound { result ≤ 65536 * length handles.now }
{
    match handles.split_first() {
        Some((class, rest)) => bit_of(*class, place) + persistent_mask(rest, place + 1),
        None => 0,
    }
}

fn bit_of(class: Class, place: u32) -> u32
    requires { place < 16 }
    ensures value { result ≡ (if is_persistent class then 2 ^ place else 0) }
    ensures bound { result ≤ 65536 }
{
    match class {
        Class::Initial => 0,
        Class::Persistent => 1 << place,
    }
}
