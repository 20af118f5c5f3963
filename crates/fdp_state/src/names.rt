//! Whether a change names only what there is.

ghost use Rattle.std.specs.Prelude.{◌≡◌, ◌<◌, ◌≤◌, IfOk, length};
ghost use Rattle.fdp_base.specs.Config.{IsInRange};
ghost use Rattle.fdp_base.specs.Placement.{full_budget};
ghost use Rattle.fdp_image.specs.Fits.{are_unit_pages, handles_in, has_room, is_free_id, may_create, may_have, names_what_is};
ghost use Rattle.fdp_state.specs.Parts.{reading_of};

use crate::fits::{
    are_data_pages, blocks_of_all, has_any, has_namespace, is_handle_list, lie_within, lies_within,
};
use crate::moves::are_of_data_unit;
use crate::parts::Parts;
use fdp_base::DriveConfig;
use fdp_records::{Change, UnitPages};
use std::alloc::{AllocError, Global};

/// Whether a change names only what there is.
#[tactic(auto, unfolding(fdp_image::specs::Fits::names_what_is))]
pub fn names_what_is(
    alloc: Global,
    config: &DriveConfig,
    parts: &Parts,
    change: &Change,
) -> Result<bool, AllocError>
    requires config { IsInRange config.now }
    requires index { parts.now.outline.index < length config.now.fdp }
    ensures { IfOk result (λ b. b ≡ names_what_is config.now (reading_of parts.now) change.now) }
{
    match change {
        Change::Write {
            nsid,
            slba,
            pid: _,
            pid_invalid: _,
            pages,
        } => {
            let pages = pages.as_slice();
            Ok(
                lies_within(parts, *nsid, *slba, pages.len() as u64)
                    && are_data_pages(config, pages),
            )
        }
        Change::Clear { nsid, ranges } => {
            Ok(has_namespace(parts, *nsid) && lie_within(parts, *nsid, ranges.as_slice()))
        }
        Change::Update {
            nsid,
            closed: _,
            pids: _,
        } => Ok(has_namespace(parts, *nsid)),
        Change::Create {
            nsid,
            size,
            given: _,
            handles,
        } => Ok(may_create(config, parts, *nsid, *size, handles.as_slice())),
        Change::Delete { nsid } => Ok(has_namespace(parts, *nsid)),
        Change::SetFdp {
            enabled: _,
            index,
            generation: _,
        } => Ok(!has_any(parts) && usize::from(*index) < config.fdp.as_slice().len()),
        Change::SetEvents { ruh, on: _, mask } => {
            Ok(*ruh < handles_in(config, parts) && *mask < 64)
        }
        Change::Moved {
            victim,
            first,
            second,
            handles: _,
        } => are_unit_pages(alloc, config, victim, first, second),
        Change::Shut { rg, ruh } => Ok(*rg < config.groups && *ruh < handles_in(config, parts)),
    }
}

/// How many handles are in force.
#[tactic(auto, unfolding(fdp_image::specs::Checkpoint::reading_of_state))]
fn handles_in(config: &DriveConfig, parts: &Parts) -> u8
    requires config { IsInRange config.now }
    requires index { parts.now.outline.index < length config.now.fdp }
    ensures value { result ≡ handles_in config.now (reading_of parts.now) }
    ensures bound { result ≤ 16 }
{
    let summary = parts.outline.summary();
    config.handle_count(summary.enabled, summary.index)
}

/// Whether a namespace may be created.
fn may_create(config: &DriveConfig, parts: &Parts, nsid: u32, size: u64, handles: &[u8]) -> bool
    requires config { IsInRange config.now }
    requires index { parts.now.outline.index < length config.now.fdp }
    ensures { result ≡ may_create config.now (reading_of parts.now) nsid size handles.now }
{
    is_free_id(parts, nsid) && may_have(config, parts, size, handles)
}

fn is_free_id(parts: &Parts, nsid: u32) -> bool
    ensures { result ≡ is_free_id (reading_of parts.now) nsid }
{
    1 <= nsid && nsid <= 16 && !has_namespace(parts, nsid)
}

fn may_have(config: &DriveConfig, parts: &Parts, size: u64, handles: &[u8]) -> bool
    requires config { IsInRange config.now }
    requires index { parts.now.outline.index < length config.now.fdp }
    ensures { result ≡ may_have config.now (reading_of parts.now) size handles.now }
{
    0 < size && is_handle_list(handles_in(config, parts), handles) && has_room(config, parts, size)
}

/// Whether there is room for so many blocks more.
fn has_room(config: &DriveConfig, parts: &Parts, size: u64) -> bool
    requires config { IsInRange config.now }
    requires index { parts.now.outline.index < length config.now.fdp }
    ensures { result ≡ has_room config.now (reading_of parts.now) size }
{
    let room = full_budget(config, handles_in(config, parts));
    blocks_of_all(parts) + u128::from(size) <= u128::from(room)
}

/// How many blocks all groups may store while nothing is lost.
pub fn full_budget(config: &DriveConfig, handles: u8) -> u32
    requires config { IsInRange config.now }
    requires handles { handles ≤ 16 }
    ensures { result ≡ full_budget config.now handles }
{
    u32::from(config.groups) * config.budget(handles, 0)
}

/// Whether the three units of a move are data units, with pages of theirs.
fn are_unit_pages(
    alloc: Global,
    config: &DriveConfig,
    victim: &UnitPages,
    first: &UnitPages,
    second: &Option<UnitPages>,
) -> Result<bool, AllocError>
    requires { IsInRange config.now }
    ensures { IfOk result (λ b. b ≡ are_unit_pages config.now victim.now first.now second.now) }
{
    if !are_of_data_unit(alloc, config, victim)? {
        return Ok(false);
    }
    if !are_of_data_unit(alloc, config, first)? {
        return Ok(false);
    }
    match second {
        Some(second) => are_of_data_unit(alloc, config, second),
        None => Ok(true),
    }
}
