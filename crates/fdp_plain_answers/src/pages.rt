ghost use Rattle.fdp_base.specs.EventCodes.{kind_code};
ghost use Rattle.fdp_base.specs.Numbers.{numbers_below};
ghost use Rattle.fdp_layouts.specs.Usage.{usage_code};
ghost use Rattle.fdp_rules.specs.LogPages.{event_bytes, events_log, statistics_log, usage_of, usage_log, lists_handle, gives_handle, zeros};
ghost use Rattle.fdp_tables.specs.State.{plain_of, point_kept};
ghost use Rattle.std.specs.List.{list_any};
ghost use Rattle.std.specs.Prelude.{◌≡◌, ◌+◌, ◌*◌, ◌<◌, ◌≤◌, ◌++◌, ◌∷◌, length, flat_map, OnOk, IfOk};

use fdp_base::{Event, EventKind};
use fdp_commands::NAMESPACE_IDS;
use fdp_layouts::Usage;
use fdp_logs::{event_frame, events_head, sums_frame, usage_frame, usage_head};
use fdp_tables::Standing;
use std::alloc::{AllocError, Global};

/// Log 22h: bytes that hosts wrote, bytes that were programmed, bytes that were erased.
pub(crate) fn statistics_log(kept: &Standing, alloc: Global) -> Result<Vec<u8>, AllocError>
    ensures { IfOk result (λ log. log.items ≡ statistics_log kept.now.config (point_kept kept.now).totals) }
{
    let tables = kept.tables();
    let block = u128::from(tables.config.block);
    let unit = block * u128::from(tables.config.unit_pages);
    let frame = sums_frame(
        block * tables.host_blocks,
        block * tables.media_blocks,
        unit * tables.erases,
    );
    let mut log = Vec::new(alloc);
    log.extend_from_slice(&frame)?;
    Ok(log)
}

/// Whether a namespace lists a handle.
fn lists_handle(kept: &Standing, ruh: u16, nsid: u32) -> bool
    ensures { result ≡ lists_handle (plain_of kept.now) ruh nsid }
{
    kept.handles_of(nsid).iter().any(|listed| *listed == ruh)
}

/// Whether a namespace lists a handle, and the host gave that list.
fn gives_handle(kept: &Standing, ruh: u16, nsid: u32) -> bool
    ensures { result ≡ gives_handle (plain_of kept.now) ruh nsid }
{
    match kept.space(nsid) {
        Some(space) => space.given && lists_handle(kept, ruh, nsid),
        None => false,
    }
}

fn is_given(kept: &Standing, ruh: u16, ids: &[u32]) -> bool
    ensures { result ≡ list_any (gives_handle (plain_of kept.now) ruh) ids.now }
{
    ids.iter().any(|nsid| gives_handle(kept, ruh, *nsid))
}

fn is_listed(kept: &Standing, ruh: u16, ids: &[u32]) -> bool
    ensures { result ≡ list_any (lists_handle (plain_of kept.now) ruh) ids.now }
{
    ids.iter().any(|nsid| lists_handle(kept, ruh, *nsid))
}

/// Who specified a handle for a namespace that uses it.
pub(crate) fn usage_of(kept: &Standing, ruh: u16) -> Usage
    ensures { usage_code result ≡ usage_of (plain_of kept.now) ruh }
{
    if is_given(kept, ruh, &NAMESPACE_IDS) {
        Usage::HostSpecified
    } else if is_listed(kept, ruh, &NAMESPACE_IDS) {
        Usage::ControllerSpecified
    } else {
        Usage::Unused
    }
}

/// Log 21h: how many handles; the usage of each.
pub(crate) fn usage_log(kept: &Standing, alloc: Global) -> Result<Vec<u8>, AllocError>
    ensures { IfOk result (λ log. log.items ≡ usage_log kept.now.config (plain_of kept.now)) }
{
    let handles = u16::from(kept.handles_in_force());
    let mut log = Vec::new(alloc);
    log.extend_from_slice(&usage_head(handles))?;
    push_usages(kept, &mut log, handles)?;
    Ok(log)
}

fn push_usages(kept: &Standing, log: &mut Vec<u8>, handles: u16) -> Result<(), AllocError>
    ensures { OnOk result (log.new.items ≡ log.old.items ++ flat_map (λ ruh. usage_of (plain_of kept.now) ruh ∷ zeros 7) (numbers_below handles)) }
{
    for ruh in 0..handles {
        log.extend_from_slice(&usage_frame(usage_of(kept, ruh)))?;
    }
    Ok(())
}

/// Log 23h: how many events; each, oldest first.
pub(crate) fn events_log(alloc: Global, events: &[Event]) -> Result<Vec<u8>, AllocError>
    requires { length events.now ≤ 32 }
    ensures { IfOk result (λ log. log.items ≡ events_log events.now) }
{
    let mut log = Vec::new(alloc);
    log.extend_from_slice(&events_head(events.len() as u32))?;
    push_events(&mut log, events)?;
    Ok(log)
}

fn push_events(log: &mut Vec<u8>, events: &[Event]) -> Result<(), AllocError>
    ensures { OnOk result (log.new.items ≡ log.old.items ++ flat_map event_bytes events.now) }
{
    for event in events {
        log.extend_from_slice(&event_frame(event))?;
    }
    Ok(())
}

/// The code of a kind of event.
pub(crate) fn code_of(kind: EventKind) -> u8
    ensures { result ≡ kind_code kind }
{
    kind as u8
}
