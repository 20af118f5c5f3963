//! What a drive tells of itself behind the completions of a run.

ghost use Rattle.std.specs.Prelude.{◌≡◌, ◌≤◌, IfOk, IsTrue, None, Some, [], if◌then◌else◌, length, map, nat_lt, slice_get, slice_index_or};
ghost use Rattle.fdp_base.specs.declared.config.DriveConfig.{DriveConfig};
ghost use Rattle.fdp_base.specs.Config.{IsValidConfig};
ghost use Rattle.fdp_base.specs.Numbers.{numbers_below};
ghost use Rattle.fdp_printing.specs.Closing.{IsClosing, IsPlacementAt, TellsPlacement, events_of};
ghost use Rattle.fdp_rules.specs.LogPages.{usage_of};
ghost use Rattle.fdp_rules.specs.Point.{Point};
ghost use Rattle.fdp_rules.specs.Room.{handles_in_force};

use crate::closing::{Closing, Placement};
use fdp_base::{DriveConfig, Event, Totals};
use std::alloc::{AllocError, Global};

/// The latest events of a class that are kept.
const MOST_EVENTS: u32 = 32;

/// A drive that tells what a run prints of it behind the completions.
pub trait Telling {
    /// The configuration that the drive was made with.
    ghost config: { Self → DriveConfig };

    /// What stands after the history of the drive.
    ghost point: { Self → Point };

    fn config(&self) -> &DriveConfig
        ensures config { result.now ≡ config self.now }
        ensures valid { IsValidConfig result.now };

    /// The sums.
    fn totals(&self) -> Totals
        ensures { result ≡ (point self.now).totals };

    /// Whether placement is enabled, and the index of the configuration in force.
    fn fdp(&self) -> (bool, u8)
        ensures enabled { result.0 ≡ (point self.now).state.enabled }
        ensures index { result.1 ≡ (point self.now).state.index };

    /// Who specified a handle: 0 nobody, since no namespace uses it; 1 a host; 2 the controller. None exactly where there is no handle of this
    /// number.
    fn usage(&self, ruh: u8) -> Option<u8>
        ensures { result ≡ if nat_lt ruh (handles_in_force (config self.now) (point self.now).state) then Some (usage_of (point self.now).state ruh) else None };

    /// An event that is kept, of hosts or of the controller, the oldest with index 0. None exactly behind the last, and of each class there
    /// are few.
    fn event(&self, host: bool, index: u32) -> Option<Event>
        ensures event { result ≡ slice_get (events_of host (point self.now)) index }
        ensures few { length (events_of host (point self.now)) ≤ 32 };
}

/// What a drive tells of itself behind the completions: its sums and, while placement is enabled, the usage of its handles and its events.
pub fn closing_of<T: Telling>(alloc: Global, drive: &T) -> Result<Closing, AllocError>
    ensures { IfOk result (λ closing. IsClosing (T.config drive.now) (T.point drive.now) closing) }
{
    let placement = placement_in(alloc, drive)?;
    Ok(Closing {
        totals: drive.totals(),
        placement,
    })
}

fn placement_in<T: Telling>(alloc: Global, drive: &T) -> Result<Option<Placement>, AllocError>
    ensures { IfOk result (λ placement. TellsPlacement (T.config drive.now) (T.point drive.now) placement) }
{
    let (enabled, index) = drive.fdp();
    if !enabled {
        return Ok(None);
    }
    let placement = placement_of(alloc, drive, index)?;
    Ok(Some(placement))
}

fn placement_of<T: Telling>(alloc: Global, drive: &T, index: u8) -> Result<Placement, AllocError>
    requires enabled { IsTrue (T.point drive.now).state.enabled }
    requires index { index ≡ (T.point drive.now).state.index }
    ensures { IfOk result (λ placement. IsPlacementAt (T.config drive.now) (T.point drive.now) placement) }
{
    Ok(Placement {
        usages: usages_of(alloc, drive, index)?,
        host_events: events_of(alloc, drive, true)?,
        controller_events: events_of(alloc, drive, false)?,
    })
}

/// The usage of each handle of the configuration in force, which has this index.
fn usages_of<T: Telling>(alloc: Global, drive: &T, index: u8) -> Result<Vec<u8>, AllocError>
    requires enabled { IsTrue (T.point drive.now).state.enabled }
    requires index { index ≡ (T.point drive.now).state.index }
    ensures { IfOk result (λ usages. usages.items ≡ map (usage_of (T.point drive.now).state) (numbers_below (handles_in_force (T.config drive.now) (T.point drive.now).state))) }
{
    let handles = handles_of(drive.config(), index);
    let mut usages = Vec::new(alloc);
    for ruh in 0..handles {
        let Some(usage) = drive.usage(ruh) else {
            return Ok(usages);
        };
        usages.push(usage)?;
    }
    Ok(usages)
}

/// How many handles the configuration of this index has.
fn handles_of(config: &DriveConfig, index: u8) -> u8
    requires { IsValidConfig config.now }
    ensures { result ≡ length (slice_index_or config.now.fdp index []) }
{
    match config.fdp.as_slice().get(usize::from(index)) {
        Some(classes) => classes.as_slice().len() as u8,
        None => 0,
    }
}

/// The events that are kept of a class, oldest first.
fn events_of<T: Telling>(alloc: Global, drive: &T, host: bool) -> Result<Vec<Event>, AllocError>
    ensures { IfOk result (λ events. events.items ≡ events_of host (T.point drive.now)) }
{
    let mut events = Vec::new(alloc);
    for index in 0..MOST_EVENTS {
        let Some(event) = drive.event(host, index) else {
            return Ok(events);
        };
        events.push(event)?;
    }
    Ok(events)
}
