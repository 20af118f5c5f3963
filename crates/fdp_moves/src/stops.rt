//! Runs that are stopped in calls of the flash, and opened again.
ghost use Rattle.fdp_base.specs.Config.{IsValidConfig};

use crate::drive::{Drive, Opened};
use crate::heard::Heard;
use crate::images::{Bounds, Images, open_cells};
use crate::judged::first_of;
use crate::numbers::Range;
use crate::played::{Left, Played, begin, push_all};
use fdp_base::{DriveConfig, Entry, Sequence, Status};
use fdp_flash::{Cell, Flash, FlashMem, Outcome, Plan};
use std::alloc::{AllocError, Global};

/// The most calls of a run that is stopped, and the most of an opening.
const MOST_CALLS: u32 = 4096;

/// A plan that lists all calls, of which these fail.
pub fn listing(failing: Vec<(u64, Outcome)>) -> Plan {
    Plan {
        calls: MOST_CALLS,
        failing: Sequence::from_vec(failing),
        stop: None,
    }
}

/// What is left of a drive on which rows were played, if one is open in the end.
pub fn left_by<D: Drive>(
    alloc: Global,
    config: &DriveConfig,
    plan: Plan,
    rows: &[String],
) -> Result<Option<Left>, AllocError>
    requires { IsValidConfig config.now }
{
    let mut played: Played<D> = begin(alloc, config, plan)?;
    let mut heard = Heard::new(alloc);
    for row in rows {
        played.play(alloc, config, row, &mut heard)?;
    }
    played.finish()
}

/// Stops a run in each of these calls with each outcome, opens what is left, and tells what came of it, a line for each outcome. With `twice`
/// each of these openings is stopped in each of its calls, and what is left is opened.
pub fn stops_text<D: Drive>(
    alloc: Global,
    config: &DriveConfig,
    left: &Left,
    calls: Range,
    twice: bool,
) -> Result<String, AllocError>
    requires { IsValidConfig config.now }
{
    let mut text = String::new(alloc);
    for outcome in [Outcome::Blank, Outcome::Whole, Outcome::Torn] {
        let images: Images = stop_all::<D>(alloc, config, left, calls, outcome, twice)?;
        if !text.is_empty() {
            text.push_str("\n  ")?;
        }
        let line = images.text(alloc, outcome)?;
        text.push_str(&line)?;
    }
    Ok(text)
}

/// Stops a run in each of these calls. An image like the one before is opened once.
fn stop_all<D: Drive>(
    alloc: Global,
    config: &DriveConfig,
    left: &Left,
    calls: Range,
    outcome: Outcome,
    twice: bool,
) -> Result<Images, AllocError>
    requires { IsValidConfig config.now }
{
    let mut images = Images::none();
    let mut last = Vec::new(alloc);
    for call in calls.first..calls.end {
        if calls.has(call) && left.flash.has_recorded(call) {
            let cells = left.flash.image_at(alloc, call, outcome)?;
            if cells != last {
                stop::<D>(alloc, config, left, call, &cells, twice, &mut images)?;
                last = cells;
            }
        }
    }
    Ok(images)
}

/// Opens what a stop in a call of a run left; once, or in each call of that opening once more.
fn stop<D: Drive>(
    alloc: Global,
    config: &DriveConfig,
    left: &Left,
    call: u64,
    cells: &[Cell],
    twice: bool,
    images: &mut Images,
) -> Result<(), AllocError>
    requires { IsValidConfig config.now }
{
    let bounds = Bounds {
        least: had_at(&left.entries, call),
        most: left.entries.len(),
    };
    let stood = images.note::<D>(alloc, config, cells, &left.entries, bounds)?;
    if twice {
        stop_opening::<D>(alloc, config, cells, &left.entries, stood, images)?;
    }
    Ok(())
}

/// How many entries a stop in this call has to leave: up to the last change that was completed with success before it.
fn had_at(entries: &[Entry], call: u64) -> usize {
    let mut had = 0;
    let mut count = 0usize;
    for entry in entries {
        count = count.saturating_add(1);
        if let Some(host) = entry.as_host() {
            if host.moment < call && host.reply.applied && host.reply.status == Status::SUCCESS {
                had = count;
            }
        }
    }
    had
}

/// Stops the opening of an image in each of its calls, and opens what is left: it stands for as many entries as before, or has that of the
/// opening too.
fn stop_opening<D: Drive>(
    alloc: Global,
    config: &DriveConfig,
    cells: &[Cell],
    history: &[Entry],
    stood: usize,
    images: &mut Images,
) -> Result<(), AllocError>
    requires { IsValidConfig config.now }
{
    let opened: Opened<D> = open_cells(alloc, config, cells, listing(Vec::new(alloc)))?;
    let Opened::Drive(drive) = opened else {
        return Ok(());
    };
    let (flash, last) = drive.finish();
    let mut again = first_of(alloc, history, stood)?;
    push_all(&mut again, last)?;
    for outcome in [Outcome::Blank, Outcome::Whole, Outcome::Torn] {
        stop_calls::<D>(alloc, config, &flash, outcome, &again, stood, images)?;
    }
    Ok(())
}

/// Stops an opening in each of its calls.
fn stop_calls<D: Drive>(
    alloc: Global,
    config: &DriveConfig,
    flash: &FlashMem,
    outcome: Outcome,
    history: &[Entry],
    stood: usize,
    images: &mut Images,
) -> Result<(), AllocError>
    requires { IsValidConfig config.now }
{
    let bounds = Bounds {
        least: stood,
        most: history.len(),
    };
    let mut last = Vec::new(alloc);
    for call in 1..=flash.moment() {
        if flash.has_recorded(call) {
            let cells = flash.image_at(alloc, call, outcome)?;
            if cells != last {
                let _stood = images.note::<D>(alloc, config, &cells, history, bounds)?;
                last = cells;
            }
        }
    }
    Ok(())
}
