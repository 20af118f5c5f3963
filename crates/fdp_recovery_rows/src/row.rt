ghost use Rattle.std.specs.Prelude.{IfOk};
ghost use Rattle.fdp_base.specs.Config.{IsInRange};

use crate::drive::{SMALL, small_config};
use crate::edit::{Asked, make_edit, words_of};
use crate::image::first_image;
use fdp_base::{DriveConfig, Sequence};
use fdp_flash::{Cell, Flash, FlashMem, Outcome, Plan};
use fdp_recovery::{OpenFault, Opened, open_state};
use fdp_snapshot::State;
use std::alloc::{AllocError, Global};

/// How the opening of the image of a row ends.
pub fn answer_row(alloc: Global, row: &str) -> Result<String, AllocError> {
    let mut cells = first_image(alloc)?;
    let mut asked = Asked {
        units: 8,
        failing: None,
    };
    for part in row.split(',') {
        make_edit(alloc, &mut cells, &mut asked, &words_of(part))?;
    }
    opened(alloc, cells, asked)
}

/// How an image opens.
fn opened(alloc: Global, cells: Vec<Cell>, asked: Asked) -> Result<String, AllocError> {
    if !FlashMem::are_cells(SMALL, cells.as_slice()) {
        return String::from_str(alloc, "not cells");
    }
    let config = config_with(alloc, asked.units)?;
    let plan = failing(alloc, asked.failing)?;
    let mut flash = FlashMem::of_cells(alloc, SMALL, cells, plan)?;
    let answer = open_state(alloc, &mut flash, &config);
    let calls = flash.moment();
    match answer {
        Ok(opened) => found(alloc, opened, calls),
        Err(fault) => fault_text(alloc, fault, calls),
    }
}

/// The configuration of the small drive, with 9 units where so many are asked for.
fn config_with(alloc: Global, units: u32) -> Result<DriveConfig, AllocError>
    ensures { IfOk result IsInRange }
{
    if units == 9 {
        small_config(alloc, 9)
    } else {
        small_config(alloc, 8)
    }
}

/// A plan in which this call fails.
fn failing(alloc: Global, call: Option<u64>) -> Result<Plan, AllocError> {
    match call {
        Some(call) => Ok(Plan {
            calls: 0,
            failing: Sequence::from_vec(vec![in alloc; (call, Outcome::Blank)]?),
            stop: None,
        }),
        None => Ok(Plan::empty(alloc)),
    }
}

fn found(alloc: Global, opened: Opened, calls: u64) -> Result<String, AllocError> {
    match opened {
        Opened::Fresh => format!(in alloc; "fresh, {calls} calls"),
        Opened::Found { state, area, epoch } => {
            let position = state.summary.totals.position;
            let first = page_text(alloc, &state, 0)?;
            let second = page_text(alloc, &state, 1)?;
            format!(in alloc;
                "area {area}, epoch {epoch}, position {position}, pages {first} {second}, {calls} calls"
            )
        }
    }
}

/// The number of the page of a block of the first namespace, or a dash.
fn page_text(alloc: Global, state: &State, lba: usize) -> Result<String, AllocError> {
    match state.pages.as_slice().first() {
        Some(list) => match list.as_slice().get(lba) {
            Some(Some(page)) => format!(in alloc; "{page}"),
            Some(None) | None => String::from_str(alloc, "-"),
        },
        None => String::from_str(alloc, "-"),
    }
}

fn fault_text(alloc: Global, fault: OpenFault, calls: u64) -> Result<String, AllocError> {
    match fault {
        OpenFault::OtherConfig { key } => {
            let word = key.word();
            format!(in alloc; "other {word}, {calls} calls")
        }
        OpenFault::NotADrive => format!(in alloc; "not a drive, {calls} calls"),
        OpenFault::BadImage { page } => format!(in alloc; "page {page} is bad, {calls} calls"),
        OpenFault::FlashFault { moment } => format!(in alloc;
            "call {moment} failed, {calls} calls"
        ),
        OpenFault::Spent => format!(in alloc; "spent, {calls} calls"),
        OpenFault::NoMemory => String::from_str(alloc, "no memory"),
    }
}
