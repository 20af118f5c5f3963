//! Images that stops leave, opened.
ghost use Rattle.fdp_base.specs.Config.{IsValidConfig};

use crate::contents::{contents_of, reads_as};
use crate::drive::{Drive, Opened};
use crate::played::count_before;
use crate::texts::outcome_text;
use fdp_base::{DriveConfig, Entry};
use fdp_flash::{Cell, FlashMem, Outcome, Plan};
use std::alloc::{AllocError, Global};

/// What came of images.
#[derive(Clone, Copy)]
pub struct Images {
    images: u64,
    /// Those that open.
    opened: u64,
    /// Those that stand for a beginning of the history which has each change that was completed with success before the stop.
    kept: u64,
    /// Those of which each block of each namespace reads as that beginning says.
    right: u64,
    /// The entries of these beginnings, all together.
    entries: u64,
}

/// How many entries an image may stand for.
#[derive(Clone, Copy)]
pub struct Bounds {
    pub least: usize,
    pub most: usize,
}

/// The drive that these cells hold, or why there is none.
pub fn open_cells<D: Drive>(
    alloc: Global,
    config: &DriveConfig,
    cells: &[Cell],
    plan: Plan,
) -> Result<Opened<D>, AllocError>
    requires { IsValidConfig config.now }
{
    let mut copies = Vec::new(alloc);
    for cell in cells {
        copies.push(cell.copied()?)?;
    }
    open_flash(alloc, config, copies, plan)
}

fn open_flash<D: Drive>(
    alloc: Global,
    config: &DriveConfig,
    cells: Vec<Cell>,
    plan: Plan,
) -> Result<Opened<D>, AllocError>
    requires { IsValidConfig config.now }
{
    let geometry = config.geometry();
    if !FlashMem::are_cells(geometry, &cells) {
        return Ok(Opened::Fault(String::from_str(alloc, "not cells")?));
    }
    let flash = FlashMem::of_cells(alloc, geometry, cells, plan)?;
    D::open(alloc, flash, config)
}

impl Images {
    pub fn none() -> Images {
        Images {
            images: 0,
            opened: 0,
            kept: 0,
            right: 0,
            entries: 0,
        }
    }

    /// Opens an image, and notes whether it stands for a beginning of a history with as many entries as the bounds say; how many it has is
    /// answered, 0 where it does not open.
    pub fn note<D: Drive>(
        &mut self,
        alloc: Global,
        config: &DriveConfig,
        cells: &[Cell],
        history: &[Entry],
        bounds: Bounds,
    ) -> Result<usize, AllocError>
        requires { IsValidConfig config.now }
    {
        count_if(&mut self.images, true);
        let opened: Opened<D> = open_cells(alloc, config, cells, Plan::empty(alloc))?;
        let Opened::Drive(mut drive) = opened else {
            return Ok(0);
        };
        let count = count_before(&drive);
        let right = is_right(alloc, config, &mut drive, history, count)?;
        self.note_opened(count, bounds, right);
        Ok(count)
    }

    fn note_opened(&mut self, count: usize, bounds: Bounds, right: bool) {
        count_if(&mut self.opened, true);
        count_if(
            &mut self.kept,
            bounds.least <= count && count <= bounds.most,
        );
        count_if(&mut self.right, right);
        self.entries = self.entries.saturating_add(count as u64);
    }

    pub fn text(&self, alloc: Global, outcome: Outcome) -> Result<String, AllocError> {
        format!(in alloc;
            "{}: {} images, {} opened, {} kept, {} right; {} entries",
            outcome_text(outcome),
            self.images,
            self.opened,
            self.kept,
            self.right,
            self.entries
        )
    }
}

/// Whether a drive that was opened on an image reads as the first so many entries say, if there are so many.
pub fn is_right<D: Drive>(
    alloc: Global,
    config: &DriveConfig,
    drive: &mut D,
    history: &[Entry],
    count: usize,
) -> Result<bool, AllocError> {
    let contents = contents_of(alloc, config, history, count)?;
    Ok(count <= history.len() && reads_as(alloc, drive, &contents)?)
}

pub fn count_if(count: &mut u64, holds: bool) {
    if holds {
        *count = count.saturating_add(1);
    }
}
