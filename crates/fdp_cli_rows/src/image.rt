ghost use Rattle.fdp_base.specs.Geometry.{IsValidGeometry};

use fdp_base::{Geometry, Sequence};
use fdp_flash::{Cell, Flash, FlashMem, Outcome, Plan};
use fdp_io::{Bench, BenchMem};
use std::alloc::{AllocError, Global};

/// The cut of the flash of `examples/drive-s.toml`.
const DRIVE_S: Geometry = Geometry {
    block: 512,
    unit_pages: 8,
    groups: 1,
    units: 12,
    area_units: 4,
};

/// The flash that the last run left, or one that is made for the next.
#[derive(Drop)]
pub struct Image {
    flash: Option<FlashMem>,
    /// Whether the next run finds it.
    stays: bool,
}

impl Image {
    pub fn none() -> Image {
        Image {
            flash: None,
            stays: false,
        }
    }

    /// The next run finds the flash that the last one left.
    pub fn stay(&mut self) {
        self.stays = true;
    }

    /// The next run finds a blank flash of which this call fails.
    pub fn fail(&mut self, alloc: Global, call: u64) -> Result<(), AllocError> {
        let mut plan = Plan::empty(alloc);
        plan.failing = Sequence::from_vec(vec![in alloc; (call, Outcome::Torn)]?);
        self.flash = Some(FlashMem::new(alloc, DRIVE_S, plan)?);
        self.stays = true;
        Ok(())
    }

    /// Tears a page of the flash that the last run left.
    pub fn tear(&mut self, alloc: Global, page: usize) -> Result<(), AllocError> {
        if let Some(flash) = self.flash.take() {
            let geometry = flash.geometry();
            let cells = torn(alloc, flash.cells(), page)?;
            if FlashMem::are_cells(geometry, &cells) {
                let plan = Plan::empty(alloc);
                self.flash = Some(FlashMem::of_cells(alloc, geometry, cells, plan)?);
            }
        }
        Ok(())
    }

    /// Lays the flash down for a run, where it is to be found there.
    pub fn lay(
        &mut self,
        alloc: Global,
        bench: &mut BenchMem,
        name: &str,
    ) -> Result<(), AllocError> {
        match self.flash.take() {
            Some(flash) if self.stays => bench.lay_flash(alloc, name, flash)?,
            _ => {}
        }
        self.stays = false;
        Ok(())
    }

    /// Keeps the flash that a run left.
    pub fn keep(&mut self, alloc: Global, bench: &mut BenchMem, name: &str) {
        self.flash = bench.take_flash(alloc, name, DRIVE_S).ok();
    }
}

/// The same pages but for one that is torn.
fn torn(alloc: Global, cells: &[Cell], page: usize) -> Result<Vec<Cell>, AllocError> {
    let mut copies = Vec::new(alloc);
    for (number, cell) in cells.iter().enumerate() {
        copies.push(if number == page {
            Cell::Torn
        } else {
            cell.copied()?
        })?;
    }
    Ok(copies)
}
