ghost use Rattle.std.specs.Vec.{vec_capacity};
ghost use Rattle.std.proofs.Props.{props};
ghost use Rattle.std.specs.Prelude.{◌≡◌, if◌then◌else◌};
ghost use Rattle.fdp_base.specs.Counts.{counted};
ghost use Rattle.fdp_base.specs.Geometry.{IsValidGeometry};
ghost use Rattle.fdp_flash.specs.FlashState.{AreCounts};
ghost use Rattle.fdp_flash.specs.MemoryState.{IsSound, count_of_programs};

mod calls;
mod image;
mod pages;
mod read;
mod recorded;
mod room;

use crate::answer::Operation;
use crate::cell::Cell;
use crate::layout::{first_index, has_place, is_data_unit};
use crate::memory::image::image;
use crate::memory::pages::Pages;
use crate::memory::read::{are_blank, have_blocks};
use crate::memory::recorded::CallList;
use crate::memory::room::{blank_cells, copied_cells, page_blocks};
use crate::plan::{Outcome, Plan};
use fdp_base::{Geometry, Spot};
pub use recorded::Recorded;
use std::alloc::{AllocError, Global};

/// A flash in memory, with a plan of the calls that fail.
#[derive(Debug, Drop)]
pub struct FlashMem {
    plan: Plan,
    geometry: Geometry,
    moment: u64,
    faults: u64,
    programs: u64,
    pages: Pages,
    /// The cells that the flash began with, where it keeps its calls.
    first: Vec<Cell>,
    list: CallList,
    ghost counts: { AreCounts moment faults programs } by { Prim.hlevel props },
    ghost sound: { IsSound plan geometry moment pages.cells.items pages.blocks.items first.items list.calls.items list.blocks.items (vec_capacity list.calls) } by { Prim.hlevel props },
}

impl FlashMem {
    ghost use Rattle.std.specs.Prelude.{IfOk, IsTrue, ◌↔◌, length, replicate, slice_get, Some};
    ghost use Rattle.fdp_flash.specs.Cells.{AreCells, IsBlankFlash, IsBlankFrom};
    ghost use Rattle.fdp_flash.specs.declared.cell.Cell.TheVariants.{Blank};
    ghost use Rattle.fdp_flash.specs.FlashMem.{state_of, plan_of, image_of, BeginsWith};
    ghost use Rattle.fdp_flash.specs.FlashState.{WasRecorded};
    ghost use Rattle.fdp_base.specs.Geometry.{all_pages};
    ghost use Rattle.fdp_flash.specs.Layout.{IsIn, page_number};
    ghost use Rattle.fdp_flash.specs.MemoryState.{Called};

    /// A blank flash. It takes the memory of all pages, and with a plan that keeps calls that of so many calls.
    ///
    /// It costs two writes of about 100 bytes and one of a block of zeros for each page, and a block for each call.
    pub fn new(alloc: Global, geometry: Geometry, plan: Plan) -> Result<FlashMem, AllocError>
        requires { IsValidGeometry geometry }
        ensures begins { IfOk result (BeginsWith geometry (replicate (all_pages geometry) Blank) plan) }
        ensures blank { IfOk result (λ flash. IsBlankFlash geometry (state_of flash).cells) }
    {
        let cells = blank_cells(alloc, geometry.all_pages() as usize)?;
        FlashMem::of_cells(alloc, geometry, cells, plan)
    }

    /// A flash with these cells, one for each page.
    pub fn of_cells(
        alloc: Global,
        geometry: Geometry,
        cells: Vec<Cell>,
        plan: Plan,
    ) -> Result<FlashMem, AllocError>
        requires geometry { IsValidGeometry geometry }
        requires cells { AreCells geometry cells.items }
        ensures { IfOk result (BeginsWith geometry cells.items plan) }
    {
        let size = geometry.block as usize;
        let blocks = page_blocks(alloc, cells.as_slice(), size)?;
        let list = CallList::with_room(alloc, plan.calls as usize, size)?;
        let first = copied_cells(alloc, plan.keeps_calls(), cells.as_slice())?;
        Ok(FlashMem {
            plan,
            geometry,
            moment: 0,
            faults: 0,
            programs: 0,
            pages: Pages { cells, blocks },
            first,
            list,
        })
    }

    /// Whether these are the cells of a flash: one for each page, and a block in each that is whole. It looks at each.
    pub fn are_cells(geometry: Geometry, cells: &[Cell]) -> bool
        requires { IsValidGeometry geometry }
        ensures { IsTrue result ↔ AreCells geometry cells.now }
    {
        cells.len() == geometry.all_pages() as usize && have_blocks(cells, geometry.block as usize)
    }

    /// The pages in order.
    pub fn cells(&self) -> &[Cell]
        ensures { result.now ≡ (state_of self.now).cells }
    {
        self.pages.cells.as_slice()
    }

    /// Whether a page is one of the flash.
    pub fn has_place(&self, at: Spot) -> bool
        ensures { IsTrue result ↔ IsIn (state_of self.now).geometry at }
    {
        has_place(self.geometry, at)
    }

    /// Whether a page may be programmed: it and the later pages of its unit are blank. It looks at each of these.
    pub fn has_room(&self, at: Spot) -> bool
        requires { IsIn (state_of self.now).geometry at }
        ensures { IsTrue result ↔ IsBlankFrom (state_of self.now).geometry (state_of self.now).cells at }
    {
        let first = first_index(self.geometry, at.unit);
        let cells = self.pages.cells.as_slice();
        are_blank(
            cells,
            first + at.page as usize,
            first + self.geometry.unit_pages as usize,
        )
    }

    /// Whether the call of a moment stands on the list of calls.
    pub fn has_recorded(&self, moment: u64) -> bool
        ensures { IsTrue result ↔ WasRecorded (state_of self.now) moment }
    {
        0 < moment && moment <= self.list.calls.len() as u64
    }

    /// The cells that a stop in the call of a moment leaves. For an erase the outcome `Whole` leaves each page as it was.
    ///
    /// It copies the cells that the flash began with, and makes the calls up to that one again.
    pub fn image_at(
        &self,
        alloc: Global,
        moment: u64,
        outcome: Outcome,
    ) -> Result<Vec<Cell>, AllocError>
        requires { WasRecorded (state_of self.now) moment }
        ensures image { IfOk result (λ cells. cells.items ≡ image_of self.now moment outcome) }
        ensures during { IfOk result (λ cells. (state_of self.now).during moment cells.items) }
        ensures cells { IfOk result (λ cells. AreCells (state_of self.now).geometry cells.items) }
    {
        let calls = self.list.calls.as_slice();
        image(
            alloc,
            self.geometry,
            self.first.as_slice(),
            calls,
            moment,
            outcome,
        )
    }

    /// Makes a call, and says whether it failed.
    fn call(&mut self, operation: Operation, at: Spot, spare: &[u8; 32], bytes: &[u8]) -> bool
        requires place { IsIn (state_of self.old).geometry at }
        requires size { operation ≡ Operation.Program → length bytes.now ≡ (state_of self.old).geometry.block }
        requires order { operation ≡ Operation.Program → slice_get (state_of self.old).cells (page_number (state_of self.old).geometry at) ≡ Some Blank }
        ensures called { Called (plan_of self.old) (state_of self.old) (state_of self.new) operation at spare.now bytes.now result }
        ensures plan { plan_of self.new ≡ plan_of self.old }
    {
        self.moment = self.moment.saturating_add(1);
        let fate = self.plan.fate(self.moment);
        self.list.note(operation, at, fate, spare, bytes);
        self.pages
            .change(self.geometry, operation, at, spare, bytes, fate);
        let failed = fate.fails();
        self.faults = faults_after(failed, self.faults);
        self.programs = programs_after(self.geometry, operation, at.unit, failed, self.programs);
        failed
    }
}

fn faults_after(failed: bool, faults: u64) -> u64
    ensures { result ≡ (if failed then counted faults else faults) }
{
    if failed {
        faults.saturating_add(1)
    } else {
        faults
    }
}

fn programs_after(
    geometry: Geometry,
    operation: Operation,
    unit: u32,
    failed: bool,
    programs: u64,
) -> u64
    requires { IsValidGeometry geometry }
    ensures { result ≡ count_of_programs geometry operation unit failed programs }
{
    match operation {
        Operation::Program if !failed && is_data_unit(geometry, unit) => programs.saturating_add(1),
        Operation::Program => programs,
        Operation::Look => programs,
        Operation::Fetch => programs,
        Operation::Erase => programs,
    }
}
