ghost use Rattle.std.proofs.Props.{props};
ghost use Rattle.fdp_base.specs.Geometry.{IsValidGeometry};
ghost use Rattle.fdp_flash.specs.FlashState.{AreCounts};
ghost use Rattle.fdp_flash_file.specs.Room.{HasRoom};

use crate::page_file::PageFile;
use crate::take::{TakeError, pages_of, told_geometry};
use fdp_base::{Geometry, Spot};
use std::alloc::Global;
use std::io::Seek;
use std::os::unix::fs::FileExt;

/// A flash over a file, or over anything that is read and written at an offset, and tells how long it is. It does not tell
/// what the file holds.
///
/// `make` and `take` take memory, a byte for each page and room for one page; no other call does. A look or a fetch of a
/// whole page is one read of the file, and one of another page none; a program is two writes, an erase one.
#[derive(Drop)]
pub struct FlashFile<S> {
    pub(crate) pages: PageFile<S>,
    pub(crate) geometry: Geometry,
    pub(crate) moment: u64,
    pub(crate) faults: u64,
    pub(crate) programs: u64,
    ghost counts: { AreCounts moment faults programs } by { Prim.hlevel props },
    ghost valid: { IsValidGeometry geometry } by { Prim.hlevel props },
    ghost room: { HasRoom geometry pages } by { Prim.hlevel props },
}

impl<S: FileExt + Seek + Drop> FlashFile<S> {
    ghost use Rattle.std.specs.Prelude.{◌≡◌, IfOk, IsTrue, ◌↔◌, if◌then◌else◌};
    ghost use Rattle.fdp_base.specs.Counts.{counted};
    ghost use Rattle.fdp_flash.specs.FlashState.{Begins};
    ghost use Rattle.fdp_flash.specs.Layout.{IsIn};
    ghost use Rattle.fdp_flash_file.specs.FlashFile.{state_of, IsTaken};

    /// Makes a file that holds a blank flash, and takes it. What the file held is lost, except for what stands behind the
    /// last page. Where there is no memory the file stays as it is. It costs four writes.
    pub fn make(alloc: Global, file: S, geometry: Geometry) -> Result<FlashFile<S>, TakeError>
        requires { IsValidGeometry geometry }
        ensures { IfOk result (λ flash. IsTaken geometry (state_of flash)) }
    {
        let pages = pages_of(alloc, file, geometry)?;
        match pages.write_flash(geometry) {
            Ok(()) => Ok(FlashFile::begun(pages, geometry)),
            Err(_) => Err(TakeError::Failed),
        }
    }

    /// Takes a file that holds a flash, with the geometry that its head tells. What stands behind the last page is left
    /// alone. It costs a seek and two reads, the second of a byte for each page.
    pub fn take(alloc: Global, mut file: S) -> Result<FlashFile<S>, TakeError>
        ensures { IfOk result (λ flash. IsTaken (state_of flash).geometry (state_of flash)) }
    {
        let geometry = told_geometry(&mut file)?;
        let mut pages = pages_of(alloc, file, geometry)?;
        match pages.read_states() {
            Ok(()) => Ok(FlashFile::begun(pages, geometry)),
            Err(_) => Err(TakeError::Failed),
        }
    }

    fn begun(pages: PageFile<S>, geometry: Geometry) -> FlashFile<S>
        requires valid { IsValidGeometry geometry }
        requires room { HasRoom geometry pages }
        ensures { IsTaken geometry (state_of result) }
    {
        FlashFile {
            pages,
            geometry,
            moment: 0,
            faults: 0,
            programs: 0,
        }
    }

    /// Counts a call, and a fault where it failed.
    pub(crate) fn note(&mut self, failed: bool)
        ensures call { Begins (state_of self.old) (state_of self.new) }
        ensures faults { (state_of self.new).faults ≡ (if failed then counted (state_of self.old).faults else (state_of self.old).faults) }
        ensures programs { (state_of self.new).programs ≡ (state_of self.old).programs }
    {
        self.moment = self.moment.saturating_add(1);
        if failed {
            self.faults = self.faults.saturating_add(1);
        }
    }

    /// Whether a page is one of the flash.
    pub fn has_place(&self, at: Spot) -> bool
        ensures { IsTrue result ↔ IsIn (state_of self.now).geometry at }
    {
        at.page < self.geometry.unit_pages && at.unit < self.geometry.all_units()
    }

    /// The file that holds the flash.
    pub fn file(&self) -> &S {
        &self.pages.file
    }

    /// Gives the file back.
    pub fn into_file(self) -> S {
        self.pages.file
    }
}
