ghost use Rattle.std.specs.Prelude.{IfOk, IfSome, MatchResult};
ghost use Rattle.fdp_base.specs.Geometry.{IsValidGeometry};
ghost use Rattle.fdp_flash_file.specs.Room.{HasRoom};
ghost use Rattle.fdp_flash_file.specs.Taking.{IsCause, IsWhole};

use crate::head::{HEAD_BYTES, read_head};
use crate::page::file_bytes;
use crate::page_file::PageFile;
use fdp_base::Geometry;
use std::alloc::{AllocError, Global};
use std::io::{Seek, SeekFrom};
use std::os::unix::fs::FileExt;
use std::{fmt, io};

/// Why a file was not taken.
#[derive(Clone, Copy, Debug, PartialEq, Eq)]
pub enum TakeError {
    /// A call of the file failed.
    Failed,
    /// The file does not begin with the head of a flash.
    NotFlash,
    /// The file begins with the head of a flash, and ends before its last page.
    CutShort,
    /// There is no memory for the states of its pages.
    NoMemory,
}

impl fmt::Display for TakeError {
    fn fmt<W: fmt::Write>(&self, f: &mut fmt::Formatter<W>) -> fmt::Result {
        f.write_str(match self {
            TakeError::Failed => "a call of the file failed",
            TakeError::NotFlash => "the file does not begin with the head of a flash",
            TakeError::CutShort => "the file ends before the last page of its flash",
            TakeError::NoMemory => "there is no memory for the states of its pages",
        })
    }
}

/// The geometry that a file tells, if it is the file of a flash.
pub fn told_geometry<S: FileExt + Seek>(file: &mut S) -> Result<Geometry, TakeError>
    ensures { IfOk result (λ geometry. IsValidGeometry geometry) }
{
    let Ok(bytes) = file.seek(SeekFrom::End(0)) else {
        return Err(TakeError::Failed);
    };
    if bytes < HEAD_BYTES as u64 {
        return Err(TakeError::NotFlash);
    }
    geometry_in(bytes, read_head(file))
}

/// The geometry of the flash whose file has so many bytes, and of which the read of the head gave this.
fn geometry_in(bytes: u64, head: io::Result<Option<Geometry>>) -> Result<Geometry, TakeError>
    requires { IfOk head (λ told. IfSome told (λ geometry. IsValidGeometry geometry)) }
    ensures valid { IfOk result (λ geometry. IsValidGeometry geometry) }
    ensures cause { MatchResult result
        (λ geometry. IsWhole bytes head geometry)
        (λ cause. IsCause bytes head cause) }
{
    match head {
        Ok(Some(geometry)) if bytes < file_bytes(geometry) => Err(TakeError::CutShort),
        Ok(Some(geometry)) => Ok(geometry),
        Ok(None) => Err(TakeError::NotFlash),
        Err(_) => Err(TakeError::Failed),
    }
}

/// Takes the memory for the flash of a file.
pub fn pages_of<S: FileExt + Drop>(
    alloc: Global,
    file: S,
    geometry: Geometry,
) -> Result<PageFile<S>, TakeError>
    requires { IsValidGeometry geometry }
    ensures { IfOk result (λ pages. HasRoom geometry pages) }
{
    match PageFile::new(alloc, file, geometry) {
        Ok(pages) => Ok(pages),
        Err(AllocError) => Err(TakeError::NoMemory),
    }
}
