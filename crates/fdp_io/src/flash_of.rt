ghost use Rattle.fdp_base.specs.Geometry.{IsValidGeometry};

use fdp_base::Geometry;
use fdp_flash_file::{FlashFile, TakeError};
use std::alloc::Global;
use std::fs::File;
use std::io::ErrorKind;
use std::rt::Files;
use std::{fmt, fs, io};

/// Why a file gave no flash.
#[derive(Drop)]
pub enum NoFlash {
    /// The system refused it.
    System(io::Error),
    /// It is a folder or a device.
    NoFile,
    /// It is not that of a flash, could not be read or made, or there is no memory for it.
    Refused(TakeError),
}

impl fmt::Display for NoFlash {
    fn fmt<W: fmt::Write>(&self, f: &mut fmt::Formatter<W>) -> fmt::Result {
        match self {
            NoFlash::System(error) => write!(f, "{error}"),
            NoFlash::NoFile => f.write_str("a folder or a device, and no file"),
            NoFlash::Refused(cause) => write!(f, "{cause}"),
        }
    }
}

/// Opens the flash in the file of a name, or makes a file with a blank one where there is none.
pub fn flash_of<R: Files<File = File>>(
    files: &R,
    alloc: Global,
    name: &str,
    geometry: Geometry,
) -> Result<FlashFile<File>, NoFlash>
    requires { IsValidGeometry geometry }
{
    match File::options().read(true).write(true).open(files, name) {
        Ok(file) => found(alloc, file),
        Err(error) if error.kind() == ErrorKind::NotFound => made(files, alloc, name, geometry),
        Err(error) => Err(NoFlash::System(error)),
    }
}

/// Takes the flash in a file that is there. Nothing is written.
fn found(alloc: Global, file: File) -> Result<FlashFile<File>, NoFlash> {
    match file.metadata() {
        Ok(about) if about.is_file() => {}
        Ok(_) => return Err(NoFlash::NoFile),
        Err(error) => return Err(NoFlash::System(error)),
    }
    match FlashFile::take(alloc, file) {
        Ok(flash) => Ok(flash),
        Err(cause) => Err(NoFlash::Refused(cause)),
    }
}

/// Makes a file with a blank flash. Where that fails no file is left.
fn made<R: Files<File = File>>(
    files: &R,
    alloc: Global,
    name: &str,
    geometry: Geometry,
) -> Result<FlashFile<File>, NoFlash>
    requires { IsValidGeometry geometry }
{
    let mut options = File::options();
    options.read(true).write(true).create_new(true);
    let file = match options.open(files, name) {
        Ok(file) => file,
        Err(error) => return Err(NoFlash::System(error)),
    };
    match FlashFile::make(alloc, file, geometry) {
        Ok(flash) => Ok(flash),
        Err(cause) => {
            // Where this fails too, a file without the head of a flash is left, which no run takes.
            drop(fs::remove_file(files, name));
            Err(NoFlash::Refused(cause))
        }
    }
}
