ghost use Rattle.fdp_io.specs.Bench.{ReplacesOnDone};
ghost use Rattle.fdp_io.specs.Reading.{ReadsRest};

use crate::bench::{Bench, NotTaken, TextRead};
use crate::flash_of::{NoFlash, flash_of};
use crate::names::{add_name, remove_name};
use fdp_base::Geometry;
use fdp_flash_file::{FlashFile, TakeError};
use std::alloc::Global;
use std::collections::BTreeSet;
use std::fmt::Display;
use std::fs::File;
use std::io::{ErrorKind, Read};
use std::rt::Files;

/// A bench over the files of the system: texts, and flashes that outlive the program. It does not tell what they hold. Why a call failed is
/// told on standard error.
#[derive(Drop)]
pub struct BenchFile<R> {
    files: R,
    faults: u64,
    /// The names of the flashes that are out.
    out: BTreeSet<String>,
}

impl<R: Files<File = File> + Eprint + Drop> BenchFile<R> {
    ghost use Rattle.std.specs.Prelude.{◌≡◌, ◌≤◌};
    ghost use Rattle.fdp_base.specs.Counts.{counted};
    ghost use Rattle.fdp_io.specs.Bench.{CountsFailedRead, ReadsText};
    ghost use Rattle.fdp_io.specs.BenchFile.{file_bench};

    pub fn new(alloc: Global, files: R) -> BenchFile<R> {
        BenchFile {
            files,
            faults: 0,
            out: BTreeSet::new(alloc),
        }
    }

    /// Counts a call that failed, and tells why.
    fn fail<D: Display + Drop>(&mut self, name: &str, cause: D)
        ensures fault { self.new ≡ record self.old { faults = counted self.old.faults } }
        ensures later { self.old.faults ≤ self.new.faults }
    {
        self.faults = self.faults.saturating_add(1);
        // Nothing is left to be done where it cannot be told.
        drop(eprintln!(self.files; "fdpdrive: {name}: {cause}"));
    }

    /// Reads all of a file.
    fn read_file(&mut self, name: &str, file: File, into: &mut Vec<u8>, limit: u64) -> TextRead
        ensures kept { self.new ≡ record self.old { faults = self.new.faults } }
        ensures faults { self.old.faults ≤ self.new.faults }
        ensures counts { CountsFailedRead self.old.faults self.new.faults result }
        ensures replaces { ReplacesOnDone into.old.items into.new.items result }
        ensures answer { ReadsText (file_bench self.old) (file_bench self.new) name.now limit into.new.items result }
    {
        let answer = read_rest(file, into, limit);
        if answer == TextRead::Failed {
            self.fail(name, "the file cannot be read");
        }
        answer
    }
}

impl<R: Files<File = File> + Eprint + Drop> Bench for BenchFile<R> {
    type F = FlashFile<File>;

    ghost use Rattle.fdp_io.specs.BenchFile.{file_bench};

    ghost state = { file_bench };

    fn faults(&self) -> u64 {
        self.faults
    }

    fn read_text(&mut self, name: &str, into: &mut Vec<u8>, limit: u64) -> TextRead {
        match File::open(&self.files, name) {
            Ok(file) => self.read_file(name, file, into, limit),
            Err(error) if error.kind() == ErrorKind::NotFound => TextRead::Missing,
            Err(error) => {
                self.fail(name, error);
                TextRead::Failed
            }
        }
    }

    fn take_flash(
        &mut self,
        alloc: Global,
        name: &str,
        geometry: Geometry,
    ) -> Result<FlashFile<File>, NotTaken> {
        match add_name(alloc, &mut self.out, name) {
            Ok(true) => {}
            Ok(false) => {
                self.fail(name, "the flash is in use");
                return Err(NotTaken::Failed);
            }
            Err(_) => return Err(NotTaken::NoMemory),
        }
        match flash_of(&self.files, alloc, name, geometry) {
            Ok(flash) => Ok(flash),
            Err(cause) => {
                remove_name(&mut self.out, name);
                match cause {
                    NoFlash::Refused(TakeError::NoMemory) => Err(NotTaken::NoMemory),
                    cause => {
                        self.fail(name, cause);
                        Err(NotTaken::Failed)
                    }
                }
            }
        }
    }

    fn give_flash(&mut self, name: &str, flash: FlashFile<File>) {
        remove_name(&mut self.out, name);
        match flash.into_file().sync_all() {
            Ok(()) => {}
            Err(error) => self.fail(name, error),
        }
    }
}

/// Reads all that a reader has left into `into`, in the place of what was there. One byte more than the limit tells
/// that it is too long.
pub fn read_rest<F: Read + Drop>(file: F, into: &mut Vec<u8>, limit: u64) -> TextRead
    ensures replaces { ReplacesOnDone into.old.items into.new.items result }
    ensures answer { ReadsRest (F.remaining file) limit into.new.items result }
{
    let mut bytes = Vec::new(*into.allocator());
    match file.take(limit.saturating_add(1)).read_to_end(&mut bytes) {
        Ok(_) if bytes.len() as u64 > limit => TextRead::TooLong,
        Ok(_) => {
            *into = bytes;
            TextRead::Done
        }
        Err(error) if error.kind() == ErrorKind::OutOfMemory => TextRead::NoMemory,
        Err(_) => TextRead::Failed,
    }
}
