use crate::flash_file::FlashFile;
use crate::page::place_of;
use fdp_base::{Geometry, Spot};
use fdp_flash::{Fetched, Flash, Seen, Wrote};
use std::io;
use std::io::Seek;
use std::os::unix::fs::FileExt;

impl<S: FileExt + Seek + Drop> Flash for FlashFile<S> {
    ghost use Rattle.fdp_flash_file.specs.FlashFile.{state_of, file_well_formed};

    ghost state = { state_of };

    ghost well_formed = { file_well_formed };

    fn geometry(&self) -> Geometry {
        self.geometry
    }

    fn moment(&self) -> u64 {
        self.moment
    }

    fn faults(&self) -> u64 {
        self.faults
    }

    fn programs(&self) -> u64 {
        self.programs
    }

    fn look(&mut self, at: Spot, spare: &mut [u8; 32], bytes: &mut [u8]) -> Seen {
        let place = place_of(self.geometry, at);
        let seen = seen_of(self.pages.read(place, spare, bytes));
        self.note(seen == Seen::Failed);
        seen
    }

    fn fetch(&mut self, at: Spot, spare: &[u8; 32], bytes: &mut [u8]) -> Fetched {
        let place = place_of(self.geometry, at);
        let fetched = fetched_of(self.pages.read_expected(place, spare, bytes));
        self.note(fetched != Fetched::Whole);
        fetched
    }

    fn program(&mut self, at: Spot, spare: &[u8; 32], bytes: &[u8]) -> Wrote {
        let place = place_of(self.geometry, at);
        let wrote = wrote_of(self.pages.program(place, spare, bytes));
        self.note(wrote == Wrote::Failed);
        if wrote == Wrote::Done && at.unit < self.geometry.data_units() {
            self.programs = self.programs.saturating_add(1);
        }
        wrote
    }

    fn erase(&mut self, unit: u32) -> Wrote {
        let first = place_of(self.geometry, Spot { unit, page: 0 });
        let count = self.geometry.unit_pages as usize;
        let wrote = wrote_of(self.pages.erase(first, count));
        self.note(wrote == Wrote::Failed);
        wrote
    }
}

fn seen_of(read: io::Result<Seen>) -> Seen {
    match read {
        Ok(seen) => seen,
        Err(_) => Seen::Failed,
    }
}

fn fetched_of(read: io::Result<Fetched>) -> Fetched {
    match read {
        Ok(fetched) => fetched,
        Err(_) => Fetched::Failed,
    }
}

fn wrote_of(written: io::Result<()>) -> Wrote {
    match written {
        Ok(()) => Wrote::Done,
        Err(_) => Wrote::Failed,
    }
}
