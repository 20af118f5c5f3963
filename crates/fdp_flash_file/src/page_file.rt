ghost use Rattle.std.specs.Prelude.{◌≡◌, ◌+◌, ◌<◌, ◌≤◌, ◌++◌, length, IfOk, OnOk, Ok};
ghost use Rattle.std.specs.Vec.{vec_len};
ghost use Rattle.fdp_base.specs.Geometry.{IsValidGeometry, all_pages};
ghost use Rattle.fdp_flash_file.specs.Room.{HasRoom, SameRoom};

use crate::head::{HEAD_BYTES, write_head};
use crate::page::{PageState, Place, SPARE_BYTES, file_bytes};
use fdp_base::Geometry;
use fdp_flash::{Fetched, Seen};
use std::alloc::{AllocError, Global};
use std::io;
use std::os::unix::fs::FileExt;

/// The states of a unit that is blank.
const BLANK_STATES: [u8; 256] = [0; 256];

/// The pages of a flash in its file, and what is kept of them in memory, so that a page costs as few calls of the file as it can.
#[derive(Drop)]
pub struct PageFile<S> {
    pub file: S,
    /// The states of the pages, as their bytes stand in the file. A state changes here behind the write that tells it, so
    /// that no call answers what the file does not hold.
    states: Vec<u8>,
    /// Room for a page: its spare, and its block behind it.
    room: Vec<u8>,
}

impl<S: FileExt + Drop> PageFile<S> {
    /// Takes the memory for a flash, all of whose pages are blank. The file is not touched.
    pub fn new(alloc: Global, file: S, geometry: Geometry) -> Result<PageFile<S>, AllocError>
        requires { IsValidGeometry geometry }
        ensures { IfOk result (λ pages. HasRoom geometry pages) }
    {
        let blank = PageState::Blank.code();
        let states = Vec::from_elem(alloc, blank, geometry.all_pages() as usize)?;
        let room = Vec::from_elem(alloc, 0, SPARE_BYTES + geometry.block as usize)?;
        Ok(PageFile { file, states, room })
    }

    /// Writes the head and the states. The head is written last, so that a file which was not made whole is none of a flash.
    pub fn write_flash(&self, geometry: Geometry) -> io::Result<()>
        requires { IsValidGeometry geometry }
    {
        self.file.write_all_at(&[0; HEAD_BYTES], 0)?;
        self.file
            .write_all_at(self.states.as_slice(), HEAD_BYTES as u64)?;
        self.file.write_all_at(&[0], file_bytes(geometry) - 1)?;
        write_head(&self.file, geometry)
    }

    /// Reads the states of all pages, in one call.
    pub fn read_states(&mut self) -> io::Result<()>
        ensures { SameRoom self.old self.new }
    {
        self.file
            .read_exact_at(self.states.as_mut_slice(), HEAD_BYTES as u64)
    }

    fn state_of(&self, place: Place) -> PageState
        requires { place.page < vec_len self.now.states }
    {
        PageState::of_code(self.states[place.page])
    }

    /// Reads a page as it is. Where it is not whole that costs no call of the file.
    pub fn read(&mut self, place: Place, spare: &mut [u8; 32], bytes: &mut [u8]) -> io::Result<Seen>
        requires page { place.page < vec_len self.old.states }
        requires size { vec_len self.old.room ≡ 32 + length bytes.old }
        ensures { SameRoom self.old self.new }
    {
        match self.state_of(place) {
            PageState::Blank => Ok(Seen::Blank),
            PageState::Torn => Ok(Seen::Torn),
            PageState::Whole => {
                read_page(&self.file, place, self.room.as_mut_slice(), spare, bytes)?;
                Ok(Seen::Whole)
            }
        }
    }

    /// Reads the bytes of a page that is whole with this spare.
    pub fn read_expected(
        &mut self,
        place: Place,
        spare: &[u8; 32],
        bytes: &mut [u8],
    ) -> io::Result<Fetched>
        requires page { place.page < vec_len self.old.states }
        requires size { vec_len self.old.room ≡ 32 + length bytes.old }
        ensures { SameRoom self.old self.new }
    {
        match self.state_of(place) {
            PageState::Blank => Ok(Fetched::Other),
            PageState::Torn => Ok(Fetched::Other),
            PageState::Whole => read_expected(
                &self.file,
                place,
                self.room.as_mut_slice(),
                spare,
                bytes,
            ),
        }
    }

    /// Programs a page that is blank.
    ///
    /// Its state is written behind its bytes: a stop between the two leaves it blank, as it was. The other way round that
    /// would leave a page that says it is whole and has other bytes.
    pub fn program(&mut self, place: Place, spare: &[u8; 32], bytes: &[u8]) -> io::Result<()>
        requires page { place.page < vec_len self.old.states }
        requires size { vec_len self.old.room ≡ 32 + length bytes.now }
        ensures { SameRoom self.old self.new }
    {
        write_page(&self.file, place, self.room.as_mut_slice(), spare, bytes)?;
        let state = &mut self.states.as_mut_slice()[place.page..place.page + 1];
        write_states(&self.file, place.state, &[PageState::Whole.code()], state)
    }

    /// Makes so many pages blank, from this one on.
    pub fn erase(&mut self, first: Place, count: usize) -> io::Result<()>
        requires unit { count ≤ 256 }
        requires pages { first.page + count ≤ vec_len self.old.states }
        ensures { SameRoom self.old self.new }
    {
        let states = &mut self.states.as_mut_slice()[first.page..first.page + count];
        write_states(&self.file, first.state, &BLANK_STATES[..count], states)
    }
}

/// Reads spare and block of a page at once.
fn read_page<S: FileExt>(
    file: &S,
    place: Place,
    room: &mut [u8],
    spare: &mut [u8; 32],
    bytes: &mut [u8],
) -> io::Result<()>
    requires { length room.old ≡ 32 + length bytes.old }
    ensures { OnOk result (room.new ≡ spare.new ++ bytes.new) }
{
    file.read_exact_at(room, place.spare)?;
    let (kept, block) = room.split_at(SPARE_BYTES);
    spare.copy_from_slice(kept);
    bytes.copy_from_slice(block);
    Ok(())
}

/// Reads spare and block of a page at once, and gives the block where the spare is this one.
fn read_expected<S: FileExt>(
    file: &S,
    place: Place,
    room: &mut [u8],
    spare: &[u8; 32],
    bytes: &mut [u8],
) -> io::Result<Fetched>
    requires { length room.old ≡ 32 + length bytes.old }
    ensures { result ≡ Ok Fetched.Whole → room.new ≡ spare.now ++ bytes.new }
{
    file.read_exact_at(room, place.spare)?;
    let (kept, block) = room.split_at(SPARE_BYTES);
    if kept != spare.as_slice() {
        return Ok(Fetched::Other);
    }
    bytes.copy_from_slice(block);
    Ok(Fetched::Whole)
}

/// Writes spare and block of a page at once.
fn write_page<S: FileExt>(
    file: &S,
    place: Place,
    room: &mut [u8],
    spare: &[u8; 32],
    bytes: &[u8],
) -> io::Result<()>
    requires { length room.old ≡ 32 + length bytes.now }
    ensures { room.new ≡ spare.now ++ bytes.now }
{
    let (first, rest) = room.split_at_mut(SPARE_BYTES);
    first.copy_from_slice(spare);
    rest.copy_from_slice(bytes);
    file.write_all_at(room, place.spare)
}

/// Writes the states of pages that follow one another, and then keeps them.
///
/// Where that fails the file may have some of them, so they are read again: what is kept is what the file says.
fn write_states<S: FileExt>(file: &S, at: u64, codes: &[u8], kept: &mut [u8]) -> io::Result<()>
    requires { length kept.old ≡ length codes.now }
    ensures { OnOk result (kept.new ≡ codes.now) }
{
    let wrote = file.write_all_at(codes, at);
    if wrote.is_ok() {
        kept.copy_from_slice(codes);
    } else if file.read_exact_at(kept, at).is_err() {
        // What these pages are is not known. Torn is what no page is taken for that is wanted, and a call that failed may
        // leave it.
        kept.fill(PageState::Torn.code());
    }
    wrote
}
