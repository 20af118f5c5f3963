mod failures;
mod files;

use crate::flash::SMALL;
use fdp_base::Spot;
use fdp_flash::{Fetched, Flash, Seen, Wrote};
use fdp_flash_file::{FlashFile, TakeError};
use files::{Bytes, Failing};
use std::alloc::Global;
use std::fs;
use std::fs::File;
use std::io::Seek;
use std::os::unix::fs::FileExt;
use std::test::Fail;

const PAGES: u32 = 8;

const NAME: &str = "fdp_flash_file_test";

#[derive(Clone, Copy)]
enum Step {
    /// The unit, its page, and the byte that fills it and its spare.
    Program(u32, u32, u8),
    Erase(u32),
}

/// Makes the call of a step, the given call of the file failing, and names its answer by a letter.
fn perform<S: FileExt + Seek + Drop>(
    flash: &mut FlashFile<Failing<S>>,
    step: Step,
    failing: u32,
) -> char {
    if flash.geometry() != SMALL {
        return '?';
    }
    flash.file().calls.set(failing);
    let wrote = match step {
        Step::Program(unit, page, fill) => {
            let at = Spot { unit, page };
            if !flash.has_place(at) {
                return '?';
            }
            flash.program(at, &[fill; 32], &[fill; 512])
        }
        Step::Erase(unit) => {
            if !flash.has_place(Spot { unit, page: 0 }) {
                return '?';
            }
            flash.erase(unit)
        }
    };
    match wrote {
        Wrote::Done => 'D',
        Wrote::Failed => 'F',
    }
}

/// What a look and two fetches tell of a page: a dot is blank, a tilde torn, F failed, and a whole page its byte, where a
/// fetch with its spare gives its bytes and one with another spare does not.
fn letter_at<S: FileExt + Seek + Drop>(flash: &mut FlashFile<S>, page: u32) -> char {
    let at = Spot {
        unit: page / 2,
        page: page % 2,
    };
    if flash.geometry() != SMALL || !flash.has_place(at) {
        return '?';
    }
    let mut spare = [0; 32];
    let mut bytes = [0; 512];
    let mut fetched = [0; 512];
    let seen = flash.look(at, &mut spare, &mut bytes);
    let same = flash.fetch(at, &spare, &mut fetched);
    let other = flash.fetch(at, &[b'x'; 32], &mut [0; 512]);
    let whole = seen == Seen::Whole;
    let wanted = if whole {
        Fetched::Whole
    } else {
        Fetched::Other
    };
    if other != Fetched::Other || same != wanted || whole && fetched != bytes {
        return if seen == Seen::Failed { 'F' } else { '!' };
    }
    letter_of(seen, bytes[511])
}

/// What was seen of a page by a letter, of a whole one its byte.
fn letter_of(seen: Seen, byte: u8) -> char {
    match seen {
        Seen::Whole => byte as char,
        Seen::Blank => '.',
        Seen::Torn => '~',
        Seen::Failed => 'F',
    }
}

/// Whether the pages of a flash have these letters.
fn shows<S: FileExt + Seek + Drop>(flash: &mut FlashFile<S>, pages: &str) -> bool {
    let mut letters = pages.chars();
    for page in 0..PAGES {
        if letters.next() != Some(letter_at(flash, page)) {
            return false;
        }
    }
    letters.next().is_none()
}

/// A step, and which call of the file fails in it; 0 is none.
type Made = (Step, u32);

const WHOLE_AND_SKIPPED: [Made; 4] = [
    (Step::Program(0, 0, b'1'), 0),
    (Step::Program(0, 1, b'2'), 0),
    (Step::Program(1, 1, b'3'), 0),
    (Step::Program(3, 0, b'4'), 0),
];

const FAILED: [Made; 2] = [
    (Step::Program(0, 0, b'1'), 1),
    (Step::Program(1, 0, b'2'), 2),
];

const ERASED: [Made; 6] = [
    (Step::Program(0, 0, b'1'), 0),
    (Step::Program(0, 1, b'2'), 2),
    (Step::Erase(0), 0),
    (Step::Program(0, 0, b'5'), 0),
    (Step::Program(2, 1, b'6'), 0),
    (Step::Erase(2), 1),
];

/// Whether a flash answers the steps so.
fn plays<S: FileExt + Seek + Drop>(
    flash: &mut FlashFile<Failing<S>>,
    steps: &[Made],
    answers: &str,
) -> bool {
    let mut letters = answers.chars();
    for &(step, failing) in steps {
        if letters.next() != Some(perform(flash, step, failing)) {
            return false;
        }
    }
    letters.next().is_none()
}

/// Makes a flash in a file, and closes it. Whether it answers the steps so.
fn makes(rt: &HostRuntime, steps: &[Made], answers: &str) -> bool {
    let mut options = File::options();
    options.read(true).write(true).create(true).truncate(true);
    let Ok(file) = options.open(rt, NAME) else {
        return false;
    };
    match FlashFile::make(rt.alloc(), Failing::new(file), SMALL) {
        Ok(mut flash) => plays(&mut flash, steps, answers),
        Err(_) => false,
    }
}

/// Whether the file holds a flash of these pages.
fn holds(rt: &HostRuntime, pages: &str) -> bool {
    let Ok(file) = File::options().read(true).write(true).open(rt, NAME) else {
        return false;
    };
    match FlashFile::take(rt.alloc(), file) {
        Ok(mut flash) => shows(&mut flash, pages),
        Err(_) => false,
    }
}

/// Whether a flash in a file answers the steps so, and is taken again with these pages.
fn keeps(rt: &HostRuntime, steps: &[Made], answers: &str, pages: &str) -> bool {
    makes(rt, steps, answers) && holds(rt, pages)
}

#[test]
fn a_file_keeps_its_pages(rt: HostRuntime) -> Result<(), Fail> {
    assert!(rt; keeps(&rt, &[], "", "........"));
    assert!(rt; keeps(&rt, &WHOLE_AND_SKIPPED, "DDDD", "12.3..4."));
    assert!(rt; keeps(&rt, &FAILED, "FF", "........"));
    assert!(rt; keeps(&rt, &ERASED, "DFDDDF", "5....6.."));
    fs::remove_file(&rt, NAME)?;
    Ok(())
}

/// The file of a blank flash, in the place of these bytes.
fn blanked(alloc: Global, used: Vec<u8>) -> Result<Vec<u8>, TakeError> {
    let flash = FlashFile::make(alloc, Bytes::new(used), SMALL)?;
    Ok(flash.into_file().into_vec())
}

fn blank_file(alloc: Global) -> Result<Vec<u8>, TakeError> {
    blanked(alloc, Vec::new(alloc))
}

/// Whether a file of these bytes is not taken for this cause, or is taken.
fn ends(alloc: Global, bytes: &[u8], cause: Option<TakeError>) -> bool {
    match Vec::from_slice(alloc, bytes) {
        Ok(copy) => FlashFile::take(alloc, Bytes::new(copy)).err() == cause,
        Err(_) => false,
    }
}

/// Whether so many bytes of a file are not taken for this cause.
fn is_refused_front(alloc: Global, file: &[u8], count: usize, cause: TakeError) -> bool {
    match file.get(..count) {
        Some(front) => ends(alloc, front, Some(cause)),
        None => false,
    }
}

#[test]
fn other_files_are_not_taken(rt: HostRuntime) -> Result<(), Fail> {
    let alloc = rt.alloc();
    let file = blank_file(alloc)?;
    assert!(rt; file.len() == 32 + 8 + 8 * (32 + 512));
    assert!(rt; ends(alloc, &file, None));
    assert!(rt; ends(alloc, &[], Some(TakeError::NotFlash)));
    assert!(rt; ends(alloc, &[b'F'; 100], Some(TakeError::NotFlash)));
    assert!(rt; is_refused_front(alloc, &file, 31, TakeError::NotFlash));
    assert!(rt; is_refused_front(alloc, &file, 32, TakeError::CutShort));
    assert!(rt; is_refused_front(alloc, &file, 4391, TakeError::CutShort));
    Ok(())
}

/// A byte more behind the last page is left alone, and one in the head that is another is not.
#[test]
fn other_bytes_of_a_file(rt: HostRuntime) -> Result<(), Fail> {
    let mut file = blank_file(rt.alloc())?;
    file.push(0)?;
    assert!(rt; ends(rt.alloc(), &file, None));
    assert!(rt; file.len() > 16);
    file[16] = 1;
    assert!(rt; ends(rt.alloc(), &file, Some(TakeError::NotFlash)));
    Ok(())
}

/// A flash over a file of these bytes.
fn taken(alloc: Global, bytes: Vec<u8>) -> Result<FlashFile<Failing<Bytes>>, TakeError> {
    FlashFile::take(alloc, Failing::new(Bytes::new(bytes)))
}

/// Whether a file holds these pages whose program has ended.
fn leaves(alloc: Global, flash: FlashFile<Failing<Bytes>>, pages: &str) -> bool {
    match taken(alloc, flash.into_file().file.into_vec()) {
        Ok(mut again) => shows(&mut again, pages),
        Err(_) => false,
    }
}

/// Whether a file is as long as these bytes that it is made from, and holds a blank flash.
fn becomes_blank(alloc: Global, used: Vec<u8>) -> bool {
    let bytes = used.len();
    let Ok(file) = blanked(alloc, used) else {
        return false;
    };
    let same = file.len() == bytes;
    match taken(alloc, file) {
        Ok(mut flash) => same && shows(&mut flash, "........"),
        Err(_) => false,
    }
}

#[test]
fn a_used_file_becomes_blank(rt: HostRuntime) -> Result<(), Fail> {
    let used = Vec::from_elem(rt.alloc(), b'x', 5000)?;
    assert!(rt; becomes_blank(rt.alloc(), used));
    Ok(())
}
