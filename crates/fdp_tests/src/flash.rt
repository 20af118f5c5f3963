mod images;
mod plans;

use fdp_base::{Geometry, Sequence, Spot};
use fdp_flash::{Cell, Fetched, Flash, FlashMem, Outcome, Plan, Seen, Wrote, erase_area};
use std::alloc::{AllocError, Global};

/// Two units of data and two of system areas, of two pages each.
pub const SMALL: Geometry = Geometry {
    block: 512,
    unit_pages: 2,
    groups: 1,
    units: 2,
    area_units: 1,
};

#[derive(Clone, Copy)]
enum Step {
    /// The page of a unit, and the byte that fills it and its spare.
    Program(u32, u32, u8),
    Look(u32, u32),
    Fetch(u32, u32, u8),
    Erase(u32),
}

const SCRIPT: [Step; 9] = [
    Step::Program(0, 0, b'1'),
    Step::Program(0, 1, b'2'),
    Step::Program(2, 0, b'3'),
    Step::Look(0, 0),
    Step::Fetch(0, 1, b'2'),
    Step::Program(1, 1, b'4'),
    Step::Erase(0),
    Step::Program(0, 0, b'5'),
    Step::Erase(2),
];

/// Programs a page, where the flash allows it, and names the answer by a letter.
pub fn program(flash: &mut FlashMem, at: Spot, fill: u8) -> char {
    if flash.geometry().block != 512 || !flash.has_place(at) || !flash.has_room(at) {
        return '-';
    }
    letter_of(flash.program(at, &[fill; 32], &[fill; 512]))
}

/// Looks at a page, where there is one, and names the answer by a letter: of a whole page its last byte.
pub fn look(flash: &mut FlashMem, at: Spot) -> char {
    if flash.geometry().block != 512 || !flash.has_place(at) {
        return '-';
    }
    let mut bytes = [0; 512];
    match flash.look(at, &mut [0; 32], &mut bytes) {
        Seen::Whole => bytes[511] as char,
        Seen::Blank => '.',
        Seen::Torn => '~',
        Seen::Failed => 'F',
    }
}

/// Fetches a page, where there is one, and names the answer by a letter: of a whole page its first byte.
fn fetch(flash: &mut FlashMem, at: Spot, fill: u8) -> char {
    if flash.geometry().block != 512 || !flash.has_place(at) {
        return '-';
    }
    let mut bytes = [0; 512];
    match flash.fetch(at, &[fill; 32], &mut bytes) {
        Fetched::Whole => bytes[0] as char,
        Fetched::Other => 'O',
        Fetched::Failed => 'F',
    }
}

/// Erases a unit, where there is one, and names the answer by a letter.
fn erase(flash: &mut FlashMem, unit: u32) -> char {
    if !flash.has_place(Spot { unit, page: 0 }) {
        return '-';
    }
    letter_of(flash.erase(unit))
}

fn letter_of(wrote: Wrote) -> char {
    match wrote {
        Wrote::Done => 'D',
        Wrote::Failed => 'F',
    }
}

/// Makes the call of a step, where the flash allows it, and names its answer by a letter.
fn perform(flash: &mut FlashMem, step: Step) -> char {
    match step {
        Step::Program(unit, page, fill) => program(flash, Spot { unit, page }, fill),
        Step::Look(unit, page) => look(flash, Spot { unit, page }),
        Step::Fetch(unit, page, fill) => fetch(flash, Spot { unit, page }, fill),
        Step::Erase(unit) => erase(flash, unit),
    }
}

/// Makes the calls of the steps, where the flash allows them.
fn play(flash: &mut FlashMem, steps: &[Step]) {
    for step in steps {
        perform(flash, *step);
    }
}

/// Whether a flash answers the steps so, by their letters.
fn answers(flash: &mut FlashMem, steps: &[Step], letters: &str) -> bool {
    let mut letters = letters.chars();
    for step in steps {
        if letters.next() != Some(perform(flash, *step)) {
            return false;
        }
    }
    letters.next().is_none()
}

/// A page by its letter: a dot is blank, a tilde torn, and a whole page its first byte.
fn letter_in(cell: &Cell) -> char {
    match cell {
        Cell::Blank => '.',
        Cell::Torn => '~',
        Cell::Whole { spare, bytes: _ } => spare[31] as char,
    }
}

/// Whether pages have these letters.
fn shows(cells: &[Cell], letters: &str) -> bool {
    let mut letters = letters.chars();
    for cell in cells {
        if letters.next() != Some(letter_in(cell)) {
            return false;
        }
    }
    letters.next().is_none()
}

/// The one failure of a plan, if there is one.
fn failures(
    alloc: Global,
    failing: Option<(u64, Outcome)>,
) -> Result<Sequence<(u64, Outcome)>, AllocError> {
    let mut failures = Vec::new(alloc);
    if let Some(failure) = failing {
        failures.push(failure)?;
    }
    Ok(Sequence::from_vec(failures))
}

/// A flash that keeps so many calls, and has this call fail and stops with this one.
fn made(
    alloc: Global,
    calls: u32,
    failing: Option<(u64, Outcome)>,
    stop: Option<(u64, Outcome)>,
) -> Result<FlashMem, AllocError> {
    let failing = failures(alloc, failing)?;
    FlashMem::new(
        alloc,
        SMALL,
        Plan {
            calls,
            failing,
            stop,
        },
    )
}

/// Whether a flash answers the steps so, and then has these pages.
fn plays(made: Result<FlashMem, AllocError>, steps: &[Step], letters: &str, cells: &str) -> bool {
    match made {
        Ok(mut flash) => answers(&mut flash, steps, letters) && shows(flash.cells(), cells),
        Err(_) => false,
    }
}

const TORN: [Step; 8] = [
    Step::Program(2, 0, b'6'),
    Step::Program(3, 0, b'7'),
    Step::Look(3, 0),
    Step::Look(3, 1),
    Step::Fetch(3, 0, b'7'),
    Step::Fetch(2, 0, b'7'),
    Step::Program(2, 0, b'8'),
    Step::Look(4, 0),
];

/// A page that was skipped stays blank, and is not programmed before its unit is erased.
const SKIPPED: [Step; 8] = [
    Step::Program(1, 1, b'4'),
    Step::Program(1, 0, b'5'),
    Step::Look(1, 0),
    Step::Fetch(1, 1, b'4'),
    Step::Program(1, 1, b'6'),
    Step::Erase(1),
    Step::Program(1, 0, b'7'),
    Step::Look(1, 0),
];

#[test]
fn torn_pages(rt: HostRuntime) {
    let made = made(rt.alloc(), 0, Some((2, Outcome::Torn)), None);
    assert!(rt; plays(made, &TORN, "DF~.OO--", "....6.~."));
}

#[test]
fn skipped_pages(rt: HostRuntime) {
    let made = made(rt.alloc(), 0, None, None);
    assert!(rt; plays(made, &SKIPPED, "D-.4-DD7", "..7....."));
}

/// Erases the area of both units at the end, where there are these.
fn erase_end(flash: &mut FlashMem) -> Wrote {
    if !flash.has_place(Spot { unit: 3, page: 0 }) {
        return Wrote::Failed;
    }
    erase_area(flash, 2, 2)
}

/// Whether the area of both units at the end is blank once it is erased.
fn erases_an_area(made: Result<FlashMem, AllocError>) -> bool {
    match made {
        Ok(mut flash) => {
            play(&mut flash, &TORN);
            erase_end(&mut flash) == Wrote::Done && shows(flash.cells(), "........")
        }
        Err(_) => false,
    }
}

#[test]
fn areas(rt: HostRuntime) {
    assert!(rt; erases_an_area(made(rt.alloc(), 0, None, None)));
}
