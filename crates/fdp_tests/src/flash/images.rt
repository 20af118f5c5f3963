//! What a stop leaves.
use super::{SCRIPT, SMALL, Step, made, perform, play};
use fdp_flash::{Cell, FlashMem, Outcome, Plan};
use std::alloc::{AllocError, Global};
use std::test::Fail;

/// Whether the pages of a flash have these letters, as looks tell them.
fn looks_so(flash: &mut FlashMem, letters: &str) -> bool {
    let mut letters = letters.chars();
    for page in 0..8 {
        if letters.next() != Some(perform(flash, Step::Look(page / 2, page % 2))) {
            return false;
        }
    }
    letters.next().is_none()
}

/// Whether a flash that really stops in the script has just these cells.
fn stops_with(mut flash: FlashMem, image: &[Cell]) -> bool {
    play(&mut flash, &SCRIPT);
    flash.cells() == image
}

/// Whether that holds of a flash that stops in this call.
fn is_left(alloc: Global, moment: u64, outcome: Outcome, image: &[Cell]) -> bool {
    match made(alloc, 0, None, Some((moment, outcome))) {
        Ok(flash) => stops_with(flash, image),
        Err(_) => false,
    }
}

/// Whether a flash that goes on with an image has pages of these letters.
fn goes_on(alloc: Global, image: Vec<Cell>, pages: &str) -> bool {
    if !FlashMem::are_cells(SMALL, image.as_slice()) {
        return false;
    }
    match FlashMem::of_cells(alloc, SMALL, image, Plan::empty(alloc)) {
        Ok(mut next) => looks_so(&mut next, pages),
        Err(_) => false,
    }
}

/// The image of a stop, or nothing where the flash has not recorded the call.
fn image_after(
    alloc: Global,
    flash: &FlashMem,
    moment: u64,
    outcome: Outcome,
) -> Result<Vec<Cell>, AllocError> {
    if !flash.has_recorded(moment) {
        return Ok(Vec::new(alloc));
    }
    flash.image_at(alloc, moment, outcome)
}

/// Whether a stop in a call leaves this, as its image tells it and as a flash that really stopped there has it.
fn leaves(alloc: Global, flash: &FlashMem, moment: u64, outcome: Outcome, pages: &str) -> bool {
    match image_after(alloc, flash, moment, outcome) {
        Ok(image) => {
            is_left(alloc, moment, outcome, image.as_slice()) && goes_on(alloc, image, pages)
        }
        Err(_) => false,
    }
}

/// Whether a stop in a call leaves this with each outcome.
fn leave(
    alloc: Global,
    flash: &FlashMem,
    moment: u64,
    blank: &str,
    torn: &str,
    whole: &str,
) -> bool {
    leaves(alloc, flash, moment, Outcome::Blank, blank)
        && leaves(alloc, flash, moment, Outcome::Torn, torn)
        && leaves(alloc, flash, moment, Outcome::Whole, whole)
}

/// A flash that records the calls of the script.
fn recorded(alloc: Global) -> Result<FlashMem, AllocError> {
    match made(alloc, 9, None, None) {
        Ok(mut flash) => {
            play(&mut flash, &SCRIPT);
            Ok(flash)
        }
        Err(error) => Err(error),
    }
}

#[test]
fn images_are_what_a_stop_leaves(rt: HostRuntime) -> Result<(), Fail> {
    let alloc = rt.alloc();
    let flash = recorded(alloc)?;
    assert!(rt; leave(alloc, &flash, 1, "........", "~.......", "1......."));
    assert!(rt; leave(alloc, &flash, 2, "1.......", "1~......", "12......"));
    assert!(rt; leave(alloc, &flash, 3, "12......", "12..~...", "12..3..."));
    assert!(rt; leave(alloc, &flash, 4, "12..3...", "12..3...", "12..3..."));
    assert!(rt; leave(alloc, &flash, 5, "12..3...", "12..3...", "12..3..."));
    assert!(rt; leave(alloc, &flash, 6, "12..3...", "12.~3...", "12.43..."));
    assert!(rt; leave(alloc, &flash, 7, "...43...", "~~.43...", "12.43..."));
    assert!(rt; leave(alloc, &flash, 8, "...43...", "~..43...", "5..43..."));
    assert!(rt; leave(alloc, &flash, 9, "5..4....", "5..4~~..", "5..43..."));
    Ok(())
}

#[test]
fn other_calls_are_not_recorded(rt: HostRuntime) -> Result<(), Fail> {
    let flash = recorded(rt.alloc())?;
    assert!(rt; !flash.has_recorded(0));
    assert!(rt; !flash.has_recorded(10));
    Ok(())
}
