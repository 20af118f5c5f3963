//! Calls of a file that fail, disks that are full, and programs that end between two calls.

use super::files::{Bytes, Failing};
use super::{Step, blank_file, leaves, letter_at, perform, shows, taken};
use fdp_flash::Flash;
use fdp_flash_file::{FlashFile, TakeError};
use std::alloc::Global;
use std::test::Fail;

/// A blank flash.
fn blank(alloc: Global) -> Result<FlashFile<Failing<Bytes>>, TakeError> {
    taken(alloc, blank_file(alloc)?)
}

/// A flash whose first unit has two pages, 1 and 2.
fn with_pages(alloc: Global) -> Result<FlashFile<Failing<Bytes>>, TakeError> {
    let mut flash = blank(alloc)?;
    perform(&mut flash, Step::Program(0, 0, b'1'), 0);
    perform(&mut flash, Step::Program(0, 1, b'2'), 0);
    Ok(flash)
}

/// Whether a flash has made one call, and counted so many faults and programs.
fn has_counted<F: Flash>(flash: &F, faults: u64, programs: u64) -> bool {
    flash.faults() == faults && flash.programs() == programs && flash.moment() == 1
}

/// Whether a program of a page whose given call of the file fails has this answer, counts this, and leaves the page so.
fn counts(
    alloc: Global,
    failing: u32,
    answer: char,
    faults: u64,
    programs: u64,
    page: char,
) -> bool {
    let Ok(mut flash) = blank(alloc) else {
        return false;
    };
    let told = perform(&mut flash, Step::Program(0, 0, b'1'), failing);
    let counted = has_counted(&flash, faults, programs);
    flash.file().calls.set(0);
    told == answer && counted && letter_at(&mut flash, 0) == page
}

#[test]
fn failed_file_calls_are_counted(rt: HostRuntime) {
    assert!(rt; counts(rt.alloc(), 1, 'F', 1, 0, '.'));
    assert!(rt; counts(rt.alloc(), 2, 'F', 1, 0, '.'));
    assert!(rt; counts(rt.alloc(), 3, 'D', 0, 1, '1'));
}

/// Whether a program that ends in its given call of the file, where it fills an erased page again, leaves these pages.
fn stops(alloc: Global, failing: u32, pages: &str) -> bool {
    let Ok(mut flash) = with_pages(alloc) else {
        return false;
    };
    perform(&mut flash, Step::Erase(0), 0);
    flash.file().stopped.set(true);
    perform(&mut flash, Step::Program(0, 0, b'3'), failing);
    leaves(alloc, flash, pages)
}

/// A program that ends before its first call of the file, between its two calls, and behind them: the page is as it was,
/// and never whole with the bytes that stood there before.
#[test]
fn a_stop_leaves_a_page_as_it_was(rt: HostRuntime) {
    assert!(rt; stops(rt.alloc(), 1, "........"));
    assert!(rt; stops(rt.alloc(), 2, "........"));
    assert!(rt; stops(rt.alloc(), 0, "3......."));
}

/// Whether a step on a disk with room for so many bytes has this answer, and leaves these pages to the flash and in the file.
fn fits(alloc: Global, room: usize, step: Step, answer: char, pages: &str) -> bool {
    let Ok(mut flash) = with_pages(alloc) else {
        return false;
    };
    flash.file().room.set(room);
    let told = perform(&mut flash, step, 0);
    told == answer && shows(&mut flash, pages) && leaves(alloc, flash, pages)
}

const MORE: Step = Step::Program(2, 0, b'5');

/// The disk is full before a page, in it, in the end of it, before its state, and behind that.
#[test]
fn a_full_disk_leaves_a_page_blank(rt: HostRuntime) {
    assert!(rt; fits(rt.alloc(), 0, MORE, 'F', "12......"));
    assert!(rt; fits(rt.alloc(), 1, MORE, 'F', "12......"));
    assert!(rt; fits(rt.alloc(), 543, MORE, 'F', "12......"));
    assert!(rt; fits(rt.alloc(), 544, MORE, 'F', "12......"));
    assert!(rt; fits(rt.alloc(), 545, MORE, 'D', "12..5..."));
}

/// An erase that fails has made one of two pages blank, or none.
#[test]
fn a_failed_erase_leaves_what_the_file_says(rt: HostRuntime) {
    assert!(rt; fits(rt.alloc(), 0, Step::Erase(0), 'F', "12......"));
    assert!(rt; fits(rt.alloc(), 1, Step::Erase(0), 'F', ".2......"));
    assert!(rt; fits(rt.alloc(), 2, Step::Erase(0), 'D', "........"));
}

/// Whether the pages of an erase that fails count as torn where their states cannot be read again either.
fn are_torn_unread(alloc: Global) -> bool {
    let Ok(mut flash) = with_pages(alloc) else {
        return false;
    };
    flash.file().stopped.set(true);
    perform(&mut flash, Step::Erase(0), 1);
    flash.file().calls.set(0);
    shows(&mut flash, "~~......")
}

#[test]
fn states_that_cannot_be_read_are_torn(rt: HostRuntime) {
    assert!(rt; are_torn_unread(rt.alloc()));
}

/// The file of a flash with a state of 2, and one that stands for nothing.
fn torn_file(alloc: Global) -> Result<Vec<u8>, TakeError> {
    let mut bytes = blank_file(alloc)?;
    if bytes.len() > 36 {
        bytes[33] = 2;
        bytes[36] = 7;
    }
    Ok(bytes)
}

/// Whether such pages are torn, and an erase makes them blank.
fn are_torn_until_erased(alloc: Global, bytes: Vec<u8>) -> bool {
    let Ok(mut flash) = taken(alloc, bytes) else {
        return false;
    };
    let torn = shows(&mut flash, ".~..~...");
    perform(&mut flash, Step::Erase(0), 0);
    torn && leaves(alloc, flash, "....~...")
}

#[test]
fn torn_pages_of_a_file_are_torn(rt: HostRuntime) -> Result<(), Fail> {
    assert!(rt; are_torn_until_erased(rt.alloc(), torn_file(rt.alloc())?));
    Ok(())
}
