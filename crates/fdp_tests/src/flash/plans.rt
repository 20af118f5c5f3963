//! Flashes that follow their plans: the answers to the script under a plan, the cells that are left, and how many faults and
//! programs were counted.
use super::{SCRIPT, answers, made, shows};
use fdp_flash::{Flash, FlashMem, Outcome};
use std::alloc::{AllocError, Global};

/// Whether a flash answers the script so, then has these pages, and has counted so many faults and programs.
fn follows(
    made: Result<FlashMem, AllocError>,
    letters: &str,
    cells: &str,
    faults: u64,
    programs: u64,
) -> bool {
    let Ok(mut flash) = made else {
        return false;
    };
    let plays = answers(&mut flash, &SCRIPT, letters) && shows(flash.cells(), cells);
    plays && flash.faults() == faults && flash.programs() == programs
}

/// Whether a flash that keeps so many calls, and has one call fail with this outcome, follows its plan so, with one fault.
fn fails(
    alloc: Global,
    calls: u32,
    call: u64,
    outcome: Outcome,
    letters: &str,
    cells: &str,
    programs: u64,
) -> bool {
    let flash = made(alloc, calls, Some((call, outcome)), None);
    follows(flash, letters, cells, 1, programs)
}

#[test]
fn no_call_fails(rt: HostRuntime) {
    let flash = made(rt.alloc(), 0, None, None);
    assert!(rt; follows(flash, "DDD12DDDD", "5..4....", 0, 4));
}

#[test]
fn calls_behind_the_list_fail(rt: HostRuntime) {
    let flash = made(rt.alloc(), 3, None, None);
    assert!(rt; follows(flash, "DDDFFFF-F", "12..3...", 5, 2));
}

#[test]
fn a_program_fails(rt: HostRuntime) {
    let alloc = rt.alloc();
    assert!(rt; fails(alloc, 0, 2, Outcome::Torn, "DFD1ODDDD", "5..4....", 3));
    assert!(rt; fails(alloc, 0, 2, Outcome::Blank, "DFD1ODDDD", "5..4....", 3));
    assert!(rt; fails(alloc, 0, 2, Outcome::Whole, "DFD12DDDD", "5..4....", 3));
}

#[test]
fn a_look_or_a_fetch_fails(rt: HostRuntime) {
    let alloc = rt.alloc();
    assert!(rt; fails(alloc, 9, 4, Outcome::Torn, "DDDF2DDDD", "5..4....", 4));
    assert!(rt; fails(alloc, 9, 5, Outcome::Torn, "DDD1FDDDD", "5..4....", 4));
}

#[test]
fn an_erase_fails(rt: HostRuntime) {
    let alloc = rt.alloc();
    assert!(rt; fails(alloc, 9, 7, Outcome::Torn, "DDD12DF-D", "~~.4....", 3));
    assert!(rt; fails(alloc, 9, 7, Outcome::Whole, "DDD12DF-D", "12.4....", 3));
    assert!(rt; fails(alloc, 9, 7, Outcome::Blank, "DDD12DFDD", "5..4....", 4));
}

#[test]
fn a_flash_stops(rt: HostRuntime) {
    let flash = made(rt.alloc(), 0, None, Some((6, Outcome::Torn)));
    assert!(rt; follows(flash, "DDD12FF-F", "12.~3...", 3, 2));
}

#[test]
fn a_flash_stops_behind_a_failure(rt: HostRuntime) {
    let failing = Some((6, Outcome::Blank));
    let stop = Some((7, Outcome::Torn));
    let flash = made(rt.alloc(), 9, failing, stop);
    assert!(rt; follows(flash, "DDD12FF-F", "~~..3...", 3, 2));
}
