//! Benches hand out flashes, and take them back.

ghost use Rattle.fdp_base.specs.Geometry.{IsValidGeometry};

use super::failing_at;
use crate::flash::{SMALL, look, program};
use fdp_base::{Geometry, Spot};
use fdp_flash::{Flash, FlashMem, Plan};
use fdp_io::{Bench, BenchFile, BenchMem, NotTaken};
use std::alloc::Global;
use std::fs;
use std::test::Fail;

/// A unit of data more.
const LARGER: Geometry = Geometry {
    block: 512,
    unit_pages: 2,
    groups: 1,
    units: 3,
    area_units: 1,
};

const FIRST: Spot = Spot { unit: 0, page: 0 };

/// Whether a bench hands out no flash of a name, and counts that.
fn refuses<B: Bench>(alloc: Global, bench: &mut B, name: &str) -> bool {
    let before = bench.faults();
    let refused = bench.take_flash(alloc, name, SMALL).err() == Some(NotTaken::Failed);
    refused && bench.faults() == before.saturating_add(1)
}

/// Takes a flash, which is made with this geometry where there is none, fills its first page with sevens and gives it back.
/// Whether it has two units, and its first page had this letter before.
fn uses(alloc: Global, bench: &mut BenchMem, name: &str, geometry: Geometry, first: char) -> bool
    requires { IsValidGeometry geometry }
{
    match bench.take_flash(alloc, name, geometry) {
        Ok(mut flash) => {
            let seen = look(&mut flash, FIRST);
            program(&mut flash, FIRST, b'7');
            let units = flash.geometry().units;
            bench.give_flash(name, flash);
            seen == first && units == 2
        }
        Err(_) => false,
    }
}

/// Lays a blank flash down in the place of what was there, if there is memory.
fn lays_blank(alloc: Global, bench: &mut BenchMem, name: &str) -> bool {
    match FlashMem::new(alloc, SMALL, Plan::empty(alloc)) {
        Ok(flash) => bench.lay_flash(alloc, name, flash).is_ok(),
        Err(_) => false,
    }
}

fn has_flash(bench: &BenchMem, name: &str) -> bool {
    bench.flash(name).is_some()
}

/// Whether a flash is taken, and does not lie there then.
fn takes_out(alloc: Global, bench: &mut BenchMem, name: &str) -> bool {
    bench.take_flash(alloc, name, SMALL).is_ok() && !has_flash(bench, name)
}

#[test]
fn flashes_are_taken_and_given_back(rt: HostRuntime) -> Result<(), Fail> {
    let alloc = rt.alloc();
    let mut bench = failing_at(alloc, 5)?;
    assert!(rt; uses(alloc, &mut bench, "a", SMALL, '.'));
    assert!(rt; uses(alloc, &mut bench, "a", LARGER, '7'));
    assert!(rt; refuses(alloc, &mut bench, "a"));
    assert!(rt; lays_blank(alloc, &mut bench, "a"));
    assert!(rt; uses(alloc, &mut bench, "a", LARGER, '.'));
    assert!(rt; has_flash(&bench, "a") && !has_flash(&bench, "b"));
    assert!(rt; takes_out(alloc, &mut bench, "a"));
    assert!(rt; refuses(alloc, &mut bench, "a") && bench.faults() == 2);
    Ok(())
}

/// Takes the flash of a file, which is made with this geometry where there is none, and gives it back. Whether it has two units.
fn opens<B: Bench>(alloc: Global, bench: &mut B, name: &str, geometry: Geometry) -> bool
    requires { IsValidGeometry geometry }
{
    match bench.take_flash(alloc, name, geometry) {
        Ok(flash) => {
            let units = flash.geometry().units;
            bench.give_flash(name, flash);
            units == 2
        }
        Err(_) => false,
    }
}

const IMAGE: &str = "fdp_io_image";

/// The file of a flash of four units of two pages.
const WHOLE: usize = 32 + 8 + 8 * (32 + 512);

#[test]
fn files_hold_flashes(rt: HostRuntime) -> Result<(), Fail> {
    let alloc = rt.alloc();
    let mut bench = BenchFile::new(alloc, &rt);
    assert!(rt; opens(alloc, &mut bench, IMAGE, SMALL));
    assert!(rt; opens(alloc, &mut bench, IMAGE, LARGER));
    assert!(rt; fs::read(&rt, IMAGE)?.len() == WHOLE);
    fs::remove_file(&rt, IMAGE)?;
    Ok(())
}

const TEXT: &str = "fdp_io_text";

fn writes(rt: &HostRuntime, text: &str) -> bool {
    fs::write(rt, TEXT, text).is_ok()
}

fn is_text(rt: &HostRuntime, text: &str) -> bool {
    match fs::read(rt, TEXT) {
        Ok(bytes) => bytes.as_slice() == text.as_bytes(),
        Err(_) => false,
    }
}

/// Whether a file of this text is refused as a flash, and stays what it is.
fn stays<B: Bench>(rt: &HostRuntime, bench: &mut B, text: &str) -> bool {
    writes(rt, text) && refuses(rt.alloc(), bench, TEXT) && is_text(rt, text)
}

const LONGER_THAN_A_HEAD: &str = "a text that is longer than the head of a flash";

/// Files of text, a folder, a name behind a file, one in no folder, and a file that is no plain one.
#[test]
fn others_are_no_flashes(rt: HostRuntime) -> Result<(), Fail> {
    let alloc = rt.alloc();
    let mut bench = BenchFile::new(alloc, &rt);
    assert!(rt; stays(&rt, &mut bench, ""));
    assert!(rt; stays(&rt, &mut bench, "FDPFLASH"));
    assert!(rt; stays(&rt, &mut bench, LONGER_THAN_A_HEAD));
    assert!(rt; refuses(alloc, &mut bench, "."));
    assert!(rt; refuses(alloc, &mut bench, "fdp_io_text/under"));
    assert!(rt; refuses(alloc, &mut bench, "fdp_io_no_folder/image"));
    assert!(rt; refuses(alloc, &mut bench, "/dev/null"));
    fs::remove_file(&rt, TEXT)?;
    Ok(())
}
