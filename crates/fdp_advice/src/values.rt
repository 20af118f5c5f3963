use fdp_base::{Geometry, LONGEST_CONFIG};
use fdp_config::read_config;
use fdp_flash::Flash;
use fdp_flash_file::FlashFile;
use fdp_io::{Bench, BenchFile, TextRead};
use std::alloc::Global;
use std::fs::File;
use std::rt::Files;

/// What an image was made with at a key, and what a configuration asks for there.
#[derive(Clone, Copy)]
pub struct Values {
    pub made: u32,
    pub asked: u32,
}

/// Looks both up, where the head of an image has that key, and the words name a configuration.
pub fn values_at<R: Files<File = File> + Eprint>(
    files: &R,
    alloc: Global,
    key: &str,
    config: &str,
    image: &str,
) -> Option<Values> {
    let made = size_at(made_with(files, alloc, image)?, key)?;
    let asked = size_at(asked_for(files, alloc, config)?, key)?;
    Some(Values { made, asked })
}

/// The geometry in the head of an image.
fn made_with<R: Files<File = File>>(files: &R, alloc: Global, image: &str) -> Option<Geometry> {
    let file = File::open(files, image).ok()?;
    let flash = FlashFile::take(alloc, file).ok()?;
    Some(flash.geometry())
}

/// The geometry that a configuration asks for.
fn asked_for<R: Files<File = File> + Eprint>(
    files: &R,
    alloc: Global,
    config: &str,
) -> Option<Geometry> {
    let mut bench = BenchFile::new(alloc, files);
    let mut text = Vec::new(alloc);
    match bench.read_text(config, &mut text, LONGEST_CONFIG) {
        TextRead::Done => {}
        _ => return None,
    }
    let config = read_config(alloc, text.as_slice()).ok()?;
    Some(config.geometry())
}

/// The size that a geometry has under a key of configurations.
fn size_at(geometry: Geometry, key: &str) -> Option<u32> {
    match key {
        "block" => Some(geometry.block),
        "unit_pages" => Some(geometry.unit_pages),
        "groups" => Some(u32::from(geometry.groups)),
        "units" => Some(geometry.units),
        "area_units" => Some(geometry.area_units),
        _ => None,
    }
}
