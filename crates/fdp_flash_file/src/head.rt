//! The head of the file, 32 bytes. Each number is of 32 bits, its lowest byte first.
//!
//! | Bytes | What |
//! |---|---|
//! | 0 to 7 | `FDPFLASH` |
//! | 8 to 11 | the version of the layout, 1 |
//! | 12 to 15 | bytes of a block |
//! | 16 to 19 | pages of a unit |
//! | 20 to 23 | reclaim groups |
//! | 24 to 27 | data units of a group |
//! | 28 to 31 | units of a system area |
ghost use Rattle.std.specs.Prelude.{◌≡◌, ◌≢◌, ◌↔◌, ◌<◌, ◌^◌, IsTrue, IfOk, IfSome, None};
ghost use Rattle.fdp_base.specs.Geometry.{IsValidGeometry, all_units};
ghost use Rattle.fdp_base.specs.declared.config.Geometry.{Geometry};
ghost use Rattle.fdp_flash_file.specs.Head.{head_numbers};

use fdp_base::Geometry;
use std::io;
use std::io::{Read, Write};
use std::os::unix::fs::FileExt;

/// How long the head is.
pub const HEAD_BYTES: usize = 32;

const NAME: [u8; 8] = *b"FDPFLASH";

const VERSION: u32 = 1;

/// Writes the head of a flash with this geometry, in one call.
pub fn write_head<S: FileExt>(file: &S, geometry: Geometry) -> io::Result<()> {
    let mut head = [0; HEAD_BYTES];
    let mut rest = &mut head[..];
    rest.write_all(&NAME)?;
    for number in numbers_of(geometry) {
        rest.write_all(&number.to_le_bytes())?;
    }
    file.write_all_at(&head, 0)
}

/// Reads the head of a file, in one call, and gives the geometry that it tells, if it is the head of a flash.
pub fn read_head<S: FileExt>(file: &S) -> io::Result<Option<Geometry>>
    ensures { IfOk result (λ told. IfSome told (λ geometry. IsValidGeometry geometry)) }
{
    let mut head = [0; HEAD_BYTES];
    file.read_exact_at(&mut head, 0)?;
    let mut rest = &head[..];
    let mut name = [0; 8];
    rest.read_exact(&mut name)?;
    let mut numbers = [0; 6];
    for number in &mut numbers {
        let mut bytes = [0; 4];
        rest.read_exact(&mut bytes)?;
        *number = u32::from_le_bytes(bytes);
    }
    if name != NAME {
        return Ok(None);
    }
    Ok(geometry_of(numbers))
}

/// The numbers of the head behind its name.
pub fn numbers_of(geometry: Geometry) -> [u32; 6]
    ensures { result ≡ head_numbers geometry }
{
    [
        VERSION,
        geometry.block,
        geometry.unit_pages,
        u32::from(geometry.groups),
        geometry.units,
        geometry.area_units,
    ]
}

/// The geometry that the numbers of a head tell, if a flash may have it.
pub fn geometry_of(numbers: [u32; 6]) -> Option<Geometry>
    ensures valid { IfSome result (λ geometry. IsValidGeometry geometry) }
    ensures told { IfSome result (λ geometry. numbers ≡ head_numbers geometry) }
    ensures none { result ≡ None → (geometry : Geometry) → geometry.groups < 2 ^ 16 → IsValidGeometry geometry → numbers ≢ head_numbers geometry }
{
    let [version, block, unit_pages, groups, units, area_units] = numbers;
    let Ok(groups) = u16::try_from(groups) else {
        return None;
    };
    let geometry = Geometry {
        block,
        unit_pages,
        groups,
        units,
        area_units,
    };
    if version == VERSION && is_valid_geometry(geometry) {
        Some(geometry)
    } else {
        None
    }
}

/// Whether a flash may have this geometry.
pub fn is_valid_geometry(geometry: Geometry) -> bool
    ensures { IsTrue result ↔ IsValidGeometry geometry }
{
    (geometry.block == 512 || geometry.block == 4096)
        && 2 <= geometry.unit_pages
        && geometry.unit_pages <= 256
        && u64::from(geometry.unit_pages) * unit_total(geometry) <= 262_144
}

fn unit_total(geometry: Geometry) -> u64
    ensures value { result ≡ all_units geometry }
    ensures bound { result < 2 ^ 49 }
{
    let data = u64::from(geometry.groups) * u64::from(geometry.units);
    data + 2 * u64::from(geometry.area_units)
}
