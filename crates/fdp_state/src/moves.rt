//! The pages that a relocation moved, and where to.

ghost use Rattle.std.specs.Prelude.{◌≡◌, ◌*◌, ◌<◌, ◌++◌, length, nat_lt, zip, IfOk, IfSome, OnOk, [], ◌∷◌, if◌then◌else◌};
ghost use Rattle.fdp_records.specs.declared.change.UnitPages.{UnitPages as Pages};
ghost use Rattle.std.specs.List.{list_all};
ghost use Rattle.fdp_base.specs.Config.{IsInRange};
ghost use Rattle.fdp_base.specs.Geometry.{data_units};
ghost use Rattle.fdp_base.specs.Placement.{geometry_of};
ghost use Rattle.fdp_records.specs.Records.{target_or_none};
ghost use Rattle.fdp_image.specs.Bits.{is_bit_set};
ghost use Rattle.fdp_image.specs.Changed.{moves_of, page_numbers};
ghost use Rattle.fdp_image.specs.Fits.{are_of_data_unit};

use fdp_base::DriveConfig;
use fdp_records::{PageSet, UnitPages};
use std::alloc::{AllocError, Global};

/// The numbers of some pages of a data unit.
pub fn page_numbers(
    alloc: Global,
    config: &DriveConfig,
    x: &UnitPages,
) -> Result<Vec<u32>, AllocError>
    requires config { IsInRange config.now }
    requires unit { x.now.unit < data_units (geometry_of config.now) }
    ensures { IfOk result (λ v. v.items ≡ page_numbers config.now x.now) }
{
    let mut numbers = Vec::new(alloc);
    let most = most_pages(&x.pages.bits);
    for page in 0..most {
        push_if_set(
            &mut numbers,
            &x.pages,
            page,
            x.unit * config.unit_pages + page,
        )?;
    }
    Ok(numbers)
}

/// How many pages a set may have.
fn most_pages(bits: &[u8; 32]) -> u32
    ensures value { result ≡ 8 * length bits.now }
    ensures bound { result ≡ 256 }
{
    8 * bits.len() as u32
}

fn push_if_set(
    numbers: &mut Vec<u32>,
    set: &PageSet,
    page: u32,
    number: u32,
) -> Result<(), AllocError>
    requires { page < 256 }
    ensures { OnOk result (numbers.new.items ≡ numbers.old.items ++ (if is_bit_set set.now.bits page then number ∷ [] else [])) }
{
    if is_bit_set(set, page) {
        numbers.push(number)?;
    }
    Ok(())
}

fn is_bit_set(set: &PageSet, page: u32) -> bool
    requires { page < 256 }
    ensures { result ≡ is_bit_set set.now.bits page }
{
    set.bits[page as usize / 8] >> (page % 8) & 1 == 1
}

/// Whether a unit is a data unit, and these pages are of it.
pub fn are_of_data_unit(
    alloc: Global,
    config: &DriveConfig,
    x: &UnitPages,
) -> Result<bool, AllocError>
    requires { IsInRange config.now }
    ensures { IfOk result (λ good. good ≡ are_of_data_unit config.now x.now) }
{
    if x.unit >= config.geometry().data_units() {
        return Ok(false);
    }
    let end = (x.unit + 1) * config.unit_pages;
    let numbers = page_numbers(alloc, config, x)?;
    Ok(are_below(numbers.as_slice(), end))
}

fn are_below(numbers: &[u32], end: u32) -> bool
    ensures { result ≡ list_all (λ number. nat_lt number end) numbers.now }
{
    numbers.iter().all(|number| *number < end)
}

/// Each page that was moved with its new one.
pub fn moves_of(
    alloc: Global,
    config: &DriveConfig,
    victim: &UnitPages,
    first: &UnitPages,
    second: &Option<UnitPages>,
) -> Result<Vec<(u32, u32)>, AllocError>
    requires config { IsInRange config.now }
    requires victim { victim.now.unit < data_units (geometry_of config.now) }
    requires first { first.now.unit < data_units (geometry_of config.now) }
    requires second { IfSome second.now (λ (t : Pages). t.unit < data_units (geometry_of config.now)) }
    ensures { IfOk result (λ v. v.items ≡ moves_of config.now victim.now first.now second.now) }
{
    let from = page_numbers(alloc, config, victim)?;
    let mut to = page_numbers(alloc, config, first)?;
    push_second(alloc, config, &mut to, second)?;
    let mut moves = Vec::new(alloc);
    push_moves(&mut moves, from.as_slice(), to.as_slice())?;
    Ok(moves)
}

/// Pushes the numbers of the pages of a second target, if there is one.
fn push_second(
    alloc: Global,
    config: &DriveConfig,
    to: &mut Vec<u32>,
    second: &Option<UnitPages>,
) -> Result<(), AllocError>
    requires config { IsInRange config.now }
    requires second { IfSome second.now (λ (t : Pages). t.unit < data_units (geometry_of config.now)) }
    ensures { OnOk result (to.new.items ≡ to.old.items ++ page_numbers config.now (target_or_none second.now)) }
{
    match second {
        Some(second) => {
            let more = page_numbers(alloc, config, second)?;
            to.extend_from_slice(more.as_slice())
        }
        None => Ok(()),
    }
}

/// Pushes each page with its new one.
fn push_moves(moves: &mut Vec<(u32, u32)>, from: &[u32], to: &[u32]) -> Result<(), AllocError>
    ensures { OnOk result (moves.new.items ≡ moves.old.items ++ zip from.now to.now) }
{
    match from.split_first() {
        Some((old, from)) => match to.split_first() {
            Some((new, to)) => {
                moves.push((*old, *new))?;
                push_moves(moves, from, to)
            }
            None => Ok(()),
        },
        None => Ok(()),
    }
}
