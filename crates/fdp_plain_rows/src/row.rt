//! The rows of the table.
ghost use Rattle.fdp_base.specs.Config.{IsValidConfig};

use crate::long::{close_units, relocate};
use crate::play::{Answer, play};
use crate::words::Words;
use fdp_base::DriveConfig;
use fdp_drives::{drive_s, drive_t, empty_drive_s, small_drive_t};
use fdp_plain::Plain;
use std::alloc::{AllocError, Global};

/// What a row is answered.
pub fn answer_row(alloc: Global, plain: &mut Plain, row: &str) -> Result<Answer, AllocError> {
    if row.is_empty() || row.starts_with('#') {
        return Ok(Answer::Taken);
    }
    let mut words = Words::of(row);
    match words.word() {
        "drive" => begin_anew(alloc, plain, row),
        "relocate" => relocate(alloc, plain, words.number32()),
        "close-units" => close_units(alloc, plain),
        "entries" => Ok(Answer::Counted(plain.entries().len())),
        "reopen" => reopen(alloc, plain),
        _ => play(alloc, plain, row),
    }
}

/// The run ends, and the next one on the same image begins.
fn reopen(alloc: Global, plain: &mut Plain) -> Result<Answer, AllocError> {
    plain.reopen(alloc)?;
    Ok(Answer::Taken)
}

/// A drive of this name takes the place of the one that is there.
fn begin_anew(alloc: Global, plain: &mut Plain, row: &str) -> Result<Answer, AllocError> {
    match row {
        "drive s" => begin(alloc, plain, &drive_s(alloc)?),
        "drive s without a namespace" => begin(alloc, plain, &empty_drive_s(alloc)?),
        "drive t" => begin(alloc, plain, &drive_t(alloc)?),
        "drive t with a small namespace" => begin(alloc, plain, &small_drive_t(alloc)?),
        _ => Ok(Answer::Unread),
    }
}

fn begin(alloc: Global, plain: &mut Plain, config: &DriveConfig) -> Result<Answer, AllocError>
    requires { IsValidConfig config.now }
{
    *plain = Plain::new(alloc, config)?;
    Ok(Answer::Taken)
}
