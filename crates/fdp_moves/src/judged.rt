//! What a drive has come to in the end.
ghost use Rattle.fdp_base.specs.Config.{IsValidConfig};

use crate::drive::Drive;
use crate::play::Came;
use crate::played::Left;
use fdp_base::{DriveConfig, Entry, Status, Totals};
use fdp_flash::Flash;
use std::alloc::{AllocError, Global};

/// The history of a drive judged by the plain drive, with the sums of the flash and of the history.
#[derive(Clone, Copy)]
pub struct Judged {
    /// The entries of the drive that began on a blank flash.
    pub entries: usize,
    /// How many of them, from the first on, the plain drive takes.
    pub taken: usize,
    /// Those since the drive was opened again, with which the plain drive cannot begin.
    pub later: usize,
    pub programs: u64,
    pub faults: u64,
    pub totals: Totals,
    /// The least and the most erases of a unit.
    pub erases: (u64, u64),
}

/// Judges what is left of a drive.
pub fn judge<D: Drive>(
    alloc: Global,
    config: &DriveConfig,
    left: &Left,
) -> Result<Judged, AllocError>
    requires { IsValidConfig config.now }
{
    let units = u32::from(config.groups).wrapping_mul(config.units);
    let begun = before_reopening(&left.entries);
    Ok(Judged {
        entries: begun.len(),
        taken: D::taken(alloc, config, begun)?,
        later: left.entries.len().saturating_sub(begun.len()),
        programs: left.flash.programs(),
        faults: left.flash.faults(),
        totals: left.totals,
        erases: erases_of(alloc, &left.entries, units)?,
    })
}

/// The entries up to the first opening of a flash that was not blank.
fn before_reopening(entries: &[Entry]) -> &[Entry] {
    for (place, entry) in entries.iter().enumerate() {
        if let Entry::Reopened = entry {
            return &entries[..place];
        }
    }
    entries
}

/// The least and the most erases of so many units.
fn erases_of(alloc: Global, entries: &[Entry], units: u32) -> Result<(u64, u64), AllocError> {
    let mut erases = vec![in alloc; 0u64; units as usize]?;
    for entry in entries {
        if let Entry::Erased(erased) = entry {
            count_at(&mut erases, erased.unit);
        }
    }
    let least = erases.iter().copied().min().unwrap_or(0);
    let most = erases.iter().copied().max().unwrap_or(0);
    Ok((least, most))
}

fn count_at(counts: &mut [u64], unit: u32) {
    if let Some(count) = counts.get_mut(unit as usize) {
        *count = count.saturating_add(1);
    }
}

impl Judged {
    fn history_text(&self, alloc: Global) -> Result<String, AllocError> {
        let taken = format!(in alloc; "{} of {} entries taken", self.taken, self.entries)?;
        if self.later == 0 {
            Ok(taken)
        } else {
            format!(in alloc; "{taken}, {} later", self.later)
        }
    }

    pub fn text(&self, alloc: Global) -> Result<String, AllocError> {
        let history = self.history_text(alloc)?;
        let flash = format!(in alloc; "{} programs, {} faults", self.programs, self.faults)?;
        let (least, most) = self.erases;
        format!(in alloc;
            "{history}; {flash}; {} blocks of the host, {} of the media, {} erases, {least} to {most} of a unit",
            self.totals.host_blocks, self.totals.media_blocks, self.totals.erases
        )
    }
}

/// Copies of the first so many entries.
pub fn first_of(alloc: Global, entries: &[Entry], count: usize) -> Result<Vec<Entry>, AllocError> {
    let mut copies = Vec::new(alloc);
    for entry in entries.iter().take(count) {
        copies.push(entry.clone()?)?;
    }
    Ok(copies)
}

/// The status of a command that was completed.
pub fn status_of(came: &Came) -> Option<Status> {
    match came {
        Came::Done(reply) => Some(reply.status),
        Came::Nothing | Came::Advanced(_) => None,
    }
}
