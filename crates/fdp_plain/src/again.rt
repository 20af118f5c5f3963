//! A run ends behind a beginning of its entries: the drive takes again what it took, as far as that.

ghost use Rattle.std.specs.Prelude.{◌≡◌, ◌-◌, ◌∷◌, ◌++◌, ◌≤◌, [], true, IfOk, OnErr, OnOk, drop, length, take};
ghost use Rattle.fdp_rules.specs.Legal.{IsLegal};
ghost use Rattle.fdp_rules.specs.Step.{IsStep};
ghost use Rattle.fdp_tables.specs.Starts.{AreStarts, cut};
ghost use Rattle.fdp_plain.specs.Run.{AreLegalBehind, found_of};

use crate::plain::Plain;
use crate::refused::Refused;
use fdp_base::Entry;
use std::alloc::{AllocError, Global};

impl Plain {
    /// As `reopen`, of a run of which a stop lost all entries behind the first `kept`. Where it lost some, the drive takes all entries again, of this run
    /// and of those before it, and stands twice in memory as long.
    pub fn reopen_behind(&mut self, alloc: Global, kept: usize) -> Result<(), AllocError>
        requires { kept ≤ length self.old.entries }
        ensures reopened { OnOk result (self.new ≡ record { config = self.old.config; earlier = self.old.earlier ++ take kept self.old.entries ∷ []; entries = [] }) }
        ensures failed { OnErr result (self.new ≡ self.old) }
    {
        if kept == self.entries().len() {
            return self.reopen(alloc);
        }
        let mut drive = beginning_of(alloc, self, kept)?;
        drive.reopen(alloc)?;
        *self = drive;
        Ok(())
    }
}

/// A drive that took as many runs as this one, and of the last one so many entries.
fn beginning_of(alloc: Global, plain: &Plain, kept: usize) -> Result<Plain, AllocError>
    requires { kept ≤ length plain.now.entries }
    ensures { IfOk result (λ drive. drive ≡ record plain.now { entries = take kept plain.now.entries }) }
{
    let mut drive = Plain::new(alloc, plain.config())?;
    let tables = &plain.kept;
    take_runs(
        alloc,
        &mut drive,
        0,
        tables.starts.as_slice(),
        tables.entries.as_slice(),
    )?;
    take_all(alloc, &mut drive, &plain.entries()[..kept])?;
    Ok(drive)
}

/// The drive takes runs that end before these places among the entries, the first of which begins at `from`.
fn take_runs(
    alloc: Global,
    drive: &mut Plain,
    from: usize,
    starts: &[usize],
    entries: &[Entry],
) -> Result<(), AllocError>
    requires begins { drive.old.entries ≡ [] }
    requires starts { AreStarts from starts.now (length entries.now) }
    requires legal { AreLegalBehind drive.old.config drive.old.earlier (cut from starts.now entries.now) }
    ensures { OnOk result (drive.new ≡ record drive.old { earlier = drive.old.earlier ++ cut from starts.now entries.now }) }
{
    match starts.split_first() {
        Some((to, later)) => {
            take_all(alloc, drive, part(entries, from, *to))?;
            drive.reopen(alloc)?;
            take_runs(alloc, drive, *to, later, entries)
        }
        None => Ok(()),
    }
}

/// The entries from a place up to another.
fn part(entries: &[Entry], from: usize, to: usize) -> &[Entry]
    requires order { from ≤ to }
    requires end { to ≤ length entries.now }
    ensures { result.now ≡ take (to - from) (drop from entries.now) }
{
    &entries[from..to]
}

/// The drive takes all entries of a run.
fn take_all(alloc: Global, drive: &mut Plain, entries: &[Entry]) -> Result<(), AllocError>
    requires begins { drive.old.entries ≡ [] }
    requires legal { IsLegal true drive.old.config (found_of drive.old) entries.now }
    ensures { OnOk result (drive.new ≡ record drive.old { entries = entries.now }) }
{
    for entry in entries {
        take_legal(alloc, drive, entry)?;
    }
    Ok(())
}

fn take_legal(alloc: Global, drive: &mut Plain, entry: &Entry) -> Result<(), AllocError>
    requires { IsStep true drive.old.config (found_of drive.old) drive.old.entries entry.now }
    ensures { OnOk result (drive.new ≡ record drive.old { entries = drive.old.entries ++ entry.now ∷ [] }) }
{
    match drive.take(alloc, entry) {
        Ok(()) => Ok(()),
        Err(Refused::NoMemory) => Err(AllocError),
        // A legal entry is not refused.
        Err(Refused::Illegal { .. }) => unreachable!(),
    }
}
