ghost use Rattle.std.specs.Prelude.{◌≡◌, ◌∷◌, ◌++◌, true, [], drop, IfOk, OnErr, OnOk};
ghost use Rattle.fdp_base.specs.Config.{IsValidConfig};
ghost use Rattle.fdp_rules.specs.Legal.{IsLegal};
ghost use Rattle.fdp_plain.specs.Run.{found_of};

use crate::reopen::reopen;
use fdp_base::{DriveConfig, Entry};
use fdp_tables::Kept;
use std::alloc::{AllocError, Global};
use std::marker::Model;

/// A drive that took the entries of a legal history, one by one, and those of the runs before on the same image. Contracts see it
/// as its configuration and these entries.
#[derive(Debug, Drop)]
pub struct Plain {
    pub(crate) kept: Kept,
}

impl Model for Plain {
    ghost use Rattle.fdp_plain.specs.Run.{Run};
    ghost use Rattle.fdp_plain.specs.Telling.{TellsHistory, run_of};

    ghost Value = { Run };

    ghost view = { λ plain. run_of plain.kept };

    ghost invariant = { λ plain. TellsHistory plain.kept };
}

impl Plain {
    /// The drive as its configuration makes it. It takes memory for a place for each block of its namespaces.
    pub fn new(alloc: Global, config: &DriveConfig) -> Result<Plain, AllocError>
        requires { IsValidConfig config.now }
        ensures { IfOk result (λ plain. plain ≡ record { config = config.now; earlier = []; entries = [] }) }
    {
        Ok(Plain {
            kept: Kept::fresh(alloc, config)?,
        })
    }

    /// The configuration that the drive was made with.
    pub fn config(&self) -> &DriveConfig
        ensures config { result.now ≡ self.now.config }
        ensures valid { IsValidConfig result.now }
    {
        &self.kept.config
    }

    /// The entries that the run took, the oldest first: a legal history of what it began with, over a flash that tells what it holds.
    pub fn entries(&self) -> &[Entry]
        ensures entries { result.now ≡ self.now.entries }
        ensures legal { IsLegal true self.now.config (found_of self.now) self.now.entries }
    {
        behind(self.kept.entries.as_slice(), self.kept.start())
    }

    /// The run ends here, and the drive stands as the next run on the same image finds it: all that lasts, each block on the page
    /// where it stands, the sums and the events. Writes that are going are dropped. It takes memory for a place for each page of the
    /// drive and a row for each entry, and looks at each block; where there is none, all stays as it was.
    pub fn reopen(&mut self, alloc: Global) -> Result<(), AllocError>
        ensures reopened { OnOk result (self.new ≡ record { config = self.old.config; earlier = self.old.earlier ++ self.old.entries ∷ []; entries = [] }) }
        ensures failed { OnErr result (self.new ≡ self.old) }
    {
        reopen(&mut self.kept, alloc)
    }
}

/// The entries behind so many, or none.
fn behind(entries: &[Entry], count: usize) -> &[Entry]
    ensures { result.now ≡ drop count entries.now }
{
    if count >= entries.len() {
        return &[];
    }
    &entries[count..]
}
