ghost use Rattle.std.specs.Prelude.{◌≡◌, ◌≤◌, length};
ghost use Rattle.fdp_tables.specs.Starts.{start_of};
ghost use Rattle.fdp_tables.specs.State.{is_opening};

use crate::standing::Standing;
use crate::state::Kept;

impl Kept {
    /// How many entries came before this run.
    pub fn start(&self) -> usize
        ensures { result ≡ start_of self.now.starts.items }
    {
        let runs = self.starts.len();
        if runs == 0 { 0 } else { self.starts[runs - 1] }
    }
}

impl Standing<'_> {
    /// Whether the drive was found, and the run has no entry yet.
    pub fn is_opening(&self) -> bool
        ensures { result ≡ is_opening self.now }
    {
        !self.kept.starts.is_empty() && self.kept.entries.len() == self.kept.start()
    }
}
