ghost use Rattle.std.specs.Prelude.{◌≡◌, ◌∷◌, ◌++◌, [], true, IfErr, OnErr, OnOk};
ghost use Rattle.fdp_rules.specs.Step.{IsStep};
ghost use Rattle.fdp_plain.specs.Refusing.{IsCause};
ghost use Rattle.fdp_plain.specs.Run.{found_of};

use crate::plain::Plain;
use crate::refused::Refused;
use crate::step::{refusal, take_step};
use fdp_base::Entry;
use fdp_plain_judge::judge;
use fdp_tables::Standing;
use std::alloc::Global;

impl Plain {
    /// Takes the entry that comes next, of whatever kind and form, if it is a step after those before it. Where it is not
    /// taken, all stays as it was.
    pub fn take(&mut self, alloc: Global, entry: &Entry) -> Result<(), Refused>
        // A legal entry stands behind the others.
        ensures taken { OnOk result (IsStep true self.old.config (found_of self.old) self.old.entries entry.now
            × (self.new ≡ record self.old { entries = self.old.entries ++ entry.now ∷ [] })) }
        // Just one that is no step is illegal, under its rule; else memory ran out.
        ensures cause { IfErr result (IsCause self.old entry.now) }
        ensures refused { OnErr result (self.new ≡ self.old) }
    {
        if judge(&Standing::new(&self.kept), alloc, entry)? {
            take_step(&mut self.kept, alloc, entry)?;
            Ok(())
        } else {
            Err(refusal(&self.kept, entry))
        }
    }
}
