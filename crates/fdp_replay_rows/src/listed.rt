ghost use Rattle.std.specs.Prelude.{fold, true};
ghost use Rattle.fdp_image.specs.Applied.{applied};
ghost use Rattle.fdp_image.specs.Examples.{config as drive};
ghost use Rattle.fdp_image.specs.Reads.{fresh_reading};

use fdp_base::Totals;
use fdp_records::Change;
use fdp_replay::{Refusal, Replayed};
use std::alloc::Global;
use std::marker::Model;

/// The changes that were applied, on a drive that had none before.
#[derive(Drop)]
pub struct Listed {
    pub changes: Vec<(Change, Totals)>,
}

impl Model for Listed {
    ghost use Rattle.std.specs.Prelude.{List};
    ghost use Rattle.fdp_base.specs.declared.entry.Totals.{Totals as Sums};
    ghost use Rattle.fdp_records.specs.declared.change.Change.{Change as Saved};

    ghost Value = { List (Saved × Sums) };

    ghost view = { λ s. s.changes.items };
}

impl Replayed for Listed {
    ghost config = { λ s. drive };

    ghost reading = { λ s. fold (applied drive) (fresh_reading drive) s };

    ghost fits = { λ c r change. true };

    fn apply(&mut self, alloc: Global, change: Change, totals: Totals) -> Result<(), Refusal> {
        let _alloc = alloc; // proof
        match self.changes.push((change, totals)) {
            Ok(()) => Ok(()),
            Err(_) => Err(Refusal::NoMemory),
        }
    }
}
