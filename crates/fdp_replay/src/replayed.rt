ghost use Rattle.std.specs.Prelude.{◌≡◌, Bool, IsTrue, Err, OnErr, OnOk, false};
ghost use Rattle.fdp_base.specs.declared.config.DriveConfig.{DriveConfig};
ghost use Rattle.fdp_base.specs.declared.entry.Totals.{Totals as Sums};
ghost use Rattle.fdp_records.specs.declared.change.Change.{Change as Saved};
ghost use Rattle.fdp_image.specs.Applied.{applied};
ghost use Rattle.fdp_image.specs.Reading.{Reading};

use fdp_base::Totals;
use fdp_records::Change;
use std::alloc::Global;

/// A state that saved changes are applied to.
pub trait Replayed {
    /// The configuration of its drive.
    ghost config: { Self → DriveConfig };

    /// What it says, as an image does.
    ghost reading: { Self → Reading };

    /// Whether a change fits what was said before it: one of a block past the end of its namespace does not.
    ghost fits: { DriveConfig → Reading → Saved × Sums → Bool };

    /// Applies a change that fits, with the totals at its position. It stays as it was where that is refused.
    fn apply(&mut self, alloc: Global, change: Change, totals: Totals) -> Result<(), Refusal>
        ensures config { config self.new ≡ config self.old }
        ensures applied { OnOk result (reading self.new ≡ applied (config self.old) (reading self.old) (change, totals)) }
        ensures fit { OnOk result (IsTrue (fits (config self.old) (reading self.old) (change, totals))) }
        ensures unfit { result ≡ Err Refusal.Unfit → fits (config self.old) (reading self.old) (change, totals) ≡ false }
        ensures refused { OnErr result (self.new ≡ self.old) };
}

/// Why a change is not applied.
#[derive(Clone, Copy, Debug, PartialEq, Eq)]
pub enum Refusal {
    /// It does not fit what the state says.
    Unfit,
    NoMemory,
}

/// Why a journal was not read to its end.
#[derive(Clone, Copy, Debug, PartialEq, Eq)]
pub enum ReplayFault {
    /// The page with this number in the journal is one of it, and tells no change.
    Bad { number: u32 },
    /// It tells a change that does not fit what the pages before it say.
    Unfit { number: u32 },
    /// A look failed at this moment.
    Failed { moment: u64 },
    NoMemory,
}
