ghost use Rattle.std.specs.Prelude.{◌≡◌};
ghost use Rattle.fdp_ledger.specs.Counted.{counts_of};

use fdp_flash::Flash;

/// What a flash has counted: its calls, its faults, and the programs of data that were done.
#[derive(Clone, Copy, Debug, PartialEq, Eq)]
pub struct Counts {
    pub moment: u64,
    pub faults: u64,
    pub programs: u64,
}

/// What a flash has counted.
pub fn counts_of<F: Flash>(flash: &F) -> Counts
    ensures { result ≡ counts_of (F.state flash.now) }
{
    Counts {
        moment: flash.moment(),
        faults: flash.faults(),
        programs: flash.programs(),
    }
}
