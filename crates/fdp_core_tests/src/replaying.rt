ghost use Rattle.std.specs.Prelude.{IfOk};
ghost use Rattle.fdp_base.specs.Config.{IsValidConfig};
ghost use Rattle.fdp_core_tests.specs.Replayed.{IsTaken};

use fdp_base::{DriveConfig, Entry};
use fdp_plain::{Plain, Refused};
use std::alloc::{AllocError, Global};

/// How many entries of a history, from the first on, a plain drive takes. It makes such a drive, and costs what its steps cost.
pub fn replay(alloc: Global, config: &DriveConfig, entries: &[Entry]) -> Result<usize, AllocError>
    requires { IsValidConfig config.now }
    ensures { IfOk result (λ count. IsTaken config.now entries.now count) }
{
    let mut plain = Plain::new(alloc, config)?;
    for place in 0..entries.len() {
        match plain.take(alloc, &entries[place]) {
            Ok(()) => {}
            Err(Refused::Illegal { .. }) => return Ok(place),
            Err(Refused::NoMemory) => return Err(AllocError),
        }
    }
    Ok(entries.len())
}
