ghost use Rattle.std.specs.Prelude.{◌≡◌, IfOk, MatchResult, length};
ghost use Rattle.fdp_base.specs.Config.{IsValidConfig};
ghost use Rattle.fdp_core.specs.Loading.{IsLoaded, IsNotLoaded};

use super::Group;
use crate::loaded::NotLoaded;
use fdp_base::DriveConfig;
use fdp_flash::Flash;
use fdp_loading::{Loaded, counts_of, load as load_drive};
use fdp_relocation::OpenFault;
use std::alloc::{AllocError, Global};

impl<F: Flash> Group<F> {
    /// Opens a drive over a flash: a fresh one where no drive has written there, or the one that was left, with an entry of its opening.
    /// It is saved by a checkpoint, before which all memory is taken.
    pub fn load(alloc: Global, flash: F, config: &DriveConfig) -> Result<Group<F>, NotLoaded<F>>
        requires config { IsValidConfig config.now }
        ensures { MatchResult result
            (λ group. IsLoaded F.state config.now flash group)
            (λ e. IsNotLoaded F.state config.now flash e) }
    {
        let mut flash = flash;
        let handed = counts_of(&flash);
        let block = match buffer(alloc, config) {
            Ok(block) => block,
            Err(_) => {
                return Err(NotLoaded {
                    flash,
                    cause: OpenFault::NoMemory,
                });
            }
        };
        match load_drive(alloc, &mut flash, config) {
            Ok(Loaded { book, keeper }) => Ok(Group {
                flash,
                book,
                keeper,
                handed,
                block,
            }),
            Err(cause) => Err(NotLoaded { flash, cause }),
        }
    }
}

/// Room for a block.
fn buffer(alloc: Global, config: &DriveConfig) -> Result<Vec<u8>, AllocError>
    ensures { IfOk result (λ v. length v.items ≡ config.now.block) }
{
    vec![in alloc; 0u8; config.block as usize]
}
