//! Opening a drive.

ghost use Rattle.std.specs.Prelude.{IfErr, IfOk};
ghost use Rattle.fdp_base.specs.Config.{IsValidConfig};
ghost use Rattle.fdp_keeper.specs.Keeper.{CanSave};
ghost use Rattle.fdp_loading.specs.Loaded.{IsLoaded};
ghost use Rattle.fdp_loading.specs.Made.{IsBegun, SavesFirst};
ghost use Rattle.fdp_loading.specs.Refused.{IsNotLoaded};
ghost use Rattle.fdp_keeper.specs.fdp_recovery.Walking.{OnlyLooks};

use crate::found::found;
use crate::fresh::fresh;
use crate::loaded::Loaded;
use fdp_base::DriveConfig;
use fdp_flash::{Flash, Wrote};
use fdp_keeper::{OpenFault, Opened, open_state};
use std::alloc::Global;

/// Opens a drive: its run begins with what stands on the flash, and is saved by a checkpoint. It takes all its memory before that, the
/// first call that changes a page.
pub fn load<F: Flash>(
    alloc: Global,
    flash: &mut F,
    config: &DriveConfig,
) -> Result<Loaded, OpenFault>
    requires config { IsValidConfig config.now }
    ensures loaded { IfOk result (λ loaded. IsLoaded config.now (F.state flash.old) (F.state flash.new) loaded.book loaded.keeper) }
    ensures refused { IfErr result (IsNotLoaded config.now (F.state flash.old) (F.state flash.new)) }
{
    match begin(alloc, flash, config) {
        Ok(begun) => save(flash, begun),
        Err(fault) => Err(fault),
    }
}

/// A drive before it is saved. It only looks at the flash.
fn begin<F: Flash>(alloc: Global, flash: &mut F, config: &DriveConfig) -> Result<Loaded, OpenFault>
    requires config { IsValidConfig config.now }
    ensures looks { OnlyLooks (F.state flash.old) (F.state flash.new) }
    ensures begun { IfOk result (λ begun. IsBegun config.now (F.state flash.old) (F.state flash.new) begun.book begun.keeper) }
    ensures refused { IfErr result (IsNotLoaded config.now (F.state flash.old) (F.state flash.new)) }
{
    match open_state(alloc, flash, config) {
        Ok(Opened::Fresh) => match fresh(alloc, config) {
            Ok(begun) => Ok(begun),
            Err(_) => Err(OpenFault::NoMemory),
        },
        Ok(Opened::Found { state, area, epoch }) => {
            found(alloc, flash, config, state, area, epoch)
        }
        Err(fault) => Err(fault),
    }
}

/// Saves a drive for the first time.
fn save<F: Flash>(flash: &mut F, begun: Loaded) -> Result<Loaded, OpenFault>
    requires { CanSave begun.book begun.keeper (F.state flash.old) }
    ensures { SavesFirst begun.book begun.keeper (F.state flash.old) (F.state flash.new) result }
{
    let Loaded { book, mut keeper } = begun;
    match keeper.checkpoint(flash, &book) {
        Wrote::Done => Ok(Loaded { book, keeper }),
        Wrote::Failed => Err(OpenFault::FlashFault {
            moment: flash.moment(),
        }),
    }
}
