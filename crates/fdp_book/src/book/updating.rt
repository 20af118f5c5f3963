ghost use Rattle.std.specs.Prelude.{[], ◌∷◌};
ghost use Rattle.fdp_book.specs.Updating.{CanUpdate, Updates};

use crate::tables::Tables;
use fdp_base::DriveConfig;

/// The handles that these placement identifiers name for a namespace are updated, one after another. It takes a step for each.
pub(super) fn update_handles(tables: &mut Tables, config: &DriveConfig, nsid: u32, pids: &[u16])
    requires { CanUpdate config.now tables.old nsid }
    ensures { Updates config.now tables.old tables.new nsid pids.now }
{
    for pid in pids {
        update_handle(tables, config, nsid, *pid);
    }
}

/// The handle that a placement identifier names is updated; one that names none leaves all as it is.
fn update_handle(tables: &mut Tables, config: &DriveConfig, nsid: u32, pid: u16)
    requires { CanUpdate config.now tables.old nsid }
    ensures { Updates config.now tables.old tables.new nsid (pid ∷ []) }
{
    if let Some((rg, ruh)) = tables.outline.named_by(config, nsid, pid) {
        tables.pages.update(rg, ruh);
    }
}
