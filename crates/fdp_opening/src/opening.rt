//! Opening: the pages of data as they were left.

ghost use Rattle.std.specs.Prelude.{◌≡◌, ◌+◌, IfOk, length};
ghost use Rattle.fdp_base.specs.Config.{IsInRange};
ghost use Rattle.fdp_base.specs.Placement.{geometry_of};
ghost use Rattle.fdp_flash.specs.OnlyReads.{ReadsOnly};
ghost use Rattle.fdp_image.specs.Areas.{data_pages};
ghost use Rattle.fdp_image.specs.Checkpoint.{reading_of_state};
ghost use Rattle.fdp_opening.specs.Found.{AreFound, CallsFirstBad, CallsNoneBad, EndsPages, KeepsBlocks};
ghost use Rattle.fdp_recovery.specs.Blocks.{StandApart};
ghost use Rattle.fdp_image.specs.Fits.{blocks_of_all};
ghost use Rattle.fdp_recovery.specs.fdp_state.Loaded.{IsDriveState};

use crate::blocks::find_blocks;
use crate::fault::PagesFault;
use crate::units::find_units;
use fdp_base::DriveConfig;
use fdp_flash::Flash;
use fdp_pages::Pages;
use fdp_snapshot::State;
use std::alloc::Global;

/// What stands on the pages of data of a flash whose state was found: each unit with a page that is not blank is used, and gets no page
/// before it is erased; each block owns its page.
///
/// It looks at the pages of each data unit up to the first that is not blank, and then at the page of each block, by namespace and address: at
/// most twice at a page. It writes nothing, and takes the memory of the tables alone. `page` is room for the bytes of a page.
///
/// A page is bad that does not hold its block: so it is where the flash does not show what it showed when the state was found. It is bad, too,
/// where its data does not go with the blocks before it in its unit, as that of two persistently isolated handles. The first such page, by
/// namespace and address of its block, is told.
pub fn find_pages<F: Flash>(
    alloc: Global,
    flash: &mut F,
    config: &DriveConfig,
    state: &State,
    page: &mut [u8],
) -> Result<Pages, PagesFault>
    requires config { IsInRange config.now }
    requires cut { (F.state flash.old).geometry ≡ geometry_of config.now }
    requires state { IsDriveState config.now state.now }
    requires blocks { StandApart config.now (reading_of_state state.now) }
    requires room { length page.old ≡ (F.state flash.old).geometry.block }
    ensures looks { ReadsOnly (data_pages (geometry_of config.now) + blocks_of_all (reading_of_state state.now)) (F.state flash.old) (F.state flash.new) }
    ensures found { IfOk result (λ pages. AreFound config.now (reading_of_state state.now) (F.state flash.new) pages) }
    ensures bad { CallsFirstBad config.now (reading_of_state state.now) (F.state flash.old) result }
    ensures kept { KeepsBlocks config.now (reading_of_state state.now) (F.state flash.old) → CallsNoneBad result }
    ensures ends { EndsPages (F.state flash.old) (F.state flash.new) result }
{
    let summary = &state.summary;
    let classes = config.classes(summary.enabled, summary.index);
    let mut pages = match Pages::new(alloc, classes, config.geometry()) {
        Ok(pages) => pages,
        Err(_) => return Err(PagesFault::NoMemory),
    };
    match find_units(flash, config, &mut pages, page) {
        Ok(()) => {}
        Err(failed) => {
            return Err(PagesFault::FlashFault {
                moment: failed.moment,
            });
        }
    }
    match find_blocks(flash, config, state, &mut pages, page) {
        Ok(()) => Ok(pages),
        Err(fault) => Err(fault),
    }
}
