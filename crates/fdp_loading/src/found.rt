ghost use Rattle.std.specs.Prelude.{IfErr, IfOk, ◌≡◌, length};
ghost use Rattle.fdp_base.specs.Config.{IsValidConfig};
ghost use Rattle.fdp_base.specs.Placement.{geometry_of};
ghost use Rattle.fdp_keeper.specs.fdp_book.Reopened.{WasFound};
ghost use Rattle.fdp_image.specs.Checkpoint.{reading_of_state};
ghost use Rattle.fdp_loading.specs.Made.{IsFoundDrive, TellsPages};
ghost use Rattle.fdp_keeper.specs.fdp_opening.Found.{AreFound};
ghost use Rattle.fdp_keeper.specs.fdp_recovery.Blocks.{StandApart};
ghost use Rattle.fdp_keeper.specs.fdp_recovery.Opened.{CanGoOn, EndsOpening};
ghost use Rattle.fdp_keeper.specs.fdp_recovery.Walking.{OnlyLooks};
ghost use Rattle.fdp_keeper.specs.fdp_state.Loaded.{IsDriveState};

use crate::loaded::Loaded;
use fdp_base::DriveConfig;
use fdp_flash::Flash;
use fdp_keeper::{Book, Keeper, OpenFault, Pages, PagesFault, find_pages};
use fdp_snapshot::State;
use std::alloc::{AllocError, Global};

/// The drive of a state that was found, before it is saved. It looks at the pages of data.
pub fn found<F: Flash>(
    alloc: Global,
    flash: &mut F,
    config: &DriveConfig,
    state: State,
    area: u8,
    epoch: u64,
) -> Result<Loaded, OpenFault>
    requires config { IsValidConfig config.now }
    requires cut { (F.state flash.old).geometry ≡ geometry_of config.now }
    requires goes_on { CanGoOn config.now state area epoch }
    ensures looks { OnlyLooks (F.state flash.old) (F.state flash.new) }
    ensures ends { EndsOpening (F.state flash.old) (F.state flash.new) result }
    ensures made { IfOk result (λ made. IsFoundDrive config.now (F.state flash.new) state area epoch made.book made.keeper) }
    ensures refused { IfErr result (TellsPages config.now (F.state flash.old) (reading_of_state state)) }
{
    let block = flash.geometry().block as usize;
    let mut page = match blank_page(alloc, block) {
        Ok(page) => page,
        Err(_) => return Err(OpenFault::NoMemory),
    };
    match pages_of(alloc, flash, config, &state, page.as_mut_slice()) {
        Ok(pages) => match made_of(alloc, flash, config, state, pages, area, epoch) {
            Ok(made) => Ok(made),
            Err(_) => Err(OpenFault::NoMemory),
        },
        Err(fault) => Err(fault),
    }
}

/// Room for the bytes of a page.
fn blank_page(alloc: Global, block: usize) -> Result<Vec<u8>, AllocError>
    ensures { IfOk result (λ v. length v.items ≡ block) }
{
    vec![in alloc; 0u8; block]
}

/// The tables of its pages, or why there are none.
fn pages_of<F: Flash>(
    alloc: Global,
    flash: &mut F,
    config: &DriveConfig,
    state: &State,
    page: &mut [u8],
) -> Result<Pages, OpenFault>
    requires config { IsValidConfig config.now }
    requires cut { (F.state flash.old).geometry ≡ geometry_of config.now }
    requires state { IsDriveState config.now state.now }
    requires blocks { StandApart config.now (reading_of_state state.now) }
    requires room { length page.old ≡ (F.state flash.old).geometry.block }
    ensures looks { OnlyLooks (F.state flash.old) (F.state flash.new) }
    ensures ends { EndsOpening (F.state flash.old) (F.state flash.new) result }
    ensures found { IfOk result (λ pages. AreFound config.now (reading_of_state state.now) (F.state flash.new) pages) }
    ensures refused { IfErr result (TellsPages config.now (F.state flash.old) (reading_of_state state.now)) }
{
    match find_pages(alloc, flash, config, state, page) {
        Ok(pages) => Ok(pages),
        Err(PagesFault::BadImage { page }) => Err(OpenFault::BadImage { page }),
        Err(PagesFault::FlashFault { moment }) => Err(OpenFault::FlashFault { moment }),
        Err(PagesFault::NoMemory) => Err(OpenFault::NoMemory),
    }
}

/// Its book and its keeper.
fn made_of<F: Flash>(
    alloc: Global,
    flash: &F,
    config: &DriveConfig,
    state: State,
    pages: Pages,
    area: u8,
    epoch: u64,
) -> Result<Loaded, AllocError>
    requires config { IsValidConfig config.now }
    requires found { WasFound config.now (F.state flash.now) state pages }
    requires goes_on { CanGoOn config.now state area epoch }
    ensures { IfOk result (λ made. IsFoundDrive config.now (F.state flash.now) state area epoch made.book made.keeper) }
{
    let book = Book::reopened(alloc, flash, config, state, pages)?;
    book.known(); // proof
    let keeper = Keeper::found(alloc, config, area, epoch)?;
    Ok(Loaded { book, keeper })
}
