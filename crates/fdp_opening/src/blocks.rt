//! The pages that blocks own.

ghost use Rattle.std.specs.Prelude.{◌≡◌, ◌≢◌, ◌+◌, false, true, IfErr, IfOk, Some, length};
ghost use Rattle.fdp_base.specs.Config.{IsInRange};
ghost use Rattle.fdp_base.specs.Placement.{geometry_of};
ghost use Rattle.fdp_flash.specs.OnlyReads.{ReadsOnly};
ghost use Rattle.fdp_image.specs.Checkpoint.{reading_of_state};
ghost use Rattle.fdp_opening.specs.declared.fault.PagesFault.TheVariants.{NoMemory};
ghost use Rattle.fdp_opening.specs.Found.{CallsFirstBad, EndsPages};
ghost use Rattle.fdp_opening.specs.Walking.{AreFoundBefore, CanKeep, GetsOwner, MayKeep};
ghost use Rattle.fdp_recovery.specs.Blocks.{StandApart};
ghost use Rattle.fdp_image.specs.Fits.{blocks_of_all};
ghost use Rattle.fdp_recovery.specs.fdp_state.Good.{IsGood};
ghost use Rattle.fdp_recovery.specs.fdp_state.Loaded.{IsLoadable};
ghost use Rattle.fdp_recovery.specs.fdp_state.Parts.{listed};

use crate::fault::PagesFault;
use fdp_base::{DataSpare, DriveConfig, Spot};
use fdp_flash::{Flash, Seen};
use fdp_pages::Pages;
use fdp_records::decode_data_spare;
use fdp_recovery::{list_at, look_at_data, says_block};
use fdp_snapshot::State;

/// Looks at the page of each block, by namespace and address, up to the first that is not in its place: the block owns its page from now on.
pub fn find_blocks<F: Flash>(
    flash: &mut F,
    config: &DriveConfig,
    state: &State,
    pages: &mut Pages,
    page: &mut [u8],
) -> Result<(), PagesFault>
    requires config { IsInRange config.now }
    requires cut { (F.state flash.old).geometry ≡ geometry_of config.now }
    requires room { length page.old ≡ (F.state flash.old).geometry.block }
    requires state { IsLoadable state.now }
    requires good { IsGood config.now (reading_of_state state.now) }
    requires apart { StandApart config.now (reading_of_state state.now) }
    requires tables { AreFoundBefore config.now (reading_of_state state.now) (F.state flash.old) 1 0 pages.old }
    ensures looks { ReadsOnly (blocks_of_all (reading_of_state state.now)) (F.state flash.old) (F.state flash.new) }
    ensures found { IfOk result (λ u. AreFoundBefore config.now (reading_of_state state.now) (F.state flash.new) 17 0 pages.new) }
    ensures bad { CallsFirstBad config.now (reading_of_state state.now) (F.state flash.old) result }
    ensures ends { EndsPages (F.state flash.old) (F.state flash.new) result }
    ensures memory { IfErr result (λ fault. fault ≢ NoMemory) }
{
    for nsid in 1..17 {
        match find_blocks_in(flash, config, state, nsid, pages, page) {
            Ok(()) => {}
            Err(fault) => return Err(fault),
        }
    }
    Ok(())
}

/// Looks at the page of each block of a namespace, by address.
fn find_blocks_in<F: Flash>(
    flash: &mut F,
    config: &DriveConfig,
    state: &State,
    nsid: u32,
    pages: &mut Pages,
    page: &mut [u8],
) -> Result<(), PagesFault>
    requires config { IsInRange config.now }
    requires cut { (F.state flash.old).geometry ≡ geometry_of config.now }
    requires room { length page.old ≡ (F.state flash.old).geometry.block }
    requires state { IsLoadable state.now }
    requires good { IsGood config.now (reading_of_state state.now) }
    requires apart { StandApart config.now (reading_of_state state.now) }
    requires tables { AreFoundBefore config.now (reading_of_state state.now) (F.state flash.old) nsid 0 pages.old }
    ensures looks { ReadsOnly (listed state.now.pages nsid) (F.state flash.old) (F.state flash.new) }
    ensures found { IfOk result (λ u. AreFoundBefore config.now (reading_of_state state.now) (F.state flash.new) (nsid + 1) 0 pages.new) }
    ensures bad { CallsFirstBad config.now (reading_of_state state.now) (F.state flash.old) result }
    ensures ends { EndsPages (F.state flash.old) (F.state flash.new) result }
    ensures memory { IfErr result (λ fault. fault ≢ NoMemory) }
{
    let list = list_at(state.pages.as_slice(), nsid);
    for lba in 0..list.len() {
        match find_entry(
            flash, config, state, nsid, lba as u64, list[lba], pages, page,
        ) {
            Ok(()) => {}
            Err(fault) => return Err(fault),
        }
    }
    Ok(())
}

/// Looks at the page of a block, if it has one.
fn find_entry<F: Flash>(
    flash: &mut F,
    config: &DriveConfig,
    state: &State,
    nsid: u32,
    lba: u64,
    entry: Option<u32>,
    pages: &mut Pages,
    page: &mut [u8],
) -> Result<(), PagesFault>
    requires config { IsInRange config.now }
    requires cut { (F.state flash.old).geometry ≡ geometry_of config.now }
    requires room { length page.old ≡ (F.state flash.old).geometry.block }
    requires state { IsLoadable state.now }
    requires good { IsGood config.now (reading_of_state state.now) }
    requires apart { StandApart config.now (reading_of_state state.now) }
    requires entry { (reading_of_state state.now).pages nsid lba ≡ entry }
    requires tables { AreFoundBefore config.now (reading_of_state state.now) (F.state flash.old) nsid lba pages.old }
    ensures looks { ReadsOnly 1 (F.state flash.old) (F.state flash.new) }
    ensures found { IfOk result (λ u. AreFoundBefore config.now (reading_of_state state.now) (F.state flash.new) nsid (lba + 1) pages.new) }
    ensures bad { CallsFirstBad config.now (reading_of_state state.now) (F.state flash.old) result }
    ensures ends { EndsPages (F.state flash.old) (F.state flash.new) result }
    ensures memory { IfErr result (λ fault. fault ≢ NoMemory) }
{
    match entry {
        Some(number) => find_block(flash, config, state, nsid, lba, number, pages, page),
        None => Ok(()),
    }
}

/// Looks at the page of a block, which owns it from now on. A page that does not hold the block is bad.
fn find_block<F: Flash>(
    flash: &mut F,
    config: &DriveConfig,
    state: &State,
    nsid: u32,
    lba: u64,
    number: u32,
    pages: &mut Pages,
    page: &mut [u8],
) -> Result<(), PagesFault>
    requires config { IsInRange config.now }
    requires cut { (F.state flash.old).geometry ≡ geometry_of config.now }
    requires room { length page.old ≡ (F.state flash.old).geometry.block }
    requires state { IsLoadable state.now }
    requires good { IsGood config.now (reading_of_state state.now) }
    requires apart { StandApart config.now (reading_of_state state.now) }
    requires entry { (reading_of_state state.now).pages nsid lba ≡ Some number }
    requires tables { AreFoundBefore config.now (reading_of_state state.now) (F.state flash.old) nsid lba pages.old }
    ensures looks { ReadsOnly 1 (F.state flash.old) (F.state flash.new) }
    ensures found { IfOk result (λ u. AreFoundBefore config.now (reading_of_state state.now) (F.state flash.new) nsid (lba + 1) pages.new) }
    ensures bad { CallsFirstBad config.now (reading_of_state state.now) (F.state flash.old) result }
    ensures ends { EndsPages (F.state flash.old) (F.state flash.new) result }
    ensures memory { IfErr result (λ fault. fault ≢ NoMemory) }
{
    let geometry = config.geometry();
    let mut spare = [0; 32];
    match look_at_data(flash, &geometry, number, &mut spare, page) {
        Seen::Whole => match decode_data_spare(&spare) {
            Some(said) => {
                if keep(config, state, nsid, lba, number, said, pages) {
                    Ok(())
                } else {
                    Err(PagesFault::BadImage { page: number })
                }
            }
            None => Err(PagesFault::BadImage { page: number }),
        },
        Seen::Blank => Err(PagesFault::BadImage { page: number }),
        Seen::Torn => Err(PagesFault::BadImage { page: number }),
        Seen::Failed => Err(PagesFault::FlashFault {
            moment: flash.moment(),
        }),
    }
}

/// Gives a page its owner, the block that its spare names: not where the spare names another block, where the unit was found blank, or where
/// the data of the handle does not go with what the unit holds.
fn keep(
    config: &DriveConfig,
    state: &State,
    nsid: u32,
    lba: u64,
    number: u32,
    said: DataSpare,
    pages: &mut Pages,
) -> bool
    requires config { IsInRange config.now }
    requires state { IsLoadable state.now }
    requires tables { CanKeep config.now (reading_of_state state.now) nsid lba number pages.old }
    ensures kept { result ≡ true → GetsOwner config.now (reading_of_state state.now) nsid lba number said pages.old pages.new }
    ensures refused { result ≡ false → MayKeep config.now (reading_of_state state.now) nsid lba number said pages.old → ⊥ }
{
    let spot = Spot {
        unit: number / config.unit_pages,
        page: number % config.unit_pages,
    };
    if !says_block(config, state, nsid, lba, number, &said) {
        return false;
    }
    if !pages.units().get(spot.unit).state.is_closed() || !pages.goes_with(spot.unit, said.ruh) {
        return false;
    }
    pages.find_block(spot, said);
    true
}
