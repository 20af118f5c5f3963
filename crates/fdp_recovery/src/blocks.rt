//! The pages of the blocks that a state names.

ghost use Rattle.std.specs.Prelude.{◌≡◌, ◌≢◌, ◌+◌, ◌<◌, IsTrue, IfOk, Ok, Some, None, false, true, length, replicate, slice_get, slice_set};
ghost use Rattle.std.specs.Option.{option_map_or};
ghost use Rattle.fdp_checkpoint.specs.fdp_areas.Looking.{Ends};
ghost use Rattle.fdp_base.specs.Config.{IsInRange};
ghost use Rattle.fdp_base.specs.Geometry.{IsValidGeometry};
ghost use Rattle.fdp_base.specs.Placement.{geometry_of};
ghost use Rattle.fdp_flash.specs.OnlyReads.{ReadsOnly};
ghost use Rattle.fdp_image.specs.Areas.{data_pages};
ghost use Rattle.fdp_image.specs.Checkpoint.{reading_of_state};
ghost use Rattle.fdp_image.specs.Valid.{is_named};
ghost use Rattle.fdp_recovery.specs.Blocks.{StandApart, TellsBlocks, is_kept, is_one_of, names_block};
ghost use Rattle.fdp_recovery.specs.Walking.{AreKeptBefore, AreMarks, LooksMarked, TellsUpTo};
ghost use Rattle.fdp_records.specs.Spares.{said_by_data};
ghost use Rattle.fdp_state.specs.Loaded.{IsLoadable};
ghost use Rattle.fdp_state.specs.Parts.{handles_at, row};

use fdp_base::{DataSpare, DriveConfig, Geometry};
use fdp_checkpoint::{LookFailed, look_at_data};
use fdp_flash::{Flash, Seen};
use fdp_records::decode_data_spare;
use fdp_snapshot::State;
use fdp_state::{list_at, space_at};

/// Looks at the page of each block, by namespace and address, and marks it: the page of the first block that is not kept on its page, if
/// there is one. It looks at no page twice.
pub fn find_unkept<F: Flash>(
    flash: &mut F,
    config: &DriveConfig,
    state: &State,
    marks: &mut [bool],
    page: &mut [u8],
) -> Result<Option<u32>, LookFailed>
    requires config { IsInRange config.now }
    requires cut { (F.state flash.old).geometry ≡ geometry_of config.now }
    requires state { IsLoadable state.now }
    requires marks { marks.old ≡ replicate (data_pages (geometry_of config.now)) false }
    requires room { length page.old ≡ (F.state flash.old).geometry.block }
    ensures looks { ReadsOnly (data_pages (geometry_of config.now)) (F.state flash.old) (F.state flash.new) }
    ensures told { IsTrue (F.state flash.old).told → IfOk result (TellsBlocks config.now (F.state flash.old).cells (reading_of_state state.now)) }
    ensures apart { result ≡ Ok None → StandApart config.now (reading_of_state state.now) }
    ensures ends { Ends (F.state flash.old) (F.state flash.new) result }
{
    let geometry = flash.geometry();
    for nsid in 1..17 {
        match find_unkept_in(flash, config, &geometry, state, nsid, marks, page) {
            Ok(None) => {}
            Ok(Some(number)) => return Ok(Some(number)),
            Err(failed) => return Err(failed),
        }
    }
    Ok(None)
}

/// Looks at the page of each block of a namespace, up to the first that is not kept on its page.
fn find_unkept_in<F: Flash>(
    flash: &mut F,
    config: &DriveConfig,
    geometry: &Geometry,
    state: &State,
    nsid: u32,
    marks: &mut [bool],
    page: &mut [u8],
) -> Result<Option<u32>, LookFailed>
    requires config { IsInRange config.now }
    requires geometry { geometry.now ≡ (F.state flash.old).geometry }
    requires cut { geometry.now ≡ geometry_of config.now }
    requires valid { IsValidGeometry geometry.now }
    requires state { IsLoadable state.now }
    requires marks { AreMarks config.now (reading_of_state state.now) nsid 0 marks.old }
    requires room { length page.old ≡ geometry.now.block }
    ensures looks { LooksMarked marks.old marks.new (F.state flash.old) (F.state flash.new) }
    ensures told { IsTrue (F.state flash.old).told → AreKeptBefore config.now (F.state flash.old).cells (reading_of_state state.now) nsid 0 → IfOk result (TellsUpTo config.now (F.state flash.old).cells (reading_of_state state.now) (nsid + 1) 0) }
    ensures marks { result ≡ Ok None → AreMarks config.now (reading_of_state state.now) (nsid + 1) 0 marks.new }
    ensures ends { Ends (F.state flash.old) (F.state flash.new) result }
{
    let list = list_at(state.pages.as_slice(), nsid);
    for lba in 0..list.len() {
        let entry = entry_at(list, lba);
        match check_entry(
            flash, config, geometry, state, nsid, lba as u64, entry, marks, page,
        ) {
            Ok(None) => {}
            Ok(Some(number)) => return Ok(Some(number)),
            Err(failed) => return Err(failed),
        }
    }
    Ok(None)
}

/// The page of a block, if it has one.
fn entry_at(list: &[Option<u32>], lba: usize) -> Option<u32>
    ensures { result ≡ row list.now lba }
{
    match list.get(lba) {
        Some(entry) => *entry,
        None => None,
    }
}

/// The page of a block, if it has one on which it is not kept, or on which a block before it stands.
fn check_entry<F: Flash>(
    flash: &mut F,
    config: &DriveConfig,
    geometry: &Geometry,
    state: &State,
    nsid: u32,
    lba: u64,
    entry: Option<u32>,
    marks: &mut [bool],
    page: &mut [u8],
) -> Result<Option<u32>, LookFailed>
    requires config { IsInRange config.now }
    requires geometry { geometry.now ≡ (F.state flash.old).geometry }
    requires cut { geometry.now ≡ geometry_of config.now }
    requires valid { IsValidGeometry geometry.now }
    requires state { IsLoadable state.now }
    requires entry { (reading_of_state state.now).pages nsid lba ≡ entry }
    requires marks { AreMarks config.now (reading_of_state state.now) nsid lba marks.old }
    requires room { length page.old ≡ geometry.now.block }
    ensures looks { LooksMarked marks.old marks.new (F.state flash.old) (F.state flash.new) }
    ensures told { IsTrue (F.state flash.old).told → AreKeptBefore config.now (F.state flash.old).cells (reading_of_state state.now) nsid lba → IfOk result (TellsUpTo config.now (F.state flash.old).cells (reading_of_state state.now) nsid (lba + 1)) }
    ensures marks { result ≡ Ok None → AreMarks config.now (reading_of_state state.now) nsid (lba + 1) marks.new }
    ensures ends { Ends (F.state flash.old) (F.state flash.new) result }
{
    match entry {
        None => Ok(None),
        Some(number) => {
            if !mark(marks, number) {
                return Ok(Some(number));
            }
            match is_kept(flash, config, geometry, state, nsid, lba, number, page) {
                Ok(true) => Ok(None),
                Ok(false) => Ok(Some(number)),
                Err(failed) => Err(failed),
            }
        }
    }
}

/// Marks a page, and says whether it was one of the pages and not marked yet.
fn mark(marks: &mut [bool], page: u32) -> bool
    ensures first { result ≡ true → slice_get marks.old page ≡ Some false }
    ensures marked { result ≡ true → marks.new ≡ slice_set marks.old page true }
    ensures again { result ≡ false → slice_get marks.old page ≢ Some false }
    ensures kept { result ≡ false → marks.new ≡ marks.old }
{
    let at = page as usize;
    if at < marks.len() && !marks[at] {
        marks[at] = true;
        true
    } else {
        false
    }
}

/// Whether a block is kept on a data page: looks at it.
fn is_kept<F: Flash>(
    flash: &mut F,
    config: &DriveConfig,
    geometry: &Geometry,
    state: &State,
    nsid: u32,
    lba: u64,
    number: u32,
    page: &mut [u8],
) -> Result<bool, LookFailed>
    requires config { IsInRange config.now }
    requires geometry { geometry.now ≡ (F.state flash.old).geometry }
    requires cut { geometry.now ≡ geometry_of config.now }
    requires valid { IsValidGeometry geometry.now }
    requires state { IsLoadable state.now }
    requires number { number < data_pages (geometry_of config.now) }
    requires room { length page.old ≡ geometry.now.block }
    ensures looks { ReadsOnly 1 (F.state flash.old) (F.state flash.new) }
    ensures told { IsTrue (F.state flash.old).told → IfOk result (λ kept. kept ≡ is_kept config.now (F.state flash.old).cells (reading_of_state state.now) nsid lba number) }
    ensures ends { Ends (F.state flash.old) (F.state flash.new) result }
{
    let mut spare = [0; 32];
    match look_at_data(flash, geometry, number, &mut spare, page) {
        Seen::Whole => Ok(names_block(config, state, nsid, lba, number, &spare)),
        Seen::Blank => Ok(false),
        Seen::Torn => Ok(false),
        Seen::Failed => Err(LookFailed {
            moment: flash.moment(),
        }),
    }
}

/// Whether the spare bytes of a page name a block, the group of its unit, the generation in force and one of the handles of its namespace.
fn names_block(
    config: &DriveConfig,
    state: &State,
    nsid: u32,
    lba: u64,
    number: u32,
    spare: &[u8; 32],
) -> bool
    requires config { IsInRange config.now }
    requires state { IsLoadable state.now }
    ensures { result ≡ option_map_or (names_block config.now (reading_of_state state.now) nsid lba number) (said_by_data spare.now) false }
{
    match decode_data_spare(spare) {
        Some(said) => says_block(config, state, nsid, lba, number, &said),
        None => false,
    }
}

/// Whether a spare names a block, the group of its unit, the generation in force and one of the handles of its namespace.
pub fn says_block(
    config: &DriveConfig,
    state: &State,
    nsid: u32,
    lba: u64,
    number: u32,
    said: &DataSpare,
) -> bool
    requires config { IsInRange config.now }
    requires state { IsLoadable state.now }
    ensures { result ≡ names_block config.now (reading_of_state state.now) nsid lba number said.now }
{
    is_named(config, state, nsid, lba, number, said) && is_one_of(handles_of(state, nsid), said.ruh)
}

/// Whether a spare names a block, the group of its unit and the generation in force.
#[tactic(auto, unfolding(fdp_image::specs::Checkpoint::reading_of_state))]
fn is_named(
    config: &DriveConfig,
    state: &State,
    nsid: u32,
    lba: u64,
    number: u32,
    said: &DataSpare,
) -> bool
    requires { IsInRange config.now }
    ensures { result ≡ is_named config.now (reading_of_state state.now) nsid lba number said.now }
{
    said.nsid == nsid
        && said.lba == lba
        && u32::from(said.rg) == number / config.unit_pages / config.units
        && said.generation == state.summary.generation
}

fn is_one_of(handles: &[u8], ruh: u8) -> bool
    ensures { result ≡ is_one_of handles.now ruh }
{
    handles.iter().any(|handle| *handle == ruh)
}

/// The handles of a namespace, none where it is not there.
#[tactic(auto, unfolding(fdp_image::specs::Checkpoint::reading_of_state))]
fn handles_of(state: &State, nsid: u32) -> &[u8]
    requires { IsLoadable state.now }
    ensures { result.now ≡ handles_at (reading_of_state state.now) nsid }
{
    match space_at(state.summary.spaces.as_slice(), nsid) {
        Some(space) => space.handles.as_slice(),
        None => &[],
    }
}
