//! Opening a flash.

ghost use Rattle.std.specs.Prelude.{◌≡◌, ◌≢◌, ◌+◌, ◌^◌, ◌≤◌, IsTrue, IfErr, IfOk, List, None, false, length, nat_le, replicate};
ghost use Rattle.std.specs.List.{list_any};
ghost use Rattle.fdp_checkpoint.specs.fdp_areas.Seals.{IsCurrentSeal, LiesIn};
ghost use Rattle.fdp_base.specs.Config.{IsInRange};
ghost use Rattle.fdp_base.specs.Geometry.{area_pages};
ghost use Rattle.fdp_base.specs.Placement.{geometry_of};
ghost use Rattle.fdp_base.specs.declared.config.DriveConfig.{DriveConfig as Config};
ghost use Rattle.fdp_base.specs.declared.config.Geometry.{Geometry as Cut};
ghost use Rattle.fdp_flash.specs.declared.cell.Cell.{Cell};
ghost use Rattle.fdp_flash.specs.OnlyReads.{ReadsOnly};
ghost use Rattle.fdp_image.specs.Areas.{current_area, data_pages};
ghost use Rattle.fdp_image.specs.Checkpoint.{reading_of_state};
ghost use Rattle.fdp_image.specs.Reads.{is_spent};
ghost use Rattle.fdp_recovery.specs.Blocks.{StandApart};
ghost use Rattle.fdp_recovery.specs.declared.opened.OpenFault.TheVariants.{NoMemory};
ghost use Rattle.fdp_recovery.specs.Opened.{EndsOpening, GoesOn, IsLeft, TellsOpened, most_looks};
ghost use Rattle.fdp_recovery.specs.Ready.{NeverFails};
ghost use Rattle.fdp_state.specs.Loaded.{IsDriveState};

use crate::area::read_area;
use crate::blocks::find_unkept;
use crate::keys::other_cut;
use crate::opened::{OpenFault, Opened};
use fdp_base::DriveConfig;
use fdp_checkpoint::{Current, find_current, find_used};
use fdp_flash::Flash;
use fdp_snapshot::State;
use std::alloc::{AllocError, Global};

/// A position, an epoch and sums from here on are spent: a run might bring them past their end.
const SPENT: u64 = 4_611_686_018_427_387_904;

/// So are generations from here on.
const SPENT_GENERATION: u32 = 2_147_483_648;

/// Opens a flash: the state that a drive of this configuration left there, or that there is none. It looks at the checkpoint pages of both
/// system areas, fetches those of the current one, looks at the pages of its journal and then at the page of each block, by namespace and
/// address. It looks at no page more than once of each of these. It writes nothing, and takes memory for a page, for the bytes of the
/// checkpoint, for the state and for tables of the data pages.
pub fn open_state<F: Flash>(
    alloc: Global,
    flash: &mut F,
    config: &DriveConfig,
) -> Result<Opened, OpenFault>
    requires { IsInRange config.now }
    ensures looks { ReadsOnly (most_looks (F.state flash.old).geometry) (F.state flash.old) (F.state flash.new) }
    ensures told { IsTrue (F.state flash.old).told → TellsOpened config.now (F.state flash.old).geometry (F.state flash.old).cells result }
    ensures ends { EndsOpening (F.state flash.old) (F.state flash.new) result }
    ensures goes_on { IfOk result (GoesOn config.now) }
    ensures cut { IfOk result (λ opened. (F.state flash.old).geometry ≡ geometry_of config.now) }
{
    let block = flash.geometry().block as usize;
    match blank_page(alloc, block) {
        Ok(mut page) => open_with(alloc, flash, config, page.as_mut_slice()),
        Err(_) => Err(OpenFault::NoMemory),
    }
}

/// Room for the bytes of a page.
fn blank_page(alloc: Global, block: usize) -> Result<Vec<u8>, AllocError>
    ensures { IfOk result (λ v. length v.items ≡ block) }
{
    vec![in alloc; 0u8; block]
}

/// The same with room for the bytes of a page.
fn open_with<F: Flash>(
    alloc: Global,
    flash: &mut F,
    config: &DriveConfig,
    page: &mut [u8],
) -> Result<Opened, OpenFault>
    requires config { IsInRange config.now }
    requires room { length page.old ≡ (F.state flash.old).geometry.block }
    ensures looks { ReadsOnly (most_looks (F.state flash.old).geometry) (F.state flash.old) (F.state flash.new) }
    ensures told { IsTrue (F.state flash.old).told → TellsOpened config.now (F.state flash.old).geometry (F.state flash.old).cells result }
    ensures ends { EndsOpening (F.state flash.old) (F.state flash.new) result }
    ensures goes_on { IfOk result (GoesOn config.now) }
    ensures cut { IfOk result (λ opened. (F.state flash.old).geometry ≡ geometry_of config.now) }
{
    match find_current(flash, page) {
        Ok(Some(current)) => open_area(alloc, flash, config, &current, page),
        Ok(None) => open_unsealed(flash, config, page),
        Err(failed) => Err(OpenFault::FlashFault {
            moment: failed.moment,
        }),
    }
}

/// Opens a flash without a sealed area.
fn open_unsealed<F: Flash>(
    flash: &mut F,
    config: &DriveConfig,
    page: &mut [u8],
) -> Result<Opened, OpenFault>
    requires room { length page.old ≡ (F.state flash.old).geometry.block }
    requires unsealed { IsTrue (F.state flash.old).told → current_area (F.state flash.old).geometry (F.state flash.old).cells ≡ None }
    ensures looks { ReadsOnly (data_pages (F.state flash.old).geometry) (F.state flash.old) (F.state flash.new) }
    ensures told { IsTrue (F.state flash.old).told → TellsOpened config.now (F.state flash.old).geometry (F.state flash.old).cells result }
    ensures ends { EndsOpening (F.state flash.old) (F.state flash.new) result }
    ensures goes_on { IfOk result (GoesOn config.now) }
    ensures cut { IfOk result (λ opened. (F.state flash.old).geometry ≡ geometry_of config.now) }
    ensures memory { IfErr result (λ fault. fault ≢ NoMemory) }
{
    match other_cut(config, &flash.geometry()) {
        Some(key) => return Err(OpenFault::OtherConfig { key }),
        None => {}
    }
    match find_used(flash, page) {
        Ok(None) => Ok(Opened::Fresh),
        Ok(Some(_)) => Err(OpenFault::NotADrive),
        Err(failed) => Err(OpenFault::FlashFault {
            moment: failed.moment,
        }),
    }
}

/// Opens a flash with this current area.
fn open_area<F: Flash>(
    alloc: Global,
    flash: &mut F,
    config: &DriveConfig,
    current: &Current,
    page: &mut [u8],
) -> Result<Opened, OpenFault>
    requires config { IsInRange config.now }
    requires inside { LiesIn (F.state flash.old).geometry current.now }
    requires room { length page.old ≡ (F.state flash.old).geometry.block }
    requires current { IsTrue (F.state flash.old).told → IsCurrentSeal (F.state flash.old).geometry (F.state flash.old).cells current.now }
    ensures looks { ReadsOnly (area_pages (F.state flash.old).geometry + area_pages (F.state flash.old).geometry + data_pages (F.state flash.old).geometry) (F.state flash.old) (F.state flash.new) }
    ensures told { IsTrue (F.state flash.old).told → TellsOpened config.now (F.state flash.old).geometry (F.state flash.old).cells result }
    ensures ends { EndsOpening (F.state flash.old) (F.state flash.new) result }
    ensures goes_on { IfOk result (GoesOn config.now) }
    ensures cut { IfOk result (λ opened. (F.state flash.old).geometry ≡ geometry_of config.now) }
{
    let state = match read_area(alloc, flash, config, current, page) {
        Ok(state) => state,
        Err(fault) => return Err(fault),
    };
    let mut marks = match no_marks(alloc, config) {
        Ok(marks) => marks,
        Err(_) => return Err(OpenFault::NoMemory),
    };
    match find_unkept(flash, config, &state, marks.as_mut_slice(), page) {
        Ok(None) => found(state, current),
        Ok(Some(page)) => Err(OpenFault::BadImage { page }),
        Err(failed) => Err(OpenFault::FlashFault {
            moment: failed.moment,
        }),
    }
}

/// A mark for each data page, of which none is set.
fn no_marks(alloc: Global, config: &DriveConfig) -> Result<Vec<bool>, AllocError>
    requires { IsInRange config.now }
    ensures { IfOk result (λ v. v.items ≡ replicate (data_pages (geometry_of config.now)) false) }
{
    let count = config.geometry().data_units() * config.unit_pages;
    vec![in alloc; false; count as usize]
}

/// What was found, where it is not spent.
fn found(state: State, current: &Current) -> Result<Opened, OpenFault>
    requires { current.now.area ≤ 1 }
    ensures told { (c : Config) (g : Cut) (cells : List Cell) → IsLeft c g cells state current.now.area current.now.seal.stamp.epoch → TellsOpened c g cells result }
    ensures goes_on { (c : Config) → IsDriveState c state → StandApart c (reading_of_state state) → IfOk result (GoesOn c) }
    ensures quiet { NeverFails result }
    ensures memory { IfErr result (λ fault. fault ≢ NoMemory) }
{
    let epoch = current.seal.stamp.epoch;
    if is_spent(&state, epoch) {
        return Err(OpenFault::Spent);
    }
    Ok(Opened::Found {
        state,
        area: current.area,
        epoch,
    })
}

/// Whether a run might bring a count of the drive past its end.
#[tactic(auto, unfolding(fdp_image::specs::Checkpoint::reading_of_state))]
fn is_spent(state: &State, epoch: u64) -> bool
    ensures { result ≡ is_spent (reading_of_state state.now) epoch }
{
    let totals = &state.summary.totals;
    let counts = [
        totals.position,
        epoch,
        totals.host_blocks,
        totals.media_blocks,
        totals.erases,
    ];
    has_spent(&counts) || state.summary.generation >= SPENT_GENERATION
}

fn has_spent(counts: &[u64]) -> bool
    ensures { result ≡ list_any (nat_le (2 ^ 62)) counts.now }
{
    counts.iter().any(|count| *count >= SPENT)
}
