//! The state that a sealed area says: its checkpoint with the changes of its journal.

ghost use Rattle.std.specs.Prelude.{◌≡◌, ◌≢◌, ℕ, suc, ◌+◌, ◌*◌, ◌<◌, ◌≤◌, Err, IsTrue, IfErr, IfOk, Some, length};
ghost use Rattle.std.specs.List.{concat};
ghost use Rattle.fdp_checkpoint.specs.fdp_areas.Seals.{IsCurrentSeal, LiesIn};
ghost use Rattle.fdp_base.specs.Config.{IsInRange};
ghost use Rattle.fdp_base.specs.Geometry.{IsValidGeometry, area_pages};
ghost use Rattle.fdp_checkpoint.specs.Pages.{IsBadIn};
ghost use Rattle.fdp_flash.specs.Layout.{first_page};
ghost use Rattle.fdp_flash.specs.OnlyReads.{ReadsOnly};
ghost use Rattle.fdp_image.specs.Areas.{Sealed, area_unit, current_area, record_page};
ghost use Rattle.fdp_image.specs.Replacing.{IsCheckpointOf};
ghost use Rattle.fdp_recovery.specs.declared.opened.OpenFault.TheVariants.{NoMemory};
ghost use Rattle.fdp_recovery.specs.Opened.{EndsOpening};
ghost use Rattle.fdp_recovery.specs.Reading.{SaysState, TellsArea, TellsCheckpoint};
ghost use Rattle.fdp_recovery.specs.Ready.{IsReady, NeverFails};
ghost use Rattle.fdp_snapshot.specs.Checkpoint.{IsState, checkpoint_size};

use crate::fields::bad_field;
use crate::keys::{other_cut, other_key};
use crate::opened::OpenFault;
use crate::place::number_in;
use fdp_base::{DriveConfig, Geometry};
use fdp_checkpoint::{ContentFault, Current, read_content};
use fdp_flash::Flash;
use fdp_snapshot::State;
use fdp_state::{LoadedState, ReplayFault, replay};
use std::alloc::Global;

/// The state that the current area says.
pub fn read_area<F: Flash>(
    alloc: Global,
    flash: &mut F,
    config: &DriveConfig,
    current: &Current,
    page: &mut [u8],
) -> Result<State, OpenFault>
    requires config { IsInRange config.now }
    requires inside { LiesIn (F.state flash.old).geometry current.now }
    requires room { length page.old ≡ (F.state flash.old).geometry.block }
    requires current { IsTrue (F.state flash.old).told → IsCurrentSeal (F.state flash.old).geometry (F.state flash.old).cells current.now }
    ensures looks { ReadsOnly (area_pages (F.state flash.old).geometry + area_pages (F.state flash.old).geometry) (F.state flash.old) (F.state flash.new) }
    ensures told { IsTrue (F.state flash.old).told → (z : Sealed) → current_area (F.state flash.old).geometry (F.state flash.old).cells ≡ Some (current.now.area, z) → TellsArea config.now (F.state flash.old).geometry current.now.area z result }
    ensures ends { EndsOpening (F.state flash.old) (F.state flash.new) result }
    ensures ready { IfOk result (IsReady config.now (F.state flash.old).geometry) }
{
    match read_checkpoint(alloc, flash, config, current, page) {
        Ok(state) => read_journal(alloc, flash, config, current, state, page),
        Err(fault) => Err(fault),
    }
}

/// The state that the checkpoint of the current area says.
fn read_checkpoint<F: Flash>(
    alloc: Global,
    flash: &mut F,
    config: &DriveConfig,
    current: &Current,
    page: &mut [u8],
) -> Result<State, OpenFault>
    requires config { IsInRange config.now }
    requires inside { LiesIn (F.state flash.old).geometry current.now }
    requires room { length page.old ≡ (F.state flash.old).geometry.block }
    requires current { IsTrue (F.state flash.old).told → IsCurrentSeal (F.state flash.old).geometry (F.state flash.old).cells current.now }
    ensures looks { ReadsOnly (area_pages (F.state flash.old).geometry) (F.state flash.old) (F.state flash.new) }
    ensures told { IsTrue (F.state flash.old).told → (z : Sealed) → current_area (F.state flash.old).geometry (F.state flash.old).cells ≡ Some (current.now.area, z) → TellsCheckpoint config.now (F.state flash.old).geometry current.now.area z result }
    ensures ends { EndsOpening (F.state flash.old) (F.state flash.new) result }
    ensures ready { IfOk result (IsReady config.now (F.state flash.old).geometry) }
{
    let geometry = flash.geometry();
    match read_content(alloc, flash, current.area, &current.seal, page) {
        Ok(state) => judge(config, &geometry, current, state),
        Err(ContentFault::Bad { page }) => Err(bad_checkpoint(config, &geometry, page)),
        Err(ContentFault::Failed { moment }) => Err(OpenFault::FlashFault { moment }),
        Err(ContentFault::NoMemory) => Err(OpenFault::NoMemory),
    }
}

/// What is told where the pages of a checkpoint hold none: a key that differs from the flash, or else the page.
fn bad_checkpoint(config: &DriveConfig, geometry: &Geometry, page: u32) -> OpenFault
    ensures told { (area : ℕ) (z : Sealed) → IsBadIn geometry.now area z.stamp.version (concat z.checkpoint) page → TellsCheckpoint config.now geometry.now area z (Err result) }
    ensures quiet { NeverFails {X = State} (Err result) }
    ensures memory { result ≢ NoMemory }
{
    match other_cut(config, geometry) {
        Some(key) => OpenFault::OtherConfig { key },
        None => OpenFault::BadImage { page },
    }
}

/// The state that a checkpoint says, where no key differs, and a drive of the configuration may save it.
fn judge(
    config: &DriveConfig,
    geometry: &Geometry,
    current: &Current,
    state: State,
) -> Result<State, OpenFault>
    requires config { IsInRange config.now }
    requires valid { IsValidGeometry geometry.now }
    requires inside { LiesIn geometry.now current.now }
    requires state { IsState state }
    requires holds { checkpoint_size state.summary ≤ current.now.seal.checkpoint * geometry.now.block }
    ensures told { (z : Sealed) → IsCheckpointOf z.stamp.version geometry.now.block (concat z.checkpoint) state → TellsCheckpoint config.now geometry.now current.now.area z result }
    ensures quiet { NeverFails result }
    ensures ready { IfOk result (IsReady config.now geometry.now) }
    ensures memory { IfErr result (λ fault. fault ≢ NoMemory) }
{
    match other_key(config, geometry, &state.summary.keys) {
        Some(key) => return Err(OpenFault::OtherConfig { key }),
        None => {}
    }
    match bad_field(config, &state.summary) {
        Some(at) => Err(OpenFault::BadImage {
            page: number_in(geometry, current.area, at / geometry.block),
        }),
        None => Ok(state),
    }
}

/// The state that the current area says: that of its checkpoint, with the changes of its journal.
fn read_journal<F: Flash>(
    alloc: Global,
    flash: &mut F,
    config: &DriveConfig,
    current: &Current,
    state: State,
    page: &mut [u8],
) -> Result<State, OpenFault>
    requires config { IsInRange config.now }
    requires inside { LiesIn (F.state flash.old).geometry current.now }
    requires room { length page.old ≡ (F.state flash.old).geometry.block }
    requires current { IsTrue (F.state flash.old).told → IsCurrentSeal (F.state flash.old).geometry (F.state flash.old).cells current.now }
    requires ready { IsReady config.now (F.state flash.old).geometry state }
    requires says { IsTrue (F.state flash.old).told → (z : Sealed) → current_area (F.state flash.old).geometry (F.state flash.old).cells ≡ Some (current.now.area, z) → SaysState config.now (F.state flash.old).geometry z state }
    ensures looks { ReadsOnly (area_pages (F.state flash.old).geometry) (F.state flash.old) (F.state flash.new) }
    ensures told { IsTrue (F.state flash.old).told → (z : Sealed) → current_area (F.state flash.old).geometry (F.state flash.old).cells ≡ Some (current.now.area, z) → TellsArea config.now (F.state flash.old).geometry current.now.area z result }
    ensures ends { EndsOpening (F.state flash.old) (F.state flash.new) result }
    ensures ready { IfOk result (IsReady config.now (F.state flash.old).geometry) }
{
    let geometry = flash.geometry();
    let mut loaded = match LoadedState::new(alloc, config, state) {
        Ok(loaded) => loaded,
        Err(_) => return Err(OpenFault::NoMemory),
    };
    match replay(alloc, flash, current, page, &mut loaded) {
        Ok(_) => Ok(loaded.into_state()),
        Err(ReplayFault::Bad { number }) => Err(bad_record(&geometry, current, number)),
        Err(ReplayFault::Unfit { number }) => Err(bad_record(&geometry, current, number)),
        Err(ReplayFault::Failed { moment }) => Err(OpenFault::FlashFault { moment }),
        Err(ReplayFault::NoMemory) => Err(OpenFault::NoMemory),
    }
}

fn bad_record(geometry: &Geometry, current: &Current, number: u32) -> OpenFault
    requires valid { IsValidGeometry geometry.now }
    requires inside { LiesIn geometry.now current.now }
    requires within { suc current.now.seal.checkpoint + number < area_pages geometry.now }
    ensures { result ≡ OpenFault.BadImage (first_page geometry.now (area_unit geometry.now current.now.area) + record_page current.now.seal.checkpoint current.now.seal.before number) }
{
    OpenFault::BadImage {
        page: number_in(geometry, current.area, current.seal.record_page(number)),
    }
}
