//! A change that is applied to a loaded state.

ghost use Rattle.std.specs.Prelude.{◌≡◌, ◌&&◌, Err, IfOk, IsTrue, OnErr, OnOk, false, true};
ghost use Rattle.fdp_image.specs.Applied.{applied};
ghost use Rattle.fdp_image.specs.Fits.{are_born, fits, names_what_is};
ghost use Rattle.fdp_state.specs.Loaded.{IsLoaded};
ghost use Rattle.fdp_state.specs.Parts.{reading_of};

use crate::fits::are_born;
use crate::make::put_pages;
use crate::moved_list::list_moved;
use crate::names::names_what_is;
use crate::parts::Parts;
use fdp_base::{DriveConfig, Totals};
use fdp_records::Change;
use fdp_replay::Refusal;
use std::alloc::{AllocError, Global};

/// Applies a change that fits to a state.
pub fn apply_to(
    alloc: Global,
    config: &DriveConfig,
    parts: &mut Parts,
    change: Change,
    totals: Totals,
) -> Result<(), Refusal>
    requires { IsLoaded config.now parts.old }
    ensures loaded { OnOk result (IsLoaded config.now parts.new) }
    ensures applied { OnOk result (reading_of parts.new ≡ applied config.now (reading_of parts.old) (change, totals)) }
    ensures fit { OnOk result (IsTrue (fits config.now (reading_of parts.old) (change, totals))) }
    ensures unfit { result ≡ Err Refusal.Unfit → fits config.now (reading_of parts.old) (change, totals) ≡ false }
    ensures refused { OnErr result (parts.new ≡ parts.old) }
{
    match fits(alloc, config, parts, &change, totals.position) {
        Ok(true) => {}
        Ok(false) => return Err(Refusal::Unfit),
        Err(_) => return Err(Refusal::NoMemory),
    }
    match make_whole(alloc, config, parts, &change, totals) {
        Ok(()) => Ok(()),
        Err(_) => Err(Refusal::NoMemory),
    }
}

/// Whether a change at a position fits what is said before it.
fn fits(
    alloc: Global,
    config: &DriveConfig,
    parts: &Parts,
    change: &Change,
    position: u64,
) -> Result<bool, AllocError>
    requires { IsLoaded config.now parts.now }
    ensures { IfOk result (λ b. b ≡ (are_born (reading_of parts.now) position && names_what_is config.now (reading_of parts.now) change.now)) }
{
    if are_born(parts, position) {
        names_what_is(alloc, config, parts, change)
    } else {
        Ok(false)
    }
}

/// Makes a change that fits, with its events and totals. The blocks that it moves are listed while they stand where they stood, and all that may
/// want memory comes first.
fn make_whole(
    alloc: Global,
    config: &DriveConfig,
    parts: &mut Parts,
    change: &Change,
    totals: Totals,
) -> Result<(), AllocError>
    requires loaded { IsLoaded config.now parts.old }
    requires born { are_born (reading_of parts.old) totals.position ≡ true }
    requires fit { names_what_is config.now (reading_of parts.old) change.now ≡ true }
    ensures loaded { OnOk result (IsLoaded config.now parts.new) }
    ensures applied { OnOk result (reading_of parts.new ≡ applied config.now (reading_of parts.old) (change.now, totals)) }
    ensures refused { OnErr result (parts.new ≡ parts.old) }
{
    let moved = list_moved(alloc, config, parts, change)?;
    put_pages(alloc, config, parts, change)?;
    let change = change.borrowed();
    parts
        .outline
        .apply(config, change, totals, moved.as_slice());
    Ok(())
}
