//! The blocks that stand in a unit.

ghost use Rattle.fdp_plain_judge.specs.Passes.{AreInUnit, TakesSpace, in_unit};
ghost use Rattle.fdp_tables.specs.State.{point_kept};
ghost use Rattle.std.specs.Prelude.{◌≡◌, ◌++◌, IfOk, OnOk, flat_map};

use fdp_base::{BlockName, Spot};
use fdp_tables::Standing;
use std::alloc::{AllocError, Global};

/// The blocks that stand in a unit, with their pages, in no order; one may stand there twice. It looks at the blocks that may stand there.
pub(crate) fn blocks_in_unit(
    kept: &Standing,
    alloc: Global,
    unit: u32,
) -> Result<Vec<(BlockName, Spot)>, AllocError>
    ensures { IfOk result (λ blocks. AreInUnit (point_kept kept.now) unit 17 blocks.items) }
{
    let mut blocks = Vec::new(alloc);
    for nsid in 1..17 {
        push_space(kept, alloc, unit, nsid, &mut blocks)?;
    }
    Ok(blocks)
}

/// Appends those of a namespace.
fn push_space(
    kept: &Standing,
    alloc: Global,
    unit: u32,
    nsid: u32,
    into: &mut Vec<(BlockName, Spot)>,
) -> Result<(), AllocError>
    ensures { OnOk result (TakesSpace (point_kept kept.now) unit nsid into.old.items into.new.items) }
{
    let places = kept.places_in(alloc, nsid, unit)?;
    push_places(kept, unit, nsid, &places, into)
}

/// Appends those at these addresses.
fn push_places(
    kept: &Standing,
    unit: u32,
    nsid: u32,
    places: &[u64],
    into: &mut Vec<(BlockName, Spot)>,
) -> Result<(), AllocError>
    ensures { OnOk result (into.new.items ≡ into.old.items ++ flat_map (in_unit (point_kept kept.now) unit nsid) places.now) }
{
    for lba in places {
        push_in_unit(kept, unit, nsid, *lba, into)?;
    }
    Ok(())
}

fn push_in_unit(
    kept: &Standing,
    unit: u32,
    nsid: u32,
    lba: u64,
    into: &mut Vec<(BlockName, Spot)>,
) -> Result<(), AllocError>
    ensures { OnOk result (into.new.items ≡ into.old.items ++ in_unit (point_kept kept.now) unit nsid lba) }
{
    match kept.site_of(nsid, lba) {
        Some(spot) if spot.unit == unit => {
            into.push((BlockName { nsid, lba }, spot))?;
            Ok(())
        }
        Some(_) => Ok(()),
        None => Ok(()),
    }
}
