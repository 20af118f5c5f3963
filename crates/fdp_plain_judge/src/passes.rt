ghost use Rattle.fdp_base.specs.declared.entry.BlockName.{BlockName};
ghost use Rattle.fdp_plain_judge.specs.Judging.{EachIn};
ghost use Rattle.fdp_plain_judge.specs.Passes.{AreInUnit, StandsAmong};
ghost use Rattle.fdp_rules.specs.Sites.{blocks_at, blocks_in, is_spot, moved_blocks, pass_in, site_of, stands_at};
ghost use Rattle.fdp_rules.specs.Step.{IsMoved};
ghost use Rattle.fdp_tables.specs.Copies.{copy_of};
ghost use Rattle.fdp_tables.specs.State.{point_kept};
ghost use Rattle.std.specs.Prelude.{◌≡◌, ◌++◌, ◌∷◌, [], false, true, Decides, IfOk, IsTrue, MatchOption, OnOk, if◌then◌else◌, map};

use crate::unit_blocks::blocks_in_unit;
use fdp_base::{BlockName, Spot};
use fdp_commands::NAMESPACE_IDS;
use fdp_tables::{Standing, last_run};
use std::alloc::{AllocError, Global};

/// The blocks that the pass of a group moves, by page, identifier and address. It looks at the blocks that may stand in the unit of the
/// pass, and for each of its pages at those that do.
fn moved_blocks(kept: &Standing, alloc: Global, rg: u16) -> Result<Vec<BlockName>, AllocError>
    ensures { IfOk result (λ blocks. blocks.items ≡ moved_blocks (point_kept kept.now) rg) }
{
    let pass = pass_in(kept, rg);
    let unit = unit_of(pass);
    let standing = blocks_in_unit(kept, alloc, unit)?;
    let mut blocks = Vec::new(alloc);
    for copy in pass {
        push_moved(kept, copy.0, unit, &standing, &mut blocks)?;
    }
    Ok(blocks)
}

/// The unit of the first page of a pass. The others lie there too; nothing rests on that.
fn unit_of(pass: &[(Spot, Spot)]) -> u32 {
    match pass.first() {
        Some(copy) => copy.0.unit,
        None => 0,
    }
}

/// Appends the blocks that stand at a page; those of this unit are known.
fn push_moved(
    kept: &Standing,
    spot: Spot,
    unit: u32,
    standing: &[(BlockName, Spot)],
    into: &mut Vec<BlockName>,
) -> Result<(), AllocError>
    requires { AreInUnit (point_kept kept.now) unit 17 standing.now }
    ensures { OnOk result (into.new.items ≡ into.old.items ++ blocks_at (point_kept kept.now) spot) }
{
    if spot.unit == unit {
        push_standing(kept, spot, standing, into)
    } else {
        push_blocks_at(kept, spot, into)
    }
}

/// Appends the blocks that stand at a page of the unit whose blocks are known: none or one, as a page holds one block. Of several their
/// order counts, so that all blocks are looked at.
fn push_standing(
    kept: &Standing,
    spot: Spot,
    standing: &[(BlockName, Spot)],
    into: &mut Vec<BlockName>,
) -> Result<(), AllocError>
    requires { AreInUnit (point_kept kept.now) spot.unit 17 standing.now }
    ensures { OnOk result (into.new.items ≡ into.old.items ++ blocks_at (point_kept kept.now) spot) }
{
    match first_at(standing, spot) {
        Some(block) if is_alone_at(standing, spot, block) => {
            into.push(block)?;
            Ok(())
        }
        Some(_) => push_blocks_at(kept, spot, into),
        None => Ok(()),
    }
}

/// The first of these blocks that stands at a page.
fn first_at(standing: &[(BlockName, Spot)], spot: Spot) -> Option<BlockName>
    ensures { MatchOption result (EachIn (λ x. is_spot spot x.1 ≡ false) standing.now) (λ block. StandsAmong standing.now spot block) }
{
    for (block, site) in standing {
        if is_at(*site, spot) {
            return Some(*block);
        }
    }
    None
}

/// Whether no other of these blocks stands at a page.
fn is_alone_at(standing: &[(BlockName, Spot)], spot: Spot, block: BlockName) -> bool
    ensures { IsTrue result → EachIn (λ x. is_spot spot x.1 ≡ true → x.0 ≡ block) standing.now }
{
    for (other, site) in standing {
        if is_at(*site, spot) && !is_same(*other, block) {
            return false;
        }
    }
    true
}

fn is_at(site: Spot, spot: Spot) -> bool
    ensures { result ≡ is_spot spot site }
{
    spot.unit == site.unit && spot.page == site.page
}

fn is_same(a: BlockName, b: BlockName) -> bool
    ensures { IsTrue result → a ≡ b }
{
    a.nsid == b.nsid && a.lba == b.lba
}

/// Whether these are the blocks that the pass of a group moves.
pub(crate) fn is_moved(
    kept: &Standing,
    alloc: Global,
    rg: u16,
    blocks: &[BlockName],
) -> Result<bool, AllocError>
    ensures { IfOk result (λ answer. Decides answer (IsMoved kept.now.config (point_kept kept.now) rg blocks.now)) }
{
    let moved = moved_blocks(kept, alloc, rg)?;
    Ok(rg < kept.config().groups && are_same(blocks, moved.as_slice()))
}

/// The pass under way in a group.
fn pass_in<'a>(kept: &'a Standing, rg: u16) -> &'a [(Spot, Spot)]
    ensures { map copy_of result.now ≡ pass_in (point_kept kept.now).trail rg }
{
    last_run(kept.copies_in(rg))
}

fn push_blocks_at(kept: &Standing, spot: Spot, into: &mut Vec<BlockName>) -> Result<(), AllocError>
    ensures { OnOk result (into.new.items ≡ into.old.items ++ blocks_at (point_kept kept.now) spot) }
{
    for nsid in &NAMESPACE_IDS {
        push_blocks_in(kept, spot, *nsid, into)?;
    }
    Ok(())
}

fn push_blocks_in(
    kept: &Standing,
    spot: Spot,
    nsid: u32,
    into: &mut Vec<BlockName>,
) -> Result<(), AllocError>
    ensures { OnOk result (into.new.items ≡ into.old.items ++ blocks_in (point_kept kept.now) spot nsid) }
{
    for lba in 0..kept.size_of(nsid) {
        push_block_at(kept, spot, nsid, lba, into)?;
    }
    Ok(())
}

fn push_block_at(
    kept: &Standing,
    spot: Spot,
    nsid: u32,
    lba: u64,
    into: &mut Vec<BlockName>,
) -> Result<(), AllocError>
    ensures { OnOk result (into.new.items ≡ into.old.items ++ (if stands_at (site_of (point_kept kept.now) nsid lba) spot then record { nsid = nsid; lba = lba } ∷ [] else [])) }
{
    if stands_at(kept, spot, nsid, lba) {
        into.push(BlockName { nsid, lba })?;
    }
    Ok(())
}

/// Whether a block stands at a page.
fn stands_at(kept: &Standing, spot: Spot, nsid: u32, lba: u64) -> bool
    ensures { result ≡ stands_at (site_of (point_kept kept.now) nsid lba) spot }
{
    match kept.site_of(nsid, lba) {
        Some(site) => is_at(site, spot),
        None => false,
    }
}

/// Whether two lists of blocks are the same.
fn are_same(a: &[BlockName], b: &[BlockName]) -> bool
    ensures { Decides result (a.now ≡ b.now) }
{
    a == b
}
