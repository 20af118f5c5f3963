//! What a saved change makes of the pages of the blocks in a loaded state.

ghost use Rattle.std.specs.Prelude.{◌≡◌, ◌+◌, ◌<◌, ◌≤◌, ℕ, All, Bool, List, None, IsTrue, IfSome, OnErr, OnOk, false, true, length};
ghost use Rattle.fdp_base.specs.Config.{IsInRange};
ghost use Rattle.fdp_base.specs.Geometry.{data_units};
ghost use Rattle.fdp_base.specs.Placement.{geometry_of};
ghost use Rattle.fdp_image.specs.CheckpointRows.{is_namespace_id};
ghost use Rattle.fdp_base.specs.declared.entry.BlockName.{BlockName as Block};
ghost use Rattle.fdp_base.specs.declared.config.DriveConfig.{DriveConfig as Config};
ghost use Rattle.fdp_records.specs.declared.change.Change.TheVariants as changes;
ghost use Rattle.fdp_records.specs.declared.change.UnitPages.{UnitPages as Pages};
ghost use Rattle.fdp_image.specs.Fits.{has_namespace, lie_within, lies_within, names_what_is};
ghost use Rattle.fdp_image.specs.Checkpoint.{page_in_lists};
ghost use Rattle.fdp_state.specs.Made.{HasPages, HasPagesAfter};
ghost use Rattle.fdp_state.specs.Owners.{with_pages, with_row};
ghost use Rattle.fdp_state.specs.Parts.{IsSound, listed, reading_of};

use crate::fits::size_of;
use crate::lists::blank_list;
use crate::moved_blocks::push_moved_blocks;
use crate::moves::moves_of;
use crate::parts::Parts;
use crate::rows::{put_page, set_list};
use fdp_base::{BlockName, DriveConfig, Range, Sequence};
use fdp_records::{Change, UnitPages};
use std::alloc::{AllocError, Global};

/// Gives the blocks the pages that they have behind a change. All stays as it was where there is no memory.
pub fn put_pages(
    alloc: Global,
    config: &DriveConfig,
    parts: &mut Parts,
    change: &Change,
) -> Result<(), AllocError>
    requires config { IsInRange config.now }
    requires sound { IsSound parts.old }
    requires fit { names_what_is config.now (reading_of parts.old) change.now ≡ true }
    ensures made { OnOk result (HasPagesAfter config.now change.now parts.old parts.new) }
    ensures refused { OnErr result (parts.new ≡ parts.old) }
{
    match change {
        Change::Write {
            nsid,
            slba,
            pid: _,
            pid_invalid: _,
            pages,
        } => {
            put_write(alloc, parts, *nsid, *slba, pages.as_slice());
            Ok(())
        }
        Change::Clear { nsid, ranges } => {
            clear(alloc, parts, *nsid, ranges.as_slice());
            Ok(())
        }
        Change::Update {
            nsid: _,
            closed: _,
            pids: _,
        } => Ok(()),
        Change::Create {
            nsid,
            size,
            given: _,
            handles: _,
        } => create(alloc, parts, *nsid, *size),
        Change::Delete { nsid } => {
            delete(alloc, parts, *nsid);
            Ok(())
        }
        Change::SetFdp {
            enabled: _,
            index: _,
            generation: _,
        } => Ok(()),
        Change::SetEvents {
            ruh: _,
            on: _,
            mask: _,
        } => Ok(()),
        Change::Moved {
            victim,
            first,
            second,
            handles: _,
        } => move_pages(alloc, config, parts, victim, first, second),
        Change::Shut { rg: _, ruh: _ } => Ok(()),
    }
}

fn put_write(alloc: Global, parts: &mut Parts, nsid: u32, slba: u64, pages: &[u32])
    requires sound { IsSound parts.old }
    requires within { lies_within (reading_of parts.old) nsid slba (length pages.now) ≡ true }
    ensures made { (c : Config) (pid : ℕ) (invalid : Bool) → HasPagesAfter c (changes.Write nsid slba pid invalid pages.now) parts.old parts.new }
{
    for (i, page) in pages.iter().enumerate() {
        put_page(alloc, parts, nsid, slba + i as u64, Some(*page));
    }
}

fn clear(alloc: Global, parts: &mut Parts, nsid: u32, ranges: &[Range])
    requires sound { IsSound parts.old }
    requires there { has_namespace (reading_of parts.old) nsid ≡ true }
    requires within { lie_within (reading_of parts.old) nsid ranges.now ≡ true }
    ensures made { (c : Config) → HasPagesAfter c (changes.Clear nsid ranges.now) parts.old parts.new }
{
    for range in ranges {
        clear_row(alloc, parts, nsid, range.slba, u64::from(range.length));
    }
}

/// Takes the pages away from so many addresses of a namespace.
fn clear_row(alloc: Global, parts: &mut Parts, nsid: u32, slba: u64, count: u64)
    requires sound { IsSound parts.old }
    requires within { 0 < count → slba + count ≤ listed parts.old.pages.items nsid }
    ensures { HasPages parts.old parts.new (with_row (λ lba. None) (page_in_lists parts.old.pages.items) nsid slba count) }
{
    for i in 0..count {
        put_page(alloc, parts, nsid, slba + i, None);
    }
}

/// Makes the page list of a namespace that is created.
fn create(alloc: Global, parts: &mut Parts, nsid: u32, size: u64) -> Result<(), AllocError>
    requires sound { IsSound parts.old }
    requires id { IsTrue (is_namespace_id nsid) }
    requires free { has_namespace (reading_of parts.old) nsid ≡ false }
    ensures made { (c : Config) (given : Bool) (handles : List ℕ) → OnOk result (HasPagesAfter c (changes.Create nsid size given handles) parts.old parts.new) }
    ensures refused { OnErr result (parts.new ≡ parts.old) }
{
    let list = blank_list(alloc, size)?;
    set_list(&mut parts.pages, nsid, Sequence::from_vec(list));
    Ok(())
}

/// Gives up the page list of a namespace that is deleted.
fn delete(alloc: Global, parts: &mut Parts, nsid: u32)
    requires sound { IsSound parts.old }
    requires there { has_namespace (reading_of parts.old) nsid ≡ true }
    ensures made { (c : Config) → HasPagesAfter c (changes.Delete nsid) parts.old parts.new }
{
    let size = size_of(parts, nsid);
    clear_row(alloc, parts, nsid, 0, size);
    set_list(&mut parts.pages, nsid, Sequence::new(alloc));
}

fn move_pages(
    alloc: Global,
    config: &DriveConfig,
    parts: &mut Parts,
    victim: &UnitPages,
    first: &UnitPages,
    second: &Option<UnitPages>,
) -> Result<(), AllocError>
    requires config { IsInRange config.now }
    requires sound { IsSound parts.old }
    requires victim { victim.now.unit < data_units (geometry_of config.now) }
    requires first { first.now.unit < data_units (geometry_of config.now) }
    requires second { IfSome second.now (λ (t : Pages). t.unit < data_units (geometry_of config.now)) }
    ensures made { (handles : List ℕ) → OnOk result (HasPagesAfter config.now (changes.Moved victim.now first.now second.now handles) parts.old parts.new) }
    ensures refused { OnErr result (parts.new ≡ parts.old) }
{
    let moves = moves_of(alloc, config, victim, first, second)?;
    let mut blocks = Vec::new(alloc);
    push_moved_blocks(alloc, &mut blocks, parts, moves.as_slice())?;
    put_blocks(alloc, parts, blocks.as_slice());
    Ok(())
}

/// Gives blocks their new pages, one after another.
fn put_blocks(alloc: Global, parts: &mut Parts, blocks: &[(BlockName, u32)])
    requires sound { IsSound parts.old }
    requires within { All (λ (x : Block × ℕ). x.0.lba < listed parts.old.pages.items x.0.nsid) blocks.now }
    ensures { HasPages parts.old parts.new (with_pages (page_in_lists parts.old.pages.items) blocks.now) }
{
    for x in blocks {
        put_page(alloc, parts, x.0.nsid, x.0.lba, Some(x.1));
    }
}
