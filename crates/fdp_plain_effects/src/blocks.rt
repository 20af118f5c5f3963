ghost use Rattle.fdp_base.specs.Numbers.{is_among, with_at};
ghost use Rattle.fdp_base.specs.declared.command.Command.TheVariants as commands;
ghost use Rattle.fdp_rules.specs.Effect.{effect_of, is_in_ranges, without_blocks};
ghost use Rattle.fdp_tables.specs.Spaces.{block_in};
ghost use Rattle.fdp_tables.specs.State.{namespace_of, plain_of, row};
ghost use Rattle.std.specs.Prelude.{◌≡◌, ℕ, ◌-◌, ◌+◌, ◌<◌, ◌≤◌, ◌^◌, ◌==◌, if◌then◌else◌, None, length, option_map};

use fdp_base::{Dealloc, Range};
use fdp_tables::{Blocks, Kept, Space};

/// A namespace is there with its blocks, or none is.
pub(crate) fn set_space(kept: &mut Kept, nsid: u32, space: Option<Space>)
    requires { nsid < length kept.old.spaces.items }
    ensures state { plain_of kept.new ≡ record (plain_of kept.old) { namespaces = with_at (plain_of kept.old).namespaces nsid (option_map namespace_of space); blocks = λ n lba. if n == nsid then block_in space lba else (plain_of kept.old).blocks n lba } }
    ensures rest { kept.new ≡ record kept.old { spaces = kept.new.spaces } }
    ensures rows { length kept.new.spaces.items ≡ length kept.old.spaces.items }
{
    kept.spaces[nsid as usize] = space;
}

/// Deletes a namespace.
#[tactic(auto, unfolding(fdp_rules::specs::Effect::effect_of))]
pub(crate) fn delete_namespace(kept: &mut Kept, nsid: u32)
    requires { nsid < length kept.old.spaces.items }
    ensures state { (queue : ℕ) → plain_of kept.new ≡ effect_of kept.old.config (plain_of kept.old) queue (commands.Delete (record { nsid = nsid })) }
    ensures rest { kept.new ≡ record kept.old { spaces = kept.new.spaces } }
    ensures rows { length kept.new.spaces.items ≡ length kept.old.spaces.items }
{
    set_space(kept, nsid, None);
}

/// The blocks of a namespace in these ranges become absent. It looks at these.
fn clear(kept: &mut Kept, nsid: u32, ranges: &[Range])
    ensures state { plain_of kept.new ≡ without_blocks (plain_of kept.old) nsid (is_in_ranges ranges.now) }
    ensures rest { kept.new ≡ record kept.old { spaces = kept.new.spaces } }
    ensures rows { length kept.new.spaces.items ≡ length kept.old.spaces.items }
{
    let place = nsid as usize;
    if place < kept.spaces.len() {
        clear_space(&mut kept.spaces[place], ranges);
    }
}

/// Zeroes blocks.
#[tactic(auto, unfolding(fdp_rules::specs::Effect::effect_of))]
pub(crate) fn zero_blocks(kept: &mut Kept, nsid: u32, slba: u64, count: u32)
    ensures state { (queue : ℕ) → plain_of kept.new ≡ effect_of kept.old.config (plain_of kept.old) queue (commands.Zero (record { nsid = nsid; slba = slba; count = count })) }
    ensures rest { kept.new ≡ record kept.old { spaces = kept.new.spaces } }
    ensures rows { length kept.new.spaces.items ≡ length kept.old.spaces.items }
{
    clear(
        kept,
        nsid,
        &[Range {
            slba,
            length: count,
        }],
    );
}

/// Deallocates blocks.
#[tactic(auto, unfolding(fdp_rules::specs::Effect::effect_of))]
pub(crate) fn deallocate(kept: &mut Kept, dealloc: &Dealloc)
    ensures state { (queue : ℕ) → plain_of kept.new ≡ effect_of kept.old.config (plain_of kept.old) queue (commands.Dealloc dealloc.now) }
    ensures rest { kept.new ≡ record kept.old { spaces = kept.new.spaces } }
    ensures rows { length kept.new.spaces.items ≡ length kept.old.spaces.items }
{
    if dealloc.deallocate {
        clear(kept, dealloc.nsid, dealloc.ranges.as_slice());
    }
}

/// The blocks of a namespace in these ranges become absent.
fn clear_space(space: &mut Option<Space>, ranges: &[Range])
    ensures namespace { option_map namespace_of space.new ≡ option_map namespace_of space.old }
    ensures blocks { (lba : ℕ) → block_in space.new lba ≡ (if is_in_ranges ranges.now lba then None else block_in space.old lba) }
{
    if let Some(space) = space {
        clear_blocks(&mut space.blocks, ranges);
    }
}

/// The blocks in these ranges become absent. It looks at each of them at most once, however the ranges overlap.
fn clear_blocks(blocks: &mut Blocks, ranges: &[Range])
    ensures size { length blocks.new ≡ length blocks.old }
    ensures rows { (lba : ℕ) → row blocks.new lba ≡ (if is_in_ranges ranges.now lba then None else row blocks.old lba) }
{
    let size = blocks.len() as u64;
    let mut lba = 0;
    while lba < size {
        let stretch = stretch_from(ranges, lba);
        if stretch.held {
            blocks.clear(lba, stretch.end - lba);
        }
        lba = stretch.end;
    }
}

/// Addresses up to an end, which ranges hold all, or none of which they hold.
#[derive(Clone, Copy)]
struct Stretch {
    held: bool,
    end: u64,
}

/// The addresses from one on: how far the ranges that hold it go, or how far it is to the next that begins. It looks at each range.
fn stretch_from(ranges: &[Range], lba: u64) -> Stretch
    requires { lba + 1 < 2 ^ 64 }
    ensures goes_on { lba < result.end }
    ensures alike { (k : ℕ) → lba ≤ k → k < result.end → is_in_ranges ranges.now k ≡ result.held }
{
    let mut held = lba;
    let mut next = u64::MAX;
    for range in ranges {
        if lba < range.slba {
            next = next.min(range.slba);
        } else if lba - range.slba < u64::from(range.length) {
            let left = u64::from(range.length) - (lba - range.slba);
            held = held.max(lba.saturating_add(left));
        }
    }
    if lba < held {
        Stretch {
            held: true,
            end: held,
        }
    } else {
        Stretch {
            held: false,
            end: next,
        }
    }
}
