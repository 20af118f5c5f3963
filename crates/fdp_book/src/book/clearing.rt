//! Blocks that are zeroed or deallocated.

ghost use Rattle.std.specs.Prelude.{◌≡◌, ℕ, ◌+◌, ◌<◌, ◌≤◌, ◌==◌, slice_get, Some};
ghost use Rattle.fdp_base.specs.declared.command.Range.{Range as Blocks};
ghost use Rattle.fdp_base.specs.Numbers.{is_among};
ghost use Rattle.fdp_book.specs.Clearing.{Clears, HasPointers};
ghost use Rattle.fdp_map.specs.MapTable.{size_in};
ghost use Rattle.fdp_rules.specs.Effect.{is_in_ranges};

use super::commit::clear_old;
use fdp_base::Range;
use fdp_map::Map;
use fdp_readings::Pages;

/// The blocks of these ranges of a namespace are taken away, with their pages. Ranges may overlap. It takes a step for each block of
/// each range.
pub(super) fn clear_ranges(map: &mut Map, pages: &mut Pages, nsid: u32, ranges: &[Range])
    requires within { (index : ℕ) (range : Blocks) → slice_get ranges.now index ≡ Some range → 0 < range.length → range.slba + range.length ≤ size_in map.old nsid }
    requires pointers { HasPointers map.old pages.old }
    ensures { Clears nsid (is_in_ranges ranges.now) map.old map.new pages.old pages.new }
{
    pages.joined(); // proof
    for index in 0..ranges.len() {
        let range = ranges[index];
        clear_blocks(map, pages, nsid, range.slba, range.length);
    }
}

/// So many blocks of a namespace from an address on are taken away, with their pages. It takes a step for each.
pub(super) fn clear_blocks(map: &mut Map, pages: &mut Pages, nsid: u32, slba: u64, count: u32)
    requires within { 0 < count → slba + count ≤ size_in map.old nsid }
    requires pointers { HasPointers map.old pages.old }
    ensures { Clears nsid (is_among slba count) map.old map.new pages.old pages.new }
{
    pages.joined(); // proof
    let _ = map.size(nsid); // proof: the end of the namespace is small
    for index in 0..count {
        clear_block(map, pages, nsid, slba + u64::from(index));
    }
}

/// A block is taken away, with its page, if it has one.
fn clear_block(map: &mut Map, pages: &mut Pages, nsid: u32, lba: u64)
    requires within { lba < size_in map.old nsid }
    requires pointers { HasPointers map.old pages.old }
    ensures { Clears nsid (λ at. at == lba) map.old map.new pages.old pages.new }
{
    clear_old(map, pages, nsid, lba);
    map.remove(nsid, lba);
}
