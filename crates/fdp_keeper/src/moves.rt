//! The copies of blocks of a pass, and what the change of its move names.

ghost use Rattle.std.specs.Prelude.{◌≡◌, ◌++◌, ◌∷◌, [], ◌<◌, ◌≤◌, ◌+◌, IsTrue, length, map, vec_capacity, vec_len};
ghost use Rattle.fdp_keeper.specs.Moves.{moved_of};
ghost use Rattle.fdp_owners.specs.OwnerTable.{IsPlace, owner_at};
ghost use Rattle.fdp_durability.specs.fdp_pages.PageTables.{copies_at, is_under_way};
ghost use Rattle.fdp_durability.specs.fdp_readings.Changes.{copies_of_blocks};
ghost use Rattle.fdp_units.specs.UnitTable.{IsGroup};

use fdp_base::{BlockName, Copied};
use fdp_durability::Pages;
use fdp_outline::MovedBlock;
use fdp_owners::Holder;

/// Lists the copies of blocks of the pass under way in a group, and the blocks that they move.
pub fn list_copies(pages: &Pages, rg: u16, copies: &mut Vec<Copied>, blocks: &mut Vec<MovedBlock>)
    requires group { IsGroup pages.now.units rg }
    requires pass { IsTrue (is_under_way pages.now rg) }
    requires few { pages.now.units.unit_pages ≤ 256 }
    requires room { 256 ≤ vec_capacity copies.old }
    requires room_too { 256 ≤ vec_capacity blocks.old }
    ensures copies { copies.new.items ≡ copies_of_blocks (owner_at pages.now.owners) (copies_at pages.now rg) }
    ensures blocks { blocks.new.items ≡ map (moved_of (owner_at pages.now.owners)) (copies_of_blocks (owner_at pages.now.owners) (copies_at pages.now rg)) }
    ensures capacity { vec_capacity copies.new ≡ vec_capacity copies.old }
    ensures capacity_too { vec_capacity blocks.new ≡ vec_capacity blocks.old }
    ensures few { length copies.new.items ≤ 256 }
{
    pages.joined(); // proof
    copies.clear();
    blocks.clear();
    for copy in pages.copies(rg) {
        list_copy(pages, *copy, copies, blocks);
    }
}

/// Lists a copy, if a block stands at its old page.
fn list_copy(pages: &Pages, copy: Copied, copies: &mut Vec<Copied>, blocks: &mut Vec<MovedBlock>)
    requires place { IsPlace pages.now.owners copy.from }
    requires room { vec_len copies.old < vec_capacity copies.old }
    requires room_too { vec_len blocks.old < vec_capacity blocks.old }
    ensures copies { copies.new.items ≡ copies.old.items ++ copies_of_blocks (owner_at pages.now.owners) (copy ∷ []) }
    ensures blocks { blocks.new.items ≡ blocks.old.items ++ map (moved_of (owner_at pages.now.owners)) (copies_of_blocks (owner_at pages.now.owners) (copy ∷ [])) }
    ensures capacity { vec_capacity copies.new ≡ vec_capacity copies.old }
    ensures capacity_too { vec_capacity blocks.new ≡ vec_capacity blocks.old }
    ensures few { vec_len copies.new ≤ vec_len copies.old + 1 }
    ensures few_too { vec_len blocks.new ≤ vec_len blocks.old + 1 }
{
    if let Some(owner) = pages.owner(copy.from) {
        let spare = owner.spare;
        match owner.holder {
            Holder::Block => {
                copies.push_reserved(copy);
                blocks.push_reserved(MovedBlock {
                    name: BlockName {
                        nsid: spare.nsid,
                        lba: spare.lba,
                    },
                    ruh: spare.ruh,
                });
            }
            Holder::Flight(_) => {}
        }
    }
}
