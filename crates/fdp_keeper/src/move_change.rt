//! The change of a move, and the handles that it names.

ghost use Rattle.std.specs.Prelude.{◌≡◌, ◌≤◌, IsTrue, length, map, vec_capacity};
ghost use Rattle.fdp_keeper.specs.Moves.{CanBeNamed, IsMoveOf};
ghost use Rattle.fdp_outline.specs.declared.moved_block.MovedBlock.{MovedBlock as Moving};
ghost use Rattle.fdp_records.specs.Borrowed.{change_of};
ghost use Rattle.fdp_records.specs.Limits.{is_within_limits};

use crate::targets::{new_pages, old_pages};
use fdp_base::Copied;
use fdp_outline::MovedBlock;
use fdp_records::ChangeRef;

/// The change of a move of these copies, whose blocks have these handles.
pub fn move_change<'a>(copies: &[Copied], ruhs: &'a [u8]) -> ChangeRef<'a>
    requires named { CanBeNamed copies.now }
    requires each { length ruhs.now ≡ length copies.now }
    ensures change { IsMoveOf copies.now ruhs.now (change_of result) }
    ensures limits { IsTrue (is_within_limits (change_of result)) }
{
    let victim = old_pages(copies);
    let targets = new_pages(copies);
    ChangeRef::Moved {
        victim,
        first: targets.first,
        second: targets.second,
        handles: ruhs,
    }
}

/// Puts the handles of these blocks in place of what the list held; it has room for them.
pub fn list_ruhs(ruhs: &mut Vec<u8>, blocks: &[MovedBlock])
    requires room { length blocks.now ≤ vec_capacity ruhs.old }
    ensures ruhs { ruhs.new.items ≡ map (λ (x : Moving). x.ruh) blocks.now }
    ensures room { vec_capacity ruhs.new ≡ vec_capacity ruhs.old }
{
    ruhs.clear();
    for block in blocks {
        ruhs.push_reserved(block.ruh);
    }
}
