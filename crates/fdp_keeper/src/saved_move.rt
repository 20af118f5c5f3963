//! The saving of a move.

ghost use Rattle.std.specs.Prelude.{◌≡◌, ◌<◌, ◌∷◌, [], IfSome, IsTrue, None};
ghost use Rattle.fdp_base.specs.declared.entry.Entry.TheVariants as entries;
ghost use Rattle.fdp_book.specs.Book.{point_in};
ghost use Rattle.fdp_book.specs.Relocating.{MovesPass};
ghost use Rattle.fdp_durability.specs.Saved.{SavesEntries};
ghost use Rattle.fdp_durability.specs.fdp_pages.PageTables.{passes_at};
ghost use Rattle.fdp_keeper.specs.Keeper.{CanGive};
ghost use Rattle.fdp_keeper.specs.Ready.{IsReady};
ghost use Rattle.fdp_passes.specs.declared.due.Due.TheVariants.{Move};
ghost use Rattle.fdp_passes.specs.Due.{IsDue};
ghost use Rattle.fdp_rules.specs.Sites.{moved_blocks};

use crate::change_room::ChangeRoom;
use crate::move_change::{list_ruhs, move_change};
use crate::moves::list_copies;
use crate::saving::save;
use fdp_book::Book;
use fdp_durability::{Saved, Saver};
use fdp_flash::Flash;

/// Saves the move that is due in a group, if it moves a block, and makes it in the book, whatever the answer.
pub fn save_move<F: Flash>(
    saver: &mut Saver,
    room: &mut ChangeRoom,
    flash: &mut F,
    book: &mut Book,
    rg: u16,
) -> Option<Saved>
    requires can { CanGive book.old saver.old (F.state flash.old) }
    requires group { rg < book.old.config.groups }
    requires room { 0 < book.old.room }
    requires may { IsTrue book.old.may_move }
    requires due { IsDue (passes_at book.old.pages rg) book.old.pages.units book.old.pages.owners rg Move }
    requires ready { IsReady room.old }
    ensures moved { MovesPass book.old book.new rg }
    ensures none { result ≡ None → (moved_blocks (point_in book.old) rg ≡ []) × (saver.new ≡ saver.old) × (flash.new ≡ flash.old) }
    ensures some { IfSome result (λ saved. (moved_blocks (point_in book.old) rg ≡ [] → ⊥) × SavesEntries book.old.config book.old.found book.old.entries (entries.Moved (record { rg = rg; blocks = moved_blocks (point_in book.old) rg }) ∷ []) saver.old saver.new (F.state flash.old) (F.state flash.new) saved) }
    ensures geometry { saver.new.geometry ≡ saver.old.geometry }
    ensures ready { IsReady room.new }
{
    book.known(); // proof
    list_copies(book.pages(), rg, &mut room.copies, &mut room.blocks);
    if room.copies.as_slice().is_empty() {
        book.move_pass(rg, None, &[]);
        return None;
    }
    list_ruhs(&mut room.ruhs, room.blocks.as_slice());
    let change = move_change(room.copies.as_slice(), room.ruhs.as_slice());
    let saved = save(saver, flash, book, change);
    book.move_pass(rg, Some(change), room.blocks.as_slice());
    Some(saved)
}
