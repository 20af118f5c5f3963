//! The savings of a saver, with the outline and the pages of the drive of a book.

ghost use Rattle.std.specs.Prelude.{◌≡◌, ◌∷◌, [], IsTrue, List};
ghost use Rattle.fdp_base.specs.declared.entry.Entry.{Entry};
ghost use Rattle.fdp_book.specs.Book.{point_in};
ghost use Rattle.fdp_book.specs.Changes.{IsChangeOfEntry};
ghost use Rattle.fdp_durability.specs.Saved.{SavesDrive, SavesEntries, SettlesDrive};
ghost use Rattle.fdp_keeper.specs.Keeper.{CanGive};
ghost use Rattle.fdp_outline.specs.declared.moved_block.MovedBlock.{MovedBlock};
ghost use Rattle.fdp_records.specs.Borrowed.{change_of};
ghost use Rattle.fdp_records.specs.Limits.{is_within_limits};

use fdp_book::{Book, totals_behind};
use fdp_durability::{Saved, Saver};
use fdp_flash::{Flash, Wrote};
use fdp_records::ChangeRef;

/// Saves a change of the drive of a book. All savings of a change go through here.
pub fn save<F: Flash>(saver: &mut Saver, flash: &mut F, book: &Book, change: ChangeRef<'_>) -> Saved
    requires limits { IsTrue (is_within_limits (change_of change)) }
    requires given { CanGive book.now saver.old (F.state flash.old) }
    ensures saves { (e : Entry) (moved : List MovedBlock) → IsChangeOfEntry book.now.config (point_in book.now) e (change_of change.entry) moved → SavesEntries book.now.config book.now.found book.now.entries (e ∷ []) saver.old saver.new (F.state flash.old) (F.state flash.new) result }
    ensures geometry { saver.new.geometry ≡ saver.old.geometry }
{
    book.known(); // proof
    let totals = totals_behind(&book.totals(), change);
    saver.save(flash, change, &totals, book.summary(), book.page_lists())
}

/// Writes a checkpoint of the drive of a book.
pub fn checkpoint<F: Flash>(saver: &mut Saver, flash: &mut F, book: &Book) -> Wrote
    requires { CanGive book.now saver.old (F.state flash.old) }
    ensures saves { SavesDrive book.now.config book.now.found book.now.entries saver.old saver.new (F.state flash.old) (F.state flash.new) result }
    ensures geometry { saver.new.geometry ≡ saver.old.geometry }
{
    book.known(); // proof
    saver.checkpoint(flash, book.summary(), book.page_lists())
}

/// Writes a checkpoint of the drive of a book, where there is a doubt.
pub fn settle<F: Flash>(saver: &mut Saver, flash: &mut F, book: &Book) -> Wrote
    requires { CanGive book.now saver.old (F.state flash.old) }
    ensures saves { SettlesDrive book.now.config book.now.found book.now.entries saver.old saver.new (F.state flash.old) (F.state flash.new) result }
    ensures geometry { saver.new.geometry ≡ saver.old.geometry }
{
    book.known(); // proof
    saver.settle(flash, book.summary(), book.page_lists())
}
