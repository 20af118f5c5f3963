ghost use Rattle.std.specs.Prelude.{◌≡◌, ◌+◌, ◌<◌, ◌≤◌, IsTrue, length, true, ℕ};
ghost use Rattle.fdp_keeper.specs.fdp_book.Book.{written_in};
ghost use Rattle.fdp_keeper.specs.Keeper.{CanSave, IsKeeperOf};
ghost use Rattle.fdp_keeper.specs.fdp_locations.Stored.{HoldsWritten};
ghost use Rattle.fdp_keeper.specs.fdp_pages.PageTables.{passes_at};
ghost use Rattle.fdp_passes.specs.declared.due.Due.TheVariants.{Erase, Move};
ghost use Rattle.fdp_passes.specs.Due.{IsDue};
ghost use Rattle.fdp_relocation.specs.Collected.{AreasTell, Collects, EndsDoubt, EndsMove};

use fdp_flash::{Flash, Wrote};
use fdp_keeper::{Book, Keeper, Lost, Saved, Step};

/// What a step of relocation came to.
#[derive(Clone, Copy, Debug, PartialEq, Eq)]
pub enum Advance {
    /// No pass is under way, and none is to begin.
    Nothing,
    /// A live page of the victim was copied.
    Copied,
    /// The blocks of the copies stand at their new pages, and that is saved.
    Moved,
    /// The victim was erased.
    Erased,
    /// No unit is free for the next copy: the group is worn, and the pass given up.
    Starved,
    /// A call of the flash failed. Where it was to save a move, the move is made all the same.
    Fault,
}

/// The next step of relocation in a group, with the entry that tells of it. A move is saved as it is made; before an erase a doubt is ended, and
/// where that fails nothing is erased. Beside the calls of one saving or checkpoint it makes at most two calls of the flash, and takes no memory.
/// A move takes a step for each copy; each other step looks at pages of the victim.
pub fn collect<F: Flash>(
    book: &mut Book,
    keeper: &mut Keeper,
    flash: &mut F,
    block: &mut [u8],
    rg: u16,
) -> Advance
    requires group { rg < book.old.config.groups }
    requires room { 0 < book.old.room }
    requires may_move { IsDue (passes_at book.old.pages rg) book.old.pages.units book.old.pages.owners rg Move → IsTrue book.old.may_move }
    requires can { CanSave book.old keeper.old (F.state flash.old) }
    requires said { IsTrue (F.state flash.old).told → AreasTell book.old keeper.old (F.state flash.old).cells }
    requires stored { IsTrue (F.state flash.old).told → HoldsWritten (F.state flash.old).geometry (F.state flash.old).cells (written_in book.old) book.old.pages.units }
    requires size { length block.old ≡ (F.state flash.old).geometry.block }
    ensures step { Collects F.state (record { book = book.old; keeper = keeper.old; flash = flash.old }) (record { book = book.new; keeper = keeper.new; flash = flash.new }) rg result }
    ensures stored { IsTrue (F.state flash.old).told → HoldsWritten (F.state flash.old).geometry (F.state flash.new).cells (written_in book.new) book.new.pages.units }
    ensures keeper { IsKeeperOf book.new keeper.new }
    ensures epoch { keeper.new.saver.stamp.epoch + length book.old.entries ≤ keeper.old.saver.stamp.epoch + length book.new.entries }
    ensures geometry { (F.state flash.new).geometry ≡ (F.state flash.old).geometry }
    ensures block { length block.new ≡ length block.old }
{
    book.known(); // proof
    match book.relocate(flash, block, rg, !keeper.is_in_doubt()) {
        Step::Nothing => Advance::Nothing,
        Step::Copied(_) => Advance::Copied,
        Step::ReadyToMove => move_saved(book, keeper, flash, rg),
        Step::Erased(_) => Advance::Erased,
        Step::EraseDue => erase_settled(book, keeper, flash, block, rg),
        Step::Starved => Advance::Starved,
        Step::Fault(_) => Advance::Fault,
    }
}

/// Saves the move that is due, and makes it also where that failed: the copies are where the tables say, and the next checkpoint tells so.
fn move_saved<F: Flash>(book: &mut Book, keeper: &mut Keeper, flash: &mut F, rg: u16) -> Advance
    requires group { rg < book.old.config.groups }
    requires room { 0 < book.old.room }
    requires may { IsTrue book.old.may_move }
    requires due { IsDue (passes_at book.old.pages rg) book.old.pages.units book.old.pages.owners rg Move }
    requires can { CanSave book.old keeper.old (F.state flash.old) }
    requires said { IsTrue (F.state flash.old).told → AreasTell book.old keeper.old (F.state flash.old).cells }
    requires stored { IsTrue (F.state flash.old).told → HoldsWritten (F.state flash.old).geometry (F.state flash.old).cells (written_in book.old) book.old.pages.units }
    ensures step { EndsMove F.state (record { book = book.old; keeper = keeper.old; flash = flash.old }) (record { book = book.new; keeper = keeper.new; flash = flash.new }) rg result }
    ensures stored { IsTrue (F.state flash.old).told → HoldsWritten (F.state flash.old).geometry (F.state flash.new).cells (written_in book.new) book.new.pages.units }
    ensures keeper { IsKeeperOf book.new keeper.new }
    ensures epoch { keeper.new.saver.stamp.epoch + length book.old.entries ≤ keeper.old.saver.stamp.epoch + length book.new.entries }
    ensures geometry { (F.state flash.new).geometry ≡ (F.state flash.old).geometry }
{
    book.known(); // proof
    match keeper.save_move(flash, book, rg) {
        Saved::Done => Advance::Moved,
        Saved::Doubtful { .. } => Advance::Fault,
        Saved::Unsaved { .. } => Advance::Fault,
    }
}

/// Makes the erase that is due, once the doubt before it is ended: until then a stop may leave an image that reads pages of the unit.
fn erase_settled<F: Flash>(
    book: &mut Book,
    keeper: &mut Keeper,
    flash: &mut F,
    block: &mut [u8],
    rg: u16,
) -> Advance
    requires group { rg < book.old.config.groups }
    requires room { 0 < book.old.room }
    requires due { (unit : ℕ) × IsDue (passes_at book.old.pages rg) book.old.pages.units book.old.pages.owners rg (Erase unit) }
    requires doubt { keeper.old.saver.in_doubt ≡ true }
    requires can { CanSave book.old keeper.old (F.state flash.old) }
    requires said { IsTrue (F.state flash.old).told → AreasTell book.old keeper.old (F.state flash.old).cells }
    requires stored { IsTrue (F.state flash.old).told → HoldsWritten (F.state flash.old).geometry (F.state flash.old).cells (written_in book.old) book.old.pages.units }
    requires size { length block.old ≡ (F.state flash.old).geometry.block }
    ensures step { EndsDoubt F.state (record { book = book.old; keeper = keeper.old; flash = flash.old }) (record { book = book.new; keeper = keeper.new; flash = flash.new }) rg result }
    ensures stored { IsTrue (F.state flash.old).told → HoldsWritten (F.state flash.old).geometry (F.state flash.new).cells (written_in book.new) book.new.pages.units }
    ensures keeper { IsKeeperOf book.new keeper.new }
    ensures epoch { keeper.new.saver.stamp.epoch + length book.old.entries ≤ keeper.old.saver.stamp.epoch + length book.new.entries }
    ensures geometry { (F.state flash.new).geometry ≡ (F.state flash.old).geometry }
    ensures block { length block.new ≡ length block.old }
{
    book.known(); // proof
    match keeper.settle(flash, book) {
        Wrote::Done => match book.relocate(flash, block, rg, true) {
            Step::Erased(_) => Advance::Erased,
            Step::Fault(Lost::Retired(_)) => Advance::Fault,
            // The same erase is due still.
            Step::Nothing => unreachable!(),
            Step::Copied(_) => unreachable!(),
            Step::ReadyToMove => unreachable!(),
            Step::EraseDue => unreachable!(),
            Step::Starved => unreachable!(),
            Step::Fault(Lost::None) => unreachable!(),
            Step::Fault(Lost::Aside(_)) => unreachable!(),
        },
        Wrote::Failed => Advance::Fault,
    }
}
