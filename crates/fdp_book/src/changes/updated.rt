//! The change of an update: which of its placement identifiers close a unit.

ghost use Rattle.std.specs.Prelude.{◌≡◌, ◌<◌, ◌^◌, ◌≤◌, ◌&&◌, IsTrue, length, nat_lt};
ghost use Rattle.fdp_base.specs.declared.command.Command.TheVariants as commands;
ghost use Rattle.fdp_base.specs.declared.config.DriveConfig.{DriveConfig};
ghost use Rattle.fdp_book.specs.Book.{state_in};
ghost use Rattle.fdp_book.specs.Changes.{AreMarked, CanBeSaved, IsUpdateOf};
ghost use Rattle.fdp_readings.specs.Changes.{TellsClosed, closes_unit};
ghost use Rattle.fdp_records.specs.Borrowed.{change_of};
ghost use Rattle.fdp_records.specs.Limits.{is_within_limits};
ghost use Rattle.fdp_rules.specs.Effect.{References, is_partly_written, updated_at, updated_by};
ghost use Rattle.fdp_rules.specs.PlainState.{PlainState};
ghost use Rattle.fdp_rules.specs.Target.{Target};

use crate::book::Book;
use fdp_base::HandleUpdate;
use fdp_commands::named_by;
use fdp_records::ChangeRef;

/// The change of an update.
pub fn updated_change<'a>(book: &Book, update: &'a HandleUpdate) -> ChangeRef<'a>
    requires { CanBeSaved book.now (commands.Update update.now) }
    ensures change { IsUpdateOf book.now.config (state_in book.now) update.now (change_of result) }
    ensures limits { IsTrue (is_within_limits (change_of result)) }
{
    let pids = update.pids.as_slice();
    let mut marks = [false; 256];
    let closed = closed_by(book, update.nsid, &mut marks, pids);
    ChangeRef::Update {
        nsid: update.nsid,
        closed,
        pids,
    }
}

/// Which of these placement identifiers close a unit, as bits, behind an update of the handles that are marked, by group.
fn closed_by(book: &Book, nsid: u32, marks: &mut [bool; 256], pids: &[u16]) -> u64
    requires { length pids.now ≤ 64 }
    ensures tells { (references : References) → AreMarked book.now.config (state_in book.now) marks.old references → TellsClosed book.now.config (state_in book.now) nsid result 0 references pids.now }
    ensures bound { result < 2 ^ length pids.now }
{
    match pids.split_first() {
        Some((pid, rest)) => {
            let closes = close(book, nsid, marks, *pid);
            u64::from(closes) + 2 * closed_by(book, nsid, marks, rest)
        }
        None => 0,
    }
}

/// Whether a placement identifier closes a unit. Its handle is marked then.
fn close(book: &Book, nsid: u32, marks: &mut [bool; 256], pid: u16) -> bool
    ensures closes { (references : References) → AreMarked book.now.config (state_in book.now) marks.old references → result ≡ closes_unit book.now.config (state_in book.now) nsid references pid }
    ensures marks { (references : References) → AreMarked book.now.config (state_in book.now) marks.old references → AreMarked book.now.config (state_in book.now) marks.new (updated_by book.now.config (state_in book.now) nsid references pid) }
{
    book.known(); // proof
    match named_by(book, nsid, pid) {
        Some(named) => {
            let partly = is_partly_written(book, named.rg, named.ruh);
            close_handle(marks, named.rg, named.ruh, partly)
        }
        None => false,
    }
}

/// Whether an update of a handle closes its unit in a group, which was partly written in this state or not. The handle is marked then.
fn close_handle(marks: &mut [bool; 256], rg: u16, ruh: u8, partly: bool) -> bool
    requires group { rg < 16 }
    requires handle { ruh < 16 }
    ensures closes { (c : DriveConfig) (s : PlainState) (references : References) → partly ≡ is_partly_written c (s.references rg ruh) → AreMarked c s marks.old references → result ≡ is_partly_written c (references rg ruh) }
    ensures marks { (c : DriveConfig) (s : PlainState) (references : References) (t : Target) → partly ≡ is_partly_written c (s.references rg ruh) → AreMarked c s marks.old references → t.rg ≡ rg → t.ruh ≡ ruh → AreMarked c s marks.new (updated_at c references t) }
{
    let at = 16 * usize::from(rg) + usize::from(ruh);
    let closes = !marks[at] && partly;
    marks[at] = marks[at] || closes;
    closes
}

/// Whether the unit of a handle in a group is partly written.
fn is_partly_written(book: &Book, rg: u16, ruh: u8) -> bool
    requires group { rg < book.now.config.groups }
    requires handle { ruh < 16 }
    ensures { result ≡ is_partly_written book.now.config ((state_in book.now).references rg ruh) }
{
    book.known(); // proof
    let left = book.pages().handles().left(rg, ruh);
    is_partly(left, book.config().unit_pages)
}

/// Whether of so many pages some are left, and not all.
fn is_partly(left: u32, pages: u32) -> bool
    ensures { result ≡ (nat_lt 0 left && nat_lt left pages) }
{
    0 < left && left < pages
}
