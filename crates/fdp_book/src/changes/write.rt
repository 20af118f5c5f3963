//! The change of a write, which names its pages by their numbers.

ghost use Rattle.std.specs.Prelude.{◌≡◌, ℕ, ◌≤◌, All, IsTrue, length, map};
ghost use Rattle.fdp_base.specs.declared.command.Command.TheVariants as commands;
ghost use Rattle.fdp_base.specs.declared.command.Write.{Write};
ghost use Rattle.fdp_base.specs.Config.{IsValidConfig};
ghost use Rattle.fdp_base.specs.Geometry.{IsWithin};
ghost use Rattle.fdp_base.specs.Placement.{geometry_of};
ghost use Rattle.fdp_book.specs.Book.{state_in};
ghost use Rattle.fdp_book.specs.Changes.{AreNumbersOf, IsWriteOf};
ghost use Rattle.fdp_book.specs.Steps.{IsFlying};
ghost use Rattle.fdp_book.specs.Tickets.{IsTicketOf};
ghost use Rattle.fdp_flash.specs.Layout.{page_number};
ghost use Rattle.fdp_records.specs.Borrowed.{change_of};
ghost use Rattle.fdp_records.specs.Limits.{is_within_limits};
ghost use Rattle.fdp_rules.specs.PlainState.{Going};
ghost use Rattle.fdp_rules.specs.Step.{IsPage};

use crate::book::Book;
use crate::ticket::Ticket;
use arrayvec::ArrayVec;
use fdp_base::{DriveConfig, Spot};
use fdp_records::ChangeRef;

/// The change of a going write, whose pages have these numbers.
pub fn write_change<'a>(numbers: &'a [u32], book: &Book, ticket: &Ticket) -> ChangeRef<'a>
    requires flying { IsFlying book.now ticket.now }
    requires numbers { (g : Going) → IsTicketOf (state_in book.now) ticket.now g → AreNumbersOf book.now g numbers.now }
    requires few { IsWithin 1 64 (length numbers.now) }
    ensures change { (g : Going) (w : Write) → IsTicketOf (state_in book.now) ticket.now g → g.command ≡ commands.Write w → IsWriteOf book.now g w (change_of result) }
    ensures limits { IsTrue (is_within_limits (change_of result)) }
{
    let names = book.names_of_write(ticket);
    ChangeRef::Write {
        nsid: names.nsid,
        slba: names.slba,
        pid: names.pid,
        pid_invalid: names.pid_invalid,
        pages: numbers,
    }
}

/// Puts the numbers of these pages in place of what the list held.
pub fn put_numbers(numbers: &mut ArrayVec<u32, 64>, config: &DriveConfig, spots: &[Spot])
    requires config { IsValidConfig config.now }
    requires pages { All (IsPage config.now) spots.now }
    requires few { length spots.now ≤ 64 }
    ensures { numbers.new.items ≡ map (page_number (geometry_of config.now)) spots.now }
{
    numbers.clear();
    for spot in spots {
        numbers.push(spot.unit * config.unit_pages + spot.page);
    }
}
