//! What saves the changes of a drive, and what answers its logs, look up here.

ghost use Rattle.std.specs.Prelude.{◌≡◌, ℕ, ◌<◌, IfSome, IsTrue, Some, length};
ghost use Rattle.fdp_base.specs.declared.command.Write.{Write};
ghost use Rattle.fdp_base.specs.CommandKinds.{write_of};
ghost use Rattle.fdp_base.specs.Placement.{geometry_of};
ghost use Rattle.fdp_book.specs.Book.{point_in, state_in};
ghost use Rattle.fdp_book.specs.Outlined.{IsOutlineAt};
ghost use Rattle.fdp_book.specs.Saving.{names_of};
ghost use Rattle.fdp_book.specs.Steps.{IsFlying, IsReady};
ghost use Rattle.fdp_book.specs.Tickets.{IsTicketOf};
ghost use Rattle.fdp_image.specs.Areas.{data_pages};
ghost use Rattle.fdp_image.specs.Checkpoint.{page_in_lists};
ghost use Rattle.fdp_log_pages.specs.Told.{Tells};
ghost use Rattle.fdp_map.specs.PageLists.{size_at};
ghost use Rattle.fdp_outline.specs.Outline.{IsWritable};
ghost use Rattle.fdp_readings.specs.Changes.{AreItsPages};
ghost use Rattle.fdp_readings.specs.Drawn.{drawn};
ghost use Rattle.fdp_rules.specs.Effect.{lowest_free};
ghost use Rattle.fdp_rules.specs.PlainState.{Going};
ghost use Rattle.fdp_rules.specs.Room.{size_of};
ghost use Rattle.fdp_rules.specs.Sites.{is_there};

use super::Book;
use crate::ticket::Ticket;
use crate::write_names::WriteNames;
use crate::write_place::WritePlace;
use fdp_base::Spot;
use fdp_log_pages::LogView;
use fdp_map::PageList;
use fdp_snapshot::Summary;

impl Book {
    /// What a checkpoint says of the drive beside the pages of its blocks. It takes a constant time.
    pub fn summary(&self) -> &Summary
        ensures outline { IsOutlineAt self.now.config (point_in self.now) result.now }
        ensures writable { IsWritable result.now }
    {
        self.tables.outline.summary()
    }

    /// The drive as its log pages tell it. It takes a constant time.
    pub fn view(&self) -> LogView<'_>
        ensures config { result.config ≡ self.now.config }
        ensures tells { Tells result (point_in self.now) }
    {
        self.known(); // proof
        LogView::new(&self.config, self.summary(), self.totals())
    }

    /// The numbers of the pages of all blocks, sixteen lists from identifier 1 on, as a checkpoint holds them. It takes a constant
    /// time.
    pub fn page_lists(&self) -> &[PageList]
        ensures rows { length result.now ≡ 16 }
        ensures sizes { (nsid : ℕ) → size_at result.now nsid ≡ size_of (state_in self.now) nsid }
        ensures blocks { (nsid lba : ℕ) → page_in_lists result.now nsid lba ≡ (drawn self.now.config (point_in self.now)).pages nsid lba }
        ensures places { (nsid lba : ℕ) → IfSome (page_in_lists result.now nsid lba) (λ page. page < data_pages (geometry_of self.now.config)) }
    {
        self.tables.map.placed();
        self.tables.map.pages()
    }

    /// The lowest identifier that no namespace has, if there is one.
    pub(crate) fn lowest_free(&self) -> Option<u32>
        ensures { result ≡ lowest_free (state_in self.now) }
    {
        self.tables.outline.lowest_free()
    }

    /// The pages of a write that are all placed, in order. Where its namespace is not there any more, nothing is said of them.
    pub(crate) fn pages_of_write(&self, ticket: &Ticket) -> &[Spot]
        requires { IsReady self.now ticket.now }
        ensures { (g : Going) → IsTicketOf (state_in self.now) ticket.now g → IsTrue (is_there (state_in self.now) g) → AreItsPages (point_in self.now) g result.now }
    {
        self.flight(ticket).pages.as_slice()
    }

    /// Where a going write goes.
    pub fn place_of_write(&self, ticket: &Ticket) -> WritePlace
        requires { IsFlying self.now ticket.now }
        ensures { (g : Going) → IsTicketOf (state_in self.now) ticket.now g → result ≡ record { rg = g.rg; ruh = g.ruh } }
    {
        let flight = self.flight(ticket);
        WritePlace {
            rg: flight.rg,
            ruh: flight.ruh,
        }
    }

    /// What the change of a going write names beside its pages.
    pub(crate) fn names_of_write(&self, ticket: &Ticket) -> WriteNames
        requires { IsFlying self.now ticket.now }
        ensures { (g : Going) (w : Write) → IsTicketOf (state_in self.now) ticket.now g → write_of g.command ≡ Some w → result ≡ names_of w g }
    {
        self.flight(ticket).names()
    }
}
