ghost use Rattle.std.specs.Prelude.{◌≡◌, ◌↔◌, ◌+◌, ◌*◌, ◌≤◌, ◌<◌, IsTrue, false, length, not, true, OnOk, OnErr, IfOk};
ghost use Rattle.fdp_base.specs.Config.{IsValidConfig};
ghost use Rattle.fdp_base.specs.Counts.{Rose};
ghost use Rattle.fdp_relocation.specs.fdp_book.Book.{point_in, state_in};
ghost use Rattle.fdp_relocation.specs.fdp_book.Stages.{IsFree, IsStage};
ghost use Rattle.fdp_relocation.specs.fdp_book.Steps.{IsFlying};
ghost use Rattle.fdp_core.specs.Seen.{HoldsHistory, IsLegalOver, LeavesOpened, ReadsAsEnd};
ghost use Rattle.fdp_image.specs.Kept.{AreFirm, StandsForBeginning};
ghost use Rattle.fdp_relocation.specs.fdp_keeper.Keeper.{CanSave};
ghost use Rattle.fdp_loading.specs.JournalRoom.{HasSixteen};
ghost use Rattle.fdp_loading.specs.fdp_survival.Books.{IsInOrder};
ghost use Rattle.fdp_loading.specs.fdp_survival.Apart.{ReadsIsolated};
ghost use Rattle.fdp_loading.specs.fdp_isolation.Begun.{OpenedApart};
ghost use Rattle.fdp_loading.specs.fdp_isolation.Isolated.{IsIsolatedDrive};
ghost use Rattle.fdp_loading.specs.fdp_ledger.Counted.{CountedSince};
ghost use Rattle.fdp_loading.specs.fdp_ledger.Start.{start_of};
ghost use Rattle.fdp_relocation.specs.fdp_locations.Located.{AreUnitsOf};
ghost use Rattle.fdp_relocation.specs.fdp_pages.Joined.{AreJoined};
ghost use Rattle.fdp_roominess.specs.Run.{StaysRoomy, WearsByFailure};
ghost use Rattle.fdp_rules.specs.History.{totals_of};
ghost use Rattle.fdp_relocation.specs.fdp_trails.Toil.{is_live, is_stale, pages_where};
ghost use Rattle.fdp_units.specs.UnitTable.{toil_of};
ghost use Rattle.fdp_base.specs.declared.limits.TheConstants.{MOST_STEPS};
ghost use Rattle.fdp_relocation.specs.fdp_book.declared.log.TheConstants.{MOST_STEP_ENTRIES};

use fdp_base::{DriveConfig, Entry, Totals};
use fdp_flash::Flash;
use fdp_loading::Counts;
use fdp_relocation::{Book, Keeper, Stage, Ticket, toil_is_what_can_be_won};
use std::alloc::AllocError;
use std::marker::Model;

mod answer;
mod change;
mod checkpoint;
mod collect;
mod commit;
mod end;
mod load;
mod log;
mod pass;
mod place;
mod read;
mod refuse;
mod start;
mod succeed;
mod telling;

/// A drive over a flash.
#[derive(Drop)]
pub struct Group<F: Flash> {
    flash: F,
    book: Book,
    /// What saves the drive in the system areas of its flash.
    keeper: Keeper,
    /// What the flash had counted when it was handed in.
    handed: Counts,
    /// A block on its way to the flash.
    block: Vec<u8>,
}

impl<F: Flash> Model for Group<F> {
    ghost use Rattle.fdp_core.specs.Seen.{Seen};

    ghost Value = { Seen F };

    ghost use Rattle.fdp_core.specs.Sound.{IsWhole};

    ghost view = { λ g. record { book = g.book; keeper = g.keeper; handed = g.handed; flash = g.flash } };

    ghost invariant = { λ g. IsWhole g.handed (F.state g.flash) g.book g.keeper g.block.items };
}

impl<F: Flash> Group<F> {
    /// The configuration that the group was made with.
    pub fn config(&self) -> &DriveConfig
        ensures config { result.now ≡ self.now.book.config }
        ensures valid { IsValidConfig result.now }
    {
        self.book.config()
    }

    /// Takes the memory for so many steps. Each call of `start`, `place`, `commit` and `collect` that adds an entry is one step.
    pub fn reserve(&mut self, steps: u32) -> Result<(), AllocError>
        requires { self.old.book.spent + steps ≤ MOST_STEPS }
        ensures ok { OnOk result (steps ≤ self.new.book.spare) }
        ensures kept { self.new ≡ record self.old { book = record self.old.book { spare = self.new.book.spare } } }
        ensures err { OnErr result (self.new ≡ self.old) }
        ensures memory { OnErr result (self.old.book.spare < steps) }
    {
        self.book.reserve(steps)
    }

    /// The steps for which there is memory.
    pub fn spare_steps(&self) -> u32
        ensures { result ≡ self.now.book.spare }
    {
        self.book.spare_steps()
    }

    /// The steps that were made.
    pub fn spent(&self) -> u32
        ensures spent { result ≡ self.now.book.spent }
        ensures bound { self.now.book.spent + self.now.book.spare ≤ MOST_STEPS }
    {
        self.book.spent()
    }

    /// The history, oldest entry first.
    pub fn entries(&self) -> &[Entry]
        ensures entries { result.now ≡ self.now.book.entries }
        ensures few { length result.now ≤ MOST_STEP_ENTRIES * self.now.book.spent + 1 }
        ensures legal { IsLegalOver (F.state self.now.flash) self.now.book }
        ensures cells { HoldsHistory (F.state self.now.flash) self.now.book }
        ensures apart { IsTrue (F.state self.now.flash).told → OpenedApart self.now.book.config self.now.book.found self.now.book.opened → IsIsolatedDrive self.now.book.config (point_in self.now.book) self.now.book.entries (F.state self.now.flash).cells }
        ensures reads { IsTrue (F.state self.now.flash).told → OpenedApart self.now.book.config self.now.book.found self.now.book.opened → ReadsIsolated self.now.book.config (F.state self.now.flash).cells }
        ensures used { LeavesOpened (F.state self.now.flash) self.now.book }
        ensures counted { CountedSince self.now.handed (F.state self.now.flash) (start_of self.now.book) self.now.book.entries }
        ensures worn { WearsByFailure self.now.handed.faults (F.state self.now.flash).faults (F.state self.now.flash).told self.now.book }
        ensures roomy { IsTrue (F.state self.now.flash).told → StaysRoomy self.now.handed.faults (F.state self.now.flash).faults (F.state self.now.flash).told self.now.book (F.state self.now.flash).cells }
        ensures firm { AreFirm self.now.book.entries self.now.keeper.firm }
        ensures stands { IsTrue (F.state self.now.flash).told → StandsForBeginning self.now.book.config self.now.book.found self.now.book.entries self.now.keeper.firm (F.state self.now.flash).cells }
        ensures sure { IsTrue (F.state self.now.flash).told → self.now.keeper.saver.in_doubt ≡ false → ReadsAsEnd (F.state self.now.flash) self.now.book }
        ensures sixteen { HasSixteen self.now.book.config self.now.keeper.saver self.now.book.entries }
        ensures doubt { self.now.keeper.saver.in_doubt ≡ true → Rose self.now.handed.faults (F.state self.now.flash).faults }
    {
        self.book.known(); // proof
        self.book.entries()
    }

    /// How many entries no stop can lose, whatever the flash leaves: each completed change is among them.
    pub fn firm(&self) -> u64
        ensures { result ≡ self.now.keeper.firm }
    {
        self.keeper.firm()
    }

    /// The position of the first entry of this run.
    pub fn first(&self) -> u64
        ensures { result ≡ self.now.book.found.totals.position + 1 }
    {
        self.book.first()
    }

    /// The position of the last entry, and the sums with those before the history.
    pub fn totals(&self) -> Totals
        ensures { result ≡ totals_of self.now.book.found self.now.book.entries }
    {
        self.book.totals()
    }

    /// The work that relocation has in a group: the pages that are not live of its closed units, and of its targets those that were used.
    /// These are all pages that can be won there, and no live ones.
    pub fn toil(&self, rg: u16) -> u64
        requires { rg < self.now.book.config.groups }
        ensures toil { result ≡ toil_of self.now.book.pages.units rg }
        ensures least { pages_where self.now.book.pages.units rg (is_stale self.now.book.pages.units self.now.book.pages.owners) ≤ result }
        ensures most { result ≤ pages_where self.now.book.pages.units rg (λ spot. not (is_live self.now.book.pages.owners spot)) }
    {
        self.book.known(); // proof
        toil_is_what_can_be_won(); // proof
        u64::from(self.book.toil(rg))
    }

    /// How the tables of the pages stand for the history: the handles and the units are those of the state, and all tables agree.
    pub fn known(&self)
        ensures units { AreUnitsOf self.now.book.config (state_in self.now.book) self.now.book.pages }
        ensures joined { AreJoined self.now.book.pages }
    {
        self.book.known(); // proof
    }

    /// How far the write of a ticket has come. It takes a constant time.
    pub fn stage(&self, ticket: &Ticket) -> Stage
        ensures { IsStage self.now.book ticket.now result }
    {
        self.book.stage(ticket)
    }

    /// Whether no write is going in a queue with this number. It takes a constant time.
    pub fn is_free(&self, queue: u8, number: u16) -> bool
        ensures { IsTrue result ↔ IsFree (state_in self.now.book) queue number }
    {
        self.book.is_free(queue, number)
    }

    /// Gives a ticket up. Its write counts as going until the next write of its queue is started or refused.
    pub fn abandon(&mut self, ticket: Ticket)
        requires { IsFlying self.old.book ticket }
        ensures { self.new ≡ self.old }
    {
        let _ = &self.block; // proof
        let _queue = ticket.give_up();
    }

    /// What a saving needs is there: the book is in order, and what is kept to save the drive is that of its history and of its flash.
    fn can_save(&self)
        ensures order { IsInOrder self.now.book }
        ensures can { CanSave self.now.book self.now.keeper (F.state self.now.flash) }
    {
        self.book.known(); // proof
        self.book.counted(); // proof
        let _spent = self.book.spent(); // proof: its range
    }

    /// Gives the flash and the history back.
    pub fn finish(self) -> (F, Vec<Entry>)
        ensures flash { result.0 ≡ self.flash }
        ensures entries { result.1.items ≡ self.book.entries }
        ensures legal { IsLegalOver (F.state self.flash) self.book }
        ensures cells { HoldsHistory (F.state self.flash) self.book }
        ensures apart { IsTrue (F.state self.flash).told → OpenedApart self.book.config self.book.found self.book.opened → IsIsolatedDrive self.book.config (point_in self.book) self.book.entries (F.state self.flash).cells }
        ensures reads { IsTrue (F.state self.flash).told → OpenedApart self.book.config self.book.found self.book.opened → ReadsIsolated self.book.config (F.state self.flash).cells }
        ensures used { LeavesOpened (F.state self.flash) self.book }
        ensures counted { CountedSince self.handed (F.state self.flash) (start_of self.book) self.book.entries }
        ensures worn { WearsByFailure self.handed.faults (F.state self.flash).faults (F.state self.flash).told self.book }
        ensures roomy { IsTrue (F.state self.flash).told → StaysRoomy self.handed.faults (F.state self.flash).faults (F.state self.flash).told self.book (F.state self.flash).cells }
        ensures firm { AreFirm self.book.entries self.keeper.firm }
        ensures stands { IsTrue (F.state self.flash).told → StandsForBeginning self.book.config self.book.found self.book.entries self.keeper.firm (F.state self.flash).cells }
        ensures sure { IsTrue (F.state self.flash).told → self.keeper.saver.in_doubt ≡ false → ReadsAsEnd (F.state self.flash) self.book }
        ensures sixteen { HasSixteen self.book.config self.keeper.saver self.book.entries }
        ensures doubt { self.keeper.saver.in_doubt ≡ true → Rose self.handed.faults (F.state self.flash).faults }
    {
        self.book.known(); // proof
        let Group {
            flash,
            book,
            keeper: _,
            handed: _,
            block: _,
        } = self;
        (flash, book.into_entries())
    }
}
