ghost use Rattle.std.specs.Prelude.{◌≡◌, ◌==◌, ◌+◌, ◌*◌, ◌≤◌, IsTrue, false, length, true, ◌-◌, ◌<◌, OnErr, OnOk};
ghost use Rattle.fdp_base.specs.Config.{IsValidConfig};
ghost use Rattle.fdp_book.specs.Saving.{AreSmall};
ghost use Rattle.fdp_rules.specs.History.{totals_of};
ghost use Rattle.fdp_base.specs.declared.limits.TheConstants.{MOST_STEPS};

use crate::log::{Log, MOST_STEP_ENTRIES};
use crate::tables::Tables;
use fdp_base::{DriveConfig, Entry, Totals};
use fdp_origin::Origin;
use fdp_readings::Pages;
use std::alloc::AllocError;
use std::marker::Model;

mod answering;
mod apply;
mod changes;
mod clearing;
mod commit;
mod complete;
mod end;
mod forget;
mod fresh;
mod judging;
mod laws;
mod lookups;
mod move_pass;
mod namespaces;
mod place;
mod reading;
mod relocate;
mod reopened;
mod saving;
mod setting;
mod stage;
mod start;
mod updating;

pub use reading::Page;

/// The history of a drive, with the tables that follow it.
#[derive(Drop)]
pub struct Book {
    config: DriveConfig,
    /// What the history began with.
    origin: Origin,
    log: Log,
    tables: Tables,
}

impl Model for Book {
    ghost use Rattle.fdp_book.specs.Book.{BookSeen};

    ghost Value = { BookSeen };

    ghost use Rattle.fdp_book.specs.Held.{IsBook, book_of};

    ghost view = { λ b. book_of b.config b.origin b.log b.tables };

    ghost invariant = { λ b. IsBook b.config b.origin b.log b.tables };
}

impl Book {
    /// The configuration of the drive.
    pub fn config(&self) -> &DriveConfig
        ensures config { result.now ≡ self.now.config }
        ensures valid { IsValidConfig result.now }
    {
        &self.config
    }

    /// The history, oldest entry first.
    pub fn entries(&self) -> &[Entry]
        ensures entries { result.now ≡ self.now.entries }
        ensures few { length result.now ≤ MOST_STEP_ENTRIES * self.now.spent + 1 }
    {
        self.log.entries()
    }

    /// Takes the memory for so many steps.
    pub fn reserve(&mut self, steps: u32) -> Result<(), AllocError>
        requires { self.old.spent + steps ≤ MOST_STEPS }
        ensures ok { OnOk result (steps ≤ self.new.spare) }
        ensures kept { self.new ≡ record self.old { spare = self.new.spare } }
        ensures err { OnErr result (self.new ≡ self.old) }
        ensures memory { OnErr result (self.old.spare < steps) }
    {
        self.log.reserve(steps)
    }

    /// The steps for which there is memory.
    pub fn spare_steps(&self) -> u32
        ensures { result ≡ self.now.spare }
    {
        self.log.spare()
    }

    /// The steps that were made.
    pub fn spent(&self) -> u32
        ensures spent { result ≡ self.now.spent }
        ensures bound { self.now.spent + self.now.spare ≤ MOST_STEPS }
    {
        self.log.spent()
    }

    /// A step begins. It may add so many entries (`MOST_STEP_ENTRIES`), one of them that of a move.
    pub fn begin(&mut self)
        requires { 0 < self.old.spare }
        ensures { self.new ≡ record self.old { spare = self.old.spare - 1; spent = self.old.spent + 1; room = MOST_STEP_ENTRIES; may_move = true } }
    {
        self.log.begin();
    }

    /// The step under way added nothing: it is as if it had not begun.
    pub fn cancel(&mut self)
        requires room { self.old.room ≡ MOST_STEP_ENTRIES }
        requires may_move { IsTrue self.old.may_move }
        ensures { self.new ≡ record self.old { spare = self.old.spare + 1; spent = self.old.spent - 1; room = 0; may_move = false } }
    {
        self.log.cancel();
    }

    /// Whether the step under way has added no entry.
    pub fn has_added_nothing(&self) -> bool
        ensures { result ≡ (self.now.room == MOST_STEP_ENTRIES) }
    {
        self.log.room() == MOST_STEP_ENTRIES
    }

    /// The position of the first entry of this history.
    pub fn first(&self) -> u64
        ensures { result ≡ self.now.found.totals.position + 1 }
    {
        self.log.first()
    }

    /// The position of the last entry, and the sums with those before the history.
    pub fn totals(&self) -> Totals
        ensures totals { result ≡ totals_of self.now.found self.now.entries }
        ensures small { AreSmall result }
    {
        self.counted(); // proof
        self.tables.outline.summary().totals
    }

    /// What is kept of the pages of data.
    pub fn pages(&self) -> &Pages
        ensures { result.now ≡ self.now.pages }
    {
        &self.tables.pages
    }

    /// The history, for good.
    pub fn into_entries(self) -> Vec<Entry>
        ensures { result.items ≡ self.entries }
    {
        let Book {
            config: _,
            origin: _,
            log,
            tables: _,
        } = self;
        log.into_entries()
    }
}
