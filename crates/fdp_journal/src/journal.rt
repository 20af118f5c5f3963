ghost use Rattle.std.specs.Prelude.{◌≡◌, ◌≢◌, ◌↔◌, ℕ, ◌≤◌, ◌<◌, ◌+◌, ◌∷◌, [], false, IsTrue, IfOk, suc};
ghost use Rattle.fdp_base.specs.Geometry.{IsValidGeometry, area_pages};
ghost use Rattle.fdp_flash.specs.Runs.{Runs};
ghost use Rattle.fdp_records.specs.Borrowed.{change_of};
ghost use Rattle.fdp_records.specs.Limits.{is_within_limits};
ghost use Rattle.fdp_records.specs.Spares.{system_spare};
ghost use Rattle.fdp_records.specs.declared.spare.SystemKind.TheVariants as kinds;
ghost use Rattle.fdp_journal.specs.JournalState.{next_in};

use crate::appended::Appended;
use fdp_base::{Geometry, Totals};
use fdp_flash::{Flash, Wrote};
use fdp_image::page_of_area;
use fdp_records::{ChangeRef, Stamp, SystemKind, SystemSpare};
use std::alloc::{AllocError, Global};
use std::marker::Model;

/// The journal of the current system area: where its next record goes. A journal in doubt takes no record: the failed call may
/// have left more or less than it knows of.
#[derive(Drop)]
pub struct Journal {
    geometry: Geometry,
    area: u8,
    stamp: Stamp,
    /// The pages of the checkpoint before it.
    checkpoint: u32,
    /// The records that stand.
    records: u32,
    in_doubt: bool,
    /// Room for the bytes of a record.
    page: Vec<u8>,
}

impl Model for Journal {
    ghost use Rattle.fdp_journal.specs.JournalState.{JournalState};

    ghost Value = { JournalState };

    ghost use Rattle.fdp_journal.specs.Inside.{state_of, IsSound};

    ghost view = { state_of };

    ghost invariant = { IsSound };
}

impl Journal {
    ghost use Rattle.fdp_journal.specs.Journal.{Appends, FallsInDoubt, IsFull, IsJournalIn, MayBeAppended, Writes, doubted};

    /// The journal behind a checkpoint of so many pages in a system area, with so many records already. Beside this, no call
    /// takes memory.
    pub fn new(
        alloc: Global,
        geometry: &Geometry,
        area: u8,
        stamp: Stamp,
        checkpoint: u32,
        records: u32,
    ) -> Result<Journal, AllocError>
        requires geometry { IsValidGeometry geometry.now }
        requires area { area ≤ 1 }
        requires room { suc checkpoint + records ≤ area_pages geometry.now }
        ensures { IfOk result (λ j. j ≡ record { geometry = geometry.now; area = area; stamp = stamp; checkpoint = checkpoint; records = records; in_doubt = false }) }
    {
        let page = vec![in alloc; 0u8; geometry.block as usize]?;
        Ok(Journal {
            geometry: *geometry,
            area,
            stamp,
            checkpoint,
            records,
            in_doubt: false,
            page,
        })
    }

    /// Begins anew behind a checkpoint that was just written: there is no record, and no doubt.
    pub fn restart(&mut self, area: u8, stamp: Stamp, checkpoint: u32)
        requires area { area ≤ 1 }
        requires room { suc checkpoint ≤ area_pages self.old.geometry }
        ensures { self.new ≡ record { geometry = self.old.geometry; area = area; stamp = stamp; checkpoint = checkpoint; records = 0; in_doubt = false } }
    {
        self.area = area;
        self.stamp = stamp;
        self.checkpoint = checkpoint;
        self.records = 0;
        self.in_doubt = false;
    }

    /// A call of the flash in a system area failed: no record is appended until the journal begins anew.
    pub fn doubt(&mut self)
        ensures { self.new ≡ doubted self.old }
    {
        self.in_doubt = true;
    }

    pub fn is_in_doubt(&self) -> bool
        ensures { result ≡ self.now.in_doubt }
    {
        self.in_doubt
    }

    /// How the flash is cut that it stands on.
    pub fn geometry(&self) -> Geometry
        ensures { result ≡ self.now.geometry }
    {
        self.geometry
    }

    /// The system area that it stands in.
    pub fn area(&self) -> u8
        ensures value { result ≡ self.now.area }
        ensures bound { result ≤ 1 }
    {
        self.area
    }

    /// The version and epoch of its pages.
    pub fn stamp(&self) -> Stamp
        ensures { result ≡ self.now.stamp }
    {
        self.stamp
    }

    /// Whether all pages of the area are used.
    pub fn is_full(&self) -> bool
        ensures { IsTrue result ↔ IsFull self.now }
    {
        self.next() >= self.geometry.area_pages()
    }

    /// The page of the area behind the last record.
    fn next(&self) -> u32
        ensures value { result ≡ next_in self.now }
        ensures bound { result ≤ area_pages self.now.geometry }
    {
        1 + self.checkpoint + self.records
    }

    /// The spare bytes of the next record.
    fn next_spare(&self) -> [u8; 32]
        ensures { result ≡ system_spare (record { kind = kinds.Journal; number = self.now.records; stamp = self.now.stamp }) }
    {
        let spare = SystemSpare {
            kind: SystemKind::Journal,
            number: self.records,
            stamp: self.stamp,
        };
        spare.encode()
    }

    /// Appends the record of a change, with the totals at its position: one program of a page, and no memory.
    ///
    /// Whatever a stop or a failure in it leaves, the area reads as before or with this change, and all pages but the one behind
    /// the journal are as they were.
    pub fn append<F: Flash>(
        &mut self,
        flash: &mut F,
        change: ChangeRef<'_>,
        totals: &Totals,
    ) -> Appended
        requires sure { self.old.in_doubt ≡ false }
        requires limits { IsTrue (is_within_limits (change_of change)) }
        requires geometry { (F.state flash.old).geometry ≡ self.old.geometry }
        requires cells { IsTrue (F.state flash.old).told → IsJournalIn (F.state flash.old).cells self.old }
        ensures full { (result ≡ Appended.AreaFull) ↔ IsFull self.old }
        ensures unchanged { result ≡ Appended.AreaFull → (self.new ≡ self.old) × (flash.new ≡ flash.old) }
        ensures images { Runs (F.state flash.old) (F.state flash.new) (λ moment image. MayBeAppended (F.state flash.old).cells self.old ((change_of change.entry, totals.now) ∷ []) image) }
        ensures left { IsTrue (F.state flash.old).told → result ≢ Appended.AreaFull → MayBeAppended (F.state flash.old).cells self.old ((change_of change.entry, totals.now) ∷ []) (F.state flash.new).cells }
        ensures done { result ≡ Appended.Done → Appends self.old self.new (F.state flash.old) (F.state flash.new) ((change_of change.entry, totals.now) ∷ []) }
        ensures doubt { (moment : ℕ) → result ≡ Appended.Doubt moment → FallsInDoubt self.old self.new (F.state flash.old) (F.state flash.new) moment }
    {
        if self.is_full() {
            return Appended::AreaFull;
        }
        match self.write(flash, change, totals) {
            Wrote::Done => {
                self.records += 1;
                Appended::Done
            }
            Wrote::Failed => {
                self.in_doubt = true;
                Appended::Doubt {
                    moment: flash.moment(),
                }
            }
        }
    }

    /// Programs the record of a change behind the journal.
    fn write<F: Flash>(&mut self, flash: &mut F, change: ChangeRef<'_>, totals: &Totals) -> Wrote
        requires limits { IsTrue (is_within_limits (change_of change)) }
        requires geometry { (F.state flash.old).geometry ≡ self.old.geometry }
        requires cells { IsTrue (F.state flash.old).told → IsJournalIn (F.state flash.old).cells self.old }
        requires room { next_in self.old < area_pages self.old.geometry }
        ensures same { self.new ≡ self.old }
        ensures written { Writes self.old (F.state flash.old) (F.state flash.new) ((change_of change.entry, totals.now) ∷ []) result }
    {
        let at = page_of_area(&self.geometry, self.area, self.next());
        let spare = self.next_spare();
        let page = self.page.as_mut_slice();
        change.encode(totals, page);
        flash.program(at, &spare, page)
    }
}
