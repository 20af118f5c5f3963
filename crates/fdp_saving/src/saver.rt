ghost use Rattle.std.specs.Prelude.{◌≡◌, ◌≤◌, ◌<◌, IfOk};
ghost use Rattle.fdp_base.specs.Geometry.{IsValidGeometry, area_pages};
ghost use Rattle.fdp_saving.specs.Saver.{first_saver, needs_checkpoint};

use fdp_base::Geometry;
use fdp_checkpoint::VERSION;
use fdp_journal::Journal;
use fdp_records::Stamp;
use std::alloc::{AllocError, Global};
use std::marker::Model;

mod checkpoint;
mod renew;
mod save;

/// What saves the changes of a drive in the two system areas of its flash: each as a record in the journal of its own area, and now and
/// then the whole drive as a checkpoint in the other area, which then is its own and the current one.
///
/// After a call of the flash that failed in a system area it is in doubt, and appends nothing until a checkpoint has ended with Done. Such a
/// checkpoint may be sealed though its seal's program failed; it has the higher epoch, and an image reads as it until the area is erased by
/// the next try, which goes there too.
#[derive(Drop)]
pub struct Saver {
    /// The journal of its own area.
    journal: Journal,
    /// Room for the bytes of a page.
    page: Vec<u8>,
}

impl Model for Saver {
    ghost use Rattle.std.specs.Prelude.{◌≡◌, length};
    ghost use Rattle.fdp_journal.specs.JournalState.{JournalState};

    ghost Value = { JournalState };

    ghost view = { λ s. s.journal };

    ghost invariant = { λ s. length s.page.items ≡ s.journal.geometry.block };
}

impl Saver {
    /// The saver of a drive whose current area was found, with this epoch. Beside this and `fresh`, no call takes memory.
    pub fn found(
        alloc: Global,
        geometry: &Geometry,
        area: u8,
        epoch: u64,
    ) -> Result<Saver, AllocError>
        requires geometry { IsValidGeometry geometry.now }
        requires area { area ≤ 1 }
        requires room { 0 < area_pages geometry.now }
        ensures { IfOk result (λ s. s ≡ first_saver geometry.now area epoch) }
    {
        let page = vec![in alloc; 0u8; geometry.block as usize]?;
        let stamp = Stamp {
            version: VERSION,
            epoch,
        };
        let mut journal = Journal::new(alloc, geometry, area, stamp, 0, 0)?;
        journal.doubt();
        Ok(Saver { journal, page })
    }

    /// The saver of a flash without a sealed area. Its first checkpoint goes to area 0, with epoch 1.
    pub fn fresh(alloc: Global, geometry: &Geometry) -> Result<Saver, AllocError>
        requires geometry { IsValidGeometry geometry.now }
        requires room { 0 < area_pages geometry.now }
        ensures { IfOk result (λ s. s ≡ first_saver geometry.now 1 0) }
    {
        Saver::found(alloc, geometry, 1, 0)
    }

    /// Whether a checkpoint has to be done before the next record: a call failed in a system area since the last one, or the saver has just
    /// begun. As long no data unit may be erased.
    pub fn is_in_doubt(&self) -> bool
        ensures { result ≡ self.now.in_doubt }
    {
        self.journal.is_in_doubt()
    }

    /// Whether a checkpoint has to come before the next record: in doubt, or where the area is full.
    pub fn needs_checkpoint(&self) -> bool
        ensures { result ≡ needs_checkpoint self.now }
    {
        self.journal.is_in_doubt() || self.journal.is_full()
    }

    /// How the flash is cut that it saves on.
    pub fn geometry(&self) -> Geometry
        ensures { result ≡ self.now.geometry }
    {
        self.journal.geometry()
    }

    /// How often a checkpoint was written, by its own area.
    pub fn epoch(&self) -> u64
        ensures { result ≡ self.now.stamp.epoch }
    {
        self.journal.stamp().epoch
    }
}
