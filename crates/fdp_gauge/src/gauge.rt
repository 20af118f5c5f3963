ghost use Rattle.std.specs.Prelude.{◌≡◌, true, false, [], map, IfOk};
ghost use mathlib.Core.List.{IsPrefix};
ghost use Rattle.crossbeam_utils.specs.Seq.{cell_view};
ghost use Rattle.fdp_base.specs.Records.{longer};
ghost use Rattle.fdp_gauge.specs.Rule.{counts_of};

use crate::bell::{Bell, Sight};
use crate::known::{Cell, Learns, Listed, Notes, Off, Place, Reads, Stores};
use fdp_base::{Recorded, Snapshot};
use std::alloc::{AllocError, Global};
use std::marker::Brand;
use std::sync::Wait;

/// Shows the length of a record and the sums of what its entries add, for readers on any thread.
#[derive(Drop)]
pub struct Gauge {
    pub(crate) cell: Cell,
    bell: Bell,
}

/// The one who tells the gauge the record.
#[derive(Drop)]
pub struct Teller {
    pub(crate) place: Place,
    ghost tells: { ((cell_view place).tells ≡ true) × ((cell_view place).told ≡ []) },
}

/// One who reads the gauge.
#[derive(Drop)]
pub struct Pass {
    pub(crate) place: Place,
    ghost reads: { ((cell_view place).tells ≡ false) × ((cell_view place).told ≡ []) },
}

impl Gauge {
    ghost use Rattle.fdp_gauge.specs.Passes.{told_of, seen_of, snapshot_of, IsTellerOf, IsPassOf};

    /// A gauge that was told nothing, with its teller and a pass. Who waits at it is woken each time that the record comes into another stretch of
    /// so many entries, at least one.
    pub fn new(alloc: Global, stretch: u32) -> Result<(Gauge, Teller, Pass), AllocError>
        ensures of_gauge { IfOk result (λ made. IsTellerOf made.0 made.1 × IsPassOf made.0 made.2) }
        ensures nothing_told { IfOk result (λ made. (told_of made.1 ≡ []) × (seen_of made.2 ≡ [])) }
    {
        let (cell, mut place) = Cell::ruled(alloc, [0; 4])?;
        let pass = Pass {
            place: cell.split_pass::<Notes>(&mut place),
        };
        let bell = Bell::new(stretch);
        Ok((Gauge { cell, bell }, Teller { place }, pass))
    }

    /// Another pass, which has seen as much.
    pub fn split(&self, pass: &mut Pass) -> Pass
        requires of_gauge { IsPassOf self.now pass.old }
        ensures of_gauge { IsPassOf self.now pass.new × IsPassOf self.now result }
        ensures seen { seen_of result ≡ seen_of pass.old }
        ensures same { seen_of pass.new ≡ seen_of pass.old }
    {
        Pass {
            place: self.cell.split_pass::<Notes>(&mut pass.place),
        }
    }

    /// Tells the record of a value, and wakes those who wait for it. `snapshot` has its length and the sums of what its entries add.
    pub fn publish<V: Recorded, R: Wait>(
        &self,
        rt: &R,
        teller: &mut Teller,
        value: &V,
        snapshot: Snapshot,
    )
        requires of_gauge { IsTellerOf self.now teller.old }
        requires goes_on { IsPrefix (told_of teller.old) (map V.mark (V.entries value.now)) }
        requires counts { snapshot ≡ snapshot_of (map V.mark (V.entries value.now)) }
        ensures of_gauge { IsTellerOf self.now teller.new }
        ensures told { told_of teller.new ≡ map V.mark (V.entries value.now) }
    {
        self.store::<Brand, V, R>(rt, teller, value, snapshot);
        // After the words are there, so that who wakes finds them.
        self.bell.tell(snapshot.length);
    }

    fn store<J: Listed, V: Recorded, R: Wait>(
        &self,
        rt: &R,
        teller: &mut Teller,
        value: &V,
        snapshot: Snapshot,
    )
        requires of_gauge { IsTellerOf self.now teller.old }
        requires list { J.list ≡ map V.mark (V.entries value.now) }
        requires goes_on { IsPrefix (told_of teller.old) J.list }
        requires counts { snapshot ≡ snapshot_of J.list }
        ensures of_gauge { IsTellerOf self.now teller.new }
        ensures told { told_of teller.new ≡ J.list }
    {
        let _ = value; // proof
        let words = [
            snapshot.length,
            snapshot.host_blocks,
            snapshot.media_blocks,
            snapshot.erases,
        ];
        self.cell
            .swap_as::<Stores<J>, R>(rt, &mut teller.place, words);
    }

    /// The length and the sums of a list that goes on from all that the pass has seen. It waits for no turn of a lock.
    pub fn read<R: Wait>(&self, rt: &R, pass: &mut Pass) -> Snapshot
        requires of_gauge { IsPassOf self.now pass.old }
        ensures of_gauge { IsPassOf self.now pass.new }
        ensures snapshot { result ≡ snapshot_of (seen_of pass.new) }
        ensures goes_on { IsPrefix (seen_of pass.old) (seen_of pass.new) }
    {
        let words = self.cell.load_as::<Reads, R>(rt, &mut pass.place);
        Snapshot {
            length: words[0],
            host_blocks: words[1],
            media_blocks: words[2],
            erases: words[3],
        }
    }

    /// Where in the record the pass stands, by a list that goes on from all that it has seen.
    pub fn watch<R: Wait>(&self, rt: &R, pass: &mut Pass) -> Sight
        requires of_gauge { IsPassOf self.now pass.old }
        ensures of_gauge { IsPassOf self.now pass.new }
        ensures goes_on { IsPrefix (seen_of pass.old) (seen_of pass.new) }
    {
        // Asked first: what is read then is all that is ever told.
        let is_over = self.bell.is_over();
        let length = self.read(rt, pass).length;
        self.bell.sight(is_over, length)
    }

    /// Sleeps until the record may be in another stretch, or no more is told. It may return for no reason.
    pub fn wait<R: Wait>(&self, rt: &R, sight: Sight) {
        self.bell.sleep(rt, sight);
    }

    /// Says that no more is told, and wakes all who wait. A record that is told all the same is shown, and wakes nobody.
    pub fn finish(&self) {
        self.bell.close();
    }

    /// Tells the pass what the teller has told.
    pub fn meet<R: Wait>(&self, rt: &R, teller: &mut Teller, pass: &mut Pass)
        requires of_gauge { IsTellerOf self.now teller.old × IsPassOf self.now pass.old }
        ensures of_gauge { IsTellerOf self.now teller.new × IsPassOf self.now pass.new }
        ensures seen { seen_of pass.new ≡ longer (seen_of pass.old) (told_of teller.old) }
        ensures told_begins { IsPrefix (told_of teller.old) (seen_of pass.new) }
        ensures goes_on { IsPrefix (seen_of pass.old) (seen_of pass.new) }
        ensures teller { told_of teller.new ≡ told_of teller.old }
    {
        let note = self.cell.split_pass::<Notes>(&mut teller.place);
        self.cell.join_pass::<Notes>(&mut pass.place, note);
        self.cell.load_as::<Learns, R>(rt, &mut pass.place);
    }

    /// Ends a pass: what it has seen is a beginning of what the teller has told.
    pub fn settle<R: Wait>(&self, rt: &R, teller: &mut Teller, pass: Pass)
        requires of_gauge { IsTellerOf self.now teller.old × IsPassOf self.now pass }
        ensures of_gauge { IsTellerOf self.now teller.new }
        ensures seen_begins { IsPrefix (seen_of pass) (told_of teller.old) }
        ensures teller { told_of teller.new ≡ told_of teller.old }
    {
        let Pass { mut place } = pass;
        let whole = self.cell.split_pass::<Off>(&mut place);
        self.cell.join_pass::<Notes>(&mut teller.place, whole);
        self.cell.load_as::<Learns, R>(rt, &mut teller.place);
    }
}
