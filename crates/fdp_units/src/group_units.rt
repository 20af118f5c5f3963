ghost use Rattle.std.specs.Prelude.{◌≡◌, ℕ, ◌*◌, ◌≤◌, ◌<◌, None, Some, length, map, replicate, IfOk, MatchOption, count_by, sum_by, slice_index_or, slice_set};
ghost use Rattle.fdp_least.specs.Keys.{IsLeast, key_at};
ghost use Rattle.fdp_units.specs.GroupTable.{free_group};
ghost use Rattle.fdp_units.specs.DataUnits.{IsSound, free_key, is_free, is_lost, no_unit, gain_of, victim_key};

use crate::data_unit::DataUnit;
use crate::tally::Tally;
use fdp_least::Least;
use std::alloc::{AllocError, Global};
use std::marker::Model;

/// The units of one reclaim group. What is asked of all of them is kept beside them.
#[derive(Debug, Drop)]
pub struct GroupUnits {
    unit_pages: u32,
    units: Vec<DataUnit>,
    victims: Least,
    free: Least,
    tally: Tally,
    worn: bool,
}

impl Model for GroupUnits {
    ghost use Rattle.fdp_units.specs.GroupTable.{GroupTable, IsKept};

    ghost Value = { GroupTable };

    ghost view = { λ g. record { unit_pages = g.unit_pages; units = g.units.items; is_worn = g.worn } };

    ghost invariant = { λ g. IsKept g.unit_pages g.units.items g.victims g.free g.tally };
}

impl GroupUnits {
    /// So many units, each free.
    pub fn new(alloc: Global, unit_pages: u32, count: u32) -> Result<GroupUnits, AllocError>
        requires size { count * unit_pages ≤ 262144 }
        requires some { 1 ≤ unit_pages }
        ensures { IfOk result (λ g. g ≡ free_group unit_pages count) }
    {
        let units = vec![in alloc; DataUnit::free(); count as usize]?;
        let victims = Least::new(alloc, count)?;
        let free = all_free(alloc, count)?;
        Ok(GroupUnits {
            unit_pages,
            units,
            victims,
            free,
            tally: Tally {
                free: count,
                lost: 0,
                toil: 0,
            },
            worn: false,
        })
    }

    pub fn get(&self, index: u32) -> DataUnit
        requires { index < length self.now.units }
        ensures value { result ≡ slice_index_or self.now.units index no_unit }
        ensures sound { IsSound self.now.unit_pages result }
    {
        self.units[index as usize]
    }

    /// Puts another unit in the place of one. It takes a step for each level of two trees.
    pub fn set(&mut self, index: u32, unit: DataUnit)
        requires index { index < length self.old.units }
        requires sound { IsSound self.old.unit_pages unit }
        ensures { self.new ≡ record self.old { units = slice_set self.old.units index unit } }
    {
        let before = self.units[index as usize];
        self.victims.set(index, unit.victim_key(self.unit_pages));
        self.free.set(index, unit.free_key());
        self.tally = self
            .tally
            .replaced(before.tally(self.unit_pages), unit.tally(self.unit_pages));
        self.units[index as usize] = unit;
    }

    /// Whether relocation found no free unit, and none was erased since.
    pub fn is_worn(&self) -> bool
        ensures { result ≡ self.now.is_worn }
    {
        self.worn
    }

    pub fn set_worn(&mut self, worn: bool)
        ensures { self.new ≡ record self.old { is_worn = worn } }
    {
        self.worn = worn;
    }

    /// How many units are free.
    pub fn free_count(&self) -> u32
        ensures { result ≡ count_by (λ x. is_free x.state) self.now.units }
    {
        self.tally.free
    }

    /// How many units are out of use.
    pub fn lost_count(&self) -> u32
        ensures { result ≡ count_by (λ x. is_lost x.state) self.now.units }
    {
        self.tally.lost
    }

    /// How many pages relocation may gain.
    pub fn toil(&self) -> u32
        ensures { result ≡ sum_by (gain_of self.now.unit_pages) self.now.units }
    {
        self.tally.toil
    }

    /// The closed unit with fewest live pages, the first of several, if one has a page that is not live.
    pub fn victim(&self) -> Option<u32>
        ensures { let keys = map (victim_key self.now.unit_pages) self.now.units in MatchOption result ((i : ℕ) → key_at keys i ≡ None) (λ i. IsLeast keys i) }
    {
        self.victims.least()
    }

    /// The first free unit, if there is one.
    pub fn lowest_free(&self) -> Option<u32>
        ensures { let keys = map free_key self.now.units in MatchOption result ((i : ℕ) → key_at keys i ≡ None) (λ i. IsLeast keys i) }
    {
        self.free.least()
    }
}

/// The same key for each unit.
fn all_free(alloc: Global, count: u32) -> Result<Least, AllocError>
    ensures { IfOk result (λ keys. keys ≡ replicate count (Some 0)) }
{
    let mut keys = Least::new(alloc, count)?;
    for index in 0..count {
        keys.set(index, Some(0));
    }
    Ok(keys)
}
