ghost use Rattle.std.specs.Prelude.{◌≡◌, ℕ, ◌*◌, ◌+◌, ◌/◌, ◌%◌, ◌≤◌, ◌<◌, true, false, IsTrue, IfOk, IfSome, MatchOption, length, option_map, replicate, if◌then◌else◌};
ghost use Rattle.fdp_base.specs.declared.config.DriveConfig.{DriveConfig};
ghost use Rattle.fdp_base.specs.Geometry.{IsValidGeometry, data_units};
ghost use Rattle.fdp_base.specs.Numbers.{with_at};
ghost use Rattle.fdp_rules.specs.PlainState.{PlainState};
ghost use Rattle.fdp_rules.specs.Room.{lost_in};
ghost use Rattle.fdp_units.specs.DataUnits.{IsSound, free_unit, is_free, is_open, lowered, may_turn, raised, turned, used};
ghost use Rattle.fdp_units.specs.GroupTable.{free_group};
ghost use Rattle.fdp_units.specs.UnitTable.{Agrees, Changes, HasNoFree, HasNoVictim, IsGroup, IsLowestFree, IsUnit, IsVictim, count_in, cut_of, group_in, is_worn_at, lost_at, toil_of, unit_at};

use crate::data_unit::DataUnit;
use crate::group_units::GroupUnits;
use crate::state::UnitState;
use fdp_base::Geometry;
use std::alloc::{AllocError, Global};
use std::marker::Model;

/// The data units of all reclaim groups.
#[derive(Debug, Drop)]
pub struct Units {
    unit_pages: u32,
    /// Units of a group.
    group_units: u32,
    groups: Vec<GroupUnits>,
}

impl Model for Units {
    ghost use Rattle.fdp_units.specs.UnitTable.{AreGroups, UnitTable};

    ghost Value = { UnitTable };

    ghost view = { λ u. record { unit_pages = u.unit_pages; group_units = u.group_units; groups = u.groups.items } };

    ghost invariant = { λ u. AreGroups u.unit_pages u.group_units u.groups.items };
}

impl Units {
    /// All units are free. It is the one call that takes memory.
    pub fn new(alloc: Global, geometry: Geometry) -> Result<Units, AllocError>
        requires { IsValidGeometry geometry }
        ensures units { IfOk result (λ units. (unit : ℕ) → unit < data_units geometry → unit_at units unit ≡ free_unit) }
        ensures unused { IfOk result (λ units. (unit : ℕ) → (unit_at units unit).next ≡ 0) }
        ensures worn { IfOk result (λ units. (rg : ℕ) → is_worn_at units rg ≡ false) }
        ensures cut { IfOk result (λ units. cut_of units ≡ record { unit_pages = geometry.unit_pages; group_units = geometry.units; groups = geometry.groups }) }
    {
        let groups = free_groups(alloc, geometry)?;
        Ok(Units {
            unit_pages: geometry.unit_pages,
            group_units: geometry.units,
            groups,
        })
    }

    /// Pages of a unit.
    pub fn unit_pages(&self) -> u32
        ensures { result ≡ self.now.unit_pages }
    {
        self.unit_pages
    }

    /// How many data units there are.
    pub fn count(&self) -> u32
        ensures { result ≡ length self.now.groups * self.now.group_units }
    {
        self.groups.len() as u32 * self.group_units
    }

    /// How many reclaim groups there are.
    pub fn groups(&self) -> u16
        ensures { result ≡ length self.now.groups }
    {
        self.groups.len() as u16
    }

    /// A unit by its number.
    pub fn get(&self, unit: u32) -> DataUnit
        requires { IsUnit self.now unit }
        ensures value { result ≡ unit_at self.now unit }
        ensures sound { IsSound self.now.unit_pages result }
    {
        self.groups[(unit / self.group_units) as usize].get(unit % self.group_units)
    }

    fn set(&mut self, unit: u32, now: DataUnit)
        requires unit { IsUnit self.old unit }
        requires sound { IsSound self.old.unit_pages now }
        ensures unit { Changes self.old self.new unit now }
        ensures worn { is_worn_at self.new ≡ is_worn_at self.old }
    {
        let group = &mut self.groups[(unit / self.group_units) as usize];
        group.set(unit % self.group_units, now);
    }

    fn set_worn(&mut self, rg: u32, worn: bool)
        requires { IsGroup self.old rg }
        ensures units { unit_at self.new ≡ unit_at self.old }
        ensures worn { is_worn_at self.new ≡ with_at (is_worn_at self.old) rg worn }
        ensures cut { cut_of self.new ≡ cut_of self.old }
    {
        let group = &mut self.groups[rg as usize];
        group.set_worn(worn);
    }

    /// A unit comes into another state. A group in which one was erased is worn no longer.
    pub fn turn(&mut self, unit: u32, to: UnitState)
        requires unit { IsUnit self.old unit }
        requires may { IsTrue (may_turn to (unit_at self.old unit)) }
        ensures unit { Changes self.old self.new unit (turned self.old.unit_pages to (unit_at self.old unit)) }
        ensures worn { is_worn_at self.new ≡ (if is_free to then with_at (is_worn_at self.old) (group_in self.old unit) false else is_worn_at self.old) }
    {
        self.set(unit, self.get(unit).turned(self.unit_pages, to));
        if to.is_free() {
            self.set_worn(unit / self.group_units, false);
        }
    }

    /// The next page of an open unit was used: it was programmed, or its program failed. After its last page the unit
    /// is closed.
    pub fn use_page(&mut self, unit: u32)
        requires unit { IsUnit self.old unit }
        requires open { IsTrue (is_open (unit_at self.old unit).state) }
        ensures unit { Changes self.old self.new unit (used self.old.unit_pages (unit_at self.old unit)) }
        ensures worn { is_worn_at self.new ≡ is_worn_at self.old }
    {
        self.set(unit, self.get(unit).used(self.unit_pages));
    }

    /// One page more of a unit is live.
    pub fn raise(&mut self, unit: u32)
        requires unit { IsUnit self.old unit }
        requires page { (unit_at self.old unit).live < (unit_at self.old unit).next }
        ensures unit { Changes self.old self.new unit (raised (unit_at self.old unit)) }
        ensures worn { is_worn_at self.new ≡ is_worn_at self.old }
    {
        self.set(unit, self.get(unit).raised(self.unit_pages));
    }

    /// One page less of a unit is live.
    pub fn lower(&mut self, unit: u32)
        requires unit { IsUnit self.old unit }
        requires page { 1 ≤ (unit_at self.old unit).live }
        ensures unit { Changes self.old self.new unit (lowered (unit_at self.old unit)) }
        ensures worn { is_worn_at self.new ≡ is_worn_at self.old }
    {
        self.set(unit, self.get(unit).lowered(self.unit_pages));
    }

    /// Relocation found no free unit in a group.
    pub fn wear(&mut self, rg: u16)
        requires { IsGroup self.old rg }
        ensures units { unit_at self.new ≡ unit_at self.old }
        ensures worn { is_worn_at self.new ≡ with_at (is_worn_at self.old) rg true }
        ensures cut { cut_of self.new ≡ cut_of self.old }
    {
        self.set_worn(u32::from(rg), true);
    }

    /// Whether relocation found no free unit in a group that has had no erase since.
    pub fn is_worn(&self, rg: u16) -> bool
        requires { IsGroup self.now rg }
        ensures { result ≡ is_worn_at self.now rg }
    {
        self.groups[rg as usize].is_worn()
    }

    /// The number of a unit by its place in a group.
    fn numbered(&self, rg: u16, index: Option<u32>) -> Option<u32>
        requires group { IsGroup self.now rg }
        requires index { IfSome index (λ i. i < self.now.group_units) }
        ensures { result ≡ option_map (λ i. rg * self.now.group_units + i) index }
    {
        match index {
            Some(index) => Some(u32::from(rg) * self.group_units + index),
            None => None,
        }
    }

    /// How many units of a group are free.
    pub fn free_count(&self, rg: u16) -> u32
        requires { IsGroup self.now rg }
        ensures { result ≡ count_in self.now rg is_free }
    {
        self.groups[rg as usize].free_count()
    }

    /// The free unit of a group with the lowest number, if there is one.
    pub fn lowest_free(&self, rg: u16) -> Option<u32>
        requires { IsGroup self.now rg }
        ensures { MatchOption result (HasNoFree self.now rg) (λ unit. IsLowestFree self.now rg unit) }
    {
        self.numbered(rg, self.groups[rg as usize].lowest_free())
    }

    /// The closed unit of a group that has a page that is not live, with fewest live pages, then the lowest number.
    pub fn victim(&self, rg: u16) -> Option<u32>
        requires { IsGroup self.now rg }
        ensures { MatchOption result (HasNoVictim self.now rg) (λ unit. IsVictim self.now rg unit) }
    {
        self.numbered(rg, self.groups[rg as usize].victim())
    }

    /// How many units of a group count as lost: those out of use, and all of a worn group.
    pub fn lost(&self, rg: u16) -> u32
        requires { IsGroup self.now rg }
        ensures value { result ≡ lost_at self.now rg }
        ensures state { (c : DriveConfig) (s : PlainState) → Agrees self.now c s → result ≡ lost_in c s rg }
    {
        let group = &self.groups[rg as usize];
        if group.is_worn() {
            self.group_units
        } else {
            group.lost_count()
        }
    }

    /// How many pages of a group's closed units and targets are not live.
    pub fn toil(&self, rg: u16) -> u32
        requires { IsGroup self.now rg }
        ensures { result ≡ toil_of self.now rg }
    {
        self.groups[rg as usize].toil()
    }
}

/// The units of each group, all free.
#[tactic(auto, using(std::proofs::lemmas::List::replicate_more))]
fn free_groups(alloc: Global, geometry: Geometry) -> Result<Vec<GroupUnits>, AllocError>
    requires { IsValidGeometry geometry }
    ensures { IfOk result (λ groups. groups.items ≡ replicate geometry.groups (free_group geometry.unit_pages geometry.units)) }
{
    let mut groups = Vec::new(alloc);
    for _ in 0..geometry.groups {
        groups.push(GroupUnits::new(alloc, geometry.unit_pages, geometry.units)?)?;
    }
    Ok(groups)
}
