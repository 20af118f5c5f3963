ghost use Rattle.std.specs.Prelude.{◌≡◌, ℕ, ◌+◌, ◌*◌, ◌^◌, ◌<◌, ◌≤◌, length, IfOk, Some, slice_get};

use crate::limits::MOST_PAGES;
use crate::sequence::{Classes, HandleList, Sequence};
use std::alloc::AllocError;

/// How the flash is cut. The units of data come first, `units` of them in each of `groups` reclaim groups; behind
/// them stand two system areas of `area_units` units each.
#[derive(Clone, Copy, Debug, PartialEq, Eq)]
pub struct Geometry {
    /// Bytes of a block, and so of a page.
    pub block: u32,
    /// Pages of a unit.
    pub unit_pages: u32,
    pub groups: u16,
    /// Data units of one reclaim group.
    pub units: u32,
    /// Units of one system area.
    pub area_units: u32,
}

/// What a reclaim unit handle promises of the data that it places (Base Specification 2.1, "Reclaim Unit Handle
/// Types").
#[derive(Clone, Copy, Debug, PartialEq, Eq)]
pub enum Class {
    /// Initially isolated: relocation may mix its data with another handle's.
    Initial,
    /// Persistently isolated: its data never shares a reclaim unit with another handle's.
    Persistent,
}

/// A namespace that a drive is made with.
#[derive(Clone, Debug, Drop, PartialEq, Eq)]
pub struct NamespaceConfig {
    /// Its size in blocks.
    pub blocks: u64,
    /// Its reclaim unit handles; without a list, handle 0 that the controller chose.
    pub handles: Option<HandleList>,
}

/// A drive as its configuration text describes it.
#[derive(Clone, Debug, Drop, PartialEq, Eq)]
pub struct DriveConfig {
    pub block: u32,
    pub unit_pages: u32,
    pub groups: u16,
    pub units: u32,
    pub area_units: u32,
    pub queues: u8,
    pub blocks_per_command: u16,
    /// The FDP configurations, each a class for each of its reclaim unit handles.
    pub fdp: Sequence<Classes>,
    pub enabled: bool,
    /// The FDP configuration in force while placement is enabled.
    pub index: u8,
    pub namespaces: Sequence<NamespaceConfig>,
    pub queue_depth: u16,
    pub collectors: u8,
    /// Turns of one collector.
    pub turns: u32,
}

impl Geometry {
    ghost use Rattle.fdp_base.specs.Geometry.{IsValidGeometry, data_units, all_units, all_pages, area_pages};

    /// The data units of all reclaim groups.
    pub fn data_units(&self) -> u32
        requires { IsValidGeometry self.now }
        ensures { result ≡ data_units self.now }
    {
        u32::from(self.groups) * self.units
    }

    /// The units of data and of both system areas.
    pub fn all_units(&self) -> u32
        requires { IsValidGeometry self.now }
        ensures { result ≡ all_units self.now }
    {
        self.data_units() + 2 * self.area_units
    }

    /// The pages of all units.
    pub fn all_pages(&self) -> u32
        requires { IsValidGeometry self.now }
        ensures value { result ≡ all_pages self.now }
        ensures bound { result ≤ MOST_PAGES }
    {
        self.unit_pages * self.all_units()
    }

    /// The pages of one system area.
    pub fn area_pages(&self) -> u32
        requires { IsValidGeometry self.now }
        ensures { result ≡ area_pages self.now }
    {
        self.unit_pages * self.area_units
    }
}

impl DriveConfig {
    ghost use Rattle.fdp_base.specs.Config.{IsInRange};
    ghost use Rattle.fdp_base.specs.Geometry.{IsWithin, IsValidGeometry};
    ghost use Rattle.fdp_base.specs.Placement.{geometry_of, group_bits, CanName, classes_of, handle_count, budget_of, most_blocks, checkpoint_pages};

    /// A second copy. It fails only for want of memory.
    pub fn copied(&self) -> Result<DriveConfig, AllocError>
        ensures { IfOk result (λ copy. copy ≡ self.now) }
    {
        self.clone()
    }

    /// The cut of the flash that the drive needs.
    pub fn geometry(&self) -> Geometry
        requires { IsInRange self.now }
        ensures value { result ≡ geometry_of self.now }
        ensures valid { IsValidGeometry result }
    {
        Geometry {
            block: self.block,
            unit_pages: self.unit_pages,
            groups: self.groups,
            units: self.units,
            area_units: self.area_units,
        }
    }

    /// How many of the most significant bits of a placement identifier name the reclaim group: the field RGIF (Base
    /// Specification 2.1, "FDP Configurations").
    pub fn group_bits(&self) -> u8
        requires { IsInRange self.now }
        ensures value { result ≡ group_bits self.now.groups }
        ensures enough { CanName result self.now.groups }
        ensures least { (bits : ℕ) → CanName bits self.now.groups → result ≤ bits }
    {
        match self.groups {
            0..=1 => 0,
            2 => 1,
            3..=4 => 2,
            5..=8 => 3,
            _ => 4,
        }
    }

    /// The classes of the handles of FDP configuration `index`, or, while placement is disabled, of the one handle
    /// that there is.
    pub fn classes(&self, enabled: bool, index: u8) -> &[Class]
        requires { index < length self.now.fdp }
        ensures { result.now ≡ classes_of self.now enabled index }
    {
        if enabled {
            self.fdp.as_slice()[index as usize].as_slice()
        } else {
            &[Class::Initial]
        }
    }

    /// How many handles there are.
    pub fn handle_count(&self, enabled: bool, index: u8) -> u8
        requires ranges { IsInRange self.now }
        requires index { index < length self.now.fdp }
        ensures value { result ≡ handle_count self.now enabled index }
        ensures bound { IsWithin 1 16 result }
    {
        self.classes(enabled, index).len() as u8
    }

    /// The class of a handle.
    pub fn class_of(&self, enabled: bool, index: u8, ruh: u8) -> Class
        requires index { index < length self.now.fdp }
        requires ruh { ruh < handle_count self.now enabled index }
        ensures { slice_get (classes_of self.now enabled index) ruh ≡ Some result }
    {
        self.classes(enabled, index)[ruh as usize]
    }

    /// How many blocks one reclaim group may store, with so many handles and so many of its units lost.
    pub fn budget(&self, handles: u8, lost: u32) -> u32
        requires ranges { IsInRange self.now }
        requires handles { handles ≤ 16 }
        ensures value { result ≡ budget_of self.now handles lost }
        ensures bound { result < 2 ^ 25 }
    {
        let reserved = 2 * u32::from(handles) + 3;
        let going = u32::from(self.queues) * u32::from(self.blocks_per_command);
        let units = self.units.saturating_sub(lost).saturating_sub(reserved);
        (self.unit_pages * units).saturating_sub(going)
    }

    /// The pages of the largest checkpoint that the drive writes.
    pub fn checkpoint_pages(&self) -> u32
        requires { IsInRange self.now }
        ensures { result ≡ checkpoint_pages self.now }
    {
        let blocks = u32::from(self.groups) * self.budget(1, 0);
        (5120 + 4 * blocks).div_ceil(self.block)
    }
}
