ghost use Rattle.std.specs.Prelude.{◌≡◌, ℕ, ◌≤◌, ◌<◌, Decides, IfOk, IfSome, IsTrue, MatchOption, None, false, length, replicate};
ghost use Rattle.fdp_base.specs.declared.entry.Spot.{Spot as Page};
ghost use Rattle.fdp_base.specs.Geometry.{IsValidGeometry, data_units};
ghost use Rattle.fdp_handles.specs.HandleTable.{HasRightLeft, blank, next_spot, reference_at};
ghost use Rattle.fdp_owners.specs.OwnerTable.{IsPlace, owner_at};
ghost use Rattle.fdp_pages.specs.Joined.{AreJoined};
ghost use Rattle.fdp_pages.specs.PageTables.{copies_at, is_under_way, no_targets, unit_of};
ghost use Rattle.fdp_pages.specs.Steps.{MayPut};
ghost use Rattle.fdp_units.specs.DataUnits.{free_unit, is_free};
ghost use Rattle.fdp_units.specs.UnitTable.{HasNoFree, IsGroup, IsLowestFree, count_in, cut_of, is_worn_at, lost_at, toil_of, unit_at};

use fdp_base::{Class, Copied, Geometry, Spot};
use fdp_handles::Handles;
use fdp_owners::{Owner, Owners};
use fdp_passes::GroupPasses;
use fdp_units::Units;
use std::alloc::{AllocError, Global};
use std::marker::Model;

mod finding;
mod owning;
mod placing;
mod relocating;
mod setting;

/// The pages of data of a drive: whose they are, which unit each handle fills, and what relocation does with them.
#[derive(Debug, Drop)]
pub struct Pages {
    handles: Handles,
    units: Units,
    owners: Owners,
    /// By group.
    passes: Vec<GroupPasses>,
}

impl Model for Pages {
    ghost use Rattle.fdp_pages.specs.PageTables.{PageTables};
    ghost use Rattle.fdp_pages.specs.Joined.{AreJoined};

    ghost Value = { PageTables };

    ghost view = { λ p. record { handles = p.handles; units = p.units; owners = p.owners; passes = p.passes.items } };

    ghost invariant = { λ p. AreJoined (record { handles = p.handles; units = p.units; owners = p.owners; passes = p.passes.items }) };
}

impl Pages {
    /// No handle has a unit, all units are free, no page has an owner, and no pass is under way. It is the one call that takes memory.
    pub fn new(alloc: Global, classes: &[Class], geometry: Geometry) -> Result<Pages, AllocError>
        requires geometry { IsValidGeometry geometry }
        requires some { 1 ≤ length classes.now }
        requires few { length classes.now ≤ 16 }
        ensures classes { IfOk result (λ pages. pages.handles.classes ≡ classes.now) }
        ensures handles { IfOk result (λ pages. (rg ruh : ℕ) → reference_at pages.handles rg ruh ≡ blank geometry.unit_pages) }
        ensures units { IfOk result (λ pages. (unit : ℕ) → unit < data_units geometry → unit_at pages.units unit ≡ free_unit) }
        ensures worn { IfOk result (λ pages. (rg : ℕ) → is_worn_at pages.units rg ≡ false) }
        ensures cut { IfOk result (λ pages. cut_of pages.units ≡ record { unit_pages = geometry.unit_pages; group_units = geometry.units; groups = geometry.groups }) }
        ensures owners { IfOk result (λ pages. (spot : Page) → owner_at pages.owners spot ≡ None) }
        ensures passes { IfOk result (λ pages. pages.passes ≡ replicate geometry.groups (no_targets geometry.unit_pages)) }
    {
        let handles = Handles::new(alloc, classes, geometry)?;
        let units = Units::new(alloc, geometry)?;
        let owners = Owners::new(alloc, geometry)?;
        let passes = passes_of_groups(alloc, geometry)?;
        Ok(Pages {
            handles,
            units,
            owners,
            passes,
        })
    }

    /// What the tables say of each other at each moment.
    pub fn joined(&self)
        ensures { AreJoined self.now }
    {
        let _ = &self.units; // proof
    }

    /// The handles, and what each references.
    pub fn handles(&self) -> &Handles
        ensures { result.now ≡ self.now.handles }
    {
        &self.handles
    }

    /// The data units.
    pub fn units(&self) -> &Units
        ensures { result.now ≡ self.now.units }
    {
        &self.units
    }

    /// Where the unit of a handle goes on, if it has one.
    pub fn next_page(&self, rg: u16, ruh: u8) -> Option<Spot>
        requires group { IsGroup self.now.units rg }
        requires handle { ruh < length self.now.handles.classes }
        ensures value { result ≡ next_spot self.now.handles.unit_pages (reference_at self.now.handles rg ruh) }
        ensures may { MatchOption result (unit_of self.now rg ruh ≡ None) (λ spot. MayPut self.now rg ruh spot) }
    {
        self.handles.next_page(rg, ruh)
    }

    /// The first page of a free unit of a group, that with the lowest number, if there is one. A handle without a unit may use it next.
    pub fn first_page(&self, rg: u16) -> Option<Spot>
        requires { IsGroup self.now.units rg }
        ensures unit { MatchOption result (HasNoFree self.now.units rg) (λ spot. IsLowestFree self.now.units rg spot.unit) }
        ensures page { IfSome result (λ spot. spot.page ≡ 0) }
        ensures may { (ruh : ℕ) → ruh < length self.now.handles.classes → unit_of self.now rg ruh ≡ None → IfSome result (λ spot. MayPut self.now rg ruh spot) }
    {
        match self.units.lowest_free(rg) {
            Some(unit) => Some(Spot { unit, page: 0 }),
            None => None,
        }
    }

    /// Whether a page is one of the data units.
    pub fn has(&self, spot: Spot) -> bool
        ensures { Decides result (IsPlace self.now.owners spot) }
    {
        self.owners.has(spot)
    }

    /// The owner of a page, if it has one.
    pub fn owner(&self, spot: Spot) -> Option<Owner>
        requires { IsPlace self.now.owners spot }
        ensures { result ≡ owner_at self.now.owners spot }
    {
        self.owners.get(spot)
    }

    /// Whether a pass is under way in a group.
    pub fn is_under_way(&self, rg: u16) -> bool
        requires { IsGroup self.now.units rg }
        ensures { result ≡ is_under_way self.now rg }
    {
        let passes = &self.passes[rg as usize];
        passes.victim().is_some()
    }

    /// What the pass under way in a group has copied and not moved.
    pub fn copies(&self, rg: u16) -> &[Copied]
        requires group { IsGroup self.now.units rg }
        requires pass { IsTrue (is_under_way self.now rg) }
        ensures copies { result.now ≡ copies_at self.now rg }
        ensures few { length result.now ≤ self.now.units.unit_pages }
    {
        let passes = &self.passes[rg as usize];
        passes.copies()
    }
}

/// For each group neither a target nor a pass.
#[tactic(auto, using(std::proofs::lemmas::List::replicate_more))]
fn passes_of_groups(alloc: Global, geometry: Geometry) -> Result<Vec<GroupPasses>, AllocError>
    requires { geometry.unit_pages ≤ 256 }
    ensures { IfOk result (λ passes. passes.items ≡ replicate geometry.groups (no_targets geometry.unit_pages)) }
{
    let mut passes = Vec::new(alloc);
    for _ in 0..geometry.groups {
        passes.push(GroupPasses::new(alloc, geometry.unit_pages)?)?;
    }
    Ok(passes)
}
