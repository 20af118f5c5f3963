ghost use Rattle.std.specs.Prelude.{◌≡◌, ◌+◌, ◌*◌, ◌-◌, ◌<◌, ◌≤◌, ℕ, Some, None, IfOk, IfSome, length, replicate, slice_get, vec_capacity};
ghost use Rattle.fdp_base.specs.declared.config.DriveConfig.{DriveConfig};
ghost use Rattle.fdp_rules.specs.Change.{one_less};
ghost use Rattle.fdp_rules.specs.Effect.{no_reference, with_reference};
ghost use Rattle.fdp_handles.specs.HandleTable.{HasRightLeft, MayTake, blank, next_spot, reference_at, reference_of};

use crate::reference::HandleReference;
use fdp_base::{Class, Geometry, Spot};
use std::alloc::{AllocError, Global};
use std::marker::Model;

/// The handles in force, and what each references in each reclaim group.
#[derive(Debug, Drop)]
pub struct Handles {
    /// Pages of a unit.
    unit_pages: u32,
    groups: u16,
    /// By handle; there is room for sixteen.
    classes: Vec<Class>,
    /// Sixteen for each group.
    rows: Vec<HandleReference>,
}

impl Model for Handles {
    ghost use Rattle.std.specs.Prelude.{vec_capacity};
    ghost use Rattle.fdp_handles.specs.HandleTable.{HandleTable, HasRows};

    ghost Value = { HandleTable };

    ghost view = { λ h. record { unit_pages = h.unit_pages; groups = h.groups; classes = h.classes.items; rows = h.rows.items } };

    ghost invariant = { λ h. HasRows h.unit_pages h.groups h.rows.items (vec_capacity h.classes) };
}

impl Handles {
    /// Handles of these classes, none of which has a unit.
    pub fn new(alloc: Global, classes: &[Class], geometry: Geometry) -> Result<Handles, AllocError>
        requires { length classes.now ≤ 16 }
        ensures references { IfOk result (λ handles. (rg ruh : ℕ) → reference_at handles rg ruh ≡ blank geometry.unit_pages) }
        ensures unit_pages { IfOk result (λ handles. handles.unit_pages ≡ geometry.unit_pages) }
        ensures groups { IfOk result (λ handles. handles.groups ≡ geometry.groups) }
        ensures classes { IfOk result (λ handles. handles.classes ≡ classes.now) }
    {
        let classes = copied(alloc, classes)?;
        let rows = blank_rows(alloc, geometry)?;
        Ok(Handles {
            unit_pages: geometry.unit_pages,
            groups: geometry.groups,
            classes,
            rows,
        })
    }

    fn reference(&self, rg: u16, ruh: u8) -> HandleReference
        requires group { rg < self.now.groups }
        requires handle { ruh < 16 }
        ensures value { reference_of result ≡ reference_at self.now rg ruh }
        ensures left { HasRightLeft self.now.unit_pages (reference_of result) }
    {
        self.rows[place_of(rg, ruh)]
    }

    /// How many blocks may still be written to the unit of a handle; of a handle without a unit, to the next one.
    pub fn left(&self, rg: u16, ruh: u8) -> u32
        requires group { rg < self.now.groups }
        requires handle { ruh < 16 }
        ensures value { result ≡ (reference_at self.now rg ruh).left }
        ensures right { HasRightLeft self.now.unit_pages (reference_at self.now rg ruh) }
    {
        self.reference(rg, ruh).left
    }

    /// The unit of a handle, if it has one.
    pub fn unit(&self, rg: u16, ruh: u8) -> Option<u32>
        requires group { rg < self.now.groups }
        requires handle { ruh < 16 }
        ensures value { result ≡ (reference_at self.now rg ruh).unit }
        ensures right { HasRightLeft self.now.unit_pages (reference_at self.now rg ruh) }
    {
        self.reference(rg, ruh).unit
    }

    /// Where the unit of a handle goes on, if it has one.
    pub fn next_page(&self, rg: u16, ruh: u8) -> Option<Spot>
        requires group { rg < self.now.groups }
        requires handle { ruh < 16 }
        ensures value { result ≡ next_spot self.now.unit_pages (reference_at self.now rg ruh) }
        ensures within { IfSome result (λ spot. (1 ≤ spot.page) × (spot.page < self.now.unit_pages)) }
    {
        self.reference(rg, ruh).next_page(self.unit_pages)
    }

    /// A page of this unit was programmed for a handle: one block less may be written, and after the last page the
    /// handle has no unit.
    pub fn place(&mut self, rg: u16, ruh: u8, unit: u32)
        requires group { rg < self.old.groups }
        requires handle { ruh < 16 }
        requires unit { MayTake unit (reference_at self.old rg ruh) }
        ensures references { (c : DriveConfig) → c.unit_pages ≡ self.old.unit_pages → reference_at self.new ≡ with_reference (reference_at self.old) rg ruh (one_less c unit (reference_at self.old rg ruh)) }
        ensures rest { self.new ≡ record self.old { rows = self.new.rows } }
    {
        let before = self.reference(rg, ruh);
        self.rows[place_of(rg, ruh)] = before.after_page(self.unit_pages, unit);
    }

    /// A handle has no unit any more.
    pub fn shut(&mut self, rg: u16, ruh: u8)
        requires group { rg < self.old.groups }
        requires handle { ruh < 16 }
        ensures references { (c : DriveConfig) → c.unit_pages ≡ self.old.unit_pages → reference_at self.new ≡ with_reference (reference_at self.old) rg ruh (no_reference c) }
        ensures rest { self.new ≡ record self.old { rows = self.new.rows } }
    {
        self.rows[place_of(rg, ruh)] = HandleReference::blank(self.unit_pages);
    }

    /// Handles of these classes are in force. It takes no memory.
    pub fn set_classes(&mut self, classes: &[Class])
        requires { length classes.now ≤ 16 }
        ensures { self.new ≡ record self.old { classes = classes.now } }
    {
        put_all(&mut self.classes, classes);
    }

    /// What each handle promises of the data that it places.
    pub fn classes(&self) -> &[Class]
        ensures { result.now ≡ self.now.classes }
    {
        &self.classes
    }

    /// What a handle promises of the data that it places.
    pub fn class(&self, ruh: u8) -> Class
        requires handle { ruh < length self.now.classes }
        ensures { slice_get self.now.classes ruh ≡ Some result }
    {
        self.classes[ruh as usize]
    }
}

/// The row of a handle in a group.
fn place_of(rg: u16, ruh: u8) -> usize
    ensures { result ≡ 16 * rg + ruh }
{
    16 * usize::from(rg) + usize::from(ruh)
}

fn copied(alloc: Global, classes: &[Class]) -> Result<Vec<Class>, AllocError>
    requires { length classes.now ≤ 16 }
    ensures copy { IfOk result (λ copy. copy.items ≡ classes.now) }
    ensures room { IfOk result (λ copy. 16 ≤ vec_capacity copy) }
{
    let mut copy = Vec::with_capacity(alloc, 16)?;
    put_all(&mut copy, classes);
    Ok(copy)
}

/// A list has these classes, and no others.
fn put_all(list: &mut Vec<Class>, classes: &[Class])
    requires { length classes.now ≤ vec_capacity list.old }
    ensures classes { list.new.items ≡ classes.now }
    ensures room { vec_capacity list.new ≡ vec_capacity list.old }
{
    list.clear();
    for class in classes {
        list.push_reserved(*class);
    }
}

/// Sixteen rows without a unit for each group.
#[tactic(auto, using(std::proofs::lemmas::List::replicate_more))]
fn blank_rows(alloc: Global, geometry: Geometry) -> Result<Vec<HandleReference>, AllocError>
    ensures { IfOk result (λ rows. rows.items ≡ replicate (16 * geometry.groups) (record { unit = None; left = geometry.unit_pages })) }
{
    let mut rows = Vec::new(alloc);
    for _ in 0..16 * u32::from(geometry.groups) {
        rows.push(HandleReference::blank(geometry.unit_pages))?;
    }
    Ok(rows)
}
