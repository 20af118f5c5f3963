//! The relocation of a reclaim group.
//!
//! | State | begin | copied | moved | end |
//! |---|---|---|---|---|
//! | no pass | a pass without copies | | | |
//! | a pass | | with one copy more | without copies, of the same victim | no pass |
//!
//! A pass takes at most one free unit as target. Targets stay when a pass ends.
ghost use Rattle.std.specs.Prelude.{◌≡◌, ◌≢◌, ◌≤◌, ◌<◌, ◌++◌, ◌∷◌, [], None, Some, true, false, IfOk, IfSome, IsFalse, IsSome, length, option_map, replicate, slice_set};
ghost use Rattle.fdp_passes.specs.GroupPasses.{IsLane, begun, slot_of, target_at, with_copy, with_unit_taken, without_copies};

use crate::lane::Lane;
use fdp_base::Copied;
use std::alloc::{AllocError, Global};
use std::marker::Model;

/// The targets of a reclaim group, and the pass that is under way there.
#[derive(Debug, Drop)]
pub struct GroupPasses {
    unit_pages: u32,
    /// The unit that gets the copies of each lane.
    targets: [Option<u32>; 17],
    under_way: bool,
    victim: u32,
    /// The page of the victim that is looked at next.
    next: u32,
    copies: Vec<Copied>,
    took_unit: bool,
}

impl Model for GroupPasses {
    ghost use Rattle.std.specs.Prelude.{None, Some, if◌then◌else◌, vec_capacity};
    ghost use Rattle.fdp_passes.specs.GroupPasses.{GroupPasses, HasRoom};

    ghost Value = { GroupPasses };

    ghost view = { λ g. record { unit_pages = g.unit_pages; targets = g.targets; pass = if g.under_way then Some (record { victim = g.victim; next = g.next; copies = g.copies.items; took_unit = g.took_unit }) else None } };

    ghost invariant = { λ g. HasRoom g.unit_pages g.targets g.under_way g.next g.copies.items (vec_capacity g.copies) };
}

impl GroupPasses {
    /// No target and no pass. It is the one call that takes memory.
    pub fn new(alloc: Global, unit_pages: u32) -> Result<GroupPasses, AllocError>
        requires { unit_pages ≤ 256 }
        ensures { IfOk result (λ g. g ≡ record { unit_pages = unit_pages; targets = replicate 17 None; pass = None }) }
    {
        let copies = Vec::with_capacity(alloc, unit_pages as usize)?;
        Ok(GroupPasses {
            unit_pages,
            targets: [None; 17],
            under_way: false,
            victim: 0,
            next: 0,
            copies,
            took_unit: false,
        })
    }

    /// The unit that the pass empties, if one is under way.
    pub fn victim(&self) -> Option<u32>
        ensures { result ≡ option_map (λ pass. pass.victim) self.now.pass }
    {
        if self.under_way {
            Some(self.victim)
        } else {
            None
        }
    }

    /// The page of the victim that is looked at next.
    pub fn next_page(&self) -> u32
        requires { IsSome self.now.pass }
        ensures next { IfSome self.now.pass (λ pass. result ≡ pass.next) }
        ensures within { result ≤ self.now.unit_pages }
    {
        self.next
    }

    /// What the pass has copied and not moved.
    pub fn copies(&self) -> &[Copied]
        requires { IsSome self.now.pass }
        ensures copies { IfSome self.now.pass (λ pass. result.now ≡ pass.copies) }
        ensures few { length result.now ≤ self.now.unit_pages }
    {
        &self.copies
    }

    /// Whether the pass took a free unit as target.
    pub fn took_unit(&self) -> bool
        requires { IsSome self.now.pass }
        ensures { IfSome self.now.pass (λ pass. result ≡ pass.took_unit) }
    {
        self.took_unit
    }

    /// The unit that gets the copies of a lane, if it has one.
    pub fn target(&self, lane: Lane) -> Option<u32>
        requires { IsLane lane }
        ensures { result ≡ target_at self.now lane }
    {
        self.targets[lane.slot()]
    }

    /// A pass begins.
    pub fn begin(&mut self, victim: u32)
        requires { self.old.pass ≡ None }
        ensures { self.new ≡ record self.old { pass = Some (begun victim) } }
    {
        self.under_way = true;
        self.victim = victim;
        self.next = 0;
        self.took_unit = false;
    }

    /// The pass copied a page, and goes on behind it.
    pub fn copied(&mut self, copy: Copied)
        requires pass { IsSome self.old.pass }
        requires page { copy.from.page < self.old.unit_pages }
        requires order { IfSome self.old.pass (λ pass. pass.next ≤ copy.from.page) }
        ensures { self.new ≡ record self.old { pass = option_map (with_copy copy) self.old.pass } }
    {
        self.copies.push_reserved(copy);
        self.next = copy.from.page + 1;
    }

    /// What the pass copied was moved; the pass goes on.
    pub fn moved(&mut self)
        requires { IsSome self.old.pass }
        ensures { self.new ≡ record self.old { pass = option_map without_copies self.old.pass } }
    {
        self.copies.clear();
    }

    /// The pass ends, or is given up.
    pub fn end(&mut self)
        ensures { self.new ≡ record self.old { pass = None } }
    {
        self.under_way = false;
        self.copies.clear();
    }

    /// The pass takes a free unit as the target of a lane.
    pub fn take_target(&mut self, lane: Lane, unit: u32)
        requires lane { IsLane lane }
        requires pass { IsSome self.old.pass }
        requires first { IfSome self.old.pass (λ pass. IsFalse pass.took_unit) }
        requires none { target_at self.old lane ≡ None }
        ensures passes { self.new ≡ record self.old { targets = slice_set self.old.targets (slot_of lane) (Some unit); pass = option_map with_unit_taken self.old.pass } }
        ensures target { target_at self.new lane ≡ Some unit }
    {
        self.targets[lane.slot()] = Some(unit);
        self.took_unit = true;
    }

    /// A lane has no target any more.
    pub fn drop_target(&mut self, lane: Lane)
        requires { IsLane lane }
        ensures { self.new ≡ record self.old { targets = slice_set self.old.targets (slot_of lane) None } }
    {
        self.targets[lane.slot()] = None;
    }

    /// No lane has a target any more.
    pub fn drop_targets(&mut self)
        ensures { self.new ≡ record self.old { targets = replicate 17 None } }
    {
        self.targets = [None; 17];
    }
}
