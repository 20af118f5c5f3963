ghost use Rattle.std.specs.Prelude.{◌≡◌, ◌+◌, ◌<◌, ◌≤◌, [], ◌∷◌, None, length, flat_map, map};
ghost use Rattle.fdp_base.specs.Numbers.{numbers_below};
ghost use Rattle.fdp_base.specs.declared.config.DriveConfig.{DriveConfig};
ghost use Rattle.fdp_base.specs.declared.entry.Totals.{Totals as Sums};
ghost use Rattle.fdp_base.specs.Geometry.{IsWithin};
ghost use Rattle.fdp_base.specs.Placement.{handle_count};
ghost use Rattle.fdp_image.specs.Applied.{applied};
ghost use Rattle.fdp_image.specs.Checkpoint.{in_place};
ghost use Rattle.fdp_image.specs.Reading.{Reading};
ghost use Rattle.fdp_records.specs.declared.change.Change.TheVariants as changes;
ghost use Rattle.fdp_rules.specs.Events.{handle_event, invalid_identifier, not_fully_written, reallocated};
ghost use Rattle.fdp_rules.specs.PlainState.{Going, PlainState};
ghost use Rattle.fdp_rules.specs.Target.{Target};
ghost use Rattle.fdp_outline.specs.Events.{names_of_handle, with_events};
ghost use Rattle.fdp_outline.specs.Outline.{IsOutlineOf, IsWritable};

use crate::keep::keep;
use crate::moved_block::{MovedBlock, count_of, first_of};
use crate::spaces::put;
use fdp_base::{EventKind, Totals};
use fdp_events::{
    handle_event, identifier_event, no_reports, reallocated_event, reports, set_reports,
};
use fdp_snapshot::{NamespaceHandles, Space, Summary};
use std::alloc::Global;
use std::marker::Model;

/// What a checkpoint says of a drive beside the pages of its blocks.
#[derive(Drop)]
pub struct Outline {
    alloc: Global,
    summary: Summary,
}

impl Model for Outline {
    ghost use Rattle.fdp_snapshot.specs.declared.state.Summary.{Summary as Kept};
    ghost use Rattle.fdp_outline.specs.Outline.{IsWritable};

    ghost Value = { Kept };

    ghost view = { λ o. o.summary };

    ghost invariant = { λ o. IsWritable o.summary };
}

impl Outline {
    /// The outline with this summary. No call takes memory.
    pub fn new(alloc: Global, summary: Summary) -> Outline
        requires { IsWritable summary }
        ensures { result ≡ summary }
    {
        Outline { alloc, summary }
    }

    /// What a checkpoint says of the drive.
    pub fn summary(&self) -> &Summary
        ensures summary { result.now ≡ self.now }
        ensures writable { IsWritable result.now }
    {
        let _ = &self.alloc; // proof
        &self.summary
    }

    /// What a checkpoint says of the drive, which is given up.
    pub fn into_summary(self) -> Summary
        ensures summary { result ≡ self }
        ensures writable { IsWritable result }
    {
        let _ = &self.alloc; // proof
        self.summary
    }

    /// A checkpoint has room for what the outline says.
    pub(crate) fn known(&self)
        ensures { IsWritable self.now }
    {
        let _ = &self.summary; // proof
    }

    /// The position of the last entry and the sums there.
    pub fn set_totals(&mut self, totals: Totals)
        ensures { self.new ≡ record self.old { totals = totals } }
    {
        self.summary.totals = totals;
    }

    /// Keeps the event of a handle that was left without a unit.
    pub(crate) fn keep_shut(&mut self, position: u64, rg: u16, ruh: u8)
        ensures { (s : PlainState) → s.position + 1 ≡ position → self.new ≡ with_events self.old (handle_event s EventKind.ImplicitlyModified rg ruh ∷ []) }
    {
        let event = handle_event(EventKind::ImplicitlyModified, position, rg, ruh);
        keep(&mut self.summary, event);
    }

    /// Keeps the event of a write whose placement identifier was invalid; it went to this group and handle.
    pub(crate) fn keep_invalid(&mut self, position: u64, nsid: u32, pid: u16, rg: u16, ruh: u8)
        ensures { (s : PlainState) (g : Going) → s.position + 1 ≡ position → g.rg ≡ rg → g.ruh ≡ ruh → self.new ≡ with_events self.old (invalid_identifier s nsid pid g ∷ []) }
    {
        let kind = EventKind::InvalidPlacementIdentifier;
        let event = identifier_event(kind, position, nsid, pid, rg, ruh);
        keep(&mut self.summary, event);
    }

    /// Keeps the event of an identifier of an update that closes the unit of this group and handle, which is not fully written.
    pub(crate) fn keep_closed(&mut self, position: u64, nsid: u32, pid: u16, rg: u16, ruh: u8)
        ensures { (s : PlainState) (t : Target) → s.position + 1 ≡ position → t.rg ≡ rg → t.ruh ≡ ruh → self.new ≡ with_events self.old (not_fully_written s nsid pid t ∷ []) }
    {
        let kind = EventKind::NotFullyWritten;
        let event = identifier_event(kind, position, nsid, pid, rg, ruh);
        keep(&mut self.summary, event);
    }

    /// Keeps a namespace that is created at a position, under an identifier that none has.
    pub(crate) fn keep_created(
        &mut self,
        position: u64,
        nsid: u32,
        size: u64,
        given: bool,
        handles: &[u8],
    )
        requires nsid { IsWithin 1 16 nsid }
        requires absent { in_place self.old.spaces nsid ≡ None }
        requires size { 0 < size }
        requires few { length handles.now ≤ 16 }
        ensures { (c : DriveConfig) (r : Reading) (totals : Sums) → totals.position ≡ position → IsOutlineOf c r self.old → IsOutlineOf c (applied c r (changes.Create nsid size given handles.now, totals)) self.new }
    {
        let space = Space {
            size,
            birth: position,
            given,
            handles: NamespaceHandles::of_slice(handles),
        };
        put(self.alloc, &mut self.summary.spaces, nsid, Some(space));
    }

    /// Keeps that a namespace is deleted.
    pub(crate) fn keep_deleted(&mut self, nsid: u32)
        requires { IsWithin 1 16 nsid }
        ensures { (c : DriveConfig) (r : Reading) (totals : Sums) → IsOutlineOf c r self.old → IsOutlineOf c (applied c r (changes.Delete nsid, totals)) self.new }
    {
        put(self.alloc, &mut self.summary.spaces, nsid, None);
    }

    /// Keeps that placement is set: no kind of event is kept for a handle any more.
    pub(crate) fn keep_setting(&mut self, enabled: bool, index: u8, generation: u32)
        ensures { (c : DriveConfig) (r : Reading) (totals : Sums) → IsOutlineOf c r self.old → IsOutlineOf c (applied c r (changes.SetFdp enabled index generation, totals)) self.new }
    {
        self.summary.enabled = enabled;
        self.summary.index = index;
        self.summary.generation = generation;
        self.summary.masks = no_reports();
    }

    /// Keeps which kinds of event are kept for a handle in force from now on: those of a mask too, or they no longer.
    pub(crate) fn keep_kinds(&mut self, ruh: u8, on: bool, mask: u8)
        requires { ruh < 16 }
        ensures { (c : DriveConfig) (r : Reading) (totals : Sums) → ruh < handle_count c self.old.enabled self.old.index → mask < 64 → IsOutlineOf c r self.old → IsOutlineOf c (applied c r (changes.SetEvents ruh on mask, totals)) self.new }
    {
        set_reports(&mut self.summary.masks, ruh, on, mask);
    }

    /// Keeps the events of a move: for each handle one, if blocks of it were moved.
    pub(crate) fn keep_moved(&mut self, position: u64, rg: u16, handles: u8, blocks: &[MovedBlock])
        ensures { (s : PlainState) → s.position + 1 ≡ position → self.new ≡ with_events self.old (flat_map (λ ruh. reallocated s rg ruh (names_of_handle blocks.now ruh)) (numbers_below handles)) }
    {
        self.known(); // proof
        for ruh in 0..handles {
            self.keep_moved_of(position, rg, ruh, blocks);
        }
    }

    /// Keeps the event of the blocks that were moved of a handle, if there are such.
    fn keep_moved_of(&mut self, position: u64, rg: u16, ruh: u8, blocks: &[MovedBlock])
        ensures { (s : PlainState) → s.position + 1 ≡ position → self.new ≡ with_events self.old (reallocated s rg ruh (names_of_handle blocks.now ruh)) }
    {
        if !reports(&self.summary.masks, ruh, EventKind::MediaReallocated) {
            return;
        }
        if let Some(first) = first_of(blocks, ruh) {
            let event = reallocated_event(position, rg, ruh, first, count_of(blocks, ruh));
            keep(&mut self.summary, event);
        }
    }

    /// Keeps the events of an opening: one for each handle of each group.
    pub fn keep_reopened(&mut self, position: u64, groups: u16, handles: u8)
        ensures { (s : PlainState) → s.position + 1 ≡ position → self.new ≡ with_events self.old (flat_map (λ rg. map (handle_event s EventKind.HandlesModified rg) (numbers_below handles)) (numbers_below groups)) }
    {
        self.known(); // proof
        for rg in 0..groups {
            self.keep_reopened_in(position, rg, handles);
        }
    }

    /// Keeps the events of the handles of a group at an opening.
    fn keep_reopened_in(&mut self, position: u64, rg: u16, handles: u8)
        ensures { (s : PlainState) → s.position + 1 ≡ position → self.new ≡ with_events self.old (map (handle_event s EventKind.HandlesModified rg) (numbers_below handles)) }
    {
        self.known(); // proof
        for ruh in 0..handles {
            self.keep_modified(position, rg, ruh);
        }
    }

    /// Keeps the event of a handle that an opening left without a unit.
    fn keep_modified(&mut self, position: u64, rg: u16, ruh: u8)
        ensures { (s : PlainState) → s.position + 1 ≡ position → self.new ≡ with_events self.old (handle_event s EventKind.HandlesModified rg ruh ∷ []) }
    {
        let event = handle_event(EventKind::HandlesModified, position, rg, ruh);
        keep(&mut self.summary, event);
    }
}
