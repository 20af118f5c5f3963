//! A saved change is made in an outline.

ghost use Rattle.std.specs.Prelude.{◌≡◌, ℕ, ◌+◌, ◌-◌, ◌^◌, ◌<◌, flat_map, length, slice_index, true};
ghost use Rattle.std.specs.List.{enumerate_from};
ghost use Rattle.fdp_base.specs.Config.{IsInRange};
ghost use Rattle.fdp_base.specs.Geometry.{data_units};
ghost use Rattle.fdp_base.specs.Numbers.{numbers_below};
ghost use Rattle.fdp_base.specs.Placement.{geometry_of, handle_count};
ghost use Rattle.fdp_base.specs.declared.entry.Totals.{Totals as Sums};
ghost use Rattle.fdp_image.specs.Applied.{applied};
ghost use Rattle.fdp_image.specs.Areas.{data_pages};
ghost use Rattle.fdp_image.specs.ChangeEvents.{closed_event};
ghost use Rattle.fdp_image.specs.Fits.{names_what_is};
ghost use Rattle.fdp_image.specs.Reading.{Reading};
ghost use Rattle.fdp_records.specs.Borrowed.{change_of};
ghost use Rattle.fdp_records.specs.declared.change.Change.TheVariants as changes;
ghost use Rattle.fdp_rules.specs.Events.{reallocated};
ghost use Rattle.fdp_rules.specs.PlainState.{PlainState};
ghost use Rattle.fdp_rules.specs.Room.{handles_of};
ghost use Rattle.fdp_rules.specs.Sites.{group_of};
ghost use Rattle.fdp_outline.specs.Events.{ListsMoved, names_of_handle, with_events};
ghost use Rattle.fdp_outline.specs.Handles.{handles_at};
ghost use Rattle.fdp_outline.specs.Outline.{IsOutlineOf, said_by};

use crate::groups::{first_page, group_of, group_of_page};
use crate::moved_block::MovedBlock;
use crate::named::{first_handle, has_bit, named_by};
use crate::outline::Outline;
use fdp_base::{DriveConfig, Totals};
use fdp_records::ChangeRef;

impl Outline {
    /// A saved change is made, but for the pages of the blocks; of a move the blocks that it takes along are given. It takes no memory.
    pub fn apply(
        &mut self,
        config: &DriveConfig,
        change: ChangeRef<'_>,
        totals: Totals,
        moved: &[MovedBlock],
    )
        requires config { IsInRange config.now }
        requires index { self.old.index < length config.now.fdp }
        requires fit { names_what_is config.now (said_by self.old) (change_of change) ≡ true }
        ensures outline { (r : Reading) → IsOutlineOf config.now r self.old → ListsMoved config.now r (change_of change.entry) moved.now → IsOutlineOf config.now (applied config.now r (change_of change.entry, totals)) self.new }
        ensures totals { self.new.totals ≡ totals }
    {
        self.make(config, change, totals.position, moved);
        self.set_totals(totals);
    }

    /// Makes a change at a position, but for the totals there.
    fn make(
        &mut self,
        config: &DriveConfig,
        change: ChangeRef<'_>,
        position: u64,
        moved: &[MovedBlock],
    )
        requires config { IsInRange config.now }
        requires index { self.old.index < length config.now.fdp }
        requires fit { names_what_is config.now (said_by self.old) (change_of change) ≡ true }
        ensures { (r : Reading) (totals : Sums) → totals.position ≡ position → IsOutlineOf config.now r self.old → ListsMoved config.now r (change_of change.entry) moved.now → IsOutlineOf config.now (applied config.now r (change_of change.entry, totals)) self.new }
    {
        self.known(); // proof
        match change {
            ChangeRef::Write {
                nsid,
                slba: _,
                pid,
                pid_invalid,
                pages,
            } => {
                if pid_invalid {
                    self.make_invalid(config, position, nsid, pid, pages);
                }
            }
            ChangeRef::Clear { nsid: _, ranges: _ } => {}
            ChangeRef::Update { nsid, closed, pids } => {
                let at = event_position(position);
                self.make_closed(config, at, nsid, closed, 0, pids);
            }
            ChangeRef::Create {
                nsid,
                size,
                given,
                handles,
            } => self.keep_created(position, nsid, size, given, handles),
            ChangeRef::Delete { nsid } => self.keep_deleted(nsid),
            ChangeRef::SetFdp {
                enabled,
                index,
                generation,
            } => self.keep_setting(enabled, index, generation),
            ChangeRef::SetEvents { ruh, on, mask } => self.keep_kinds(ruh, on, mask),
            ChangeRef::Moved {
                victim,
                first: _,
                second: _,
                handles: _,
            } => self.make_moved(config, event_position(position), victim.unit, moved),
            ChangeRef::Shut { rg, ruh } => self.keep_shut(event_position(position), rg, ruh),
        }
    }

    /// Keeps the event of a write at a position, whose placement identifier was invalid.
    fn make_invalid(
        &mut self,
        config: &DriveConfig,
        position: u64,
        nsid: u32,
        pid: u16,
        pages: &[u32],
    )
        requires config { IsInRange config.now }
        requires page { slice_index pages.now 0 < data_pages (geometry_of config.now) }
        ensures { (r : Reading) (slba : ℕ) (totals : Sums) → totals.position ≡ position → IsOutlineOf config.now r self.old → IsOutlineOf config.now (applied config.now r (changes.Write nsid slba pid true pages.now, totals)) self.new }
    {
        let rg = group_of_page(config, first_page(pages));
        let ruh = first_handle(self.summary(), nsid);
        self.keep_invalid(event_position(position), nsid, pid, rg, ruh);
    }

    /// Keeps the events of the identifiers of an update from a place on, one for each that closed a unit.
    fn make_closed(
        &mut self,
        config: &DriveConfig,
        at: u64,
        nsid: u32,
        closed: u64,
        place: usize,
        pids: &[u16],
    )
        requires config { IsInRange config.now }
        requires places { place + length pids.now < 2 ^ 63 }
        ensures { (s : PlainState) → s.position + 1 ≡ at → handles_of s nsid ≡ handles_at self.old nsid → self.new ≡ with_events self.old (flat_map (closed_event config.now s nsid closed) (enumerate_from place pids.now)) }
    {
        self.known(); // proof
        if let Some((pid, rest)) = pids.split_first() {
            self.make_closed_at(config, at, nsid, closed, place, *pid);
            self.make_closed(config, at, nsid, closed, place + 1, rest);
        }
    }

    /// Keeps the event of an identifier at a place, if it closed a unit.
    fn make_closed_at(
        &mut self,
        config: &DriveConfig,
        at: u64,
        nsid: u32,
        closed: u64,
        place: usize,
        pid: u16,
    )
        requires { IsInRange config.now }
        ensures { (s : PlainState) → s.position + 1 ≡ at → handles_of s nsid ≡ handles_at self.old nsid → self.new ≡ with_events self.old (closed_event config.now s nsid closed (place, pid)) }
    {
        self.known(); // proof
        if has_bit(closed, place) {
            if let Some((rg, ruh)) = named_by(config, self.summary(), nsid, pid) {
                self.keep_closed(at, nsid, pid, rg, ruh);
            }
        }
    }

    /// Keeps the events of a move off a unit.
    fn make_moved(&mut self, config: &DriveConfig, at: u64, unit: u32, moved: &[MovedBlock])
        requires config { IsInRange config.now }
        requires index { self.old.index < length config.now.fdp }
        requires unit { unit < data_units (geometry_of config.now) }
        ensures { (s : PlainState) → s.position + 1 ≡ at → self.new ≡ with_events self.old (flat_map (λ ruh. reallocated s (group_of config.now unit) ruh (names_of_handle moved.now ruh)) (numbers_below (handle_count config.now self.old.enabled self.old.index))) }
    {
        let summary = self.summary();
        let handles = config.handle_count(summary.enabled, summary.index);
        self.keep_moved(at, group_of(config, unit), handles, moved);
    }
}

/// The position that the event of a change at a position has.
fn event_position(position: u64) -> u64
    ensures { result ≡ position - 1 + 1 }
{
    position.saturating_sub(1) + 1
}
