ghost use Rattle.std.specs.Prelude.{◌≡◌, ◌≢◌, ◌⊎◌, ℕ, ◌+◌, ◌<◌, ◌≤◌, [], IfSome, IsSome, Some, length, true};
ghost use Rattle.fdp_base.specs.declared.status.TheConstants.Status as statuses;
ghost use Rattle.fdp_rules.specs.Answer.{bare};
ghost use Rattle.fdp_rules.specs.PlainState.{Going};
ghost use Rattle.fdp_rules.specs.Step.{MaySucceed};
ghost use Rattle.fdp_book.specs.Book.{point_in, state_in};
ghost use Rattle.fdp_book.specs.Steps.{Completes, IsReady, IsVerdict};
ghost use Rattle.fdp_book.specs.Flown.{with_pages};
ghost use Rattle.fdp_book.specs.Taking.{ArePages, CanTake, MayTake, cleared_of, with_taken};
ghost use Rattle.fdp_readings.specs.fdp_locations.Taken.{taken_first};
ghost use Rattle.fdp_owners.specs.Owned.{AreOwners};
ghost use Rattle.fdp_owners.specs.OwnerTable.{owner_at};
ghost use Rattle.fdp_readings.specs.fdp_pages.Steps.{ChangesOwners};
ghost use Rattle.fdp_pointers.specs.Facts.{Page};
ghost use Rattle.fdp_pointers.specs.Pointers.{Behind, renamed};
ghost use Rattle.fdp_book.specs.Tickets.{IsTicketOf};
ghost use Rattle.fdp_map.specs.MapTable.{IsPageOf, mapped_at, mapped_on, size_in, with_mapped};

use super::Book;
use super::end::{push_host, take_flight};
use crate::flight::Flight;
use crate::tables::make;
use crate::ticket::{Done, Ticket};
use arrayvec::ArrayVec;
use fdp_base::{Spot, Status};
use fdp_commands::is_over_budget;
use fdp_map::Map;
use fdp_owners::Holder;
use fdp_readings::Pages;

impl Book {
    /// Whether a write whose pages are all placed may succeed, or the status with which it ends. It looks at each of its blocks.
    pub fn verdict(&self, ticket: &Ticket) -> Result<(), Status>
        requires { IsReady self.now ticket.now }
        ensures { (g : Going) → IsTicketOf (state_in self.now) ticket.now g → IsVerdict self.now g result }
    {
        let flight = self.flight(ticket);
        let extent = flight.extent;
        if !self.is_there(flight) {
            Err(Status::INVALID_NAMESPACE)
        } else if is_over_budget(self, flight.rg, extent.nsid, extent.slba, extent.count) {
            Err(Status::CAPACITY_EXCEEDED)
        } else {
            Ok(())
        }
    }

    /// The change of a write is made: its blocks stand at its pages. It is answered with success, or with Write Fault where its saving
    /// failed. It puts each block in the map. Whether that answer may follow is for the caller to say.
    pub fn commit(&mut self, ticket: Ticket, status: Status, moment: u64) -> Done
        requires may { (g : Going) → IsTicketOf (state_in self.old) ticket g → MaySucceed self.old.config (point_in self.old) g }
        requires ready { IsReady self.old ticket }
        requires status { (status ≡ statuses.SUCCESS) ⊎ (status ≡ statuses.WRITE_FAULT) }
        requires room { 0 < self.old.room }
        ensures pages { ChangesOwners self.old.pages self.new.pages }
        ensures step { (g : Going) → IsTicketOf (state_in self.old) ticket g → Completes self.old self.new [] ticket.queue g.number g.command (bare status true) moment result }
    {
        let _ = self.log.position(); // proof: the sums are small
        let mut numbers = ArrayVec::new();
        let change = self.change_of_write(&ticket, &mut numbers);
        let queue = ticket.give_up();
        let flight = take_flight(&mut self.tables.flights, queue);
        let Flight {
            number,
            ticket: _,
            birth: _,
            rg: _,
            ruh: _,
            pid_valid: _,
            roomiest: _,
            extent,
            room,
            pages,
        } = flight;
        let (command, replies) = room.end(status, true);
        put_pages(
            &mut self.tables.map,
            &mut self.tables.pages,
            extent.nsid,
            extent.slba,
            pages.as_slice(),
        );
        make(&mut self.tables.outline, &self.config, change, &[]);
        push_host(&mut self.log, queue, number, command, replies, moment)
    }
}

/// Blocks take over these pages of a write, from an address on. The pages that they had have no owner any more.
fn put_pages(map: &mut Map, pages: &mut Pages, nsid: u32, slba: u64, spots: &[Spot])
    requires range { slba + length spots.now ≤ size_in map.old nsid }
    requires size { size_in map.old nsid ≤ 262144 }
    requires places { ArePages map.old.geometry spots.now }
    requires pages { CanTake map.old pages.old nsid slba spots.now }
    ensures blocks { mapped_at map.new ≡ with_pages (mapped_at map.old) nsid slba map.old.geometry spots.now (length spots.now) }
    ensures sizes { size_in map.new ≡ size_in map.old }
    ensures geometry { map.new.geometry ≡ map.old.geometry }
    ensures owners { (at : Behind Page) (queue : ℕ) → MayTake at map.old pages.old queue nsid slba spots.now → AreOwners (owner_at pages.new.owners) (renamed (taken_first queue nsid slba (length spots.now)) at) }
    ensures pages { ChangesOwners pages.old pages.new }
{
    pages.joined(); // proof
    for index in 0..spots.len() {
        let lba = slba + index as u64;
        put_page(map, pages, nsid, lba, spots[index]);
    }
}

/// A block takes over a page of a write. The page that it had has no owner any more.
fn put_page(map: &mut Map, pages: &mut Pages, nsid: u32, lba: u64, spot: Spot)
    requires lba { lba < size_in map.old nsid }
    requires place { IsPageOf map.old.geometry spot }
    requires old { IfSome (mapped_at map.old nsid lba) (λ m. IsSome (owner_at pages.old.owners m.spot) × (m.spot ≢ spot)) }
    requires new { IsSome (owner_at pages.old.owners spot) }
    ensures blocks { mapped_at map.new ≡ with_mapped (mapped_at map.old) nsid lba (Some (mapped_on map.old.geometry spot)) }
    ensures sizes { size_in map.new ≡ size_in map.old }
    ensures geometry { map.new.geometry ≡ map.old.geometry }
    ensures owners { owner_at pages.new.owners ≡ with_taken (owner_at pages.old.owners) (mapped_at map.old nsid lba) spot }
    ensures pages { ChangesOwners pages.old pages.new }
{
    clear_old(map, pages, nsid, lba);
    pages.hand_over(spot, Holder::Block);
    map.put(nsid, lba, spot);
}

/// The page that a block has has no owner any more, if it has one.
pub(super) fn clear_old(map: &Map, pages: &mut Pages, nsid: u32, lba: u64)
    requires { IfSome (mapped_at map.now nsid lba) (λ m. IsSome (owner_at pages.old.owners m.spot)) }
    ensures owners { owner_at pages.new.owners ≡ cleared_of (owner_at pages.old.owners) (mapped_at map.now nsid lba) }
    ensures pages { ChangesOwners pages.old pages.new }
{
    match map.get(nsid, lba) {
        Some(old) => pages.clear(old.spot),
        None => pages.joined(),
    }
}
