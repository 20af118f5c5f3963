ghost use Rattle.std.specs.Prelude.{◌≡◌, ◌<◌, [], Some};
ghost use Rattle.fdp_book.specs.Extent.{IsExtentOf};
ghost use Rattle.fdp_book.specs.Flown.{first_going};
ghost use Rattle.fdp_book.specs.Held.{going_of};
ghost use Rattle.fdp_book.specs.Steps.{MayStart, Starts};
ghost use Rattle.fdp_readings.specs.fdp_pages.Steps.{ChangesOwners};

use super::Book;
use super::forget::drop_flight;
use crate::extent::{Extent, extent_of};
use crate::flight::Flight;
use crate::room::Room;
use crate::tables::count;
use crate::ticket::Ticket;
use arrayvec::ArrayVec;
use fdp_base::{Command, Entry, Started};
use fdp_commands::{Admission, Destination};

impl Book {
    /// Lets a write go where it was admitted. A write that was still going in its queue is forgotten.
    pub fn start(
        &mut self,
        queue: u8,
        number: u16,
        command: Command,
        admission: Admission,
        room: Room,
    ) -> Ticket
        requires may { MayStart self.old queue command admission room }
        requires room { 0 < self.old.room }
        ensures step { Starts self.old self.new queue number command result }
        ensures pages { ChangesOwners self.old.pages self.new.pages }
    {
        let position = self.log.position() + 1;
        let extent = extent_of(room.command()).unwrap();
        let birth = self.tables.outline.birth(extent.nsid).unwrap_or(0);
        let flight = new_flight(number, position, birth, admission, extent, room);
        drop_flight(&mut self.tables, queue);
        count(&mut self.tables.outline, 0, 0);
        self.tables.flights[usize::from(queue)] = Some(flight);
        let Destination { rg, ruh, valid } = admission.target;
        self.log.push(Entry::Started(Started {
            queue,
            number,
            command,
            rg,
            ruh,
            pid_valid: valid,
        }));
        Ticket {
            queue,
            number,
            position,
        }
    }
}

/// A write that is let go, none of whose pages is placed.
fn new_flight(
    number: u16,
    ticket: u64,
    birth: u64,
    admission: Admission,
    extent: Extent,
    room: Room,
) -> Flight
    requires { IsExtentOf room.command (Some extent) }
    ensures going { going_of result ≡ first_going number ticket birth admission room.command }
    ensures room { result.room ≡ room }
    ensures empty { result.pages.items ≡ [] }
{
    let Admission { roomiest, target } = admission;
    Flight {
        number,
        ticket,
        birth,
        rg: target.rg,
        ruh: target.ruh,
        pid_valid: target.valid,
        roomiest,
        extent,
        room,
        pages: ArrayVec::new(),
    }
}
