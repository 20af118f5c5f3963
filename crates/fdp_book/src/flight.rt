ghost use Rattle.std.specs.Prelude.{◌≡◌, IsTrue, Some, not};
ghost use Rattle.fdp_base.specs.CommandKinds.{is_write, write_of};
ghost use Rattle.fdp_book.specs.Extent.{IsExtentOf};
ghost use Rattle.fdp_base.specs.declared.command.Write.{Write};

use crate::extent::Extent;
use crate::room::Room;
use crate::write_names::WriteNames;
use arrayvec::ArrayVec;
use fdp_base::{Payload, Spot};

/// A write that is going, with the room that was made for it, which has its command.
#[derive(Drop)]
pub struct Flight {
    pub number: u16,
    /// The position of its Started entry.
    pub ticket: u64,
    /// The position at which its namespace was created.
    pub birth: u64,
    pub rg: u16,
    pub ruh: u8,
    pub pid_valid: bool,
    /// The group that had most room when it was started.
    pub roomiest: u16,
    /// The blocks of its command.
    pub extent: Extent,
    pub room: Room,
    /// Its pages that are placed, in order.
    pub pages: ArrayVec<Spot, 64>,
    ghost extent_is: { IsExtentOf room.command (Some extent) },
}

impl Flight {
    /// What the write carries.
    pub fn payload(&self) -> &Payload
        requires { IsTrue (is_write self.now.room.command) }
        ensures { (w : Write) → write_of self.now.room.command ≡ Some w → result.now ≡ w.payload }
    {
        match self.room.command().as_write() {
            Some(write) => &write.payload,
            // A flight is that of a write.
            None => unreachable!(),
        }
    }

    /// What its change names beside its pages.
    pub fn names(&self) -> WriteNames
        requires { IsTrue (is_write self.now.room.command) }
        ensures { (w : Write) → write_of self.now.room.command ≡ Some w → result ≡ record { nsid = w.nsid; slba = w.slba; pid = w.dspec; pid_invalid = not self.now.pid_valid } }
    {
        match self.room.command().as_write() {
            Some(write) => WriteNames {
                nsid: write.nsid,
                slba: write.slba,
                pid: write.dspec,
                pid_invalid: !self.pid_valid,
            },
            // A flight is that of a write.
            None => unreachable!(),
        }
    }
}
