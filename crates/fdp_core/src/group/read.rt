ghost use Rattle.std.specs.Prelude.{◌≡◌, ◌+◌, ◌*◌, ◌^◌, ◌<◌, ◌≤◌, false, true, IsTrue, None, OnErr, OnOk, length, replicate};
ghost use Rattle.fdp_base.specs.declared.command.Command.TheVariants as commands;
ghost use Rattle.fdp_base.specs.CommandKinds.{IsWellFormed};
ghost use Rattle.fdp_base.specs.Placement.{geometry_of};
ghost use Rattle.fdp_relocation.specs.fdp_book.Book.{point_in, state_in};
ghost use Rattle.fdp_relocation.specs.fdp_book.Room.{room_for};
ghost use Rattle.fdp_calls.specs.Calls.{MakesCalls};
ghost use Rattle.fdp_calls.specs.Media.{IsReadFrom};
ghost use Rattle.fdp_core.specs.Answers.{EndsAtOnce};
ghost use Rattle.fdp_core.specs.Fetches.{FailsToFetch, MakesFetches, fetches_of, pages_of};
ghost use Rattle.fdp_core.specs.ReadSteps.{ReadsAll, blocks_from};
ghost use Rattle.fdp_core.specs.Seen.{HoldsHistory};
ghost use Rattle.fdp_core.specs.Stops.{OutlastsStops};
ghost use Rattle.fdp_rules.specs.Answer.{read_block};
ghost use Rattle.fdp_rules.specs.Refusal.{refusal_of};
ghost use Rattle.fdp_rules.specs.Step.{IsQueue};

use super::Group;
use fdp_base::{Command, Read, Status};
use fdp_calls::{MediaError, fetch};
use fdp_flash::Flash;
use fdp_relocation::{Book, Done, Replies, Room};

impl<F: Flash> Group<F> {
    /// Reads blocks that a read asks for, which is not refused.
    pub(super) fn read(
        &mut self,
        queue: u8,
        number: u16,
        command: Command,
        read: Read,
        room: Room,
    ) -> Done
        requires command { command ≡ commands.Read read }
        requires queue { IsQueue self.old.book.config queue }
        requires formed { IsWellFormed self.old.book.config command }
        requires accepted { refusal_of self.old.book.config (point_in self.old.book) command ≡ None }
        requires range { read.slba + read.count < 2 ^ 64 }
        requires room { room ≡ room_for command self.old.book.config }
        requires spare { 0 < self.old.book.spare }
        ensures step { EndsAtOnce F.state self.old self.new queue number command result }
        ensures stops { OutlastsStops F.state self.old self.new }
    {
        self.book.known(); // proof
        let replies = read_replies(&mut self.flash, &self.book, read, room);
        let moment = self.flash.moment();
        self.book.begin();
        let done = self.book.complete(queue, number, command, replies, moment);
        self.book.known(); // proof
        done
    }
}

/// Reads blocks for both replies.
fn read_replies<F: Flash>(flash: &mut F, book: &Book, read: Read, room: Room) -> Replies
    requires geometry { (F.state flash.old).geometry ≡ geometry_of book.now.config }
    requires stored { HoldsHistory (F.state flash.old) book.now }
    requires room { room ≡ room_for (commands.Read read) book.now.config }
    requires few { read.count ≤ book.now.config.blocks_per_command }
    requires range { read.slba + read.count < 2 ^ 64 }
    ensures { ReadsAll (F.state flash.old) (F.state flash.new) book.now read result }
{
    let (mut history, answer) = room.into_buffers();
    match read_blocks(flash, book, read, &mut history) {
        Ok(()) => Replies::of_read(history, answer),
        Err(MediaError) => {
            let status = Status::UNRECOVERED_READ_ERROR;
            Replies::empty(history, answer, status, false)
        }
    }
}

/// Reads blocks into a buffer of zeros, one behind another: those that are there from their pages.
fn read_blocks<F: Flash>(
    flash: &mut F,
    book: &Book,
    read: Read,
    into: &mut [u8],
) -> Result<(), MediaError>
    requires geometry { (F.state flash.old).geometry ≡ geometry_of book.now.config }
    requires stored { HoldsHistory (F.state flash.old) book.now }
    requires zeros { into.old ≡ replicate (read.count * book.now.config.block) 0 }
    requires range { read.slba + read.count < 2 ^ 64 }
    ensures read { IsReadFrom (F.state flash.old) (F.state flash.new) }
    ensures size { length into.new ≡ length into.old }
    ensures blocks { OnOk result (IsTrue (F.state flash.old).told → into.new ≡ blocks_from book.now read.nsid read.slba read.count) }
    ensures called { OnOk result (MakesFetches (F.state flash.old) (F.state flash.new) book.now read false) }
    ensures failed { OnErr result (MakesFetches (F.state flash.old) (F.state flash.new) book.now read true) }
{
    let size = book.config().block as usize;
    for index in 0..read.count {
        let start = index as usize * size;
        let lba = read.slba + u64::from(index);
        read_block(flash, book, read.nsid, lba, &mut into[start..start + size])?;
    }
    Ok(())
}

/// Reads a block into a buffer of zeros.
fn read_block<F: Flash>(
    flash: &mut F,
    book: &Book,
    nsid: u32,
    lba: u64,
    into: &mut [u8],
) -> Result<(), MediaError>
    requires geometry { (F.state flash.old).geometry ≡ geometry_of book.now.config }
    requires stored { HoldsHistory (F.state flash.old) book.now }
    requires zeros { into.old ≡ replicate book.now.config.block 0 }
    ensures read { IsReadFrom (F.state flash.old) (F.state flash.new) }
    ensures size { length into.new ≡ length into.old }
    ensures block { OnOk result (IsTrue (F.state flash.old).told → into.new ≡ read_block book.now.config (state_in book.now) nsid lba) }
    ensures called { OnOk result (MakesCalls (F.state flash.old) (F.state flash.new) (fetches_of (pages_of book.now nsid lba 1))) }
    ensures failed { OnErr result (FailsToFetch (F.state flash.old) (F.state flash.new) book.now nsid lba) }
{
    match book.page_of(nsid, lba) {
        Some(page) => fetch(flash, page.spot, &page.spare, into),
        None => Ok(()),
    }
}
