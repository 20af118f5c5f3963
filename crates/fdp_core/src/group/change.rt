ghost use Rattle.std.specs.Prelude.{◌≡◌, ◌<◌};
ghost use Rattle.fdp_relocation.specs.fdp_book.Commanded.{MayTakeEffect};
ghost use Rattle.fdp_relocation.specs.fdp_book.Room.{room_for};
ghost use Rattle.fdp_core.specs.Answers.{EndsAtOnce};
ghost use Rattle.fdp_core.specs.Stops.{OutlastsStops};

use super::Group;
use fdp_base::{Command, Status};
use fdp_flash::Flash;
use fdp_relocation::{Done, Room, Saved};

impl<F: Flash> Group<F> {
    /// Saves the change of a command that may take effect, and makes it: not where the saving did not get as far as its record.
    pub(super) fn change(&mut self, queue: u8, number: u16, command: Command, room: Room) -> Done
        requires may { MayTakeEffect self.old.book queue command }
        requires room { room ≡ room_for command self.old.book.config }
        requires spare { 0 < self.old.book.spare }
        ensures step { EndsAtOnce F.state self.old self.new queue number command result }
        ensures stops { OutlastsStops F.state self.old self.new }
    {
        self.can_save();
        let saved = self
            .keeper
            .save_command(&mut self.flash, &self.book, &command);
        let moment = self.flash.moment();
        self.book.begin();
        match saved {
            Saved::Done => {
                let done = self
                    .book
                    .apply(queue, number, command, room, Status::SUCCESS, moment);
                self.book.known(); // proof
                done
            }
            Saved::Doubtful { moment: _ } => {
                let status = Status::WRITE_FAULT;
                let done = self
                    .book
                    .apply(queue, number, command, room, status, moment);
                self.book.known(); // proof
                done
            }
            Saved::Unsaved { moment: _ } => {
                let (_, replies) = room.end(Status::WRITE_FAULT, false);
                let done = self.book.complete(queue, number, command, replies, moment);
                self.book.known(); // proof
                done
            }
        }
    }
}
