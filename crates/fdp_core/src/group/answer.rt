ghost use Rattle.std.specs.Prelude.{◌≡◌, ◌<◌};
ghost use Rattle.fdp_base.specs.CommandKinds.{IsWellFormed};
ghost use Rattle.fdp_relocation.specs.fdp_book.FirstSteps.{IsAnswerable};
ghost use Rattle.fdp_relocation.specs.fdp_book.Room.{room_for};
ghost use Rattle.fdp_core.specs.Answers.{EndsAtOnce};
ghost use Rattle.fdp_core.specs.Stops.{OutlastsStops};
ghost use Rattle.fdp_rules.specs.Step.{IsQueue};

use super::Group;
use fdp_base::Command;
use fdp_flash::Flash;
use fdp_relocation::{Done, Room};

impl<F: Flash> Group<F> {
    /// Answers a command that is not refused, and is neither a read nor a log nor saved: it changes nothing.
    pub(super) fn answer(&mut self, queue: u8, number: u16, command: Command, room: Room) -> Done
        requires queue { IsQueue self.old.book.config queue }
        requires formed { IsWellFormed self.old.book.config command }
        requires answerable { IsAnswerable self.old.book command }
        requires room { room ≡ room_for command self.old.book.config }
        requires spare { 0 < self.old.book.spare }
        ensures step { EndsAtOnce F.state self.old self.new queue number command result }
        ensures stops { OutlastsStops F.state self.old self.new }
    {
        let replies = self.book.answer(&command, room);
        self.succeed(queue, number, command, replies)
    }
}
