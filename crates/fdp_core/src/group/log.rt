ghost use Rattle.std.specs.Prelude.{◌≡◌, ◌<◌, None};
ghost use Rattle.fdp_base.specs.declared.command.Command.TheVariants as commands;
ghost use Rattle.fdp_base.specs.CommandKinds.{IsWellFormed};
ghost use Rattle.fdp_relocation.specs.fdp_book.Book.{point_in};
ghost use Rattle.fdp_relocation.specs.fdp_book.FirstSteps.{IsLogOf};
ghost use Rattle.fdp_relocation.specs.fdp_book.Room.{IsTwice, read_reply, room_for};
ghost use Rattle.fdp_core.specs.Answers.{EndsAtOnce};
ghost use Rattle.fdp_core.specs.Stops.{OutlastsStops};
ghost use Rattle.fdp_rules.specs.Answer.{data_of};
ghost use Rattle.fdp_rules.specs.Refusal.{refusal_of};
ghost use Rattle.fdp_rules.specs.Step.{IsQueue};

use super::Group;
use fdp_base::{Command, GetLog};
use fdp_flash::Flash;
use fdp_relocation::{Done, Replies, Room};

impl<F: Flash> Group<F> {
    /// Answers a log that is not refused with so much of its page as it asks for. It takes no memory, and a step for each configuration, handle
    /// or event of the page.
    pub(super) fn log(
        &mut self,
        queue: u8,
        number: u16,
        command: Command,
        asked: GetLog,
        room: Room,
    ) -> Done
        requires queue { IsQueue self.old.book.config queue }
        requires formed { IsWellFormed self.old.book.config command }
        requires log { IsLogOf self.old.book command asked }
        requires room { room ≡ room_for command self.old.book.config }
        requires spare { 0 < self.old.book.spare }
        ensures step { EndsAtOnce F.state self.old self.new queue number command result }
        ensures stops { OutlastsStops F.state self.old self.new }
    {
        let replies = self.replies_to_log(&asked, room);
        self.succeed(queue, number, command, replies)
    }

    /// The reply to a log that is not refused.
    fn replies_to_log(&self, asked: &GetLog, room: Room) -> Replies
        requires accepted { refusal_of self.now.book.config (point_in self.now.book) (commands.Log asked.now) ≡ None }
        requires room { room ≡ room_for (commands.Log asked.now) self.now.book.config }
        ensures { IsTwice (read_reply (data_of self.now.book.config (point_in self.now.book) (commands.Log asked.now))) result }
    {
        let (mut history, answer) = room.into_buffers();
        self.book.view().write_log(asked, &mut history);
        Replies::of_read(history, answer)
    }
}
