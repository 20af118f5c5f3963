ghost use Rattle.std.specs.Prelude.{◌<◌};
ghost use Rattle.fdp_core.specs.Answers.{Begins};
ghost use Rattle.fdp_core.specs.Stops.{OutlastsStops};
ghost use Rattle.fdp_core.specs.Steps.{MayBegin};

use super::Group;
use crate::answer::Begun;
use fdp_base::Command;
use fdp_flash::Flash;
use fdp_relocation::{FirstStep, Room};

impl<F: Flash> Group<F> {
    /// The first step of a command: it refuses it, reads for it, answers it, saves its change and makes it, or, where it is a write, starts it.
    /// It looks at each group, and at each block that the command names; a delete at each block of its namespace; a log at each handle, or
    /// at each event, of its page.
    pub fn start(&mut self, queue: u8, number: u16, command: Command, room: Room) -> Begun
        requires may { MayBegin self.old queue number command room }
        requires spare { 0 < self.old.book.spare }
        ensures step { Begins F.state self.old self.new queue number command result }
        ensures stops { OutlastsStops F.state self.old self.new }
    {
        self.book.known(); // proof
        match self.book.first_step(&command) {
            FirstStep::Refused(status) => {
                Begun::Ended(self.refuse(queue, number, command, status, room))
            }
            FirstStep::Read(read) => Begun::Ended(self.read(queue, number, command, read, room)),
            FirstStep::Answered => Begun::Ended(self.answer(queue, number, command, room)),
            FirstStep::Saved => Begun::Ended(self.change(queue, number, command, room)),
            FirstStep::Log(asked) => Begun::Ended(self.log(queue, number, command, asked, room)),
            FirstStep::Write(admission) => {
                self.book.begin();
                let ticket = self.book.start(queue, number, command, admission, room);
                self.book.known(); // proof
                Begun::Going(ticket)
            }
        }
    }
}
