ghost use Rattle.std.specs.Prelude.{◌≡◌, ◌+◌, ◌<◌, ◌^◌, IfSome, IsFalse, None};
ghost use Rattle.fdp_base.specs.declared.command.Command.TheVariants as commands;
ghost use Rattle.fdp_base.specs.CommandKinds.{is_write, read_of};
ghost use Rattle.fdp_book.specs.Book.{BookSeen, point_in};
ghost use Rattle.fdp_book.specs.FirstSteps.{ComesFirstTo};
ghost use Rattle.fdp_rules.specs.Refusal.{refusal_of};

use super::Book;
use crate::first_step::FirstStep;
use fdp_base::{Command, Dealloc, Write};
use fdp_commands::{admit, refusal};

impl Book {
    /// What a command comes to first. Of a write it looks at each group, and at each of its blocks; of an update at each of its
    /// placement identifiers; of a creation at each group, and at each pair of its handles; of a deallocation at each of its ranges; of a log at each
    /// configuration.
    pub fn first_step(&self, command: &Command) -> FirstStep
        ensures { ComesFirstTo self.now command.now result }
    {
        match command {
            Command::Write(write) => self.first_of_write(write),
            Command::Read(_)
            | Command::Zero(_)
            | Command::Dealloc(_)
            | Command::Flush(_)
            | Command::Delete(_)
            | Command::Status(_)
            | Command::Update(_)
            | Command::Log(_)
            | Command::SetFdp(_)
            | Command::GetFdp(_)
            | Command::SetEvents(_)
            | Command::Create(_)
            | Command::Other(_) => self.first_of_another(command),
        }
    }

    fn first_of_write(&self, write: &Write) -> FirstStep
        ensures { ComesFirstTo self.now (commands.Write write.now) result }
    {
        match admit(self, write) {
            Ok(admission) => FirstStep::Write(admission),
            Err(status) => FirstStep::Refused(status),
        }
    }

    fn first_of_another(&self, command: &Command) -> FirstStep
        requires { IsFalse (is_write command.now) }
        ensures { ComesFirstTo self.now command.now result }
    {
        let length = self.view().log_length(command);
        match refusal(self, command, length) {
            Some(status) => FirstStep::Refused(status),
            None => self.first_of_accepted(command),
        }
    }

    /// What a command comes to that is accepted.
    fn first_of_accepted(&self, command: &Command) -> FirstStep
        requires other { IsFalse (is_write command.now) }
        requires accepted { refusal_of self.now.config (point_in self.now) command.now ≡ None }
        requires range { IfSome (read_of command.now) (λ read. read.slba + read.count < 2 ^ 64) }
        ensures { ComesFirstTo self.now command.now result }
    {
        let _ = self; // proof
        match command {
            Command::Read(read) => FirstStep::Read(*read),
            Command::Log(log) => FirstStep::Log(*log),
            Command::Dealloc(dealloc) => first_of_deallocation(dealloc),
            Command::Flush(_) | Command::Status(_) | Command::GetFdp(_) => FirstStep::Answered,
            Command::Zero(_)
            | Command::Delete(_)
            | Command::Update(_)
            | Command::SetFdp(_)
            | Command::SetEvents(_)
            | Command::Create(_) => FirstStep::Saved,
            // The first is none of these, and the last is always refused.
            Command::Write(_) | Command::Other(_) => unreachable!(),
        }
    }
}

/// Without its bit a deallocation changes nothing.
fn first_of_deallocation(dealloc: &Dealloc) -> FirstStep
    ensures { (b : BookSeen) → refusal_of b.config (point_in b) (commands.Dealloc dealloc.now) ≡ None → ComesFirstTo b (commands.Dealloc dealloc.now) result }
{
    if dealloc.deallocate {
        FirstStep::Saved
    } else {
        FirstStep::Answered
    }
}
