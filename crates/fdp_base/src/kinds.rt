//! What kind of command or of entry it is: each question is asked here once, and everywhere else of the command or the entry.

ghost use Rattle.std.specs.Prelude.{◌≡◌};
ghost use Rattle.std.specs.Option.{option_copied};
ghost use Rattle.fdp_base.specs.CommandKinds.{
  blocks_read,
  blocks_written,
  is_saved,
  nsid_of,
  pid_of,
  read_of,
  write_of,
};
ghost use Rattle.fdp_base.specs.EntryKinds.{host_of, placed_of, started_of};

use crate::codes::Directive;
use crate::command::{Command, Read, Write};
use crate::entry::{Entry, Host, Placed, Started};

impl Command {
    /// The command as a write, if it is one.
    pub fn as_write(&self) -> Option<&Write>
        ensures { option_copied result ≡ write_of self.now }
    {
        match self {
            Command::Write(write) => Some(write),
            Command::Read(_)
            | Command::Zero(_)
            | Command::Dealloc(_)
            | Command::Flush(_)
            | Command::Delete(_)
            | Command::Status(_)
            | Command::Update(_)
            | Command::Log(_)
            | Command::SetFdp(_)
            | Command::GetFdp(_)
            | Command::SetEvents(_)
            | Command::Create(_)
            | Command::Other(_) => None,
        }
    }

    /// The command as a read, if it is one.
    pub fn as_read(&self) -> Option<&Read>
        ensures { option_copied result ≡ read_of self.now }
    {
        match self {
            Command::Read(read) => Some(read),
            Command::Write(_)
            | Command::Zero(_)
            | Command::Dealloc(_)
            | Command::Flush(_)
            | Command::Delete(_)
            | Command::Status(_)
            | Command::Update(_)
            | Command::Log(_)
            | Command::SetFdp(_)
            | Command::GetFdp(_)
            | Command::SetEvents(_)
            | Command::Create(_)
            | Command::Other(_) => None,
        }
    }

    /// How many blocks a write carries; 0 of another command.
    pub fn blocks_written(&self) -> u32
        ensures { result ≡ blocks_written self.now }
    {
        match self.as_write() {
            Some(write) => write.count,
            None => 0,
        }
    }

    /// How many blocks a read asks for; 0 of another command.
    pub fn blocks_read(&self) -> u32
        ensures { result ≡ blocks_read self.now }
    {
        match self.as_read() {
            Some(read) => read.count,
            None => 0,
        }
    }

    /// The namespace that the command names, 0 where it names none.
    pub fn nsid(&self) -> u32
        ensures { result ≡ nsid_of self.now }
    {
        match self {
            Command::Write(write) => write.nsid,
            Command::Read(read) => read.nsid,
            Command::Zero(zero) => zero.nsid,
            Command::Dealloc(dealloc) => dealloc.nsid,
            Command::Flush(flush) => flush.nsid,
            Command::Delete(delete) => delete.nsid,
            Command::Status(status) => status.nsid,
            Command::Update(update) => update.nsid,
            Command::SetEvents(events) => events.nsid,
            Command::Log(_)
            | Command::SetFdp(_)
            | Command::GetFdp(_)
            | Command::Create(_)
            | Command::Other(_) => 0,
        }
    }

    /// Whether the change of the command outlasts a stop: it is saved.
    pub fn is_saved(&self) -> bool
        ensures { result ≡ is_saved self.now }
    {
        match self {
            Command::Write(_)
            | Command::Zero(_)
            | Command::Delete(_)
            | Command::Update(_)
            | Command::SetFdp(_)
            | Command::SetEvents(_)
            | Command::Create(_) => true,
            Command::Dealloc(dealloc) => dealloc.deallocate,
            Command::Read(_)
            | Command::Flush(_)
            | Command::Status(_)
            | Command::Log(_)
            | Command::GetFdp(_)
            | Command::Other(_) => false,
        }
    }
}

impl Write {
    /// The placement identifier of the write, if it has one.
    pub fn pid(&self) -> Option<u16>
        ensures { result ≡ pid_of self.now }
    {
        if self.dtype == Directive::DataPlacement.code() {
            Some(self.dspec)
        } else {
            None
        }
    }
}

impl Entry {
    /// The entry as the completion of a command, if it is one.
    pub fn as_host(&self) -> Option<&Host>
        ensures { option_copied result ≡ host_of self.now }
    {
        match self {
            Entry::Host(host) => Some(host),
            Entry::Started(_)
            | Entry::Placed(_)
            | Entry::Copied(_)
            | Entry::Moved(_)
            | Entry::Erased(_)
            | Entry::Retired(_)
            | Entry::Aside(_)
            | Entry::Shut(_)
            | Entry::Worn(_)
            | Entry::Reopened => None,
        }
    }

    /// The entry as the start of a write, if it is one.
    pub fn as_started(&self) -> Option<&Started>
        ensures { option_copied result ≡ started_of self.now }
    {
        match self {
            Entry::Started(started) => Some(started),
            Entry::Host(_)
            | Entry::Placed(_)
            | Entry::Copied(_)
            | Entry::Moved(_)
            | Entry::Erased(_)
            | Entry::Retired(_)
            | Entry::Aside(_)
            | Entry::Shut(_)
            | Entry::Worn(_)
            | Entry::Reopened => None,
        }
    }

    /// The entry as a page of a write that was placed, if it is one.
    pub fn as_placed(&self) -> Option<&Placed>
        ensures { option_copied result ≡ placed_of self.now }
    {
        match self {
            Entry::Placed(placed) => Some(placed),
            Entry::Host(_)
            | Entry::Started(_)
            | Entry::Copied(_)
            | Entry::Moved(_)
            | Entry::Erased(_)
            | Entry::Retired(_)
            | Entry::Aside(_)
            | Entry::Shut(_)
            | Entry::Worn(_)
            | Entry::Reopened => None,
        }
    }
}
