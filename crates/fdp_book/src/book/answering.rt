ghost use Rattle.std.specs.Prelude.{◌≡◌, ℕ, ◌+◌, ◌*◌, ◌<◌, ◌≤◌, ◌++◌, List, flat_map, length, replicate, slice_set, if◌then◌else◌};
ghost use Rattle.std.specs.List.{enumerate_from};
ghost use Rattle.fdp_base.specs.declared.status.TheConstants.Status as statuses;
ghost use Rattle.fdp_base.specs.Config.{IsValidConfig};
ghost use Rattle.fdp_base.specs.Numbers.{numbers_below};
ghost use Rattle.fdp_book.specs.Answering.{IsAnswer, IsFilled, filled};
ghost use Rattle.fdp_book.specs.Book.{BookSeen, state_in};
ghost use Rattle.fdp_book.specs.FirstSteps.{IsAnswerable};
ghost use Rattle.fdp_book.specs.Room.{room_for};
ghost use Rattle.fdp_rules.specs.Answer.{dword0_of};
ghost use Rattle.fdp_rules.specs.Change.{is_status};
ghost use Rattle.fdp_rules.specs.LogPages.{handle_status, status_descriptor};
ghost use Rattle.fdp_rules.specs.Target.{pid_of};

use super::Book;
use crate::room::{Replies, Room};
use fdp_base::{Command, DriveConfig, Status};
use fdp_logs::{status_frame, status_head};
use fdp_snapshot::Summary;

impl Book {
    /// The reply to a command that is not refused and changes nothing, and is neither a read nor a log. Of a handle status it takes a step for
    /// each handle of the namespace in each group. It takes no memory.
    pub fn answer(&self, command: &Command, room: Room) -> Replies
        requires command { IsAnswerable self.now command.now }
        requires room { room ≡ room_for command.now self.now.config }
        ensures { IsAnswer self.now command.now result }
    {
        match command {
            Command::Status(status) => {
                let (mut history, answer) = room.into_buffers();
                self.write_status(status.nsid, &mut history);
                Replies::of_read(history, answer)
            }
            Command::Dealloc(_) | Command::Flush(_) | Command::GetFdp(_) => {
                let dword0 = self.dword0_of(command, Status::SUCCESS);
                room.into_places(Status::SUCCESS, dword0, false).1
            }
            // The first is started, those after it are saved, a log is answered where the events are known, and the last is always refused.
            Command::Write(_)
            | Command::Read(_)
            | Command::Zero(_)
            | Command::Delete(_)
            | Command::Update(_)
            | Command::SetFdp(_)
            | Command::SetEvents(_)
            | Command::Create(_)
            | Command::Log(_)
            | Command::Other(_) => unreachable!(),
        }
    }

    /// Dword 0 of the answer to a command that has this status: of a success what the command tells there, else 0.
    pub(super) fn dword0_of(&self, command: &Command, status: Status) -> u32
        ensures { result ≡ (if is_status status statuses.SUCCESS then dword0_of (state_in self.now) command.now else 0) }
    {
        if status == Status::SUCCESS {
            self.dword0_of_success(command)
        } else {
            0
        }
    }

    fn dword0_of_success(&self, command: &Command) -> u32
        ensures { result ≡ dword0_of (state_in self.now) command.now }
    {
        match command {
            Command::GetFdp(_) => setting_dword(self.summary()),
            Command::Create(_) => self.lowest_free().unwrap_or(0),
            Command::Write(_)
            | Command::Read(_)
            | Command::Zero(_)
            | Command::Dealloc(_)
            | Command::Flush(_)
            | Command::Delete(_)
            | Command::Status(_)
            | Command::Update(_)
            | Command::Log(_)
            | Command::SetFdp(_)
            | Command::SetEvents(_)
            | Command::Other(_) => 0,
        }
    }

    /// Writes the reclaim unit handle status of a namespace into a buffer of zeros, as far as it reaches.
    fn write_status(&self, nsid: u32, into: &mut [u8])
        requires { into.old ≡ replicate (length into.old) 0 }
        ensures bytes { into.new ≡ filled (length into.old) (handle_status self.now.config (state_in self.now) nsid) }
        ensures size { length into.new ≡ length into.old }
    {
        let handles = self.tables.outline.handles(nsid);
        let groups = self.config.groups;
        let mut at = put(into, 0, &status_head(handles.len() as u16 * groups));
        for handle in 0..handles.len() {
            at = self.write_handle(into, at, handle as u16, handles[handle]);
        }
    }

    /// Writes the descriptors of a placement handle, one for each group, behind what a buffer has up to a place. The place behind them.
    fn write_handle(&self, into: &mut [u8], at: usize, handle: u16, ruh: u8) -> usize
        requires handle { handle < 16 }
        requires ruh { ruh < 16 }
        requires room { at ≤ 131072 }
        ensures place { result ≡ at + 32 * self.now.config.groups }
        ensures size { length into.new ≡ length into.old }
        ensures bytes { (bytes : List ℕ) → IsFilled into.old at bytes → IsFilled into.new result (bytes ++ flat_map (status_descriptor self.now.config (state_in self.now) handle ruh) (numbers_below self.now.config.groups)) }
    {
        let mut end = at;
        for rg in 0..self.config.groups {
            let left = u64::from(self.tables.pages.handles().left(rg, ruh));
            let pid = pid_of(&self.config, rg, handle);
            end = put(into, end, &status_frame(pid, u16::from(ruh), left));
        }
        end
    }
}

/// Whether placement is enabled, in bit 0, and the index of its configuration, in bits 8 to 15.
fn setting_dword(summary: &Summary) -> u32
    ensures { result ≡ (if summary.now.enabled then 1 else 0) + 256 * summary.now.index }
{
    u32::from(summary.enabled) + 256 * u32::from(summary.index)
}

/// The placement identifier of a group and a placement handle.
fn pid_of(config: &DriveConfig, rg: u16, handle: u16) -> u16
    requires config { IsValidConfig config.now }
    requires group { rg < config.now.groups }
    requires handle { handle < 16 }
    ensures { result ≡ pid_of config.now rg handle }
{
    match config.group_bits() {
        0 => handle,
        1 => 32768 * rg + handle,
        2 => 16384 * rg + handle,
        3 => 8192 * rg + handle,
        _ => 4096 * rg + handle,
    }
}

/// Writes a frame into a buffer from a place on, as far as it reaches. The place behind the frame.
fn put(into: &mut [u8], at: usize, frame: &[u8]) -> usize
    requires { at + length frame.now ≤ 262144 }
    ensures place { result ≡ at + length frame.now }
    ensures size { length into.new ≡ length into.old }
    ensures bytes { (bytes : List ℕ) → IsFilled into.old at bytes → IsFilled into.new result (bytes ++ frame.now) }
{
    for index in 0..frame.len() {
        put_byte(into, at + index, frame[index]);
    }
    at + frame.len()
}

/// Writes a byte into a buffer at a place, if it reaches there.
fn put_byte(into: &mut [u8], at: usize, byte: u8)
    ensures { into.new ≡ slice_set into.old at byte }
{
    if at < into.len() {
        into[at] = byte;
    }
}
