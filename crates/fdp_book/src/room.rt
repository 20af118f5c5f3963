ghost use Rattle.std.specs.Prelude.{◌≡◌, ◌≤◌, ◌*◌, [], None, length, replicate, vec_capacity, IfOk, IsTrue};
ghost use Rattle.fdp_rules.specs.Answer.{bare};
ghost use Rattle.fdp_book.specs.Room.{IsTwice, bytes_of_blocks, bytes_of_dwords, most_bytes, places_made, places_of, read_reply, room_for, told_reply};

use fdp_base::{Bytes, Command, DriveConfig, MOST_DWORDS, Reply, Status};
use fdp_map::{PageList, vacant_list};
use std::alloc::{AllocError, Global};
use std::marker::Model;

/// The memory that serving a command takes: a second copy of it; the bytes of the reply twice, once for the history and once for
/// the answer; and the places of the namespace that it creates.
#[derive(Debug, Drop)]
pub struct Room {
    command: Command,
    block: u32,
    most: u16,
    /// The pages of data of the drive.
    pages: u128,
    history: Vec<u8>,
    answer: Vec<u8>,
    places: PageList,
}

impl Model for Room {
    ghost use Rattle.std.specs.Prelude.{vec_capacity};
    ghost use Rattle.fdp_book.specs.Room.{HasMemory, RoomSeen};

    ghost Value = { RoomSeen };

    ghost view = { λ room. record { command = room.command; block = room.block; most = room.most; pages = room.pages } };

    ghost invariant = { λ room. HasMemory room.command room.block room.most room.pages room.history.items room.answer.items (vec_capacity room.answer) room.places };
}

/// One reply, once for the history and once for the answer.
#[derive(Debug, Drop)]
pub struct Replies {
    pub history: Reply,
    pub answer: Reply,
}

impl Room {
    /// The room that a command needs on a drive of this configuration. A read of no more blocks than a command may have, and a status
    /// or a log of no more dwords than are transferred, take two buffers of their size; a creation of no more blocks than the drive
    /// has pages of data takes a place for each; and each command takes a second copy of itself.
    pub fn new(alloc: Global, command: &Command, config: &DriveConfig) -> Result<Room, AllocError>
        ensures { IfOk result (λ room. room ≡ room_for command.now config.now) }
    {
        let units = u64::from(config.groups) * u64::from(config.units);
        let pages = u128::from(units) * u128::from(config.unit_pages);
        let bytes = most_bytes(command, config.block, config.blocks_per_command);
        Ok(Room {
            command: command.copied()?,
            block: config.block,
            most: config.blocks_per_command,
            pages,
            history: vec![in alloc; 0; bytes]?,
            answer: Vec::with_capacity(alloc, bytes)?,
            places: vacant_list(alloc, places_made(command, pages))?,
        })
    }

    /// The second copy of the command.
    pub fn command(&self) -> &Command
        ensures { result.now ≡ self.now.command }
    {
        &self.command
    }

    /// The second copy of the command, and the reply without data to it.
    pub fn end(self, status: Status, applied: bool) -> (Command, Replies)
        ensures command { result.0 ≡ self.command }
        ensures reply { IsTwice (bare status applied) result.1 }
    {
        let Room {
            command,
            block: _,
            most: _,
            pages: _,
            history,
            answer,
            places: _,
        } = self;
        (command, Replies::empty(history, answer, status, applied))
    }

    /// The buffers of a command that answers bytes: one of zeros, and one that is empty and has room for as many bytes.
    pub fn into_buffers(self) -> (Vec<u8>, Vec<u8>)
        ensures history { result.0.items ≡ replicate (most_bytes self.command self.block self.most) 0 }
        ensures answer { result.1.items ≡ [] }
        ensures room { most_bytes self.command self.block self.most ≤ vec_capacity result.1 }
    {
        let Room {
            command: _,
            block: _,
            most: _,
            pages: _,
            history,
            answer,
            places: _,
        } = self;
        (history, answer)
    }

    /// The places of the namespace that the command creates, and its reply without data.
    pub fn into_places(self, status: Status, dword0: u32, applied: bool) -> (PageList, Replies)
        ensures places { result.0 ≡ replicate (places_made self.command self.pages) None }
        ensures reply { IsTwice (told_reply status dword0 applied) result.1 }
    {
        let Room {
            command: _,
            block: _,
            most: _,
            pages: _,
            history,
            answer,
            places,
        } = self;
        let replies = Replies::without_data(history, answer, status, dword0, applied);
        (places, replies)
    }
}

impl Replies {
    /// The reply without data, in the place of what the buffers hold.
    pub fn empty(history: Vec<u8>, answer: Vec<u8>, status: Status, applied: bool) -> Replies
        ensures { IsTwice (bare status applied) result }
    {
        Replies::without_data(history, answer, status, 0, applied)
    }

    /// The reply that has this dword 0 and no data, in the place of what the buffers hold.
    pub fn without_data(
        mut history: Vec<u8>,
        mut answer: Vec<u8>,
        status: Status,
        dword0: u32,
        applied: bool,
    ) -> Replies
        ensures { IsTwice (told_reply status dword0 applied) result }
    {
        history.clear();
        answer.clear();
        Replies {
            history: reply(status, dword0, history, applied),
            answer: reply(status, dword0, answer, applied),
        }
    }

    /// The reply of a read or a status, whose bytes the first buffer holds: they are copied once, into the room for the answer.
    pub fn of_read(history: Vec<u8>, mut answer: Vec<u8>) -> Replies
        requires empty { answer.items ≡ [] }
        requires room { length history.items ≤ vec_capacity answer }
        ensures { IsTwice (read_reply history.items) result }
    {
        match answer.extend_from_slice(&history) {
            Ok(()) => Replies {
                history: reply(Status::SUCCESS, 0, history, false),
                answer: reply(Status::SUCCESS, 0, answer, false),
            },
            // There is room for them.
            Err(AllocError) => unreachable!(),
        }
    }
}

/// How many bytes a command answers at most: of a read those of its blocks, where it does not ask for more than a command may; of a
/// status or a log its dwords, where it does not ask for more than are transferred.
fn most_bytes(command: &Command, block: u32, most: u16) -> usize
    ensures { result ≡ most_bytes command.now block most }
{
    match command {
        Command::Read(read) => bytes_of_blocks(read.count, block, most),
        Command::Status(status) => bytes_of_dwords(status.dwords),
        Command::Log(log) => bytes_of_dwords(log.dwords),
        Command::Write(_)
        | Command::Zero(_)
        | Command::Dealloc(_)
        | Command::Flush(_)
        | Command::Delete(_)
        | Command::Update(_)
        | Command::SetFdp(_)
        | Command::GetFdp(_)
        | Command::SetEvents(_)
        | Command::Create(_)
        | Command::Other(_) => 0,
    }
}

fn bytes_of_blocks(count: u32, block: u32, most: u16) -> usize
    ensures { result ≡ bytes_of_blocks count block most }
{
    if count <= u32::from(most) {
        count as usize * block as usize
    } else {
        0
    }
}

fn bytes_of_dwords(dwords: u32) -> usize
    ensures { result ≡ bytes_of_dwords dwords }
{
    if dwords <= MOST_DWORDS {
        4 * dwords as usize
    } else {
        0
    }
}

/// How many places a command needs: of a creation one for each block, where it does not ask for more than the drive has pages of data.
fn places_made(command: &Command, pages: u128) -> u64
    ensures { result ≡ places_made command.now pages }
{
    match command {
        Command::Create(create) => places_of(create.size, pages),
        Command::Write(_)
        | Command::Read(_)
        | Command::Zero(_)
        | Command::Dealloc(_)
        | Command::Flush(_)
        | Command::Delete(_)
        | Command::Status(_)
        | Command::Update(_)
        | Command::Log(_)
        | Command::SetFdp(_)
        | Command::GetFdp(_)
        | Command::SetEvents(_)
        | Command::Other(_) => 0,
    }
}

fn places_of(size: u64, pages: u128) -> u64
    ensures { result ≡ places_of size pages }
{
    if u128::from(size) <= pages { size } else { 0 }
}

fn reply(status: Status, dword0: u32, bytes: Vec<u8>, applied: bool) -> Reply
    ensures { result ≡ record { status = status; dw0 = dword0; bytes = bytes.items; applied = applied } }
{
    Reply {
        status,
        dw0: dword0,
        bytes: Bytes::from_vec(bytes),
        applied,
    }
}
