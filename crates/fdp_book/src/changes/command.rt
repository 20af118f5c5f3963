//! The changes that save commands other than writes.

ghost use Rattle.std.specs.Prelude.{◌≡◌, ◌+◌, ◌<◌, ◌^◌, IsTrue, length, slice_index};
ghost use Rattle.fdp_base.specs.Geometry.{IsWithin};
ghost use Rattle.fdp_book.specs.Book.{state_in};
ghost use Rattle.fdp_book.specs.Changes.{AreListsOf, CanBeSaved, IsChangeOf, IsSettingOfEvents};
ghost use Rattle.fdp_records.specs.Borrowed.{change_of};
ghost use Rattle.fdp_records.specs.declared.change.Change.TheVariants as changes;
ghost use Rattle.fdp_records.specs.Limits.{is_within_limits};
ghost use Rattle.fdp_rules.specs.Room.{handles_of};

use super::created::created_change;
use super::kinds::mask_of;
use super::lists::CommandLists;
use super::updated::updated_change;
use crate::book::Book;
use fdp_base::{Command, Range, SetEvents, SetFdp};
use fdp_commands::Drive;
use fdp_records::ChangeRef;

/// The change of a command that may take effect, where this is the generation of placement.
pub fn command_change<'a>(
    lists: &'a CommandLists,
    book: &Book,
    generation: u32,
    command: &'a Command,
) -> ChangeRef<'a>
    requires can { CanBeSaved book.now command.now }
    requires lists { AreListsOf command.now lists.now }
    requires generation { generation ≡ (state_in book.now).generation }
    requires next { generation + 1 < 2 ^ 32 }
    ensures change { IsChangeOf book.now.config (state_in book.now) command.now (change_of result) }
    ensures limits { IsTrue (is_within_limits (change_of result)) }
{
    match command {
        Command::Zero(zero) => cleared_change(zero.nsid, &lists.zeroed),
        Command::Dealloc(dealloc) => cleared_change(dealloc.nsid, dealloc.ranges.as_slice()),
        Command::Update(update) => updated_change(book, update),
        Command::Create(create) => created_change(lists.handles.as_slice(), book, create),
        Command::Delete(delete) => ChangeRef::Delete { nsid: delete.nsid },
        Command::SetFdp(set) => set_change(generation, set),
        Command::SetEvents(set) => events_change(book, set),
        // A write has a saving of its own, and the others are not saved.
        Command::Write(_) => unreachable!(),
        Command::Read(_) => unreachable!(),
        Command::Flush(_) => unreachable!(),
        Command::Status(_) => unreachable!(),
        Command::Log(_) => unreachable!(),
        Command::GetFdp(_) => unreachable!(),
        Command::Other(_) => unreachable!(),
    }
}

/// The change by which the blocks of these ranges are absent.
fn cleared_change(nsid: u32, ranges: &[Range]) -> ChangeRef<'_>
    requires { IsWithin 1 16 (length ranges.now) }
    ensures change { change_of result ≡ changes.Clear nsid ranges.now }
    ensures limits { IsTrue (is_within_limits (change_of result)) }
{
    ChangeRef::Clear { nsid, ranges }
}

/// The change of a placement setting, in the generation behind this one.
fn set_change(generation: u32, set: &SetFdp) -> ChangeRef<'static>
    requires { generation + 1 < 2 ^ 32 }
    ensures change { change_of result ≡ changes.SetFdp set.now.enable set.now.index (generation + 1) }
    ensures limits { IsTrue (is_within_limits (change_of result)) }
{
    ChangeRef::SetFdp {
        enabled: set.enable,
        index: set.index,
        generation: generation + 1,
    }
}

/// The change of a setting of events.
fn events_change(book: &Book, set: &SetEvents) -> ChangeRef<'static>
    ensures change { IsSettingOfEvents (state_in book.now) set.now (change_of result) }
    ensures limits { IsTrue (is_within_limits (change_of result)) }
{
    ChangeRef::SetEvents {
        ruh: handle_of(book, set.nsid, set.handle),
        on: set.enable,
        mask: mask_of(set.types.as_slice()),
    }
}

/// The reclaim unit handle of a placement handle of a namespace.
fn handle_of(book: &Book, nsid: u32, handle: u16) -> u8
    ensures { result ≡ slice_index (handles_of (state_in book.now) nsid) handle }
{
    book.handle(nsid, handle).unwrap_or(0)
}
