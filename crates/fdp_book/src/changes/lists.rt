//! What the change of a command names and the command does not list.

ghost use Rattle.std.specs.Prelude.{◌≡◌, ◌<◌, ◌≤◌, All, length};
ghost use Rattle.fdp_base.specs.declared.command.Command.TheVariants as commands;
ghost use Rattle.fdp_base.specs.declared.command.Create.{Create};
ghost use Rattle.fdp_base.specs.declared.command.Zero.{Zero};
ghost use Rattle.fdp_book.specs.Changes.{AreListsOf, CanBeSaved};
ghost use Rattle.fdp_rules.specs.Effect.{chosen_handles};

use crate::book::Book;
use arrayvec::ArrayVec;
use fdp_base::{Command, Range};

/// The range of a zeroing and the handles of a create, as a change names them.
#[derive(Drop)]
pub struct CommandLists {
    pub zeroed: [Range; 1],
    pub handles: ArrayVec<u8, 16>,
}

/// Those of a command that may take effect.
pub fn lists_of(book: &Book, command: &Command) -> CommandLists
    requires { CanBeSaved book.now command.now }
    ensures { AreListsOf command.now result }
{
    book.known(); // proof
    CommandLists {
        zeroed: [zeroed_by(command)],
        handles: handles_of(command),
    }
}

/// The range of a zeroing; of another command some range.
fn zeroed_by(command: &Command) -> Range
    ensures { (zero : Zero) → command.now ≡ commands.Zero zero → result ≡ record { slba = zero.slba; length = zero.count } }
{
    if let Command::Zero(zero) = command {
        Range {
            slba: zero.slba,
            length: zero.count,
        }
    } else {
        Range { slba: 0, length: 0 }
    }
}

/// The handles of the namespace of a create; of another command none.
fn handles_of(command: &Command) -> ArrayVec<u8, 16>
    requires few { (create : Create) → command.now ≡ commands.Create create → length create.list ≤ 16 }
    requires small { (create : Create) → command.now ≡ commands.Create create → All (λ ruh. ruh < 16) create.list }
    ensures { (create : Create) → command.now ≡ commands.Create create → result.items ≡ chosen_handles create.list }
{
    if let Command::Create(create) = command {
        chosen(create.list.as_slice())
    } else {
        ArrayVec::new()
    }
}

/// The handles of a namespace that is created: those that were asked for, or handle 0.
fn chosen(asked: &[u16]) -> ArrayVec<u8, 16>
    requires few { length asked.now ≤ 16 }
    requires small { All (λ ruh. ruh < 16) asked.now }
    ensures { result.items ≡ chosen_handles asked.now }
{
    if asked.is_empty() {
        as_handles(&[0])
    } else {
        as_handles(asked)
    }
}

fn as_handles(asked: &[u16]) -> ArrayVec<u8, 16>
    requires few { length asked.now ≤ 16 }
    requires small { All (λ ruh. ruh < 16) asked.now }
    ensures { result.items ≡ asked.now }
{
    let mut handles = ArrayVec::new();
    for ruh in asked {
        handles.push(*ruh as u8);
    }
    handles
}
