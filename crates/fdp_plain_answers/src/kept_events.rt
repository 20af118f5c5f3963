ghost use Rattle.fdp_plain_answers.specs.Keeping.{kept_of};
ghost use Rattle.fdp_rules.specs.Events.{command_events, kept_of_entry, write_events};
ghost use Rattle.fdp_tables.specs.State.{plain_of};
ghost use Rattle.std.specs.Prelude.{◌≡◌, ◌++◌, ◌∷◌, [], OnOk};

use crate::closings::push_closings;
use crate::events::{handle_event, invalid_identifier, keeps};
use crate::openings::push_openings;
use crate::reallocations::push_reallocations;
use fdp_base::{Command, Entry, Event, EventKind};
use fdp_tables::Standing;
use std::alloc::{AllocError, Global};

/// The events of an entry that is next, of those that are kept, behind what was there. Nothing else changes.
#[tactic(auto, unfolding(fdp_rules::specs::Events::kept_of_entry, fdp_rules::specs::Events::events_of_entry))]
pub fn push_kept(
    kept: &Standing,
    alloc: Global,
    entry: &Entry,
    into: &mut Vec<Event>,
) -> Result<(), AllocError>
    ensures { OnOk result (into.new.items ≡ into.old.items ++ kept_of_entry kept.now.config (plain_of kept.now) entry.now) }
{
    match entry {
        Entry::Host(host) => {
            if host.reply.applied {
                push_command_events(kept, host.queue, &host.command, into)
            } else {
                Ok(())
            }
        }
        Entry::Started(_) => Ok(()),
        Entry::Placed(_) => Ok(()),
        Entry::Copied(_) => Ok(()),
        Entry::Moved(moved) => {
            push_reallocations(kept, alloc, moved.rg, moved.blocks.as_slice(), into)
        }
        Entry::Erased(_) => Ok(()),
        Entry::Retired(_) => Ok(()),
        Entry::Aside(_) => Ok(()),
        Entry::Shut(shut) => keep(
            kept,
            handle_event(kept, EventKind::ImplicitlyModified, shut.rg, shut.ruh),
            into,
        ),
        Entry::Worn(_) => Ok(()),
        Entry::Reopened => push_openings(kept, into),
    }
}

/// The events of a command whose change is made.
fn push_command_events(
    kept: &Standing,
    queue: u8,
    command: &Command,
    into: &mut Vec<Event>,
) -> Result<(), AllocError>
    ensures { OnOk result (into.new.items ≡ into.old.items ++ kept_of (plain_of kept.now) (command_events kept.now.config (plain_of kept.now) queue command.now)) }
{
    match command {
        Command::Write(write) => { push_write_event(kept, queue, write.nsid, write.dspec, into) }
        Command::Read(_) => Ok(()),
        Command::Zero(_) => Ok(()),
        Command::Dealloc(_) => Ok(()),
        Command::Flush(_) => Ok(()),
        Command::Delete(_) => Ok(()),
        Command::Status(_) => Ok(()),
        Command::Update(update) => push_closings(kept, update.nsid, update.pids.as_slice(), into),
        Command::Log(_) => Ok(()),
        Command::SetFdp(_) => Ok(()),
        Command::GetFdp(_) => Ok(()),
        Command::SetEvents(_) => Ok(()),
        Command::Create(_) => Ok(()),
        Command::Other(_) => Ok(()),
    }
}

/// The event of a write that takes effect, where its placement identifier was invalid.
fn push_write_event(
    kept: &Standing,
    queue: u8,
    nsid: u32,
    pid: u16,
    into: &mut Vec<Event>,
) -> Result<(), AllocError>
    ensures { OnOk result (into.new.items ≡ into.old.items ++ kept_of (plain_of kept.now) (write_events (plain_of kept.now) nsid pid ((plain_of kept.now).going queue))) }
{
    match kept.going_in(queue) {
        Some(going) => {
            if going.pid_valid {
                Ok(())
            } else {
                keep(kept, invalid_identifier(kept, nsid, pid, going), into)
            }
        }
        None => Ok(()),
    }
}

/// An event, if its kind is kept for its handle.
pub(crate) fn keep(kept: &Standing, event: Event, into: &mut Vec<Event>) -> Result<(), AllocError>
    ensures { OnOk result (into.new.items ≡ into.old.items ++ kept_of (plain_of kept.now) (event ∷ [])) }
{
    if keeps(kept, &event) {
        into.push(event)?;
    }
    Ok(())
}
