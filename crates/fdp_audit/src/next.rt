//! The next run on an image: where it goes on, and what is lost then of the one before it.

ghost use Rattle.std.specs.Prelude.{◌≡◌, ◌↔◌, ◌+◌, ◌<◌, ◌^◌, None, IfErr, IfOk, IfSome, IsTrue, length};
ghost use Rattle.fdp_base.specs.declared.entry.Entry.TheVariants.{Reopened as Opening};
ghost use Rattle.fdp_plain.specs.Run.{next_position};
ghost use Rattle.fdp_audit.specs.Audit.{HaveNoCompletedChange, IsFirstCompleted, is_completed_change};
ghost use Rattle.fdp_audit.specs.Steps.{BeginBehind, BeginNowhere, IsNextVerdict};

use crate::fault::RunFault;
use crate::verdict::judge_read;
use fdp_base::{Entry, Status};
use fdp_plain::Plain;
use fdp_plain_judge::Rule;
use fdp_reader::read_record;
use std::alloc::Global;

/// Has a plain drive go on with the run of a text, behind the beginning of its last run that the first position of the text tells.
pub(crate) fn go_on(alloc: Global, plain: &mut Plain, text: &[u8]) -> Result<(), RunFault>
    requires { next_position plain.old + length text.now < 2 ^ 64 }
    ensures { IsNextVerdict plain.old text.now plain.new result }
{
    let read = match read_record(alloc, text, plain.config()) {
        Ok(read) => read,
        Err(cause) => return Err(RunFault::from(cause)),
    };
    let kept = match kept_before(plain, read.entries.as_slice()) {
        Ok(kept) => kept,
        Err(fault) => return Err(fault),
    };
    // What is lost is known now, and told last: all else that is wrong with the text goes before it.
    let lost = first_completed(&plain.entries()[kept..]);
    plain.reopen_behind(alloc, kept)?;
    let first = plain.next_position();
    match judge_read(alloc, text, plain, read) {
        Ok(()) => {}
        Err(fault) => return Err(fault),
    }
    match lost {
        Some(place) => Err(RunFault::Lost {
            at: first + place as u64,
        }),
        None => Ok(()),
    }
}

/// Behind how many entries of the last run of a drive these begin. The first of them has to be the opening of an image.
fn kept_before(plain: &Plain, entries: &[(u64, Entry)]) -> Result<usize, RunFault>
    ensures kept { IfOk result (BeginBehind plain.now entries.now) }
    ensures fault { IfErr result (BeginNowhere plain.now entries.now) }
{
    let next = plain.next_position();
    let first = next - plain.entries().len() as u64;
    let Some((position, entry)) = entries.first() else {
        return Err(RunFault::Illegal {
            at: next,
            why: Rule::Reopened.number(),
        });
    };
    if !is_opening(entry) {
        return Err(RunFault::Illegal {
            at: *position,
            why: Rule::Reopened.number(),
        });
    }
    if *position < first || next < *position {
        return Err(RunFault::Illegal { at: next, why: 0 });
    }
    Ok((*position - first) as usize)
}

fn is_opening(entry: &Entry) -> bool
    ensures { IsTrue result ↔ (entry.now ≡ Opening) }
{
    matches!(entry, Entry::Reopened)
}

/// The place of the first change among these entries that was completed, from 0.
fn first_completed(entries: &[Entry]) -> Option<usize>
    ensures some { IfSome result (IsFirstCompleted entries.now) }
    ensures none { result ≡ None → HaveNoCompletedChange entries.now }
{
    let mut place = 0;
    for entry in entries {
        if is_completed_change(entry) {
            return Some(place);
        }
        place += 1;
    }
    None
}

/// Whether a command that is saved succeeded.
fn is_completed_change(entry: &Entry) -> bool
    ensures { result ≡ is_completed_change entry.now }
{
    match entry.as_host() {
        Some(host) => host.command.is_saved() && host.reply.status == Status::SUCCESS,
        None => false,
    }
}
