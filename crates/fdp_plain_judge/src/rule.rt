ghost use Rattle.fdp_base.specs.declared.entry.Entry.{Entry};
ghost use Rattle.fdp_plain_judge.specs.Rules.{FallsUnder, IsRuleOfHost, IsRuleOfWrite, number_of};
ghost use Rattle.fdp_plain_judge.specs.declared.rule.Rule.{Rule};
ghost use Rattle.fdp_rules.specs.Change.{is_media_error};
ghost use Rattle.fdp_rules.specs.PlainState.{PlainState};
ghost use Rattle.fdp_tables.specs.State.{plain_of};
ghost use Rattle.std.specs.Prelude.{◌≡◌};

use crate::writes::going_as;
use fdp_base::{
    Aside, Command, Copied, Entry, Erased, Moved, Placed, Reply, Retired, Shut, Started, Status,
    Worn,
};
use fdp_tables::{Standing, is_write};

/// The rules by which entries are judged, one for each kind of entry, but for the completions of commands.
#[derive(Clone, Copy, Debug, PartialEq, Eq)]
pub enum Rule {
    /// A command that is no write was completed.
    PlainReply,
    /// A write was completed that was not going in its queue.
    WriteRefusal,
    /// A write was completed that was going in its queue.
    WriteEnd,
    Started,
    Placed,
    Copied,
    Moved,
    Erased,
    Retired,
    Aside,
    Shut,
    Worn,
    Reopened,
    /// A command was completed with Write Fault or Unrecovered Read Error.
    MediaError,
}

impl Rule {
    /// The number of the rule, from 1 on.
    pub fn number(self) -> u8
        ensures { result ≡ number_of self }
    {
        match self {
            Rule::PlainReply => 1,
            Rule::WriteRefusal => 2,
            Rule::WriteEnd => 3,
            Rule::Started => 4,
            Rule::Placed => 5,
            Rule::Copied => 6,
            Rule::Moved => 7,
            Rule::Erased => 8,
            Rule::Retired => 9,
            Rule::Aside => 10,
            Rule::Shut => 11,
            Rule::Worn => 12,
            Rule::Reopened => 13,
            Rule::MediaError => 14,
        }
    }
}

/// The rule under which an entry falls.
pub fn rule_of(kept: &Standing, entry: &Entry) -> Rule
    ensures { FallsUnder (plain_of kept.now) entry.now result }
{
    match entry {
        Entry::Host(host) => rule_of_host(
            kept,
            host.queue,
            host.number,
            &host.command,
            &host.reply,
        ),
        Entry::Started(_) => Rule::Started,
        Entry::Placed(_) => Rule::Placed,
        Entry::Copied(_) => Rule::Copied,
        Entry::Moved(_) => Rule::Moved,
        Entry::Erased(_) => Rule::Erased,
        Entry::Retired(_) => Rule::Retired,
        Entry::Aside(_) => Rule::Aside,
        Entry::Shut(_) => Rule::Shut,
        Entry::Worn(_) => Rule::Worn,
        Entry::Reopened => Rule::Reopened,
    }
}

fn rule_of_host(kept: &Standing, queue: u8, number: u16, command: &Command, reply: &Reply) -> Rule
    ensures { IsRuleOfHost (plain_of kept.now) queue number command.now reply.now result }
{
    if tells_media_error(reply.status) {
        Rule::MediaError
    } else if is_write(command) {
        rule_of_write(kept, queue, number, command)
    } else {
        Rule::PlainReply
    }
}

fn rule_of_write(kept: &Standing, queue: u8, number: u16, command: &Command) -> Rule
    ensures { IsRuleOfWrite (plain_of kept.now) queue number command.now result }
{
    if going_as(kept, queue, number, command).is_some() {
        Rule::WriteEnd
    } else {
        Rule::WriteRefusal
    }
}

/// Whatever stands, an entry falls under one rule only.
pub fn falls_under_one_rule()
    ensures { (s : PlainState) (entry : Entry) (a b : Rule) → FallsUnder s entry a → FallsUnder s entry b → a ≡ b }
{}

/// Whether a status is one of a media error.
fn tells_media_error(status: Status) -> bool
    ensures { result ≡ is_media_error status }
{
    status == Status::WRITE_FAULT || status == Status::UNRECOVERED_READ_ERROR
}
