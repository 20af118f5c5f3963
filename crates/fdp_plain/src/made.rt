ghost use Rattle.std.specs.Prelude.{◌≡◌, ℕ, true, None, IfOk};
ghost use Rattle.fdp_rules.specs.Step.{Follows, IsHost};
ghost use Rattle.fdp_plain_effects.specs.Ready.{IsChangeReady, IsHostReady};
ghost use Rattle.fdp_tables.specs.Sound.{IsSound};
ghost use Rattle.fdp_tables.specs.State.{point_kept};
ghost use Rattle.fdp_plain.specs.Reserved.{HasMomentSpare};

use fdp_base::{Command, Entry, Reply};
use fdp_plain_effects::{Made, make_blocks_of, make_going, make_space_of};
use fdp_tables::{Kept, Standing};
use std::alloc::{AllocError, Global};

/// What the change of an entry needs.
pub(crate) fn make(kept: &Kept, alloc: Global, entry: &Entry) -> Result<Made, AllocError>
    requires sound { IsSound kept.now }
    requires follows { Follows true kept.now.config (point_kept kept.now) entry.now }
    requires moment { HasMomentSpare kept.now }
    ensures { IfOk result (λ made. IsChangeReady kept.now entry.now made.blocks.items made.space made.going) }
{
    match entry {
        Entry::Host(host) => make_completion(kept, alloc, host.queue, &host.command, &host.reply),
        Entry::Started(started) => {
            let standing = Standing::new(kept);
            let going = make_going(
                &standing,
                started.number,
                &started.command,
                started.rg,
                started.ruh,
                started.pid_valid,
            )?;
            Ok(Made {
                blocks: Vec::new(alloc),
                space: None,
                going: Some(going),
            })
        }
        Entry::Placed(_) => Ok(nothing(alloc)),
        Entry::Copied(_) => Ok(nothing(alloc)),
        Entry::Moved(_) => Ok(nothing(alloc)),
        Entry::Erased(_) => Ok(nothing(alloc)),
        Entry::Retired(_) => Ok(nothing(alloc)),
        Entry::Aside(_) => Ok(nothing(alloc)),
        Entry::Shut(_) => Ok(nothing(alloc)),
        Entry::Worn(_) => Ok(nothing(alloc)),
        Entry::Reopened => Ok(nothing(alloc)),
    }
}

/// What the change of a completed command needs, where it is made.
fn make_completion(
    kept: &Kept,
    alloc: Global,
    queue: u8,
    command: &Command,
    reply: &Reply,
) -> Result<Made, AllocError>
    requires sound { IsSound kept.now }
    requires moment { HasMomentSpare kept.now }
    requires host { (number : ℕ) × (moment : ℕ) × IsHost true kept.now.config (point_kept kept.now) queue number command.now reply.now moment }
    ensures { IfOk result (λ made. IsHostReady kept.now queue command.now reply.now made.blocks.items made.space) }
{
    if !reply.applied {
        return Ok(nothing(alloc));
    }
    let standing = Standing::new(kept);
    Ok(Made {
        blocks: make_blocks_of(&standing, alloc, queue, command)?,
        space: make_space_of(&standing, alloc, command)?,
        going: None,
    })
}

fn nothing(alloc: Global) -> Made
    ensures space { result.space ≡ None }
    ensures going { result.going ≡ None }
{
    Made {
        blocks: Vec::new(alloc),
        space: None,
        going: None,
    }
}
