ghost use Rattle.fdp_rules.specs.Step.{Follows};
ghost use Rattle.fdp_tables.specs.State.{point_kept};
ghost use Rattle.std.specs.Prelude.{Decides, IfOk, true};

use crate::completion::is_host;
use crate::hosts::is_started;
use crate::pages::{is_aside, is_copied, is_erasable, is_handle, is_placed};
use crate::passes::is_moved;
use fdp_base::{Entry, Spot};
use fdp_tables::Standing;
use std::alloc::{AllocError, Global};

/// Whether an entry may follow. Only want of memory keeps it from an answer.
#[tactic(auto, unfolding(fdp_rules::specs::Step::Follows))]
pub fn judge(kept: &Standing, alloc: Global, entry: &Entry) -> Result<bool, AllocError>
    ensures { IfOk result (λ answer. Decides answer (Follows true kept.now.config (point_kept kept.now) entry.now)) }
{
    match entry {
        Entry::Host(host) => is_host(
            kept,
            alloc,
            host.queue,
            host.number,
            &host.command,
            &host.reply,
            host.moment,
        ),
        Entry::Started(started) => is_started(
            kept,
            alloc,
            started.queue,
            &started.command,
            started.rg,
            started.ruh,
            started.pid_valid,
        ),
        Entry::Placed(placed) => {
            let at = Spot {
                unit: placed.unit,
                page: placed.page,
            };
            Ok(is_placed(kept, placed.ticket, placed.index, at))
        }
        Entry::Copied(copied) => Ok(is_copied(kept, copied.from, copied.to)),
        Entry::Moved(moved) => is_moved(kept, alloc, moved.rg, moved.blocks.as_slice()),
        Entry::Erased(erased) => is_erasable(kept, alloc, erased.unit),
        Entry::Retired(retired) => is_erasable(kept, alloc, retired.unit),
        Entry::Aside(aside) => Ok(is_aside(kept, aside.unit)),
        Entry::Shut(shut) => Ok(is_handle(kept, shut.rg, shut.ruh)),
        Entry::Worn(worn) => Ok(worn.rg < kept.config().groups),
        Entry::Reopened => Ok(kept.is_opening()),
    }
}
