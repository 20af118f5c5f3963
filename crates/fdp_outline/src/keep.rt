//! Events are kept in a summary where their kind is kept for their handle.

ghost use Rattle.std.specs.Prelude.{◌≡◌, [], ◌∷◌, true};
ghost use Rattle.fdp_image.specs.Checkpoint.{reports_in};
ghost use Rattle.fdp_snapshot.specs.Events.{IsPlain};
ghost use Rattle.fdp_outline.specs.Events.{with_events};
ghost use Rattle.fdp_outline.specs.Outline.{IsWritable};

use fdp_base::Event;
use fdp_events::{is_host, reports};
use fdp_snapshot::Summary;

/// Keeps an event, where its kind is kept for its handle.
pub fn keep(summary: &mut Summary, event: Event)
    requires plain { IsPlain event }
    requires writable { IsWritable summary.old }
    ensures events { summary.new ≡ with_events summary.old (event ∷ []) }
    ensures writable { IsWritable summary.new }
{
    if !reports(&summary.masks, event.ruh, event.kind) {
        return;
    }
    push(summary, event);
}

/// Puts an event behind those of its class.
fn push(summary: &mut Summary, event: Event)
    requires plain { IsPlain event }
    requires reported { reports_in summary.old.masks event.ruh event.kind ≡ true }
    requires writable { IsWritable summary.old }
    ensures events { summary.new ≡ with_events summary.old (event ∷ []) }
    ensures writable { IsWritable summary.new }
{
    if is_host(event.kind) {
        summary.host_events.push(event);
        return;
    }
    summary.controller_events.push(event);
}
