ghost use Rattle.fdp_base.specs.declared.event.Event.{Event};
ghost use Rattle.fdp_rules.specs.Events.{is_host_event, latest};
ghost use Rattle.fdp_rules.specs.LogPages.{events_log, log_page};
ghost use Rattle.fdp_tables.specs.State.{point_kept};
ghost use Rattle.std.specs.Prelude.{◌≡◌, ◌==◌, ◌%◌, ◌+◌, ◌-◌, ◌*◌, ◌++◌, ◌∷◌, [], not, filter, OnOk, IfOk, if◌then◌else◌};

use crate::configurations::configurations_log;
use crate::pages::{code_of, events_log, statistics_log, usage_log};
use fdp_base::{Event, LogPage};
use fdp_tables::Standing;
use std::alloc::{AllocError, Global};

/// The log page of an identifier. Bit 0 of the log specific parameter asks for the events of hosts. It looks at each
/// event that was kept.
pub(crate) fn log_page(
    kept: &Standing,
    alloc: Global,
    lid: u8,
    lsp: u8,
) -> Result<Vec<u8>, AllocError>
    ensures { IfOk result (λ log. log.items ≡ log_page kept.now.config (point_kept kept.now) lid lsp) }
{
    if lid == LogPage::Configurations.code() {
        configurations_log(kept.config(), alloc)
    } else if lid == LogPage::HandleUsage.code() {
        usage_log(kept, alloc)
    } else if lid == LogPage::Statistics.code() {
        statistics_log(kept, alloc)
    } else {
        log_of_events(kept, alloc, lsp)
    }
}

fn log_of_events(kept: &Standing, alloc: Global, lsp: u8) -> Result<Vec<u8>, AllocError>
    ensures { IfOk result (λ log. log.items ≡ events_log (if lsp % 2 == 1 then (point_kept kept.now).host_events else (point_kept kept.now).controller_events)) }
{
    if lsp % 2 == 1 {
        latest_log(alloc, true, kept.events())
    } else {
        latest_log(alloc, false, kept.events())
    }
}

/// The log of the latest events of a class.
fn latest_log(alloc: Global, host: bool, events: &[Event]) -> Result<Vec<u8>, AllocError>
    ensures { IfOk result (λ log. log.items ≡ events_log (latest (filter (λ (e : Event). if host then is_host_event e else not (is_host_event e)) events.now))) }
{
    let chosen = events_of_class(alloc, host, events)?;
    let first = chosen.len().saturating_sub(32);
    events_log(alloc, &chosen.as_slice()[first..])
}

fn events_of_class(alloc: Global, host: bool, events: &[Event]) -> Result<Vec<Event>, AllocError>
    ensures { IfOk result (λ chosen. chosen.items ≡ filter (λ (e : Event). if host then is_host_event e else not (is_host_event e)) events.now) }
{
    let mut chosen = Vec::new(alloc);
    for event in events {
        choose(&mut chosen, host, *event)?;
    }
    Ok(chosen)
}

fn choose(chosen: &mut Vec<Event>, host: bool, event: Event) -> Result<(), AllocError>
    ensures { OnOk result (chosen.new.items ≡ chosen.old.items ++ (if (if host then is_host_event event else not (is_host_event event)) then event ∷ [] else [])) }
{
    if is_of_class(host, event) {
        chosen.push(event)?;
    }
    Ok(())
}

/// Whether an event is of a class: of the events of hosts, or of those of the controller.
pub(crate) fn is_of_class(host: bool, event: Event) -> bool
    ensures { result ≡ (if host then is_host_event event else not (is_host_event event)) }
{
    let is_host = code_of(event.kind) < 0x80;
    if host { is_host } else { !is_host }
}
