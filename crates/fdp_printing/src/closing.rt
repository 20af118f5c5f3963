//! What a run prints behind its completions.

ghost use Rattle.std.specs.Prelude.{◌≡◌, ◌++◌, ◌∷◌, [], OnOk, decimal, flat_map};
ghost use Rattle.fdp_base.specs.EventCodes.{flags_code, kind_code};
ghost use Rattle.fdp_base.specs.Text.{hex};
ghost use Rattle.fdp_output.specs.Output.{stats_line};
ghost use Rattle.fdp_output.specs.RunOutput.{event_line, totals_line, usage_line};
ghost use Rattle.fdp_trace.specs.Printer.{spaced_behind};
ghost use Rattle.fdp_printing.specs.Lines.{closing_lines, placement_lines, usage_lines};

use fdp_base::{DriveConfig, Event, EventFlags, EventKind, Totals};
use fdp_trace::{push_hex, push_number, push_wide_decimal, push_word};
use std::alloc::AllocError;

/// What a run prints behind its completions.
#[derive(Debug, Drop)]
pub struct Closing {
    pub totals: Totals,
    /// What there is to tell of placement while it is enabled.
    pub placement: Option<Placement>,
}

/// The usage of each reclaim unit handle, and the latest events of each class.
#[derive(Debug, Drop)]
pub struct Placement {
    /// 0 unused, 1 specified by a host, 2 by the controller.
    pub usages: Vec<u8>,
    /// Those that hosts ask for, oldest first.
    pub host_events: Vec<Event>,
    /// Those of the controller, oldest first.
    pub controller_events: Vec<Event>,
}

/// Appends the line of the sums and, while placement is enabled, those of the usages and of the events.
pub fn push_closing(
    config: &DriveConfig,
    closing: &Closing,
    into: &mut Vec<u8>,
) -> Result<(), AllocError>
    ensures { OnOk result (into.new.items ≡ into.old.items ++ closing_lines config.now closing.now) }
{
    push_totals(config, closing.totals, into)?;
    match &closing.placement {
        Some(placement) => push_placement(placement, into),
        None => Ok(()),
    }
}

/// Appends the line of the sums, in bytes, which may exceed 64 bits.
fn push_totals(config: &DriveConfig, totals: Totals, into: &mut Vec<u8>) -> Result<(), AllocError>
    ensures { OnOk result (into.new.items ≡ into.old.items ++ totals_line config.now totals) }
{
    let block = u128::from(config.block);
    let unit = block * u128::from(config.unit_pages);
    push_stats(
        block * u128::from(totals.host_blocks),
        block * u128::from(totals.media_blocks),
        unit * u128::from(totals.erases),
        into,
    )
}

/// Appends the line of the statistics, in bytes.
fn push_stats(host: u128, media: u128, erased: u128, into: &mut Vec<u8>) -> Result<(), AllocError>
    ensures { OnOk result (into.new.items ≡ into.old.items ++ stats_line host media erased) }
{
    into.extend_from_slice(b"stats ")?;
    push_wide_decimal(into, host)?;
    into.push(b' ')?;
    push_wide_decimal(into, media)?;
    into.push(b' ')?;
    push_wide_decimal(into, erased)?;
    into.push(b'\n')?;
    Ok(())
}

fn push_placement(placement: &Placement, into: &mut Vec<u8>) -> Result<(), AllocError>
    ensures { OnOk result (into.new.items ≡ into.old.items ++ placement_lines placement.now) }
{
    push_usages(&placement.usages, into)?;
    push_events(b"host", &placement.host_events, into)?;
    push_events(b"ctrl", &placement.controller_events, into)
}

fn push_usages(usages: &[u8], into: &mut Vec<u8>) -> Result<(), AllocError>
    ensures { OnOk result (into.new.items ≡ into.old.items ++ usage_lines 0 usages.now) }
{
    for (ruh, usage) in usages.iter().enumerate() {
        push_usage(ruh, *usage, into)?;
    }
    Ok(())
}

fn push_usage(ruh: usize, usage: u8, into: &mut Vec<u8>) -> Result<(), AllocError>
    ensures { OnOk result (into.new.items ≡ into.old.items ++ usage_line ruh usage) }
{
    into.extend_from_slice(b"ruh")?;
    push_number(into, ruh as u64)?;
    push_number(into, u64::from(usage))?;
    into.push(b'\n')?;
    Ok(())
}

fn push_events(class: &[u8], events: &[Event], into: &mut Vec<u8>) -> Result<(), AllocError>
    ensures { OnOk result (into.new.items ≡ into.old.items ++ flat_map (event_line class.now) events.now) }
{
    for event in events {
        push_event(class, event, into)?;
    }
    Ok(())
}

fn push_event(class: &[u8], event: &Event, into: &mut Vec<u8>) -> Result<(), AllocError>
    ensures { OnOk result (into.new.items ≡ into.old.items ++ event_line class.now event.now) }
{
    into.extend_from_slice(b"event")?;
    push_word(into, class)?;
    push_codes(event, into)?;
    push_place(event, into)?;
    into.push(b'\n')?;
    Ok(())
}

/// Appends the words of an event that are in hexadecimal: kind, flags, placement identifier.
fn push_codes(event: &Event, into: &mut Vec<u8>) -> Result<(), AllocError>
    ensures { OnOk result (into.new.items ≡ into.old.items
        ++ spaced_behind (hex 2 (kind_code event.now.kind) ∷ hex 2 (flags_code event.now.flags) ∷ hex 4 event.now.pid ∷ [])) }
{
    push_code(2, u32::from(code_of_kind(event.kind)), into)?;
    push_code(2, u32::from(code_of_flags(event.flags)), into)?;
    push_code(4, u32::from(event.pid), into)
}

/// Appends the words of an event that are in decimal: where and when it was, and what was moved.
fn push_place(event: &Event, into: &mut Vec<u8>) -> Result<(), AllocError>
    ensures { OnOk result (into.new.items ≡ into.old.items
        ++ spaced_behind (decimal event.now.position ∷ decimal event.now.nsid ∷ decimal event.now.moved ∷ decimal event.now.lba ∷ decimal event.now.rg ∷ decimal event.now.ruh ∷ [])) }
{
    push_number(into, event.position)?;
    push_number(into, u64::from(event.nsid))?;
    push_number(into, u64::from(event.moved))?;
    push_number(into, event.lba)?;
    push_number(into, u64::from(event.rg))?;
    push_number(into, u64::from(event.ruh))
}

/// Appends a space and so many hexadecimal digits.
fn push_code(digits: u8, code: u32, into: &mut Vec<u8>) -> Result<(), AllocError>
    ensures { OnOk result (into.new.items ≡ into.old.items ++ 32 ∷ hex digits code) }
{
    into.push(b' ')?;
    push_hex(into, digits, code)
}

fn code_of_kind(kind: EventKind) -> u8
    ensures { result ≡ kind_code kind }
{
    kind as u8
}

fn code_of_flags(flags: EventFlags) -> u8
    ensures { result ≡ flags_code flags }
{
    u8::from(flags.pid_valid) + 2 * u8::from(flags.nsid_valid) + 4 * u8::from(flags.location_valid)
}
