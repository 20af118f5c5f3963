//! The drive that serves the generated load, and its four traces.

ghost use Rattle.std.specs.Prelude.{◌≡◌, ◌<◌, ◌≤◌, [], ◌∷◌, All, IfOk, Some, map};
ghost use Rattle.fdp_base.specs.declared.limits.TheConstants.{MOST_TRACE_COMMANDS};
ghost use Rattle.fdp_base.specs.Config.{IsValidConfig};
ghost use Rattle.fdp_base.specs.Geometry.{IsWithin};
ghost use Rattle.fdp_make.specs.Load.{
  CanBeServed,
  address,
  command_at,
  directed_to,
  following,
  make_config,
  make_trace,
  make_traces,
};

use fdp_base::{
    Class, Classes, Command, Directive, DriveConfig, HandleList, NamespaceConfig, Payload, Read,
    Sequence, Write,
};
use std::alloc::{AllocError, Global};

/// The drive that serves the generated load.
pub fn config(alloc: Global) -> Result<DriveConfig, AllocError>
    ensures value { IfOk result (λ c. c ≡ make_config) }
    ensures valid { IfOk result IsValidConfig }
{
    Ok(DriveConfig {
        block: 4096,
        unit_pages: 64,
        groups: 2,
        units: 128,
        area_units: 1,
        queues: 4,
        blocks_per_command: 64,
        fdp: Sequence::from_vec(vec![in alloc; classes(alloc)?]?),
        enabled: true,
        index: 0,
        namespaces: Sequence::from_vec(vec![in alloc; namespace(alloc)?]?),
        queue_depth: 64,
        collectors: 2,
        turns: 4096,
    })
}

fn classes(alloc: Global) -> Result<Classes, AllocError>
    ensures { IfOk result (λ classes. classes ≡ Class.Initial ∷ Class.Initial ∷ Class.Persistent ∷ Class.Persistent ∷ []) }
{
    Ok(Classes::from_vec(vec![in alloc;
        Class::Initial,
        Class::Initial,
        Class::Persistent,
        Class::Persistent,
    ]?))
}

fn namespace(alloc: Global) -> Result<NamespaceConfig, AllocError>
    ensures { IfOk result (λ n. n ≡ record { blocks = 12288; handles = Some (0 ∷ 1 ∷ 2 ∷ 3 ∷ []) }) }
{
    Ok(NamespaceConfig {
        blocks: 12288,
        handles: Some(HandleList::from_vec(vec![in alloc; 0, 1, 2, 3]?)),
    })
}

/// The four traces, of so many commands each.
pub fn traces(alloc: Global, number: u16) -> Result<Vec<Vec<Command>>, AllocError>
    requires { number ≤ MOST_TRACE_COMMANDS }
    ensures value { IfOk result (λ traces. map (λ trace. trace.items) traces.items ≡ make_traces number) }
    ensures servable { IfOk result (λ traces. All (λ trace. CanBeServed trace.items) traces.items) }
{
    let first = trace_of(alloc, number, 1)?;
    let second = trace_of(alloc, number, 2)?;
    let third = trace_of(alloc, number, 3)?;
    let fourth = trace_of(alloc, number, 4)?;
    Ok(vec![in alloc; first, second, third, fourth]?)
}

fn trace_of(alloc: Global, number: u16, trace: u8) -> Result<Vec<Command>, AllocError>
    requires number { number ≤ MOST_TRACE_COMMANDS }
    requires trace { IsWithin 1 4 trace }
    ensures value { IfOk result (λ commands. commands.items ≡ make_trace number trace) }
    ensures servable { IfOk result (λ commands. CanBeServed commands.items) }
{
    let mut commands = Vec::new(alloc);
    let mut x = u64::from(trace);
    for k in 0..number {
        x = following(x);
        commands.push(command_at(trace, k, address(trace, x)))?;
    }
    Ok(commands)
}

fn following(x: u64) -> u64
    ensures { result ≡ following x }
{
    x.wrapping_mul(6_364_136_223_846_793_005)
        .wrapping_add(1_442_695_040_888_963_407)
}

/// The address that a number of a trace's row gives.
fn address(trace: u8, x: u64) -> u64
    requires { IsWithin 1 4 trace }
    ensures { result ≡ address trace x }
{
    3072 * u64::from(trace - 1) + 8 * ((x >> 32) % 384)
}

/// Command `k` of a trace, at this address.
fn command_at(trace: u8, k: u16, lba: u64) -> Command
    requires trace { IsWithin 1 4 trace }
    requires number { k < MOST_TRACE_COMMANDS }
    ensures { result ≡ command_at trace k lba }
{
    if k % 4 == 3 {
        Command::Read(Read {
            nsid: 1,
            slba: lba,
            count: 4,
        })
    } else {
        Command::Write(Write {
            nsid: 1,
            slba: lba,
            count: 8,
            dtype: Directive::DataPlacement.code(),
            dspec: directed_to(trace),
            payload: Payload::Pattern((u32::from(trace) << 24) + u32::from(k)),
        })
    }
}

/// The placement identifier of a trace's writes: its most significant bit names the group.
fn directed_to(trace: u8) -> u16
    requires { IsWithin 1 4 trace }
    ensures { result ≡ directed_to trace }
{
    let index = u16::from(trace - 1);
    (index % 2) * 32_768 + index
}
