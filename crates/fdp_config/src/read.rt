ghost use Rattle.std.specs.Prelude.{◌≡◌, ◌≢◌, ◌<◌, ◌≤◌, [], All, None, Some, IfOk, IfErr, length, slice_index_or, if◌then◌else◌};
ghost use Rattle.fdp_base.specs.Config.{IsValidConfig};
ghost use Rattle.fdp_base.specs.Geometry.{IsWithin};
ghost use Rattle.fdp_base.specs.declared.config.DriveConfig.{DriveConfig};
ghost use Rattle.toml.specs.Data.{Members};
ghost use Rattle.toml.specs.View.{table_view};
ghost use Rattle.fdp_config.specs.Document.{IsDocument};
ghost use Rattle.fdp_config.specs.Faults.{Gives, IsFaultOf, IsInByteOrder};
ghost use Rattle.fdp_config.specs.Reader.First.{fault_of, first_range_fault};
ghost use Rattle.fdp_config.specs.Reader.Config.{config_in};
ghost use Rattle.fdp_config.specs.Spelling.{IsConfigText};
ghost use Rattle.fdp_config.specs.Table.{keys};
ghost use Rattle.fdp_config.specs.declared.fault.ConfigFault.{ConfigFault};

use crate::configurations::configurations;
use crate::document::{truth_of, value_at};
use crate::fault::{ConfigFault, Word};
use crate::key::Key;
use crate::kinds::{first_missing, first_of_other_kind, first_unknown};
use crate::namespaces::namespaces;
use crate::numbers::{block, limited, number, units};
use crate::room::room_fault;
use fdp_base::{Classes, DriveConfig, MOST_HANDLES};
use std::alloc::Global;
use toml::Table;

/// The configuration that a document describes.
fn read_table(alloc: Global, table: &Table) -> Result<DriveConfig, ConfigFault>
    ensures config { IfOk result (λ c. (c ≡ config_in (table_view table.now)) × (fault_of (table_view table.now) ≡ None)) }
    ensures fault { IfErr result (λ fault. fault ≢ ConfigFault.NoMemory → fault_of (table_view table.now) ≡ Some fault) }
    ensures first { IfErr result (IsInByteOrder (table_view table.now)) }
{
    if let Some(word) = first_unknown(table) {
        return Err(ConfigFault::Unknown {
            key: Word::from_text(alloc, word)?,
        });
    }
    if let Some(key) = first_missing(table) {
        return Err(ConfigFault::Missing { key });
    }
    if let Some(key) = first_of_other_kind(table) {
        return Err(ConfigFault::Kind { key });
    }
    let config = ranged_config(alloc, table)?;
    match room_fault(&config) {
        Some(fault) => Err(fault),
        None => Ok(config),
    }
}

/// The configuration that a document reads as, where each value is in its range.
fn ranged_config(alloc: Global, table: &Table) -> Result<DriveConfig, ConfigFault>
    ensures config { IfOk result (λ c. (c ≡ config_in (table_view table.now)) × (first_range_fault (table_view table.now) keys ≡ None)) }
    ensures fault { IfErr result (λ fault. fault ≢ ConfigFault.NoMemory → first_range_fault (table_view table.now) keys ≡ Some fault) }
{
    let block = block(table)?;
    let unit_pages = number(table, Key::UnitPages)?;
    let groups = number(table, Key::Groups)?;
    let units = units(table, unit_pages, groups)?;
    let area_units = number(table, Key::AreaUnits)?;
    let queues = number(table, Key::Queues)?;
    let blocks_per_command = limited(table, Key::BlocksPerCommand, unit_pages)?;
    let fdp = configurations(alloc, table)?;
    let enabled = truth_of(value_at(table, Key::Enabled));
    let last = fdp.as_slice().len().saturating_sub(1);
    let index = limited(table, Key::Index, last as u32)?;
    let listable = listable(fdp.as_slice(), enabled, index as usize);
    let namespaces = namespaces(alloc, table, listable)?;
    let queue_depth = number(table, Key::QueueDepth)?;
    let collectors = number(table, Key::Collectors)?;
    let turns = number(table, Key::Turns)?;
    Ok(DriveConfig {
        block,
        unit_pages,
        groups: groups as u16,
        units,
        area_units,
        queues: queues as u8,
        blocks_per_command: blocks_per_command as u16,
        fdp,
        enabled,
        index: index as u8,
        namespaces,
        queue_depth: queue_depth as u16,
        collectors: collectors as u8,
        turns,
    })
}

/// How many handles a namespace can list.
fn listable(fdp: &[Classes], enabled: bool, index: usize) -> usize
    requires index { index < length fdp.now }
    requires few { All (λ classes. IsWithin 1 MOST_HANDLES (length classes)) fdp.now }
    ensures value { result ≡ (if enabled then length (slice_index_or fdp.now index []) else 0) }
    ensures bound { result ≤ MOST_HANDLES }
{
    if enabled {
        fdp[index].as_slice().len()
    } else {
        0
    }
}

/// The configuration that a text describes, or the first of its faults. `Err(NoMemory)` leaves nothing behind.
pub fn read_config(alloc: Global, text: &[u8]) -> Result<DriveConfig, ConfigFault>
    ensures config { IfOk result (IsConfigText text.now) }
    ensures valid { IfOk result IsValidConfig }
    ensures fault { IfErr result (λ fault. fault ≢ ConfigFault.NoMemory → IsFaultOf text.now fault) }

    // The unknown key that is told is the first in byte order.
    ensures first { IfErr result (λ fault. (doc : Members) → IsDocument text.now doc → IsInByteOrder doc fault) }

    // A text of a configuration is read as it, and a fault is told, unless memory runs out.
    ensures read { (c : DriveConfig) → IsConfigText text.now c → Gives result (Ok c) }
    ensures told { (fault : ConfigFault) → IsFaultOf text.now fault → Gives result (Err fault) }
{
    match toml::table_from_slice(alloc, text) {
        Ok(table) => read_table(alloc, &table),
        Err(error) if error.is_memory() => Err(ConfigFault::NoMemory),
        Err(_) => Err(ConfigFault::NotToml),
    }
}
