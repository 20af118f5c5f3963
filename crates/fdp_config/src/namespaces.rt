//! The namespaces that a drive is made with.
ghost use Rattle.std.specs.Prelude.{◌≡◌, ◌≤◌, map, option_map, Some, None, if◌then◌else◌};
ghost use Rattle.toml.specs.View.{view, table_view};
ghost use Rattle.fdp_config.specs.Document.{value_at, elements_of, number_of};
ghost use Rattle.fdp_config.specs.Faults.{Gives};
ghost use Rattle.fdp_config.specs.Ranges.{is_handle, handles_fault, blocks_fault, namespace_fault, namespaces_fault};
ghost use Rattle.fdp_config.specs.Reader.Checks.{checked};
ghost use Rattle.fdp_config.specs.Document.{amount_of};
ghost use Rattle.fdp_config.specs.Reader.Config.{given, namespace_in};

use crate::document::{elements_of, natural, number_of, value_at};
use crate::fault::ConfigFault;
use crate::key::Key;
use fdp_base::{HandleList, MOST_HANDLES, MOST_NAMESPACES, NamespaceConfig, Sequence, has_repeat};
use std::alloc::Global;
use toml::{Table, Value};

/// The namespaces that stand at their key, at most sixteen. They can list `listable` handles.
pub fn namespaces(
    alloc: Global,
    table: &Table,
    listable: usize,
) -> Result<Sequence<NamespaceConfig>, ConfigFault>
    requires { listable ≤ MOST_HANDLES }
    ensures { let entries = elements_of (value_at (table_view table.now) Key.Namespaces)
        in Gives result (checked Key.Namespaces (map namespace_in entries) (namespaces_fault listable entries)) }
{
    let entries = elements_of(value_at(table, Key::Namespaces));
    if entries.len() > MOST_NAMESPACES as usize {
        return Err(out_of_range(0));
    }
    let mut namespaces = Vec::with_capacity(alloc, entries.len())?;
    for (place, entry) in entries.iter().enumerate() {
        namespaces.push(namespace(alloc, listable, place, entry)?)?;
    }
    Ok(Sequence::from_vec(namespaces))
}

/// The namespace that an entry at a place describes.
fn namespace(
    alloc: Global,
    listable: usize,
    place: usize,
    entry: &Value,
) -> Result<NamespaceConfig, ConfigFault>
    requires { listable ≤ MOST_HANDLES }
    ensures { Gives result (checked Key.Namespaces (namespace_in (view entry.now)) (namespace_fault listable place (view entry.now))) }
{
    let blocks = blocks(place, entry.get("blocks"))?;
    let handles = handles(alloc, listable, place, elements_of(entry.get("handles")))?;
    Ok(NamespaceConfig { blocks, handles })
}

/// The blocks of the namespace at a place, at least one.
fn blocks(place: usize, value: Option<&Value>) -> Result<u64, ConfigFault>
    ensures { let found = option_map (λ v. view v.now) value.entry
        in result ≡ checked Key.Namespaces (amount_of found) (blocks_fault place (number_of found)) }
{
    match natural(number_of(value)) {
        Some(0) => Err(out_of_range(0)),
        Some(blocks) => Ok(blocks),
        None => Err(out_of_range(place)),
    }
}

/// The handles that the namespace at a place lists: at most sixteen, each below `listable`, none twice. An empty list
/// counts as none.
fn handles(
    alloc: Global,
    listable: usize,
    place: usize,
    values: &[Value],
) -> Result<Option<HandleList>, ConfigFault>
    requires { listable ≤ MOST_HANDLES }
    ensures { let numbers = map view values.now
        in Gives result (checked Key.Namespaces (given (map (λ d. amount_of (Some d)) numbers)) (handles_fault listable place numbers)) }
{
    if values.len() > MOST_HANDLES {
        return Err(out_of_range(place));
    }
    let mut list = Vec::with_capacity(alloc, values.len())?;
    for value in values {
        match handle(listable, value) {
            Some(ruh) => list.push(ruh)?,
            None => return Err(out_of_range(place)),
        }
    }
    if has_repeat(list.as_slice()) {
        return Err(out_of_range(place));
    }
    if list.is_empty() {
        return Ok(None);
    }
    Ok(Some(Sequence::from_vec(list)))
}

/// The number of a handle below `listable`.
fn handle(listable: usize, value: &Value) -> Option<u16>
    requires { listable ≤ MOST_HANDLES }
    ensures { result ≡ (if is_handle listable (view value.now) then Some (amount_of (Some (view value.now))) else None) }
{
    match natural(number_of(Some(value))) {
        Some(ruh) if ruh < listable as u64 => Some(ruh as u16),
        _ => None,
    }
}

fn out_of_range(value: usize) -> ConfigFault
    ensures { result ≡ ConfigFault.Range Key.Namespaces value }
{
    ConfigFault::Range {
        key: Key::Namespaces,
        value: value as u128,
    }
}
