//! The FDP configurations.
ghost use Rattle.std.specs.Prelude.{◌≡◌, All, IfOk, length, map};
ghost use Rattle.fdp_base.specs.Geometry.{IsWithin};
ghost use Rattle.toml.specs.View.{view, table_view};
ghost use Rattle.fdp_config.specs.Document.{value_at, elements, elements_of};
ghost use Rattle.fdp_config.specs.Faults.{Gives};
ghost use Rattle.fdp_config.specs.Ranges.{classes_fault, configurations_fault};
ghost use Rattle.fdp_config.specs.Reader.Checks.{checked};
ghost use Rattle.fdp_config.specs.Ranges.{class_of};
ghost use Rattle.fdp_config.specs.Reader.Config.{classes_in};

use crate::document::{elements_of, value_at};
use crate::fault::ConfigFault;
use crate::key::Key;
use crate::limits::MOST_CONFIGURATIONS;
use fdp_base::{Class, Classes, MOST_HANDLES, Sequence};
use std::alloc::Global;
use toml::{Table, Value};

/// The FDP configurations that stand at their key, one to four.
pub fn configurations(alloc: Global, table: &Table) -> Result<Sequence<Classes>, ConfigFault>
    ensures value { let arrays = elements_of (value_at (table_view table.now) Key.Fdp)
        in Gives result (checked Key.Fdp (map classes_in arrays) (configurations_fault arrays)) }
    ensures few { IfOk result (λ fdp. IsWithin 1 MOST_CONFIGURATIONS (length fdp)) }
    ensures each { IfOk result (All (λ classes. IsWithin 1 MOST_HANDLES (length classes))) }
{
    let arrays = elements_of(value_at(table, Key::Fdp));
    if arrays.is_empty() || arrays.len() > MOST_CONFIGURATIONS {
        return Err(out_of_range(0));
    }
    let mut configurations = Vec::with_capacity(alloc, arrays.len())?;
    for (place, array) in arrays.iter().enumerate() {
        configurations.push(classes(alloc, place, array)?)?;
    }
    Ok(Sequence::from_vec(configurations))
}

/// The classes of one configuration, one to sixteen, which stands at a place.
fn classes(alloc: Global, place: usize, array: &Value) -> Result<Classes, ConfigFault>
    ensures { Gives result (checked Key.Fdp (classes_in (view array.now)) (classes_fault place (view array.now))) }
{
    let words = elements_of(Some(array));
    if words.is_empty() || words.len() > MOST_HANDLES {
        return Err(out_of_range(place));
    }
    let mut classes = Vec::with_capacity(alloc, words.len())?;
    for (place, word) in words.iter().enumerate() {
        match class_of(word) {
            Some(class) => classes.push(class)?,
            None => return Err(out_of_range(place)),
        }
    }
    Ok(Sequence::from_vec(classes))
}

fn class_of(word: &Value) -> Option<Class>
    ensures { result ≡ class_of (view word.now) }
{
    match word.as_str() {
        Some("initial") => Some(Class::Initial),
        Some("persistent") => Some(Class::Persistent),
        _ => None,
    }
}

fn out_of_range(place: usize) -> ConfigFault
    ensures { result ≡ ConfigFault.Range Key.Fdp place }
{
    ConfigFault::Range {
        key: Key::Fdp,
        value: place as u128,
    }
}
