//! Looking into a document.
ghost use Rattle.std.specs.Prelude.{◌≡◌, map, option_map};
ghost use Rattle.toml.specs.Data.{get_member};
ghost use Rattle.toml.specs.View.{view, table_view};
ghost use Rattle.fdp_config.specs.Document.{value_at, number_of, truth_of, elements_of, natural};
ghost use Rattle.fdp_config.specs.Document.{amount_at};

use crate::key::Key;
use toml::{Table, Value};

/// What stands at a word of a table.
pub fn member_at<'a>(table: &'a Table, word: &str) -> Option<&'a Value>
    ensures { option_map (λ v. view v.now) result ≡ get_member word.now (table_view table.now) }
{
    table.get(word)
}

/// What stands at a key.
pub fn value_at(table: &Table, key: Key) -> Option<&Value>
    ensures { option_map (λ v. view v.now) result ≡ value_at (table_view table.now) key }
{
    member_at(table, key.word())
}

/// A number; 0 of another value.
pub fn number_of(value: Option<&Value>) -> i64
    ensures { result ≡ number_of (option_map (λ v. view v.now) value.entry) }
{
    match value {
        Some(Value::Integer(number)) => *number,
        _ => 0,
    }
}

/// A truth value; false of another value.
pub fn truth_of(value: Option<&Value>) -> bool
    ensures { result ≡ truth_of (option_map (λ v. view v.now) value.entry) }
{
    match value {
        Some(Value::Boolean(truth)) => *truth,
        _ => false,
    }
}

/// The elements of an array; none of another value.
pub fn elements_of<'a>(value: Option<&'a Value>) -> &'a [Value]
    ensures { map view result.now ≡ elements_of (option_map (λ v. view v.now) value.entry) }
{
    if let Some(value) = value
        && let Some(elements) = value.as_array()
    {
        elements.as_slice()
    } else {
        &[]
    }
}

/// The number, unless it is below 0.
pub fn natural(number: i64) -> Option<u64>
    ensures { result ≡ natural number }
{
    if number < 0 {
        None
    } else {
        Some(number as u64)
    }
}

/// A number; 0 of another value and of a number below 0.
pub fn amount_at(table: &Table, key: Key) -> u64
    ensures { result ≡ amount_at (table_view table.now) key }
{
    natural(number_of(value_at(table, key))).unwrap_or(0)
}
