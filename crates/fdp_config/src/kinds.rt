//! What a document lacks, and where a value of another kind stands.
ghost use Rattle.std.specs.Prelude.{◌≡◌, true, false, option_map, option_copied, string_bytes, IfSome};
ghost use Rattle.std.specs.Option.{option_map_or};
ghost use Rattle.toml.specs.Data.{get_member};
ghost use Rattle.std.specs.BTreeMap.{keys as keys_of, IsOrdered};
ghost use Rattle.std.specs.List.{find, list_all};
ghost use Rattle.toml.specs.View.{view, table_view};
ghost use Rattle.fdp_config.specs.Document.{words_in};
ghost use Rattle.std.specs.String.{string_cmp};
ghost use Rattle.fdp_config.specs.Faults.{IsFirstUnknown};
ghost use Rattle.fdp_config.specs.Kinds.{blocks_word, handles_word, is_key, is_unknown, is_missing, is_of_other_kind, is_optional, is_array_of, is_text, is_number, is_namespace_key, describes_namespace, is_namespace, has_kind};
ghost use Rattle.fdp_config.specs.Table.{keys};

use crate::document::{member_at, value_at};
use crate::key::{Key, Shape};
use toml::{Table, Value};

/// The first word, in byte order, that is no key.
pub fn first_unknown(table: &Table) -> Option<&str>
    ensures value { option_map (λ word. word.now) result ≡ find is_unknown (words_in (table_view table.now)) }
    ensures first { IfSome result (λ word. IsFirstUnknown (table_view table.now) word.now) }
{
    match first_unknown_key(table) {
        Some(word) => Some(word.as_str()),
        None => None,
    }
}

fn first_unknown_key(table: &Table) -> Option<&String>
    ensures value { option_copied result ≡ find (λ word. is_unknown (string_bytes word)) (keys_of table.now) }
    ensures ordered { IsOrdered string_cmp table.now }
{
    table.keys().find(|word| !is_key(word.as_str()))
}

fn is_key(word: &str) -> bool
    ensures { result ≡ is_key word.now }
{
    Key::ALL.iter().any(|key| word == key.word())
}

/// The first key that has to be there, and is not.
pub fn first_missing(table: &Table) -> Option<Key>
    ensures { result ≡ find (is_missing (table_view table.now)) keys }
{
    Key::ALL.iter().copied().find(|key| is_missing(table, *key))
}

fn is_missing(table: &Table, key: Key) -> bool
    ensures { result ≡ is_missing (table_view table.now) key }
{
    value_at(table, key).is_none() && !is_optional(key.shape())
}

fn is_optional(shape: Shape) -> bool
    ensures { result ≡ is_optional shape }
{
    match shape {
        Shape::Number { .. } | Shape::Truth | Shape::Configurations => false,
        Shape::Namespaces => true,
    }
}

/// The first key at which, or inside whose value, something of another kind stands.
pub fn first_of_other_kind(table: &Table) -> Option<Key>
    ensures { result ≡ find (is_of_other_kind (table_view table.now)) keys }
{
    Key::ALL
        .iter()
        .copied()
        .find(|key| is_of_other_kind(table, *key))
}

fn is_of_other_kind(table: &Table, key: Key) -> bool
    ensures { result ≡ is_of_other_kind (table_view table.now) key }
{
    match value_at(table, key) {
        Some(value) => !has_kind(key.shape(), value),
        None => false,
    }
}

fn has_kind(shape: Shape, value: &Value) -> bool
    ensures { result ≡ has_kind shape (view value.now) }
{
    match shape {
        Shape::Number { .. } => value.is_integer(),
        Shape::Truth => value.is_bool(),
        Shape::Configurations => are_configurations(value),
        Shape::Namespaces => are_namespaces(value),
    }
}

fn are_configurations(value: &Value) -> bool
    ensures { result ≡ is_array_of (is_array_of is_text) (view value.now) }
{
    match value.as_array() {
        Some(arrays) => each_is_texts(arrays.as_slice()),
        None => false,
    }
}

fn are_texts(value: &Value) -> bool
    ensures { result ≡ is_array_of is_text (view value.now) }
{
    match value.as_array() {
        Some(words) => each_is_text(words.as_slice()),
        None => false,
    }
}

fn are_namespaces(value: &Value) -> bool
    ensures { result ≡ is_array_of is_namespace (view value.now) }
{
    match value.as_array() {
        Some(entries) => each_is_namespace(entries.as_slice()),
        None => false,
    }
}

fn is_namespace(value: &Value) -> bool
    ensures { result ≡ is_namespace (view value.now) }
{
    match value.as_table() {
        Some(table) => describes_namespace(table),
        None => false,
    }
}

/// Whether a table has a number `blocks`, perhaps an array of numbers `handles`, and nothing else.
fn describes_namespace(table: &Table) -> bool
    ensures { result ≡ describes_namespace (table_view table.now) }
{
    each_is_namespace_key(table) && has_blocks(table) && has_no_other_handles(table)
}

fn each_is_namespace_key(table: &Table) -> bool
    ensures { result ≡ list_all (λ word. is_namespace_key (string_bytes word)) (keys_of table.now) }
{
    table.keys().all(|word| is_namespace_key(word.as_str()))
}

fn is_namespace_key(word: &str) -> bool
    ensures { result ≡ is_namespace_key word.now }
{
    word == "blocks" || word == "handles"
}

fn has_blocks(table: &Table) -> bool
    ensures { result ≡ option_map_or is_number (get_member blocks_word (table_view table.now)) false }
{
    match member_at(table, "blocks") {
        Some(value) => value.is_integer(),
        None => false,
    }
}

fn has_no_other_handles(table: &Table) -> bool
    ensures { result ≡ option_map_or (is_array_of is_number) (get_member handles_word (table_view table.now)) true }
{
    match member_at(table, "handles") {
        Some(value) => are_numbers(value),
        None => true,
    }
}

fn are_numbers(value: &Value) -> bool
    ensures { result ≡ is_array_of is_number (view value.now) }
{
    match value.as_array() {
        Some(numbers) => each_is_number(numbers.as_slice()),
        None => false,
    }
}

fn each_is_number(values: &[Value]) -> bool
    ensures { result ≡ list_all (λ v. is_number (view v)) values.now }
{
    values.iter().all(|value| value.is_integer())
}

fn each_is_text(values: &[Value]) -> bool
    ensures { result ≡ list_all (λ v. is_text (view v)) values.now }
{
    values.iter().all(|value| value.is_str())
}

fn each_is_texts(values: &[Value]) -> bool
    ensures { result ≡ list_all (λ v. is_array_of is_text (view v)) values.now }
{
    values.iter().all(|value| are_texts(value))
}

fn each_is_namespace(values: &[Value]) -> bool
    ensures { result ≡ list_all (λ v. is_namespace (view v)) values.now }
{
    values.iter().all(|value| is_namespace(value))
}
