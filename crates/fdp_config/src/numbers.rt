//! The numbers of a configuration, each in its range.
ghost use Rattle.std.specs.Prelude.{◌≡◌, ◌≤◌, IfOk, None};
ghost use Rattle.toml.specs.View.{table_view};
ghost use Rattle.fdp_config.specs.Reader.Checks.{IsNumber, high_of, own_fault, read_fault, checked};
ghost use Rattle.fdp_config.specs.Ranges.{further_fault, above, range_fault};
ghost use Rattle.fdp_config.specs.Document.{amount_at};
ghost use Rattle.fdp_config.specs.Reader.Config.{config_in};

use crate::document::{amount_at, natural, number_of, value_at};
use crate::fault::ConfigFault;
use crate::key::{Key, Shape};
use crate::limits::{MOST_GROUPS, MOST_UNIT_PAGES};
use fdp_base::MOST_PAGES;
use toml::Table;

/// The number at a key, in the range of its row.
fn number_in_row(table: &Table, key: Key) -> Result<u32, ConfigFault>
    requires { IsNumber key }
    ensures value { result ≡ checked key (amount_at (table_view table.now) key) (own_fault (table_view table.now) key) }
    ensures bound { IfOk result (λ n. n ≤ high_of key) }
{
    let found = natural(number_of(value_at(table, key)));
    match key.shape() {
        Shape::Number { low, high } => match found {
            Some(number) if number >= u64::from(low) && number <= u64::from(high) => {
                Ok(number as u32)
            }
            Some(number) => Err(ConfigFault::Range {
                key,
                value: u128::from(number),
            }),
            None => Err(ConfigFault::Range { key, value: 0 }),
        },
        // It is asked of keys with a number alone.
        Shape::Truth | Shape::Configurations | Shape::Namespaces => unreachable!(),
    }
}

/// The number at a key that has no more to keep than the range of its row.
pub fn number(table: &Table, key: Key) -> Result<u32, ConfigFault>
    requires number { IsNumber key }
    requires alone { further_fault (table_view table.now) (config_in (table_view table.now)) key ≡ None }
    ensures value { result ≡ checked key (amount_at (table_view table.now) key) (read_fault (table_view table.now) key) }
    ensures bound { IfOk result (λ n. n ≤ high_of key) }
{
    number_in_row(table, key)
}

/// The bytes of a block, 512 or 4,096.
pub fn block(table: &Table) -> Result<u32, ConfigFault>
    ensures { result ≡ checked Key.Block (amount_at (table_view table.now) Key.Block) (read_fault (table_view table.now) Key.Block) }
{
    let block = number_in_row(table, Key::Block)?;
    if block == 512 || block == 4096 {
        Ok(block)
    } else {
        Err(ConfigFault::Range {
            key: Key::Block,
            value: u128::from(block),
        })
    }
}

/// The data units of a group, so many that the flash has no more pages than it may have.
pub fn units(table: &Table, unit_pages: u32, groups: u32) -> Result<u32, ConfigFault>
    requires unit_pages { unit_pages ≡ amount_at (table_view table.now) Key.UnitPages }
    requires groups { groups ≡ amount_at (table_view table.now) Key.Groups }
    requires few_pages { unit_pages ≤ MOST_UNIT_PAGES }
    requires few_groups { groups ≤ MOST_GROUPS }
    ensures { result ≡ checked Key.Units (amount_at (table_view table.now) Key.Units) (read_fault (table_view table.now) Key.Units) }
{
    let units = number_in_row(table, Key::Units)?;
    let area_units = amount_at(table, Key::AreaUnits);
    let all_units = u128::from(groups) * u128::from(units) + 2 * u128::from(area_units);
    let pages = u128::from(unit_pages) * all_units;
    if pages <= MOST_PAGES as u128 {
        Ok(units)
    } else {
        Err(ConfigFault::Range {
            key: Key::Units,
            value: pages,
        })
    }
}

/// A number that is at most `limit` too.
pub fn limited(table: &Table, key: Key, limit: u32) -> Result<u32, ConfigFault>
    requires number { IsNumber key }
    requires limit { further_fault (table_view table.now) (config_in (table_view table.now)) key ≡ above limit (amount_at (table_view table.now) key) }
    ensures value { result ≡ checked key (amount_at (table_view table.now) key) (read_fault (table_view table.now) key) }
    ensures bound { IfOk result (λ n. n ≤ high_of key) }
    ensures limit { IfOk result (λ n. n ≤ limit) }
{
    let number = number_in_row(table, key)?;
    if number <= limit {
        Ok(number)
    } else {
        Err(ConfigFault::Range {
            key,
            value: u128::from(number),
        })
    }
}
