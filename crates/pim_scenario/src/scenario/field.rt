//! The values at the keys of a table.
ghost use Rattle.std.specs.Prelude.{◌≡◌, is_ok, map, option_map};
ghost use Rattle.std.specs.Result.{result_ok};
ghost use Rattle.toml.specs.Data.{as_bool, as_str, as_table, get_member};
ghost use Rattle.toml.specs.View.{view, table_view};
ghost use Rattle.pim_scenario.specs.Fields.{flag_or, number_in, number_at, number_between, number_or, moment_of, moment_at, list_of, list_at};
ghost use Rattle.pim_scenario.specs.Fields.{list_or_empty, text_at, table_at, optional_table, optional_text, has_only, is_known};

use super::Wrong;
use toml::{Table, Value};

/// Refuses a table with a key that is not among `known`.
pub(super) fn only(table: &Table, known: &[&str]) -> Result<(), Wrong>
    ensures { is_ok result ≡ has_only (map (λ k. k.now) known.now) (table_view table.now) }
{
    for (key, _value) in table {
        if !is_among(key.as_str(), known) {
            return Err(Wrong);
        }
    }
    Ok(())
}

fn is_among(key: &str, known: &[&str]) -> bool
    ensures { result ≡ is_known (map (λ k. k.now) known.now) key.now }
{
    for name in known {
        if *name == key {
            return true;
        }
    }
    false
}

/// The table that a value is.
pub(super) fn table_of(value: &Value) -> Result<&Table, Wrong>
    ensures { option_map (λ t. table_view t.now) (result_ok result) ≡ as_table (view value.now) }
{
    value.as_table().ok_or(Wrong)
}

/// The text that a value is.
pub(super) fn text_of(value: &Value) -> Result<&str, Wrong>
    ensures { option_map (λ t. t.now) (result_ok result) ≡ as_str (view value.now) }
{
    value.as_str().ok_or(Wrong)
}

/// The number that a value is, from 0 and below 2^32.
fn number_in(value: &Value) -> Result<u32, Wrong>
    ensures { result_ok result ≡ number_in (view value.now) }
{
    let number = value.as_integer().ok_or(Wrong)?;
    u32::try_from(number).map_err(|_| Wrong)
}

/// The timestamp that a value is, in ms.
fn moment_of(value: &Value) -> Result<u64, Wrong>
    ensures { result_ok result ≡ moment_of (view value.now) }
{
    let number = value.as_integer().ok_or(Wrong)?;
    u64::try_from(number).map_err(|_| Wrong)
}

/// The values of the list that a value is.
#[tactic(auto, using(crate::proofs::FieldLemmas::listed))]
pub(super) fn list_of(value: &Value) -> Result<&[Value], Wrong>
    ensures { option_map (λ vs. map view vs.now) (result_ok result) ≡ list_of (view value.now) }
{
    let values = value.as_array().ok_or(Wrong)?;
    Ok(values.as_slice())
}

/// The value at a key.
fn value_at<'a>(table: &'a Table, key: &str) -> Option<&'a Value>
    ensures { option_map (λ v. view v.now) result ≡ get_member key.now (table_view table.now) }
{
    table.get(key)
}

/// The text at a key.
pub(super) fn text<'a>(table: &'a Table, key: &str) -> Result<&'a str, Wrong>
    ensures { option_map (λ t. t.now) (result_ok result) ≡ text_at key.now (table_view table.now) }
{
    text_of(value_at(table, key).ok_or(Wrong)?)
}

/// The text at a key, if the key is there.
pub(super) fn optional_text<'a>(table: &'a Table, key: &str) -> Result<Option<&'a str>, Wrong>
    ensures { option_map (option_map (λ t. t.now)) (result_ok result)
        ≡ optional_text key.now (table_view table.now) }
{
    match value_at(table, key) {
        Some(value) => Ok(Some(text_of(value)?)),
        None => Ok(None),
    }
}

/// The table at a key.
pub(super) fn table<'a>(table: &'a Table, key: &str) -> Result<&'a Table, Wrong>
    ensures { option_map (λ t. table_view t.now) (result_ok result) ≡ table_at key.now (table_view table.now) }
{
    table_of(value_at(table, key).ok_or(Wrong)?)
}

/// The table at a key, if the key is there.
pub(super) fn optional_table<'a>(table: &'a Table, key: &str) -> Result<Option<&'a Table>, Wrong>
    ensures { option_map (option_map (λ t. table_view t.now)) (result_ok result)
        ≡ optional_table key.now (table_view table.now) }
{
    match value_at(table, key) {
        Some(value) => Ok(Some(table_of(value)?)),
        None => Ok(None),
    }
}

/// The number at a key.
pub(super) fn number(table: &Table, key: &str) -> Result<u32, Wrong>
    ensures { result_ok result ≡ number_at key.now (table_view table.now) }
{
    number_in(value_at(table, key).ok_or(Wrong)?)
}

/// The number at a key, or `default` where the key is not there.
pub(super) fn number_or(table: &Table, key: &str, default: u32) -> Result<u32, Wrong>
    ensures { result_ok result ≡ number_or default key.now (table_view table.now) }
{
    match value_at(table, key) {
        Some(value) => number_in(value),
        None => Ok(default),
    }
}

/// The number at a key, or `default` where the key is not there, if it lies between two others.
pub(super) fn number_between(
    table: &Table,
    key: &str,
    least: u8,
    most: u8,
    default: u8,
) -> Result<u8, Wrong>
    ensures { result_ok result ≡ number_between least most default key.now (table_view table.now) }
{
    let number = number_or(table, key, u32::from(default))?;
    if number < u32::from(least) || number > u32::from(most) {
        return Err(Wrong);
    }
    u8::try_from(number).map_err(|_| Wrong)
}

/// The flag that a value is.
fn flag_in(value: &Value) -> Result<bool, Wrong>
    ensures { result_ok result ≡ as_bool (view value.now) }
{
    value.as_bool().ok_or(Wrong)
}

/// The flag at a key, or `default` where the key is not there.
pub(super) fn flag_or(table: &Table, key: &str, default: bool) -> Result<bool, Wrong>
    ensures { result_ok result ≡ flag_or default key.now (table_view table.now) }
{
    match value_at(table, key) {
        Some(value) => flag_in(value),
        None => Ok(default),
    }
}

/// The timestamp at a key, in ms.
pub(super) fn moment(table: &Table, key: &str) -> Result<u64, Wrong>
    ensures { result_ok result ≡ moment_at key.now (table_view table.now) }
{
    moment_of(value_at(table, key).ok_or(Wrong)?)
}

/// The values of the list at a key.
pub(super) fn list<'a>(table: &'a Table, key: &str) -> Result<&'a [Value], Wrong>
    ensures { option_map (λ vs. map view vs.now) (result_ok result)
        ≡ list_at key.now (table_view table.now) }
{
    list_of(value_at(table, key).ok_or(Wrong)?)
}

/// The values of the list at a key, none where the key is not there.
pub(super) fn list_or_empty<'a>(table: &'a Table, key: &str) -> Result<&'a [Value], Wrong>
    ensures { option_map (λ vs. map view vs.now) (result_ok result)
        ≡ list_or_empty key.now (table_view table.now) }
{
    match value_at(table, key) {
        Some(value) => list_of(value),
        None => Ok(&[]),
    }
}
