//! What stands at a key of a table: a text, a number in its range, a flag, or the collectors.
ghost use Rattle.std.specs.Prelude.{◌≡◌, ◌≤◌, Some, IfOk, IfSome, option_and_then, option_map, string_bytes};
ghost use Rattle.toml.specs.Data.{as_integer, as_str, get_member};
ghost use Rattle.toml.specs.View.{view, table_view};
ghost use Rattle.ipmd_settings.specs.declared.key.Key.TheVariants as key;
ghost use Rattle.ipmd_settings.specs.Asked.{pair, pairs};
ghost use Rattle.ipmd_settings.specs.Names.{key_name};
ghost use Rattle.ipmd_settings.specs.Results.{GivesSet, value_at_key};
ghost use Rattle.ipmd_settings.specs.Values.{text_in, text_at, text_or_none, within, setting_number, integer_at, number_or_in, number_or, number_or_none_in, number_or_none, flag_or_false_in, flag_or_false, collectors_of, collectors_at, AscendByOctets};

use crate::fault::Fault;
use crate::key::Key;
use mediator_connections::Collector;
use std::alloc::Global;
use toml::{Table, Value};

/// A copy of the text at `key`.
///
/// # Errors
/// `Key` where it is missing or no text, or `OutOfMemory`.
pub(crate) fn text_at(alloc: Global, table: &Table, key: Key) -> Result<String, Fault>
    ensures { GivesSet string_bytes result (text_at key (table_view table.now)) }
{
    match text_in(table, key) {
        Some(text) => Ok(String::from_str(alloc, text)?),
        None => Err(Fault::Key(key)),
    }
}

/// The text at a key; `None` where it is missing or no text.
fn text_in<'a>(table: &'a Table, key: Key) -> Option<&'a str>
    ensures { option_map (λ text. text.now) result ≡ text_in key (table_view table.now) }
{
    value_at(table, key)?.as_str()
}

/// A copy of the text at `key`, or none where the key is absent.
///
/// # Errors
/// `Key` where a value stands there that is no text, or `OutOfMemory`.
pub(crate) fn text_or_none(alloc: Global, table: &Table, key: Key) -> Result<Option<String>, Fault>
    ensures { GivesSet (option_map string_bytes) result (text_or_none key (table_view table.now)) }
{
    match value_at(table, key) {
        Some(value) => text_of(alloc, value, key),
        None => Ok(None),
    }
}

/// A copy of the text that stands at a key.
///
/// # Errors
/// `Key` where the value is no text, or `OutOfMemory`.
fn text_of(alloc: Global, value: &Value, key: Key) -> Result<Option<String>, Fault>
    ensures { GivesSet (option_map string_bytes) result
        (value_at_key key (option_map Some (as_str (view value.now)))) }
{
    match value.as_str() {
        Some(text) => Ok(Some(String::from_str(alloc, text)?)),
        None => Err(Fault::Key(key)),
    }
}

/// The value at a key, if there is one.
fn value_at<'a>(table: &'a Table, key: Key) -> Option<&'a Value>
    ensures { option_map (λ value. view value.now) result
        ≡ get_member (key_name key) (table_view table.now) }
{
    table.get(key.name())
}

/// The number at `key`, which has to be from `least` to `most`.
///
/// # Errors
/// `Key` where it is missing, no number, or out of this range.
pub(crate) fn number_at(table: &Table, key: Key, least: u64, most: u64) -> Result<u64, Fault>
    ensures exact { result ≡ integer_at key least most (table_view table.now) }
    ensures least { IfOk result (λ number. least ≤ number) }
    ensures most { IfOk result (λ number. number ≤ most) }
{
    number_in(table, key, least, most).ok_or(Fault::Key(key))
}

/// The number at a key; `None` where it is missing, no number, or not from `least` to `most`.
fn number_in(table: &Table, key: Key, least: u64, most: u64) -> Option<u64>
    ensures exact { result ≡ setting_number key least most (table_view table.now) }
    ensures least { IfSome result (λ number. least ≤ number) }
    ensures most { IfSome result (λ number. number ≤ most) }
{
    number_of(value_at(table, key)?, least, most)
}

/// The number at `key`, which has to be from `least` to `most`, or `absent` where the key is absent.
///
/// # Errors
/// `Key` where a value stands there that is no number, or out of this range.
pub(crate) fn number_or(
    table: &Table,
    key: Key,
    absent: u64,
    least: u64,
    most: u64,
) -> Result<u64, Fault>
    requires usual { least ≤ absent }
    ensures exact { result ≡ number_or key absent least most (table_view table.now) }
    ensures least { IfOk result (λ number. least ≤ number) }
{
    number_or_in(table, key, absent, least, most).ok_or(Fault::Key(key))
}

/// The number at a key, or `absent` where the key is absent; `None` where a value stands there that is no number from `least` to
/// `most`.
fn number_or_in(table: &Table, key: Key, absent: u64, least: u64, most: u64) -> Option<u64>
    requires usual { least ≤ absent }
    ensures exact { result ≡ number_or_in key absent least most (table_view table.now) }
    ensures least { IfSome result (λ number. least ≤ number) }
{
    match value_at(table, key) {
        Some(value) => number_of(value, least, most),
        None => Some(absent),
    }
}

/// The number at `key`, which has to be from `least` to `most`, or none where the key is absent.
///
/// # Errors
/// `Key` where a value stands there that is no number, or out of this range.
pub(crate) fn number_or_none(
    table: &Table,
    key: Key,
    least: u64,
    most: u64,
) -> Result<Option<u64>, Fault>
    ensures { result ≡ number_or_none key least most (table_view table.now) }
{
    number_or_none_in(table, key, least, most).ok_or(Fault::Key(key))
}

/// The number at a key, or none where the key is absent; `None` where a value stands there that is no number from `least` to
/// `most`.
fn number_or_none_in(table: &Table, key: Key, least: u64, most: u64) -> Option<Option<u64>>
    ensures { result ≡ number_or_none_in key least most (table_view table.now) }
{
    match value_at(table, key) {
        Some(value) => Some(Some(number_of(value, least, most)?)),
        None => Some(None),
    }
}

/// Whether `key` says `true`. Where it is absent it says `false`.
///
/// # Errors
/// `Key` where a value stands there that is neither.
pub(crate) fn flag_or_false(table: &Table, key: Key) -> Result<bool, Fault>
    ensures { result ≡ flag_or_false key (table_view table.now) }
{
    flag_or_false_in(table, key).ok_or(Fault::Key(key))
}

/// Whether a key says `true`; `None` where a value stands there that is neither `true` nor `false`.
fn flag_or_false_in(table: &Table, key: Key) -> Option<bool>
    ensures { result ≡ flag_or_false_in key (table_view table.now) }
{
    match value_at(table, key) {
        Some(value) => value.as_bool(),
        None => Some(false),
    }
}

/// The number that a value is, where it is from `least` to `most`.
fn number_of(value: &Value, least: u64, most: u64) -> Option<u64>
    ensures exact { result ≡ option_and_then (within least most) (as_integer (view value.now)) }
    ensures least { IfSome result (λ number. least ≤ number) }
    ensures most { IfSome result (λ number. number ≤ most) }
{
    number_within(value.as_integer()?, least, most)
}

/// An integer, where it is from `least` to `most`.
fn number_within(integer: i64, least: u64, most: u64) -> Option<u64>
    ensures exact { result ≡ within least most integer }
    ensures least { IfSome result (λ number. least ≤ number) }
    ensures most { IfSome result (λ number. number ≤ most) }
{
    let number = u64::try_from(integer).ok()?;
    if least <= number && number <= most {
        Some(number)
    } else {
        None
    }
}

/// The collectors of the table at `deliver`, in the order of their subscribers' octets.
///
/// # Errors
/// `Key` where there is no such table, or an address in it is no text; or `OutOfMemory`.
pub(crate) fn collectors_at(alloc: Global, table: &Table) -> Result<Vec<Collector>, Fault>
    ensures exact { GivesSet pairs result (collectors_at (table_view table.now)) }
    ensures sorted { IfOk result (λ collectors. AscendByOctets (pairs collectors)) }
{
    match value_at(table, Key::Deliver) {
        Some(Value::Table(addresses)) => collectors_in(alloc, addresses),
        _ => Err(Fault::Key(Key::Deliver)),
    }
}

/// A collector for each key of a table, whose value is its address.
///
/// # Errors
/// `Key` where an address is no text, or `OutOfMemory`.
fn collectors_in(alloc: Global, addresses: &Table) -> Result<Vec<Collector>, Fault>
    ensures exact { GivesSet pairs result
        (value_at_key key.Deliver (collectors_of (table_view addresses.now))) }
    ensures sorted { IfOk result (λ collectors. AscendByOctets (pairs collectors)) }
{
    let mut collectors = Vec::new(alloc);
    'addresses: for (subscriber, value) in addresses.iter() {
        let collector = collector_of(alloc, subscriber.as_str(), value)?;
        collectors.push(collector)?;
    }
    Ok(collectors)
}

/// The collector of a subscriber, at the address that a value is.
///
/// # Errors
/// `Key` where the value is no text, or `OutOfMemory`.
fn collector_of(alloc: Global, subscriber: &str, value: &Value) -> Result<Collector, Fault>
    ensures { GivesSet pair result (value_at_key key.Deliver
        (option_map (λ address. (subscriber.now, address)) (as_str (view value.now)))) }
{
    match value.as_str() {
        Some(address) => Ok(Collector {
            subscriber: String::from_str(alloc, subscriber)?,
            address: String::from_str(alloc, address)?,
        }),
        None => Err(Fault::Key(Key::Deliver)),
    }
}
