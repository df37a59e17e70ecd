//! The values of a file of catalogues.

ghost use Rattle.std.specs.Prelude.{◌≡◌, ◌≤◌};
ghost use Rattle.std.specs.Option.{option_map};
ghost use Rattle.toml.specs.View.{view, table_view};
ghost use Rattle.toml.specs.Data.{get_member, as_integer};
ghost use Rattle.zmeta_catalogues.specs.Values.{Reads, value_of, filled, text_of, in_range, number_of, charset_of, known_syntax, syntax_text_of, known_records, counted_records, listed_records, records_of, converted, query_of};

use crate::charset::{Charset, charset_named, octets_in};
use crate::fault::{FaultKind, Key, Stop, fault};
use crate::probes::{are_records, is_syntax};
use bytes::Bytes;
use std::alloc::Global;
use toml::{Table, Value};

/// Returns the value at a key of a table.
pub(crate) fn member<'a>(table: &'a Table, word: &str) -> Option<&'a Value>
    ensures { option_map (λ value. view value.now) result ≡ get_member word.now (table_view table.now) }
{
    table.get(word)
}

/// Returns the value of a setting: the catalogue's own, or else that for all.
pub(crate) fn value_of<'a>(key: Key, own: &'a Table, top: &'a Table) -> Option<&'a Value>
    ensures { option_map (λ value. view value.now) result ≡ value_of key (table_view own.now) (table_view top.now) }
{
    match member(own, key.name()) {
        Some(value) => Some(value),
        None => member(top, key.name()),
    }
}

/// The most positions that may be wanted.
const MOST_POSITIONS: u32 = 1_000_000;

/// Reads a text that is not empty.
pub(crate) fn filled(alloc: Global, key: Key, text: Option<&str>) -> Result<Option<Bytes>, Stop>
    ensures { Reads (filled key (option_map (λ text. text.now) text.entry)) result }
{
    match text {
        Some(text) => {
            if text.is_empty() {
                return Err(fault(key, FaultKind::Empty));
            }
            Ok(Some(Bytes::copy_from_slice(alloc, text.as_bytes())?))
        }
        None => Err(fault(key, FaultKind::Type)),
    }
}

/// Reads a text, if there is a value.
pub(crate) fn text_of(alloc: Global, key: Key, value: Option<&Value>) -> Result<Option<Bytes>, Stop>
    ensures { Reads (text_of key (option_map (λ value. view value.now) value.entry)) result }
{
    match value {
        Some(value) => filled(alloc, key, value.as_str()),
        None => Ok(None),
    }
}

/// Returns the number, if it is from 1 to `most`.
fn in_range(most: u32, number: i64) -> Option<u32>
    ensures { result ≡ in_range most number }
{
    if 1 <= number && number <= most as i64 {
        Some(number as u32)
    } else {
        None
    }
}

/// Reads a number from 1 to `most`, if there is a value.
pub(crate) fn number_of(key: Key, most: u32, value: Option<&Value>) -> Result<Option<u32>, Stop>
    ensures { Reads (number_of key most (option_map (λ value. view value.now) value.entry)) result }
{
    let Some(value) = value else {
        return Ok(None);
    };
    let Some(number) = value.as_integer() else {
        return Err(fault(key, FaultKind::Type));
    };
    match in_range(most, number) {
        Some(number) => Ok(Some(number)),
        None => Err(fault(key, FaultKind::Range)),
    }
}

/// Reads a character set, if there is a value.
pub(crate) fn charset_of(value: Option<&Value>) -> Result<Option<Charset>, Stop>
    ensures { Reads (charset_of (option_map (λ value. view value.now) value.entry)) result }
{
    let Some(value) = value else {
        return Ok(None);
    };
    let Some(text) = value.as_str() else {
        return Err(fault(Key::Charset, FaultKind::Type));
    };
    match charset_named(text) {
        Some(charset) => Ok(Some(charset)),
        None => Err(fault(Key::Charset, FaultKind::Text)),
    }
}

/// Checks that a text is a record syntax.
fn known_syntax(alloc: Global, text: Bytes) -> Result<Option<Bytes>, Stop>
    ensures { Reads (known_syntax (Some text)) result }
{
    if is_syntax(alloc, text.as_slice())? {
        Ok(Some(text))
    } else {
        Err(fault(Key::Syntax, FaultKind::Text))
    }
}

/// Reads a record syntax, if there is a value: a name, an object identifier, or `-` for none.
pub(crate) fn syntax_text_of(alloc: Global, value: Option<&Value>) -> Result<Option<Bytes>, Stop>
    ensures { Reads (syntax_text_of (option_map (λ value. view value.now) value.entry)) result }
{
    match text_of(alloc, Key::Syntax, value)? {
        Some(text) => known_syntax(alloc, text),
        None => Ok(None),
    }
}

/// Checks that a text is wanted positions.
fn known_records(alloc: Global, text: Bytes) -> Result<Option<Bytes>, Stop>
    ensures { Reads (known_records (Some text)) result }
{
    if are_records(alloc, text.as_slice())? {
        Ok(Some(text))
    } else {
        Err(fault(Key::Records, FaultKind::Text))
    }
}

/// Reads a number of wanted positions, from 1 to 1,000,000.
fn counted_records(alloc: Global, number: i64) -> Result<Option<Bytes>, Stop>
    ensures { Reads (counted_records number) result }
{
    match in_range(MOST_POSITIONS, number) {
        Some(_) => {
            let text = format!(in alloc; "{number}")?;
            known_records(alloc, Bytes::copy_from_slice(alloc, text.as_bytes())?)
        }
        None => Err(fault(Key::Records, FaultKind::Range)),
    }
}

/// Reads wanted positions as a text, as `1-3,10-12`.
fn listed_records(alloc: Global, value: &Value) -> Result<Option<Bytes>, Stop>
    ensures { Reads (listed_records (view value.now)) result }
{
    match filled(alloc, Key::Records, value.as_str())? {
        Some(text) => known_records(alloc, text),
        None => Ok(None),
    }
}

/// Reads wanted positions, if there is a value: a number from 1 to 1,000,000, or a text as `1-3,10-12`.
pub(crate) fn records_of(alloc: Global, value: Option<&Value>) -> Result<Option<Bytes>, Stop>
    ensures { Reads (records_of (option_map (λ value. view value.now) value.entry)) result }
{
    let Some(value) = value else {
        return Ok(None);
    };
    match value.as_integer() {
        Some(number) => counted_records(alloc, number),
        None => listed_records(alloc, value),
    }
}

/// Converts a query into the character set of the catalogue.
fn converted(alloc: Global, charset: Option<Charset>, text: &str) -> Result<Option<Bytes>, Stop>
    ensures { Reads (converted charset (Some text.now)) result }
{
    match octets_in(alloc, charset, text)? {
        Some(octets) => Ok(Some(octets)),
        None => Err(fault(Key::Query, FaultKind::Charset)),
    }
}

/// Reads a query in the character set of the catalogue, if there is a value.
pub(crate) fn query_of(
    alloc: Global,
    charset: Option<Charset>,
    value: Option<&Value>,
) -> Result<Option<Bytes>, Stop>
    ensures { Reads (query_of charset (option_map (λ value. view value.now) value.entry)) result }
{
    let Some(value) = value else {
        return Ok(None);
    };
    match value.as_str() {
        Some(text) => {
            if text.is_empty() {
                return Err(fault(Key::Query, FaultKind::Empty));
            }
            converted(alloc, charset, text)
        }
        None => Err(fault(Key::Query, FaultKind::Type)),
    }
}
