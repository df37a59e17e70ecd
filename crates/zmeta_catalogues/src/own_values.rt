//! The values of the table of a catalogue, or of the top, each at its key.

ghost use Rattle.std.specs.Prelude.{◌≡◌};
ghost use Rattle.std.specs.Option.{option_map, option_and_then};
ghost use Rattle.toml.specs.Data.{as_table};
ghost use Rattle.toml.specs.View.{view, table_view};
ghost use Rattle.zmeta_catalogues.specs.declared.fault.Key.TheVariants as keys;
ghost use Rattle.zmeta_catalogues.specs.Addresses.{address_of};
ghost use Rattle.zmeta_catalogues.specs.Catalogues.{databases_of};
ghost use Rattle.zmeta_catalogues.specs.Mistakes.{own_value};
ghost use Rattle.zmeta_catalogues.specs.Values.{Reads, syntax_text_of, records_of, number_of, charset_of};

use crate::address::address_of;
use crate::catalogue::databases_of;
use crate::charset::Charset;
use crate::fault::{Key, Stop};
use crate::values::{charset_of, member, number_of, records_of, syntax_text_of};
use bytes::Bytes;
use std::alloc::Global;
use toml::{Table, Value};
use zber::Seq;

/// Reads the address.
pub(crate) fn address_at(alloc: Global, table: &Table) -> Result<Bytes, Stop>
    ensures { Reads (address_of (own_value keys.Address (table_view table.now))) result }
{
    address_of(alloc, member(table, Key::Address.name()))
}

/// Reads the names of the databases.
pub(crate) fn databases_at(alloc: Global, table: &Table) -> Result<Seq<Bytes>, Stop>
    ensures { Reads (databases_of (own_value keys.Database (table_view table.now))) result }
{
    databases_of(alloc, member(table, Key::Database.name()))
}

/// Reads the record syntax, if there is one.
pub(crate) fn syntax_at(alloc: Global, table: &Table) -> Result<Option<Bytes>, Stop>
    ensures { Reads (syntax_text_of (own_value keys.Syntax (table_view table.now))) result }
{
    syntax_text_of(alloc, member(table, Key::Syntax.name()))
}

/// Reads the wanted positions, if there are some.
pub(crate) fn records_at(alloc: Global, table: &Table) -> Result<Option<Bytes>, Stop>
    ensures { Reads (records_of (own_value keys.Records (table_view table.now))) result }
{
    records_of(alloc, member(table, Key::Records.name()))
}

/// Reads the number from 1 to `most` at a key, if there is one.
pub(crate) fn number_at(key: Key, most: u32, table: &Table) -> Result<Option<u32>, Stop>
    ensures { Reads (number_of key most (own_value key (table_view table.now))) result }
{
    number_of(key, most, member(table, key.name()))
}

/// Reads the character set, if there is one.
pub(crate) fn charset_at(table: &Table) -> Result<Option<Charset>, Stop>
    ensures { Reads (charset_of (own_value keys.Charset (table_view table.now))) result }
{
    charset_of(member(table, Key::Charset.name()))
}

/// Returns how the catalogue is asked for terms, if the table says so.
pub(crate) fn terms_at(table: &Table) -> Option<&Value>
    ensures { option_map (λ value. view value.now) result ≡ own_value keys.Terms (table_view table.now) }
{
    member(table, Key::Terms.name())
}

/// Returns how the catalogue is asked for terms, if it is a table.
pub(crate) fn terms_table(table: &Table) -> Option<&Table>
    ensures { option_map (λ terms. table_view terms.now) result
        ≡ option_and_then as_table (own_value keys.Terms (table_view table.now)) }
{
    match terms_at(table) {
        Some(value) => value.as_table(),
        None => None,
    }
}
