//! The file of catalogues of a world.

ghost use Rattle.std.specs.Prelude.{◌≡◌, ◌++◌, Some, None, IfOk, IfErr, OnOk};
ghost use Rattle.std.specs.Fmt.{decimal};
ghost use Rattle.std.specs.List.{flat_map};
ghost use Rattle.std.specs.Option.{option_map};
ghost use Rattle.zmeta_catalogues.specs.Keys.{keys_for_all};
ghost use Rattle.zmeta_catalogues.specs.declared.fault.Key.TheVariants as keys;
ghost use Rattle.zmeta_world.specs.NetworkRuns.{address_for};
ghost use Rattle.zmeta_conversions.specs.declared.catalogues.CatalogueFileError.TheVariants.{Memory};
ghost use Rattle.zmeta_conversions.specs.Worlds.{wanted_text, first_unsaid};
ghost use Rattle.zmeta_conversions.specs.Catalogues.{value_line, text_line, syntax_line, database_line, head_line, address_line, table_text, catalogues_text, is_setting, is_name, is_database, place_reason, untabled, first_untabled, IsUntabled, TableResult, TextOfResult};

use crate::strings::{is_text, is_utf8, put_key, put_string};
use crate::tokens::{put_count, put_syntax};
use crate::wants::put_wanted;
use crate::worlds::query_text;
use bytes::Bytes;
use std::alloc::{AllocError, Global};
use zber::Oid;
use zmeta_catalogues::Key;
use zmeta_world::world::{AskedQuestion, End, NamedHost, World};
use zplan::Range;
use zquery::{PrintError, Query};

/// Why a question has no table in a file of catalogues.
#[derive(Clone, Copy, PartialEq, Eq)]
pub enum NoTable {
    /// It goes to a target in memory.
    Target,
    /// No catalogue can have the name: it is empty, not UTF-8 or that of a setting for all.
    Name,
    /// The address is empty or not UTF-8.
    Address,
    /// It goes to several databases or to none, or the name of the database is empty or not UTF-8.
    Database,
    /// It asks for an element set name.
    Elements,
    /// The prefix notation has no text for the query, or its text is not UTF-8.
    Query,
}

/// Why a world has no file of catalogues.
#[derive(Drop)]
pub enum CatalogueFileError {
    /// The question of this name, on this line of the world file, has no table, for this reason.
    NoTable {
        line: u64,
        name: Bytes,
        reason: NoTable,
    },
    /// No memory was found.
    Memory,
}

impl From<AllocError> for CatalogueFileError {
    ghost from_gives = { λ _ e. e ≡ Memory };

    fn from(_: AllocError) -> CatalogueFileError {
        CatalogueFileError::Memory
    }
}

/// The settings that may stand for all catalogues of a file.
const FOR_ALL: [Key; 8] = [
    Key::Syntax,
    Key::Elements,
    Key::Records,
    Key::Step,
    Key::Window,
    Key::Charset,
    Key::Patience,
    Key::Connect,
];

/// Returns the settings for all.
fn settings() -> &'static [Key]
    ensures { result.now ≡ keys_for_all }
{
    FOR_ALL.as_slice()
}

/// Returns whether the name is that of a setting for all.
#[tactic(auto, unfolding(crate::specs::Catalogues::is_setting))]
fn is_setting(name: &[u8]) -> bool
    ensures { result ≡ is_setting name.now }
{
    settings().iter().any(|key| key.name().as_bytes() == name)
}

/// Returns whether a catalogue can have the name.
fn is_name(name: &[u8]) -> bool
    ensures { result ≡ is_name name.now }
{
    is_text(name) && !is_setting(name)
}

/// Returns whether there is one database, whose name is a text.
fn is_database(databases: &[Bytes]) -> bool
    ensures { result ≡ is_database databases.now }
{
    let [name] = databases else {
        return false;
    };
    is_text(name.as_slice())
}

/// Appends the line of a value.
#[tactic(auto, unfolding(crate::specs::Catalogues::value_line))]
fn put_value_line(key: Key, value: &[u8], out: &mut Vec<u8>) -> Result<(), AllocError>
    ensures { OnOk result (out.new.items ≡ out.old.items ++ value_line key value.now) }
{
    out.extend_from_slice(key.name().as_bytes())?;
    out.extend_from_slice(b" = ")?;
    out.extend_from_slice(value)?;
    out.extend_from_slice(b"\n")
}

/// Appends the line of a number.
fn put_number_line(
    alloc: Global,
    key: Key,
    number: u32,
    out: &mut Vec<u8>,
) -> Result<(), AllocError>
    ensures { OnOk result (out.new.items ≡ out.old.items ++ value_line key (decimal number)) }
{
    let mut value = Vec::new(alloc);
    put_count(alloc, number as u64, &mut value)?;
    put_value_line(key, value.as_slice(), out)
}

/// Appends the line of a text.
fn put_text_line(alloc: Global, key: Key, text: &[u8], out: &mut Vec<u8>) -> Result<(), AllocError>
    ensures { OnOk result (out.new.items ≡ out.old.items ++ text_line key text.now) }
{
    let mut value = Vec::new(alloc);
    put_string(text, &mut value)?;
    put_value_line(key, value.as_slice(), out)
}

/// Appends the lines of databases.
fn put_databases(alloc: Global, names: &[Bytes], out: &mut Vec<u8>) -> Result<(), AllocError>
    ensures { OnOk result (out.new.items ≡ out.old.items ++ flat_map database_line names.now) }
{
    for name in names {
        put_text_line(alloc, Key::Database, name.as_slice(), out)?;
    }
    Ok(())
}

/// Appends the line of a record syntax, if there is one.
fn put_syntax_line(alloc: Global, syntax: &Option<Oid>, out: &mut Vec<u8>) -> Result<(), AllocError>
    ensures { OnOk result (out.new.items ≡ out.old.items ++ syntax_line syntax.now) }
{
    if syntax.is_none() {
        return Ok(());
    }
    let mut text = Vec::new(alloc);
    put_syntax(alloc, syntax, &mut text)?;
    put_text_line(alloc, Key::Syntax, text.as_slice(), out)
}

/// Appends the line of the wanted positions.
fn put_records_line(alloc: Global, wanted: &[Range], out: &mut Vec<u8>) -> Result<(), AllocError>
    ensures { OnOk result (out.new.items ≡ out.old.items ++ text_line keys.Records (wanted_text wanted.now)) }
{
    let mut text = Vec::new(alloc);
    put_wanted(alloc, wanted, &mut text)?;
    put_text_line(alloc, Key::Records, text.as_slice(), out)
}

/// Appends the first line of a table.
fn put_head(name: &[u8], out: &mut Vec<u8>) -> Result<(), AllocError>
    ensures { OnOk result (out.new.items ≡ out.old.items ++ head_line name.now) }
{
    out.extend_from_slice(b"\n[")?;
    put_key(name, out)?;
    out.extend_from_slice(b"]\n")
}

/// Returns the address for a question, if it goes to a host.
fn address_for<'a>(hosts: &'a [NamedHost], asked: &AskedQuestion) -> Option<&'a Bytes>
    ensures { option_map (λ address. address.now) result ≡ address_for hosts.entry.now asked.now }
{
    match asked.end {
        End::Host(place) => match hosts.get(place) {
            Some(host) => Some(&host.address),
            None => None,
        },
        End::Target(_) => None,
    }
}

/// Appends the table of a question to this address, with this text of its query.
fn put_table_at(
    alloc: Global,
    asked: &AskedQuestion,
    address: &Bytes,
    query: &[u8],
    out: &mut Vec<u8>,
) -> Result<(), AllocError>
    ensures { OnOk result (out.new.items ≡ out.old.items ++ (head_line asked.now.name
        ++ address_line (Some address.now) ++ flat_map database_line asked.now.question.databases)
        ++ syntax_line asked.now.question.syntax ++ text_line keys.Records (wanted_text asked.now.question.wanted)
        ++ text_line keys.Query query.now) }
{
    put_head(asked.name.as_slice(), out)?;
    put_text_line(alloc, Key::Address, address.as_slice(), out)?;
    put_databases(alloc, asked.question.databases.as_slice(), out)?;
    put_syntax_line(alloc, &asked.question.syntax, out)?;
    put_records_line(alloc, asked.question.wanted.as_slice(), out)?;
    put_text_line(alloc, Key::Query, query, out)
}

/// Returns the error for a question that has no table for this reason.
fn no_table(asked: &AskedQuestion, reason: NoTable) -> CatalogueFileError
    ensures { IsUntabled (Some (asked.now.line, asked.now.name, reason)) result }
{
    match asked.name.clone() {
        Ok(name) => CatalogueFileError::NoTable {
            line: asked.line,
            name,
            reason,
        },
        Err(_) => CatalogueFileError::Memory,
    }
}

/// Returns why a question to this address has no table, but for its query.
fn reason_of(asked: &AskedQuestion, address: &Bytes) -> Option<NoTable>
    ensures { result ≡ place_reason asked.now address.now }
{
    if !is_name(asked.name.as_slice()) {
        return Some(NoTable::Name);
    }
    if !is_text(address.as_slice()) {
        return Some(NoTable::Address);
    }
    if !is_database(asked.question.databases.as_slice()) {
        return Some(NoTable::Database);
    }
    if asked.question.elements.is_some() {
        return Some(NoTable::Elements);
    }
    None
}

/// Returns the text of a query, if it has one that is UTF-8. `Memory` if no memory is found.
fn text_of(alloc: Global, query: &Query) -> Result<Option<Vec<u8>>, CatalogueFileError>
    ensures ok { IfOk result (λ text. TextOfResult query.now (option_map (λ t. t.items) text)) }
    ensures err { IfErr result (λ e. e ≡ Memory) }
{
    let text = match query_text(alloc, query) {
        Ok(text) => text,
        Err(PrintError::NotPrintable) => return Ok(None),
        Err(PrintError::Memory) => return Err(CatalogueFileError::Memory),
    };
    if !is_utf8(text.as_slice()) {
        return Ok(None);
    }
    Ok(Some(text))
}

/// Appends the table of a question.
#[tactic(auto, using(crate::proofs::Tables::table_results))]
fn put_table(
    alloc: Global,
    hosts: &[NamedHost],
    asked: &AskedQuestion,
    out: &mut Vec<u8>,
) -> Result<(), CatalogueFileError>
    ensures { TableResult (untabled hosts.now asked.now) (table_text hosts.now asked.now) out.old.items
        out.new.items result }
{
    let Some(address) = address_for(hosts, asked) else {
        return Err(no_table(asked, NoTable::Target));
    };
    if let Some(reason) = reason_of(asked, address) {
        return Err(no_table(asked, reason));
    }
    let Some(query) = text_of(alloc, &asked.question.query)? else {
        return Err(no_table(asked, NoTable::Query));
    };
    Ok(put_table_at(alloc, asked, address, query.as_slice(), out)?)
}

/// Appends the tables of questions.
fn put_tables(
    alloc: Global,
    hosts: &[NamedHost],
    questions: &[AskedQuestion],
    out: &mut Vec<u8>,
) -> Result<(), CatalogueFileError>
    ensures { TableResult (first_unsaid (untabled hosts.now) questions.now)
        (flat_map (table_text hosts.now) questions.now) out.old.items out.new.items result }
{
    for asked in questions {
        put_table(alloc, hosts, asked, out)?;
    }
    Ok(())
}

/// Returns the file of catalogues of a world whose questions go to hosts: its step and its window for all, and a table
/// for each question, in order. Hosts that are not asked are left out.
///
/// `NoTable` names the first question that has no table. `Memory` if no memory is found.
pub fn catalogue_file(alloc: Global, world: &World) -> Result<Vec<u8>, CatalogueFileError>
    ensures text { IfOk result (λ text. text.items ≡ catalogues_text world.now) }
    ensures said { OnOk result (first_untabled world.now ≡ None) }
    ensures err { IfErr result (IsUntabled (first_untabled world.now)) }
{
    let mut text = Vec::new(alloc);
    put_number_line(alloc, Key::Step, world.step, &mut text)?;
    put_number_line(alloc, Key::Window, world.window, &mut text)?;
    put_tables(
        alloc,
        world.hosts.as_slice(),
        world.questions.as_slice(),
        &mut text,
    )?;
    Ok(text)
}
