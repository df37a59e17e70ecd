//! The catalogue that a table of a file stands for.

ghost use Rattle.std.specs.Prelude.{◌≡◌, ◌∷◌, [], IfOk};
ghost use Rattle.std.specs.Option.{option_map};
ghost use Rattle.toml.specs.View.{view, array_view, table_view};
ghost use Rattle.toml.specs.Data.{get_member};
ghost use Rattle.zmeta_catalogues.specs.declared.fault.Key.TheVariants.{Syntax, Elements, Records};
ghost use Rattle.zmeta_catalogues.specs.Keys.{name_of};
ghost use Rattle.zmeta_catalogues.specs.Values.{Reads, value_of, text_of, syntax_text_of, records_of, query_of};
ghost use Rattle.zmeta_catalogues.specs.Catalogues.{database_at, texts_of, some_databases, databases_of, with_numbers, settings_of, AreForAll, text_at, terms_at, terms_of, asked_settings, catalogue_of};

use crate::address::address_of;
use crate::charset::Charset;
use crate::fault::{FaultKind, Key, Stop, fault};
use crate::values::{
    charset_of, filled, member, number_of, query_of, records_of, syntax_text_of, text_of, value_of,
};
use bytes::Bytes;
use std::alloc::{AllocError, Global};
use toml::{Table, Value};
use zber::Seq;

/// The settings of a catalogue that may stand for all. `None` where neither the catalogue nor the top has one.
#[derive(Drop)]
pub struct Settings {
    /// The record syntax: a name, an object identifier, or `-` for none.
    pub syntax: Option<Bytes>,
    /// The element set name.
    pub elements: Option<Bytes>,
    /// The wanted positions: a number, or ranges as `1-3,10-12`.
    pub records: Option<Bytes>,
    /// How many positions one Present asks for, 1 to 1,000.
    pub step: Option<u32>,
    /// How many Presents may be outstanding at a time, 1 to 64.
    pub window: Option<u32>,
    /// The character set of its queries and its records. Without one the queries are in UTF-8, and the records as they
    /// say themselves.
    pub charset: Option<Charset>,
    /// How many seconds to wait for an answer, 1 to 3,600.
    pub patience: Option<u32>,
    /// How many seconds connecting may take, 1 to 3,600.
    pub connect: Option<u32>,
}

/// How a catalogue is asked for what the options say: for each access point the attributes, in the prefix notation.
/// `None` where the catalogue has none of its own.
#[derive(Drop)]
pub struct Terms {
    /// The attributes of a title.
    pub title: Option<Bytes>,
    /// Those of an author.
    pub author: Option<Bytes>,
    /// Those of a subject.
    pub subject: Option<Bytes>,
    /// Those of words from anywhere.
    pub any: Option<Bytes>,
    /// Those of an ISBN.
    pub isbn: Option<Bytes>,
    /// Those of an ISSN.
    pub issn: Option<Bytes>,
    /// Those of a year.
    pub year: Option<Bytes>,
}

/// A catalogue of a file.
#[derive(Drop)]
pub struct Catalogue {
    /// The name: that of its table.
    pub name: Bytes,
    /// The first line of the file that begins with the name, from 1; 0 if none does.
    pub line: u64,
    /// The address, as `host:port`.
    pub address: Bytes,
    /// The databases; there is one at least.
    pub databases: Seq<Bytes>,
    /// The settings that may stand for all.
    pub settings: Settings,
    /// How it is asked for what the options say.
    pub terms: Terms,
    /// The query that replaces the search for this catalogue, in its character set.
    pub query: Option<Bytes>,
}

/// Reads the name of a database.
fn database_at(alloc: Global, value: &Value) -> Result<Bytes, Stop>
    ensures { Reads (database_at (view value.now)) result }
{
    match filled(alloc, Key::Database, value.as_str())? {
        Some(text) => Ok(text),
        None => Err(fault(Key::Database, FaultKind::Empty)),
    }
}

/// Reads the names of databases.
fn texts_of(alloc: Global, items: &Vec<Value>) -> Result<Seq<Bytes>, Stop>
    ensures { Reads (texts_of (array_view items.now)) result }
{
    let mut texts = Vec::new(alloc);
    let values = items.as_slice();
    'items: for item in values {
        let text = database_at(alloc, item)?;
        texts.push(text)?;
    }
    Ok(Seq::from_vec(texts))
}

/// Checks that there is a name.
fn some_databases(texts: Seq<Bytes>) -> Result<Seq<Bytes>, Stop>
    ensures { Reads (some_databases texts) result }
{
    if texts.len() == 0 {
        return Err(fault(Key::Database, FaultKind::Empty));
    }
    Ok(texts)
}

/// Puts one name into a list.
fn one_database(alloc: Global, text: Bytes) -> Result<Seq<Bytes>, AllocError>
    ensures { IfOk result (λ texts. texts ≡ text ∷ []) }
{
    let mut texts = Vec::new(alloc);
    texts.push(text)?;
    Ok(Seq::from_vec(texts))
}

/// Reads the databases of a catalogue: one name, or a list of names.
pub(crate) fn databases_of(alloc: Global, value: Option<&Value>) -> Result<Seq<Bytes>, Stop>
    ensures { Reads (databases_of (option_map (λ value. view value.now) value.entry)) result }
{
    let Some(value) = value else {
        return Err(fault(Key::Database, FaultKind::Missing));
    };
    match value.as_array() {
        Some(items) => some_databases(texts_of(alloc, items)?),
        None => {
            let text = database_at(alloc, value)?;
            Ok(one_database(alloc, text)?)
        }
    }
}

/// Returns a text, in the same memory.
fn shared(text: &Option<Bytes>) -> Result<Option<Bytes>, AllocError>
    ensures { IfOk result (λ copy. copy ≡ text.now) }
{
    match text {
        Some(text) => Ok(Some(text.clone()?)),
        None => Ok(None),
    }
}

/// Reads the settings behind the texts, and adds these texts.
fn with_numbers(
    own: &Table,
    top: &Table,
    syntax: Option<Bytes>,
    elements: Option<Bytes>,
    records: Option<Bytes>,
) -> Result<Settings, Stop>
    ensures { Reads (with_numbers (table_view own.now) (table_view top.now) syntax elements records) result }
{
    let step = number_of(Key::Step, 1000, value_of(Key::Step, own, top))?;
    let window = number_of(Key::Window, 64, value_of(Key::Window, own, top))?;
    let charset = charset_of(value_of(Key::Charset, own, top))?;
    let patience = number_of(Key::Patience, 3600, value_of(Key::Patience, own, top))?;
    let connect = number_of(Key::Connect, 3600, value_of(Key::Connect, own, top))?;
    Ok(Settings {
        syntax,
        elements,
        records,
        step,
        window,
        charset,
        patience,
        connect,
    })
}

/// Reads the settings for all.
pub(crate) fn settings_for_all(alloc: Global, top: &Table) -> Result<Settings, Stop>
    ensures { Reads (settings_of (table_view top.now) (table_view top.now)) result }
{
    let syntax = syntax_text_of(alloc, value_of(Key::Syntax, top, top))?;
    let elements = text_of(alloc, Key::Elements, value_of(Key::Elements, top, top))?;
    let records = records_of(alloc, value_of(Key::Records, top, top))?;
    with_numbers(top, top, syntax, elements, records)
}

/// Reads the record syntax of a catalogue: its own, or else that for all.
#[tactic(auto, using(crate::proofs::ForAll::syntax_for_all))]
fn syntax_for(
    alloc: Global,
    own: &Table,
    top: &Table,
    for_all: &Settings,
) -> Result<Option<Bytes>, Stop>
    requires { AreForAll (table_view top.now) for_all.now }
    ensures { Reads (syntax_text_of (value_of Syntax (table_view own.now) (table_view top.now))) result }
{
    match member(own, Key::Syntax.name()) {
        Some(value) => syntax_text_of(alloc, Some(value)),
        None => Ok(shared(&for_all.syntax)?),
    }
}

/// Reads the element set name of a catalogue: its own, or else that for all.
#[tactic(auto, using(crate::proofs::ForAll::elements_for_all))]
fn elements_for(
    alloc: Global,
    own: &Table,
    top: &Table,
    for_all: &Settings,
) -> Result<Option<Bytes>, Stop>
    requires { AreForAll (table_view top.now) for_all.now }
    ensures { Reads (text_of Elements (value_of Elements (table_view own.now) (table_view top.now))) result }
{
    match member(own, Key::Elements.name()) {
        Some(value) => text_of(alloc, Key::Elements, Some(value)),
        None => Ok(shared(&for_all.elements)?),
    }
}

/// Reads the wanted positions of a catalogue: its own, or else those for all.
#[tactic(auto, using(crate::proofs::ForAll::records_for_all))]
fn records_for(
    alloc: Global,
    own: &Table,
    top: &Table,
    for_all: &Settings,
) -> Result<Option<Bytes>, Stop>
    requires { AreForAll (table_view top.now) for_all.now }
    ensures { Reads (records_of (value_of Records (table_view own.now) (table_view top.now))) result }
{
    match member(own, Key::Records.name()) {
        Some(value) => records_of(alloc, Some(value)),
        None => Ok(shared(&for_all.records)?),
    }
}

/// Reads the settings of a catalogue: its own, or else those for all, whose texts it shares.
pub(crate) fn settings_of(
    alloc: Global,
    own: &Table,
    top: &Table,
    for_all: &Settings,
) -> Result<Settings, Stop>
    requires { AreForAll (table_view top.now) for_all.now }
    ensures { Reads (settings_of (table_view own.now) (table_view top.now)) result }
{
    let syntax = syntax_for(alloc, own, top, for_all)?;
    let elements = elements_for(alloc, own, top, for_all)?;
    let records = records_for(alloc, own, top, for_all)?;
    with_numbers(own, top, syntax, elements, records)
}

/// Reads the text at a key of a table.
pub(crate) fn text_at(alloc: Global, key: Key, table: &Table) -> Result<Option<Bytes>, Stop>
    ensures { Reads (text_at key (table_view table.now)) result }
{
    text_of(alloc, key, member(table, key.name()))
}

/// Reads the terms of a table.
fn terms_at(alloc: Global, table: &Table) -> Result<Terms, Stop>
    ensures { Reads (terms_at (table_view table.now)) result }
{
    let title = text_at(alloc, Key::Title, table)?;
    let author = text_at(alloc, Key::Author, table)?;
    let subject = text_at(alloc, Key::Subject, table)?;
    let any = text_at(alloc, Key::Any, table)?;
    let isbn = text_at(alloc, Key::Isbn, table)?;
    let issn = text_at(alloc, Key::Issn, table)?;
    let year = text_at(alloc, Key::Year, table)?;
    Ok(Terms {
        title,
        author,
        subject,
        any,
        isbn,
        issn,
        year,
    })
}

/// Reads the terms of a catalogue.
fn own_terms(alloc: Global, own: &Table) -> Result<Terms, Stop>
    ensures { Reads (terms_of (get_member (name_of Key.Terms) (table_view own.now))) result }
{
    match member(own, Key::Terms.name()) {
        Some(value) => match value.as_table() {
            Some(terms) => terms_at(alloc, terms),
            None => Err(fault(Key::Terms, FaultKind::Type)),
        },
        None => Ok(Terms {
            title: None,
            author: None,
            subject: None,
            any: None,
            isbn: None,
            issn: None,
            year: None,
        }),
    }
}

/// Reads the query that replaces the search, in the character set of the catalogue.
pub(crate) fn own_query(
    alloc: Global,
    charset: Option<Charset>,
    own: &Table,
) -> Result<Option<Bytes>, Stop>
    ensures { Reads (query_of charset (get_member (name_of Key.Query) (table_view own.now))) result }
{
    query_of(alloc, charset, member(own, Key::Query.name()))
}

/// Reads the settings of a catalogue, and the query that replaces the search.
fn asked_settings(
    alloc: Global,
    own: &Table,
    top: &Table,
    for_all: &Settings,
) -> Result<(Settings, Option<Bytes>), Stop>
    requires { AreForAll (table_view top.now) for_all.now }
    ensures { Reads (asked_settings (table_view own.now) (table_view top.now)) result }
{
    let settings = settings_of(alloc, own, top, for_all)?;
    let query = own_query(alloc, settings.charset, own)?;
    Ok((settings, query))
}

/// Reads the catalogue of this name, on this line.
pub(crate) fn catalogue_of(
    alloc: Global,
    name: &str,
    line: u64,
    own: &Table,
    top: &Table,
    for_all: &Settings,
) -> Result<Catalogue, Stop>
    requires { AreForAll (table_view top.now) for_all.now }
    ensures { Reads (catalogue_of name.now line (table_view own.now) (table_view top.now)) result }
{
    let address = address_of(alloc, member(own, Key::Address.name()))?;
    let databases = databases_of(alloc, member(own, Key::Database.name()))?;
    let (settings, query) = asked_settings(alloc, own, top, for_all)?;
    let terms = own_terms(alloc, own)?;
    Ok(Catalogue {
        name: Bytes::copy_from_slice(alloc, name.as_bytes())?,
        line,
        address,
        databases,
        settings,
        terms,
        query,
    })
}
