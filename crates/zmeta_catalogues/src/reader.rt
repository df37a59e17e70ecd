//! The reader of a file of catalogues.

ghost use Rattle.std.specs.Prelude.{◌≡◌, ◌<◌, ◌^◌, false, length, None, IfOk, IfErr, OnOk, string_bytes};
ghost use Rattle.std.specs.Str.{IsUtf8};
ghost use Rattle.toml.specs.Errors.{IsMemory};
ghost use Rattle.toml.specs.Parse.{parse_document};
ghost use Rattle.toml.specs.View.{view, table_view};
ghost use Rattle.zmeta_catalogues.specs.Catalogues.{settings_of, AreForAll};
ghost use Rattle.zmeta_catalogues.specs.SortedLines.{IsSource};
ghost use Rattle.zmeta_catalogues.specs.Words.{unknown_key, nearest};
ghost use Rattle.zmeta_catalogues.specs.Files.{IsAskedCatalogue, IsCatalogueOf, IsCatalogueAt, AreCatalogues, is_marked, IsInLineOrder, AreCataloguesOf};
ghost use Rattle.zmeta_catalogues.specs.FileErrors.{IsSettingError, IsUnknownError, IsTopError, IsStopError, IsKeysError, IsCatalogueStop, IsTableError, IsMemberError, IsDocumentError, IsTomlError, IsFileError};

use crate::catalogue::{Catalogue, Settings, catalogue_of, settings_for_all};
use crate::error::CatalogueError;
use crate::fault::{Key, SettingFault, Stop};
use crate::key_lines::key_lines;
use crate::lines::place_behind;
use crate::queries::check_queries;
use crate::site::{Site, site_of};
use crate::sorted_lines::{Source, line_of, source_of};
use crate::words::{TableKind, nearest, stands_for_all, unknown_key};
use std::alloc::{AllocError, Global};
use std::str::from_utf8;
use toml::{Table, Value};
use zber::Seq;

/// The number of catalogues from which on there are too many.
const MOST: usize = 4_294_967_296;

/// The catalogues of a file.
#[derive(Drop)]
pub struct Catalogues {
    /// The catalogues, in the order of their lines in the file.
    pub list: Seq<Catalogue>,
}

/// Returns the error for a setting of a catalogue at fault.
pub(crate) fn setting_error(site: &Site<'_, '_>, fault: SettingFault) -> CatalogueError
    ensures { IsSettingError site.now.name fault result }
{
    let line = site.setting_line(fault.key);
    match site.name.clone() {
        Ok(catalogue) => CatalogueError::Setting {
            line,
            catalogue,
            fault,
        },
        Err(_) => CatalogueError::Memory,
    }
}

/// Returns a key and the nearest known one, in memory of their own.
fn unknown_parts(
    alloc: Global,
    word: &str,
    kind: TableKind,
) -> Result<(String, Option<Key>), AllocError>
    ensures { IfOk result (λ parts. (string_bytes parts.0 ≡ word.now) × (parts.1 ≡ nearest kind word.now)) }
{
    let key = String::from_str(alloc, word)?;
    let nearest = nearest(alloc, word, kind)?;
    Ok((key, nearest))
}

/// Returns the error for a key of a catalogue's table, or of its terms, that is not known.
pub(crate) fn unknown_error(
    alloc: Global,
    site: &Site<'_, '_>,
    word: &str,
    kind: TableKind,
) -> CatalogueError
    ensures { IsUnknownError site.now.name word.now kind result }
{
    let Ok(catalogue) = site.name.clone() else {
        return CatalogueError::Memory;
    };
    let line = site.key_line(kind, word);
    match unknown_parts(alloc, word, kind) {
        Ok((key, nearest)) => CatalogueError::UnknownKey {
            line,
            catalogue,
            key,
            nearest,
        },
        Err(_) => CatalogueError::Memory,
    }
}

/// Returns the error for the first setting at fault of the catalogue of this name.
fn first_setting_error(
    alloc: Global,
    source: &Source<'_>,
    name: &str,
    fault: SettingFault,
) -> CatalogueError
    requires { IsSource source.now }
    ensures { IsSettingError name.now fault result }
{
    let Ok(keys) = key_lines(alloc, source.text) else {
        return CatalogueError::Memory;
    };
    match site_of(alloc, source, keys.as_slice(), name) {
        Ok(site) => setting_error(&site, fault),
        Err(_) => CatalogueError::Memory,
    }
}

/// Returns the error for the first key that is not known in the catalogue of this name.
fn first_unknown_error(
    alloc: Global,
    source: &Source<'_>,
    name: &str,
    word: &str,
    kind: TableKind,
) -> CatalogueError
    requires { IsSource source.now }
    ensures { IsUnknownError name.now word.now kind result }
{
    let Ok(keys) = key_lines(alloc, source.text) else {
        return CatalogueError::Memory;
    };
    match site_of(alloc, source, keys.as_slice(), name) {
        Ok(site) => unknown_error(alloc, &site, word, kind),
        Err(_) => CatalogueError::Memory,
    }
}

/// Checks that all keys of the table of a catalogue, and of its terms, are known.

fn check_keys(
    alloc: Global,
    source: &Source<'_>,
    name: &str,
    own: &Table,
) -> Result<(), CatalogueError>
    requires { IsSource source.now }
    ensures ok { OnOk result (unknown_key (table_view own.now) ≡ None) }
    ensures err { IfErr result (IsKeysError name.now (table_view own.now)) }
{
    match unknown_key(own) {
        Some((word, kind)) => Err(first_unknown_error(alloc, source, name, word, kind)),
        None => Ok(()),
    }
}

/// Returns the error for a key at the top that is no setting and no table.
pub(crate) fn top_error(alloc: Global, source: &Source<'_>, word: &str) -> CatalogueError
    requires { IsSource source.now }
    ensures { IsTopError source.now.text.now word.now result }
{
    let line = line_of(source, word.as_bytes());
    match unknown_parts(alloc, word, TableKind::Top) {
        Ok((key, nearest)) => CatalogueError::UnknownAtTop { line, key, nearest },
        Err(_) => CatalogueError::Memory,
    }
}

/// Returns the error for a reading of a catalogue that stopped.
fn stop_error(alloc: Global, source: &Source<'_>, name: &str, stop: Stop) -> CatalogueError
    requires { IsSource source.now }
    ensures { IsStopError name.now stop result }
{
    match stop {
        Stop::Fault(fault) => first_setting_error(alloc, source, name, fault),
        Stop::Memory => CatalogueError::Memory,
    }
}

/// Reads the catalogue of a table whose keys are known, and checks its queries.
#[tactic(auto, using(crate::proofs::FileErrors::setting_stop, crate::proofs::FileErrors::text_stop))]
fn asked_catalogue(
    alloc: Global,
    line: u64,
    name: &str,
    own: &Table,
    top: &Table,
    for_all: &Settings,
) -> Result<Catalogue, Stop>
    requires { AreForAll (table_view top.now) for_all.now }
    ensures ok { IfOk result (IsAskedCatalogue (table_view top.now) name.now line (table_view own.now)) }
    ensures err { IfErr result (IsCatalogueStop (table_view top.now) name.now line (table_view own.now)) }
{
    let catalogue = catalogue_of(alloc, name, line, own, top, for_all)?;
    if let Err(stop) = check_queries(alloc, &catalogue) {
        return Err(stop);
    }
    Ok(catalogue)
}

/// Reads the catalogue of a table.
#[tactic(auto, using(crate::proofs::FileErrors::keys_at, crate::proofs::FileErrors::stop_at))]
fn table_catalogue(
    alloc: Global,
    source: &Source<'_>,
    name: &str,
    own: &Table,
    top: &Table,
    for_all: &Settings,
) -> Result<Catalogue, CatalogueError>
    requires source { IsSource source.now }
    requires for_all { AreForAll (table_view top.now) for_all.now }
    ensures ok { IfOk result (IsCatalogueOf source.now.text.now (table_view top.now) name.now (table_view own.now)) }
    ensures err { IfErr result (IsTableError source.now.text.now (table_view top.now) name.now (table_view own.now)) }
{
    if name.is_empty() {
        return Err(CatalogueError::EmptyName);
    }
    check_keys(alloc, source, name, own)?;
    let line = line_of(source, name.as_bytes());
    match asked_catalogue(alloc, line, name, own, top, for_all) {
        Ok(catalogue) => Ok(catalogue),
        Err(stop) => Err(stop_error(alloc, source, name, stop)),
    }
}

/// Reads the catalogue of a member of the top, which has to be a table.

fn catalogue_at(
    alloc: Global,
    source: &Source<'_>,
    top: &Table,
    for_all: &Settings,
    name: &str,
    value: &Value,
) -> Result<Catalogue, CatalogueError>
    requires source { IsSource source.now }
    requires for_all { AreForAll (table_view top.now) for_all.now }
    ensures ok { IfOk result (IsCatalogueAt source.now.text.now (table_view top.now) name.now (view value.now)) }
    ensures err { IfErr result (IsMemberError source.now.text.now (table_view top.now) name.now (view value.now)) }
{
    match value.as_table() {
        Some(own) => table_catalogue(alloc, source, name, own, top, for_all),
        None => Err(top_error(alloc, source, name)),
    }
}

/// Reads the catalogues of a file's table, in the order of their names.
fn catalogues_in(
    alloc: Global,
    source: &Source<'_>,
    top: &Table,
    for_all: &Settings,
) -> Result<Vec<Catalogue>, CatalogueError>
    requires source { IsSource source.now }
    requires for_all { AreForAll (table_view top.now) for_all.now }
    ensures ok { IfOk result
        (λ read. AreCatalogues source.now.text.now (table_view top.now) (table_view top.now) read.items) }
    ensures err { IfErr result (IsDocumentError source.now.text.now (table_view top.now)) }
{
    let mut read = Vec::new(alloc);
    'members: for (name, value) in top.iter() {
        let word = name.as_str();
        if !stands_for_all(word) {
            let catalogue = catalogue_at(alloc, source, top, for_all, word, value)?;
            read.push(catalogue)?;
        }
    }
    Ok(read)
}

/// Returns the line and the column of the octet at this place of the file.
fn place_at(octets: &[u8], at: usize) -> (u64, u64) {
    match octets.get(..at) {
        Some(front) => place_behind(front),
        None => place_behind(octets),
    }
}

/// Returns the error for octets that are not UTF-8 behind the first so many.
fn utf8_error(octets: &[u8], at: usize) -> CatalogueError
    requires { ¬ IsUtf8 octets.now }
    ensures { IsTomlError octets.now result }
{
    let (line, column) = place_at(octets, at);
    CatalogueError::NotUtf8 { line, column }
}

/// Returns where an error of TOML begins.
fn start_of(error: &toml::de::Error) -> usize {
    match error.span() {
        Some(span) => span.start,
        None => 0,
    }
}

/// Returns the error for octets that are not TOML.
fn toml_error(alloc: Global, octets: &[u8], error: &toml::de::Error) -> CatalogueError
    requires { ¬ IsMemory error.now → parse_document octets.now ≡ None }
    ensures { IsTomlError octets.now result }
{
    if error.is_memory() {
        return CatalogueError::Memory;
    }
    let (line, column) = place_at(octets, start_of(error));
    match String::from_str(alloc, error.message()) {
        Ok(reason) => CatalogueError::Toml {
            line,
            column,
            reason,
        },
        Err(_) => CatalogueError::Memory,
    }
}

/// Returns whether the octets begin with a byte order mark.
fn is_marked(octets: &[u8]) -> bool
    ensures { result ≡ is_marked octets.now }
{
    match octets.get(..3) {
        Some(front) => front == b"\xef\xbb\xbf".as_slice(),
        None => octets == b"\xef\xbb\xbf".as_slice(),
    }
}

/// Reads a file as TOML.
pub(crate) fn document(alloc: Global, octets: &[u8]) -> Result<Table, CatalogueError>
    ensures unmarked { OnOk result (is_marked octets.now ≡ false) }
    ensures ok { IfOk result (λ top. parse_document octets.now ≡ Some (table_view top)) }
    ensures err { IfErr result (IsTomlError octets.now) }
{
    if is_marked(octets) {
        return Err(CatalogueError::ByteOrderMark);
    }
    let text = match from_utf8(octets) {
        Ok(text) => text,
        Err(error) => return Err(utf8_error(octets, error.valid_up_to())),
    };
    let top = match toml::table_from_str(alloc, text) {
        Ok(top) => top,
        Err(error) => return Err(toml_error(alloc, octets, &error)),
    };
    Ok(top)
}

/// Reads the settings for all.
fn top_settings(alloc: Global, source: &Source<'_>, top: &Table) -> Result<Settings, CatalogueError>
    requires { IsSource source.now }
    ensures ok { IfOk result (λ for_all. settings_of (table_view top.now) (table_view top.now) ≡ Ok for_all) }
    ensures for_all { IfOk result (AreForAll (table_view top.now)) }
    ensures err { IfErr result (IsDocumentError source.now.text.now (table_view top.now)) }
{
    match settings_for_all(alloc, top) {
        Ok(for_all) => Ok(for_all),
        Err(Stop::Fault(fault)) => Err(CatalogueError::ForAll {
            line: line_of(source, fault.key.name().as_bytes()),
            fault,
        }),
        Err(Stop::Memory) => Err(CatalogueError::Memory),
    }
}

/// Reads the catalogues of a file's table, if there are fewer than 2^32.
fn few_catalogues(
    alloc: Global,
    source: &Source<'_>,
    top: &Table,
    for_all: &Settings,
) -> Result<Vec<Catalogue>, CatalogueError>
    requires source { IsSource source.now }
    requires for_all { AreForAll (table_view top.now) for_all.now }
    ensures ok { IfOk result
        (λ read. AreCatalogues source.now.text.now (table_view top.now) (table_view top.now) read.items) }
    ensures few { IfOk result (λ read. length read.items < 2 ^ 32) }
    ensures err { IfErr result (IsDocumentError source.now.text.now (table_view top.now)) }
{
    let read = catalogues_in(alloc, source, top, for_all)?;
    if read.len() >= MOST {
        return Err(CatalogueError::TooMany);
    }
    Ok(read)
}

/// Puts catalogues into the order of their lines.
fn in_order(read: Vec<Catalogue>) -> Result<Catalogues, AllocError>
    ensures order { IfOk result (λ file. IsInLineOrder read.items file.list) }
    ensures as_many { IfOk result (λ file. length file.list ≡ length read.items) }
{
    let mut list = read;
    list.sort_by_key(|catalogue| catalogue.line)?;
    Ok(Catalogues {
        list: Seq::from_vec(list),
    })
}

/// Reads the catalogues of a document whose lines are known.
pub(crate) fn read_document(
    alloc: Global,
    source: &Source<'_>,
    top: &Table,
) -> Result<Catalogues, CatalogueError>
    requires source { IsSource source.now }
    requires unmarked { is_marked source.now.text.now ≡ false }
    requires parsed { parse_document source.now.text.now ≡ Some (table_view top.now) }
    ensures catalogues { IfOk result (λ file. AreCataloguesOf source.now.text.now file.list) }
    ensures few { IfOk result (λ file. length file.list < 2 ^ 32) }
    ensures err { IfErr result (IsDocumentError source.now.text.now (table_view top.now)) }
{
    let for_all = top_settings(alloc, source, top)?;
    let read = few_catalogues(alloc, source, top, &for_all)?;
    Ok(in_order(read)?)
}

/// Reads the catalogues of a file whose lines are known.
#[tactic(auto, using(crate::proofs::FileErrors::refused_document, crate::proofs::FileErrors::refused_octets))]
fn read_source(alloc: Global, source: &Source<'_>) -> Result<Catalogues, CatalogueError>
    requires { IsSource source.now }
    ensures catalogues { IfOk result (λ file. AreCataloguesOf source.now.text.now file.list) }
    ensures few { IfOk result (λ file. length file.list < 2 ^ 32) }
    ensures err { IfErr result (IsFileError source.now.text.now) }
{
    let top = document(alloc, source.text)?;
    let file = read_document(alloc, source, &top)?;
    Ok(file)
}

/// Reads a file of catalogues, in TOML.
///
/// A table at the top is a catalogue, named as the table. `syntax`, `elements`, `records`, `step`, `window`, `charset`,
/// `patience` and `connect` at the top are those of each catalogue that has none of its own.
///
/// The errors are those of `CatalogueError`. The file is looked at in this order: byte order mark, UTF-8, TOML, the
/// settings for all, the catalogues by their names, how many there are. `Memory` if no memory is found.
pub fn read_catalogues(alloc: Global, octets: &[u8]) -> Result<Catalogues, CatalogueError>
    ensures catalogues { IfOk result (λ file. AreCataloguesOf octets.now file.list) }
    ensures few { IfOk result (λ file. length file.list < 2 ^ 32) }
    ensures err { IfErr result (IsFileError octets.now) }
{
    let source = source_of(alloc, octets)?;
    read_source(alloc, &source)
}
