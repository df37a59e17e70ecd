//! Every mistake of a file of catalogues.

ghost use Rattle.std.specs.Prelude.{◌≡◌, ◌≢◌, ◌==◌, ◌<◌, ◌++◌, ◌∷◌, [], ℕ, List, length, map, false, Some, IfOk, OnOk};
ghost use Rattle.toml.specs.Data.{as_table};
ghost use Rattle.toml.specs.Parse.{parse_document};
ghost use Rattle.toml.specs.View.{view, table_view};
ghost use Rattle.zmeta_catalogues.specs.declared.error.CatalogueError.TheVariants.{ForAll, Memory};
ghost use Rattle.zmeta_catalogues.specs.declared.words.TableKind.TheVariants as kinds;
ghost use Rattle.zmeta_catalogues.specs.Files.{IsReadable, is_marked};
ghost use Rattle.zmeta_catalogues.specs.FileErrors.{IsRefused, IsDocumentError};
ghost use Rattle.zmeta_catalogues.specs.Keys.{name_of, is_known};
ghost use Rattle.zmeta_catalogues.specs.Lines.{line_of};
ghost use Rattle.zmeta_catalogues.specs.Mistakes.{HasAdded, faults_for_all, for_all, setting, terms_table, key_mistakes, unknown_keys, AreCatalogueMistakes, AreNamedMistakes, AreValueMistakes, AreMemberMistakes, AreMistakesIn, AreDocumentMistakes, AreErrorsOf, AreErrors, AreSorted, AreMistakesOf, AreMistakesOfFile};
ghost use Rattle.zmeta_catalogues.specs.SortedLines.{IsSource};

use crate::error::CatalogueError;
use crate::fault::SettingFault;
use crate::key_lines::{KeyLine, key_lines};
use crate::own_values::terms_table;
use crate::reader::{document, read_document, setting_error, top_error, unknown_error};
use crate::setting_faults::{own_faults, put_settings};
use crate::site::{Site, site_of};
use crate::sorted_lines::{Source, line_of, source_of};
use crate::words::{TableKind, is_known, stands_for_all};
use std::alloc::{AllocError, Global};
use toml::{Table, Value};
use zquery::laws::one_answer;

/// Returns the error, if it is none of memory.
fn own_error(error: CatalogueError) -> Result<CatalogueError, AllocError>
    ensures same { IfOk result (λ own. own ≡ error) }
    ensures own { OnOk result (error ≢ Memory) }
{
    match error {
        CatalogueError::Memory => Err(AllocError),
        error => Ok(error),
    }
}

/// Adds a mistake.
fn put(found: &mut Vec<CatalogueError>, mistake: CatalogueError) -> Result<(), AllocError>
    ensures added { OnOk result (found.new.items ≡ found.old.items ++ mistake ∷ []) }
    ensures own { OnOk result (mistake ≢ Memory) }
{
    match mistake {
        CatalogueError::Memory => Err(AllocError),
        mistake => Ok(found.push(mistake)?),
    }
}

/// Adds a key of a catalogue's table, or of its terms, if it is not known.
fn put_key(
    alloc: Global,
    site: &Site<'_, '_>,
    word: &str,
    kind: TableKind,
    found: &mut Vec<CatalogueError>,
) -> Result<(), AllocError>
    ensures { OnOk result ((text : List ℕ) →
        HasAdded (AreErrorsOf text (key_mistakes site.now.name kind word.now)) found.old.items found.new.items) }
{
    if is_known(kind, word) {
        return Ok(());
    }
    put(found, unknown_error(alloc, site, word, kind))
}

/// Adds the keys of a catalogue's table, or of its terms, that are not known.
fn put_unknown(
    alloc: Global,
    site: &Site<'_, '_>,
    table: &Table,
    kind: TableKind,
    found: &mut Vec<CatalogueError>,
) -> Result<(), AllocError>
    ensures { OnOk result ((text : List ℕ) →
        HasAdded (AreErrorsOf text (unknown_keys site.now.name kind (table_view table.now))) found.old.items
        found.new.items) }
{
    'members: for (word, _value) in table.iter() {
        put_key(alloc, site, word.as_str(), kind, found)?;
    }
    Ok(())
}

/// Adds the keys of a catalogue's terms that are not known.
fn put_unknown_terms(
    alloc: Global,
    site: &Site<'_, '_>,
    own: &Table,
    found: &mut Vec<CatalogueError>,
) -> Result<(), AllocError>
    ensures { OnOk result ((text : List ℕ) →
        HasAdded (AreErrorsOf text (unknown_keys site.now.name kinds.Terms (terms_table (table_view own.now))))
        found.old.items found.new.items) }
{
    match terms_table(own) {
        Some(terms) => put_unknown(alloc, site, terms, TableKind::Terms, found),
        None => Ok(()),
    }
}

/// Adds the settings of a catalogue that are at fault.
fn put_faults(
    site: &Site<'_, '_>,
    faults: &[SettingFault],
    found: &mut Vec<CatalogueError>,
) -> Result<(), AllocError>
    ensures { OnOk result ((text : List ℕ) →
        HasAdded (AreErrorsOf text (map (λ fault. setting site.now.name fault) faults.now)) found.old.items
        found.new.items) }
{
    'faults: for fault in faults {
        put(found, setting_error(site, *fault))?;
    }
    Ok(())
}

/// Adds the mistakes of a catalogue's table.
fn put_catalogue(
    alloc: Global,
    site: &Site<'_, '_>,
    own: &Table,
    top: &Table,
    found: &mut Vec<CatalogueError>,
) -> Result<(), AllocError>
    ensures { OnOk result ((text : List ℕ) →
        HasAdded (AreErrors text (AreCatalogueMistakes (table_view top.now) site.now.name (table_view own.now)))
        found.old.items found.new.items) }
{
    put_unknown(alloc, site, own, TableKind::Catalogue, found)?;
    put_unknown_terms(alloc, site, own, found)?;
    let faults = own_faults(alloc, own, top)?;
    put_faults(site, faults.as_slice(), found)
}

/// Adds the mistakes of the table of a catalogue, whose name may not be empty.
fn put_table(
    alloc: Global,
    source: &Source<'_>,
    keys: &[KeyLine<'_>],
    top: &Table,
    name: &str,
    own: &Table,
    found: &mut Vec<CatalogueError>,
) -> Result<(), AllocError>
    requires { IsSource source.now }
    ensures { OnOk result
        (HasAdded (AreErrors source.now.text.now
        (AreNamedMistakes (length name.now == 0) (table_view top.now) name.now (table_view own.now)))
        found.old.items found.new.items) }
{
    if name.is_empty() {
        return put(found, CatalogueError::EmptyName);
    }
    let site = site_of(alloc, source, keys, name)?;
    put_catalogue(alloc, &site, own, top, found)
}

/// Adds the mistakes of a value at the top, which has to be the table of a catalogue.
fn put_value(
    alloc: Global,
    source: &Source<'_>,
    keys: &[KeyLine<'_>],
    top: &Table,
    name: &str,
    value: &Value,
    found: &mut Vec<CatalogueError>,
) -> Result<(), AllocError>
    requires { IsSource source.now }
    ensures { OnOk result
        (HasAdded (AreErrors source.now.text.now
        (AreValueMistakes (table_view top.now) name.now (as_table (view value.now)))) found.old.items found.new.items) }
{
    match value.as_table() {
        Some(own) => put_table(alloc, source, keys, top, name, own, found),
        None => put(found, top_error(alloc, source, name)),
    }
}

/// Adds the mistakes of a member of the top, if it is no setting for all.
fn put_member(
    alloc: Global,
    source: &Source<'_>,
    keys: &[KeyLine<'_>],
    top: &Table,
    name: &str,
    value: &Value,
    found: &mut Vec<CatalogueError>,
) -> Result<(), AllocError>
    requires { IsSource source.now }
    ensures { OnOk result
        (HasAdded (AreErrors source.now.text.now
        (AreMemberMistakes (is_known kinds.Top name.now) (table_view top.now) name.now (view value.now)))
        found.old.items found.new.items) }
{
    if stands_for_all(name) {
        return Ok(());
    }
    put_value(alloc, source, keys, top, name, value, found)
}

/// Returns the error for a setting for all that is at fault.
fn for_all_error(source: &Source<'_>, fault: SettingFault) -> CatalogueError
    requires { IsSource source.now }
    ensures { result ≡ ForAll (line_of source.now.text.now (name_of fault.key)) fault }
{
    let line = line_of(source, fault.key.name().as_bytes());
    CatalogueError::ForAll { line, fault }
}

/// Adds the settings for all that are at fault.
fn put_for_all(
    source: &Source<'_>,
    faults: &[SettingFault],
    found: &mut Vec<CatalogueError>,
) -> Result<(), AllocError>
    requires { IsSource source.now }
    ensures { OnOk result
        (HasAdded (AreErrorsOf source.now.text.now (map (λ fault. for_all fault) faults.now)) found.old.items
        found.new.items) }
{
    'faults: for fault in faults {
        put(found, for_all_error(source, *fault))?;
    }
    Ok(())
}

/// Returns the settings for all that are at fault.
fn top_faults(alloc: Global, top: &Table) -> Result<Vec<SettingFault>, AllocError>
    ensures { IfOk result (λ faults. faults.items ≡ faults_for_all (table_view top.now)) }
{
    let mut faults = Vec::new(alloc);
    put_settings(alloc, top, &mut faults)?;
    Ok(faults)
}

/// Adds the mistakes of the members of the top.
fn put_members(
    alloc: Global,
    source: &Source<'_>,
    top: &Table,
    found: &mut Vec<CatalogueError>,
) -> Result<(), AllocError>
    requires { IsSource source.now }
    ensures { OnOk result
        (HasAdded (AreErrors source.now.text.now (AreMistakesIn (table_view top.now) (table_view top.now)))
        found.old.items found.new.items) }
{
    let lines = key_lines(alloc, source.text)?;
    let keys = lines.as_slice();
    'members: for (name, value) in top.iter() {
        put_member(alloc, source, keys, top, name.as_str(), value, found)?;
    }
    Ok(())
}

/// Returns the mistakes of a document in TOML.
fn table_mistakes(
    alloc: Global,
    source: &Source<'_>,
    top: &Table,
) -> Result<Vec<CatalogueError>, AllocError>
    requires { IsSource source.now }
    ensures { IfOk result
        (λ found. AreErrors source.now.text.now (AreDocumentMistakes (table_view top.now)) found.items) }
{
    let mut found = Vec::new(alloc);
    let faults = top_faults(alloc, top)?;
    put_for_all(source, faults.as_slice(), &mut found)?;
    put_members(alloc, source, top, &mut found)?;
    Ok(found)
}

/// Puts mistakes into the order of their lines; this one alone, if there are none.
fn sorted(
    mut found: Vec<CatalogueError>,
    first: CatalogueError,
) -> Result<Vec<CatalogueError>, AllocError>
    ensures some { IfOk result (λ all. 0 < length all.items) }
    ensures sorted { IfOk result (λ all. AreSorted first found.items all.items) }
{
    if found.is_empty() {
        found.push(first)?;
        return Ok(found);
    }
    found.sort_by_key(|mistake| mistake.line())?;
    Ok(found)
}

/// Returns the mistakes of a document that is refused for this error, in the order of their lines.
fn refused_mistakes(
    alloc: Global,
    source: &Source<'_>,
    top: &Table,
    error: CatalogueError,
) -> Result<Vec<CatalogueError>, AllocError>
    requires source { IsSource source.now }
    requires error { IsDocumentError source.now.text.now (table_view top.now) error }
    ensures own { OnOk result (error ≢ Memory) }
    ensures some { IfOk result (λ found. 0 < length found.items) }
    ensures all { IfOk result (λ found. AreMistakesOf source.now.text.now (table_view top.now) found.items) }
{
    one_answer();
    let first = own_error(error)?;
    let found = table_mistakes(alloc, source, top)?;
    sorted(found, first)
}

/// Returns the mistakes of a document, in the order of their lines.
fn document_mistakes(
    alloc: Global,
    source: &Source<'_>,
    top: &Table,
) -> Result<Vec<CatalogueError>, AllocError>
    requires source { IsSource source.now }
    requires unmarked { is_marked source.now.text.now ≡ false }
    requires parsed { parse_document source.now.text.now ≡ Some (table_view top.now) }
    ensures none { IfOk result (λ found. length found.items ≡ 0 → IsReadable source.now.text.now) }
    ensures some { IfOk result (λ found. 0 < length found.items → IsRefused source.now.text.now) }
    ensures all { IfOk result (λ found. AreMistakesOf source.now.text.now (table_view top.now) found.items) }
{
    match read_document(alloc, source, top) {
        Ok(_) => Ok(Vec::new(alloc)),
        Err(error) => refused_mistakes(alloc, source, top, error),
    }
}

/// Returns a list of this error alone.
fn alone(alloc: Global, error: CatalogueError) -> Result<Vec<CatalogueError>, AllocError>
    ensures own { OnOk result (error ≢ Memory) }
    ensures alone { IfOk result (λ found. found.items ≡ error ∷ []) }
{
    let own = own_error(error)?;
    let mut found = Vec::new(alloc);
    found.push(own)?;
    Ok(found)
}

/// Returns the mistakes of a file whose lines are known, in the order of their lines.
fn source_mistakes(alloc: Global, source: &Source<'_>) -> Result<Vec<CatalogueError>, AllocError>
    requires { IsSource source.now }
    ensures none { IfOk result (λ found. length found.items ≡ 0 → IsReadable source.now.text.now) }
    ensures some { IfOk result (λ found. 0 < length found.items → IsRefused source.now.text.now) }
    ensures all { IfOk result (λ found. AreMistakesOfFile source.now.text.now found.items) }
{
    match document(alloc, source.text) {
        Ok(top) => document_mistakes(alloc, source, &top),
        Err(error) => alone(alloc, error),
    }
}

/// Returns every mistake of a file of catalogues, in the order of their lines: each setting, term and query at fault,
/// and each key that is not known, once. There is none only if the file can be read, and some only if it is refused.
/// A file that is not UTF-8, not TOML, or begins with a byte order mark, has one.
///
/// Time and memory grow with the octets of the file, and no faster than n log n.
///
/// `AllocError` if no memory is found.
pub fn mistakes_of(alloc: Global, octets: &[u8]) -> Result<Vec<CatalogueError>, AllocError>
    ensures none { IfOk result (λ found. length found.items ≡ 0 → IsReadable octets.now) }
    ensures some { IfOk result (λ found. 0 < length found.items → IsRefused octets.now) }
    ensures all { IfOk result (λ found. AreMistakesOfFile octets.now found.items) }
{
    let source = source_of(alloc, octets)?;
    source_mistakes(alloc, &source)
}
