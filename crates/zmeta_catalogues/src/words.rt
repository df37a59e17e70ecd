//! The known keys of each table, and the known key that is nearest to an unknown one.

ghost use Rattle.std.specs.Prelude.{◌≡◌, ◌<◌, nat_eq, IfOk, length};
ghost use Rattle.std.specs.Option.{option_map};
ghost use Rattle.toml.specs.View.{view, table_view};
ghost use Rattle.zmeta_catalogues.specs.declared.words.TableKind.TheVariants.{Top};
ghost use Rattle.zmeta_catalogues.specs.Keys.{name_of, keys_of, is_known};
ghost use Rattle.zmeta_catalogues.specs.Words.{distance, nearer, nearest, first_unknown, unknown_key, unknown_term};

use crate::fault::Key;
use crate::values::member;
use std::alloc::{AllocError, Global};
use strsim::levenshtein;
use toml::Table;

/// The settings that may stand for all.
const FOR_ALL: [Key; 8] = [
    Key::Syntax,
    Key::Elements,
    Key::Records,
    Key::Step,
    Key::Window,
    Key::Charset,
    Key::Patience,
    Key::Connect,
];

/// The keys of the table of a catalogue.
const OF_CATALOGUE: [Key; 12] = [
    Key::Address,
    Key::Database,
    Key::Syntax,
    Key::Elements,
    Key::Records,
    Key::Step,
    Key::Window,
    Key::Charset,
    Key::Patience,
    Key::Connect,
    Key::Terms,
    Key::Query,
];

/// The keys of the terms of a catalogue.
const OF_TERMS: [Key; 7] = [
    Key::Title,
    Key::Author,
    Key::Subject,
    Key::Any,
    Key::Isbn,
    Key::Issn,
    Key::Year,
];

/// A kind of table in a file of catalogues.
#[derive(Clone, Copy, PartialEq, Eq)]
pub enum TableKind {
    /// The file itself: its settings stand for all catalogues.
    Top,
    /// The table of a catalogue.
    Catalogue,
    /// The terms of a catalogue.
    Terms,
}

/// Returns the keys of a table of this kind.
pub(crate) fn keys_of(kind: TableKind) -> &'static [Key]
    ensures { result.now ≡ keys_of kind }
{
    match kind {
        TableKind::Top => FOR_ALL.as_slice(),
        TableKind::Catalogue => OF_CATALOGUE.as_slice(),
        TableKind::Terms => OF_TERMS.as_slice(),
    }
}

/// Returns whether a table of this kind has a key of this name.
#[tactic(auto, unfolding(crate::specs::Keys::is_known))]
pub(crate) fn is_known(kind: TableKind, word: &str) -> bool
    ensures { result ≡ is_known kind word.now }
{
    keys_of(kind)
        .iter()
        .any(|key| key.name().as_bytes() == word.as_bytes())
}

/// Returns whether a setting of this name may stand for all.
pub(crate) fn stands_for_all(word: &str) -> bool
    ensures { result ≡ is_known Top word.now }
{
    is_known(TableKind::Top, word)
}

/// Returns whether the key is one of the terms.
fn is_term(key: Key) -> bool {
    match key {
        Key::Title | Key::Author | Key::Subject | Key::Any => true,
        Key::Isbn | Key::Issn | Key::Year => true,
        _ => false,
    }
}

/// Returns the kind of table that has the setting.
pub(crate) fn kind_of(key: Key) -> TableKind {
    if is_term(key) {
        TableKind::Terms
    } else {
        TableKind::Catalogue
    }
}

/// Returns how many letters have to be put in, left out or changed to make the name of the key of a word.
#[tactic(auto, unfolding(crate::specs::Words::distance))]
fn distance(alloc: Global, word: &str, key: Key) -> Result<usize, AllocError>
    ensures { IfOk result (λ d. d ≡ distance word.now key) }
{
    levenshtein(alloc, word, key.name())
}

/// Returns the known key of a table of this kind that is nearest to the word: the first of those that fewest letters
/// part from it, and no more than two do. `None` if there is no such key, or the word is longer than any key may be.
///
/// `AllocError` if no memory is found.
pub(crate) fn nearest(alloc: Global, word: &str, kind: TableKind) -> Result<Option<Key>, AllocError>
    ensures { IfOk result (λ near. near ≡ nearest kind word.now) }
{
    let mut near: Option<Key> = None;
    let mut parted: usize = 3;
    let keys = keys_of(kind);
    'keys: for key in keys {
        let letters = distance(alloc, word, *key)?;
        if letters < parted {
            near = Some(*key);
            parted = letters;
        }
    }
    Ok(near)
}

/// Returns the first key of a table that none of this kind has.
fn first_unknown(kind: TableKind, table: &Table) -> Option<&str>
    ensures { option_map (λ word. word.now) result ≡ first_unknown kind (table_view table.entry.now) }
{
    'members: for (word, _value) in table.iter() {
        if !is_known(kind, word.as_str()) {
            return Some(word.as_str());
        }
    }
    None
}

/// Returns the first key of the terms of a catalogue that is not known.
fn unknown_term(own: &Table) -> Option<&str>
    ensures { option_map (λ word. word.now) result ≡ unknown_term (table_view own.entry.now) }
{
    match member(own, "terms") {
        Some(value) => match value.as_table() {
            Some(terms) => first_unknown(TableKind::Terms, terms),
            None => None,
        },
        None => None,
    }
}

/// Returns the first key of the table of a catalogue, or else of its terms, that is not known.
pub(crate) fn unknown_key(own: &Table) -> Option<(&str, TableKind)>
    ensures { option_map (λ it. (it.0.now, it.1)) result ≡ unknown_key (table_view own.entry.now) }
{
    match first_unknown(TableKind::Catalogue, own) {
        Some(word) => Some((word, TableKind::Catalogue)),
        None => match unknown_term(own) {
            Some(word) => Some((word, TableKind::Terms)),
            None => None,
        },
    }
}
