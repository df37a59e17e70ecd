//! Where the keys of a catalogue stand in its file, for the errors that name a line.

ghost use Rattle.std.specs.Prelude.{◌≡◌, IfOk};
ghost use Rattle.zmeta_catalogues.specs.SortedLines.{IsSource};

use crate::fault::Key;
use crate::key_lines::{KeyLine, line_of_key};
use crate::sorted_lines::{Source, line_of};
use crate::words::{TableKind, kind_of};
use bytes::Bytes;
use std::alloc::{AllocError, Global};

/// A catalogue of a file that has a mistake.
#[derive(Drop)]
pub(crate) struct Site<'k, 'a> {
    /// The name of the catalogue.
    pub(crate) name: Bytes,
    /// The first line that begins with the name; 0 if none does.
    line: u64,
    /// The keys of the file.
    keys: &'k [KeyLine<'a>],
}

/// Returns where the catalogue of this name stands.
pub(crate) fn site_of<'k, 'a>(
    alloc: Global,
    source: &Source<'_>,
    keys: &'k [KeyLine<'a>],
    name: &str,
) -> Result<Site<'k, 'a>, AllocError>
    requires { IsSource source.now }
    ensures { IfOk result (λ site. site.name ≡ name.now) }
{
    let line = line_of(source, name.as_bytes());
    Ok(Site {
        name: Bytes::copy_from_slice(alloc, name.as_bytes())?,
        line,
        keys,
    })
}

impl Site<'_, '_> {
    /// Returns the line of a key of the catalogue's table, or else that of the table.
    fn own_line(&self, word: &str) -> u64 {
        match line_of_key(self.keys, self.name.as_slice(), 0, word.as_bytes()) {
            Some(line) => line,
            None => self.line,
        }
    }

    /// Returns the line of a key of the catalogue's terms, or else that of the terms.
    fn term_line(&self, word: &str) -> u64 {
        match line_of_key(self.keys, self.name.as_slice(), 1, word.as_bytes()) {
            Some(line) => line,
            None => self.own_line(Key::Terms.name()),
        }
    }

    /// Returns the line of a key of a table of this kind, or else that of the table.
    pub(crate) fn key_line(&self, kind: TableKind, word: &str) -> u64 {
        match kind {
            TableKind::Terms => self.term_line(word),
            TableKind::Top | TableKind::Catalogue => self.own_line(word),
        }
    }

    /// Returns the line of a setting, or else that of its table.
    pub(crate) fn setting_line(&self, key: Key) -> u64 {
        self.key_line(kind_of(key), key.name())
    }
}
