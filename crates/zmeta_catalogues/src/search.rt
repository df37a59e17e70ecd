//! A search by options, and why it cannot be put to a catalogue.

ghost use Rattle.std.specs.Prelude.{◌≡◌};
ghost use Rattle.zmeta_catalogues.specs.Terms.{key_of};
ghost use Rattle.zmeta_catalogues.specs.declared.search.AskError.TheVariants.{Memory};

use crate::fault::{Key, SettingFault};
use bytes::Bytes;
use std::alloc::{AllocError, AllocFailed};
use zquery::PqfErrorKind;

/// What a term is looked for in.
#[derive(Clone, Copy, PartialEq, Eq)]
pub enum Access {
    /// The title.
    Title,
    /// The author.
    Author,
    /// The subject.
    Subject,
    /// Words from anywhere in the record.
    Any,
    /// The ISBN.
    Isbn,
    /// The ISSN.
    Issn,
    /// The year.
    Year,
    /// This year or a later one.
    Since,
    /// This year or an earlier one.
    Until,
}

impl Access {
    /// Returns the key that says how a catalogue is asked for it.
    pub fn key(self) -> Key
        ensures { result ≡ key_of self }
    {
        match self {
            Access::Title => Key::Title,
            Access::Author => Key::Author,
            Access::Subject => Key::Subject,
            Access::Any => Key::Any,
            Access::Isbn => Key::Isbn,
            Access::Issn => Key::Issn,
            Access::Year => Key::Year,
            Access::Since => Key::Year,
            Access::Until => Key::Year,
        }
    }
}

/// A term of a search.
#[derive(Clone, Copy)]
pub struct Term<'a> {
    /// What it is looked for in.
    pub access: Access,
    /// The text. An asterisk at the end asks for all that begins so, but not that of an ISBN, an ISSN or a year;
    /// hyphens of an ISBN say nothing.
    pub text: &'a str,
}

/// What is put to each catalogue. `None` leaves what the catalogue says.
#[derive(Clone, Copy)]
pub struct CatalogueSearch<'a> {
    /// The query, in the prefix notation. It takes the place of the terms.
    pub query: Option<&'a str>,
    /// The terms, all of which a record has to have: at most 32.
    pub terms: &'a [Term<'a>],
    /// The wanted positions: a number, or ranges as `1-3,10-12`. 10 if neither they nor the catalogue's are given.
    pub records: Option<&'a [u8]>,
    /// The element set name.
    pub elements: Option<&'a [u8]>,
    /// The record syntax: a name as `marc21`, an object identifier of at most 1,000 arcs, or `-` for none.
    pub syntax: Option<&'a [u8]>,
}

/// Why a search cannot be put to the catalogues.
#[derive(Drop)]
pub enum AskError {
    /// There is no search, and this catalogue has no query of its own.
    NoSearch {
        catalogue: Bytes,
    },
    /// There are more than 32 terms.
    TooManyTerms,
    /// The term is empty, or blank.
    BlankTerm {
        access: Access,
    },
    /// The charset of this catalogue lacks a character of the term.
    TermCharset {
        catalogue: Bytes,
        access: Access,
    },
    /// The charset of this catalogue lacks a character of the query.
    QueryCharset {
        catalogue: Bytes,
    },
    /// The query is none, for this reason at this octet of it.
    Query {
        kind: PqfErrorKind,
        at: usize,
    },
    /// A term or the query of this catalogue is at fault.
    Setting {
        catalogue: Bytes,
        fault: SettingFault,
    },
    /// The text names no wanted positions.
    Records,
    /// The text is no record syntax.
    Syntax,
    /// No memory was found.
    Memory,
}

impl From<AllocError> for AskError {
    ghost from_gives = { λ _ e. e ≡ Memory };

    fn from(_: AllocError) -> AskError {
        AskError::Memory
    }
}

impl<T: Drop> From<AllocFailed<T>> for AskError {
    ghost from_gives = { λ _ e. e ≡ Memory };

    fn from(_: AllocFailed<T>) -> AskError {
        AskError::Memory
    }
}
