//! The keys of a file of catalogues, and how a setting is at fault.

ghost use Rattle.std.specs.Prelude.{◌≡◌};
ghost use Rattle.zmeta_catalogues.specs.Keys.{name_of};
ghost use Rattle.zmeta_catalogues.specs.declared.fault.Stop.TheVariants.{Memory};

use std::alloc::{AllocError, AllocFailed};
use zquery::PqfErrorKind;

/// A setting of a catalogue, or one of its terms.
#[derive(Clone, Copy, PartialEq, Eq)]
pub enum Key {
    /// Where the catalogue is.
    Address,
    /// Its databases.
    Database,
    /// The record syntax.
    Syntax,
    /// The element set name.
    Elements,
    /// The wanted positions.
    Records,
    /// How many positions one Present asks for.
    Step,
    /// How many Presents may be outstanding at a time.
    Window,
    /// The character set of its queries.
    Charset,
    /// How many seconds to wait for an answer.
    Patience,
    /// How many seconds connecting may take.
    Connect,
    /// How the catalogue is asked for what the options say.
    Terms,
    /// The query that replaces the search.
    Query,
    /// How a title is asked for.
    Title,
    /// How an author is asked for.
    Author,
    /// How a subject is asked for.
    Subject,
    /// How words from anywhere are asked for.
    Any,
    /// How an ISBN is asked for.
    Isbn,
    /// How an ISSN is asked for.
    Issn,
    /// How a year is asked for.
    Year,
}

impl Key {
    /// Returns the name, as it is written in a file.
    pub fn name(self) -> &'static str
        ensures { result.now ≡ name_of self }
    {
        match self {
            Key::Address => "address",
            Key::Database => "database",
            Key::Syntax => "syntax",
            Key::Elements => "elements",
            Key::Records => "records",
            Key::Step => "step",
            Key::Window => "window",
            Key::Charset => "charset",
            Key::Patience => "patience",
            Key::Connect => "connect",
            Key::Terms => "terms",
            Key::Query => "query",
            Key::Title => "title",
            Key::Author => "author",
            Key::Subject => "subject",
            Key::Any => "any",
            Key::Isbn => "isbn",
            Key::Issn => "issn",
            Key::Year => "year",
        }
    }
}

/// How a setting is at fault.
#[derive(Clone, Copy, PartialEq, Eq)]
pub enum FaultKind {
    /// It has to be there, and is not.
    Missing,
    /// Its value is of another type.
    Type,
    /// It is empty.
    Empty,
    /// The number is too small or too large.
    Range,
    /// The text is no value of the setting.
    Text,
    /// The charset lacks a character of the text.
    Charset,
    /// The text is no query, for this reason at this octet of it.
    Query { kind: PqfErrorKind, at: usize },
    /// The text is not attributes alone.
    Prefix,
}

/// A setting at fault.
#[derive(Clone, Copy, PartialEq, Eq)]
pub struct SettingFault {
    /// The setting.
    pub key: Key,
    /// How it is at fault.
    pub kind: FaultKind,
}

/// Why the reading of a catalogue stops.
#[derive(Clone, Copy, PartialEq, Eq)]
pub enum Stop {
    /// A setting is at fault.
    Fault(SettingFault),
    /// No memory was found.
    Memory,
}

impl From<AllocError> for Stop {
    ghost from_gives = { λ _ e. e ≡ Memory };

    fn from(_: AllocError) -> Stop {
        Stop::Memory
    }
}

impl<T: Drop> From<AllocFailed<T>> for Stop {
    ghost from_gives = { λ _ e. e ≡ Memory };

    fn from(_: AllocFailed<T>) -> Stop {
        Stop::Memory
    }
}

/// Returns that a setting is at fault.
pub(crate) fn fault(key: Key, kind: FaultKind) -> Stop
    ensures { result ≡ Stop.Fault (record { key = key; kind = kind }) }
{
    Stop::Fault(SettingFault { key, kind })
}
