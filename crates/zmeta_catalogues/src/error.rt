//! Why a file of catalogues is refused.

ghost use Rattle.std.specs.Prelude.{◌≡◌};
ghost use Rattle.zmeta_catalogues.specs.declared.error.CatalogueError.TheVariants.{Memory};
ghost use Rattle.zmeta_catalogues.specs.Mistakes.{error_line};

use crate::fault::{FaultKind, Key, SettingFault};
use bytes::Bytes;
use std::alloc::{AllocError, AllocFailed};
use std::fmt;
use std::str::from_utf8;

/// The most octets of a name that an error shows.
const MOST_SHOWN: usize = 120;

/// Why a file of catalogues is refused. Lines and columns count from 1; line 0 is one that was not found.
#[derive(Drop)]
pub enum CatalogueError {
    /// The file begins with a byte order mark.
    ByteOrderMark,
    /// The octet here is not UTF-8.
    NotUtf8 {
        line: u64,
        column: u64,
    },
    /// The file is not TOML, for this reason here.
    Toml {
        line: u64,
        column: u64,
        reason: String,
    },
    /// A setting for all is at fault.
    ForAll {
        line: u64,
        fault: SettingFault,
    },
    /// A setting of this catalogue is at fault.
    Setting {
        line: u64,
        catalogue: Bytes,
        fault: SettingFault,
    },
    /// A key at the top is neither a setting for all nor the table of a catalogue.
    UnknownAtTop {
        line: u64,
        key: String,
        nearest: Option<Key>,
    },
    /// A key of this catalogue, or of its terms, is not known.
    UnknownKey {
        line: u64,
        catalogue: Bytes,
        key: String,
        nearest: Option<Key>,
    },
    /// A catalogue has an empty name.
    EmptyName,
    /// There are 2^32 catalogues or more.
    TooMany,
    /// No memory was found.
    Memory,
}

impl From<AllocError> for CatalogueError {
    ghost from_gives = { λ _ e. e ≡ Memory };

    fn from(_: AllocError) -> CatalogueError {
        CatalogueError::Memory
    }
}

impl<T: Drop> From<AllocFailed<T>> for CatalogueError {
    ghost from_gives = { λ _ e. e ≡ Memory };

    fn from(_: AllocFailed<T>) -> CatalogueError {
        CatalogueError::Memory
    }
}

impl CatalogueError {
    /// Returns the line, from 1; 0 if there is none.
    pub fn line(&self) -> u64
        ensures { result ≡ error_line self.now }
    {
        match self {
            CatalogueError::ByteOrderMark => 1,
            CatalogueError::NotUtf8 { line, .. } => *line,
            CatalogueError::Toml { line, .. } => *line,
            CatalogueError::ForAll { line, .. } => *line,
            CatalogueError::Setting { line, .. } => *line,
            CatalogueError::UnknownAtTop { line, .. } => *line,
            CatalogueError::UnknownKey { line, .. } => *line,
            CatalogueError::EmptyName | CatalogueError::TooMany | CatalogueError::Memory => 0,
        }
    }
}

/// Writes a line, if there is one.
fn put_line<W: fmt::Write>(f: &mut fmt::Formatter<W>, line: u64) -> fmt::Result {
    if line > 0 {
        write!(f, "line {line}: ")?;
    }
    Ok(())
}

/// Returns the front of a name that an error shows.
fn shown(name: &[u8]) -> &str {
    let front = match name.get(..MOST_SHOWN) {
        Some(front) => front,
        None => name,
    };
    match from_utf8(front) {
        Ok(text) => text,
        Err(error) => match front.get(..error.valid_up_to()) {
            Some(text) => from_utf8(text).unwrap_or(""),
            None => "",
        },
    }
}

/// Writes a name in quotes, with dots behind it if it is cut.
fn put_name<W: fmt::Write>(f: &mut fmt::Formatter<W>, name: &[u8]) -> fmt::Result {
    let text = shown(name);
    write!(f, "{text:?}")?;
    if text.len() < name.len() {
        f.write_str("...")?;
    }
    Ok(())
}

/// Returns what to write for a setting.
fn advice(key: Key) -> &'static str {
    match key {
        Key::Address => "write address = \"host:port\", the port from 1 to 65535",
        Key::Database => "write database = \"name\", or [\"one\", \"two\"] for several",
        Key::Syntax =>
            "write syntax = \"marc21\", another name of --syntax, or an object identifier",
        Key::Elements => "write elements = \"F\"",
        Key::Records => "write records = 20, from 1 to 1000000, or \"1-3,10-12\"",
        Key::Step => "write step = 10, from 1 to 1000",
        Key::Window => "write window = 4, from 1 to 64",
        Key::Charset => "write charset = \"utf-8\" or \"latin-1\"",
        Key::Patience => "write patience = 30, seconds from 1 to 3600",
        Key::Connect => "write connect = 10, seconds from 1 to 3600",
        Key::Terms => "write a table [NAME.terms]",
        Key::Query => "write query = \"@attr 1=4 dune\", in the prefix notation",
        Key::Title => "write title = \"@attr 1=4\"",
        Key::Author => "write author = \"@attr 1=1003\"",
        Key::Subject => "write subject = \"@attr 1=21\"",
        Key::Any => "write any = \"@attr 1=1016\"",
        Key::Isbn => "write isbn = \"@attr 1=7\"",
        Key::Issn => "write issn = \"@attr 1=8\"",
        Key::Year => "write year = \"@attr 1=31\"",
    }
}

/// Writes how a setting is at fault, and what to write.
fn put_fault<W: fmt::Write>(f: &mut fmt::Formatter<W>, fault: SettingFault) -> fmt::Result {
    let word = fault.key.name();
    match fault.kind {
        FaultKind::Missing => write!(f, "no {word}")?,
        FaultKind::Type => write!(f, "{word} is of another type")?,
        FaultKind::Empty => write!(f, "{word} is empty")?,
        FaultKind::Range => write!(f, "{word} is out of range")?,
        FaultKind::Text => write!(f, "{word} is not understood")?,
        FaultKind::Charset => write!(f, "{word} has a character that the charset lacks")?,
        FaultKind::Query { kind, at } => write!(f, "{word} is no query ({kind} at {at})")?,
        FaultKind::Prefix => write!(f, "{word} is not attributes alone")?,
    }
    f.write_str("; ")?;
    f.write_str(advice(fault.key))
}

/// Writes the nearest known key, if there is one.
fn put_nearest<W: fmt::Write>(f: &mut fmt::Formatter<W>, nearest: Option<Key>) -> fmt::Result {
    match nearest {
        Some(key) => {
            let word = key.name();
            write!(f, "; did you mean {word:?}?")
        }
        None => Ok(()),
    }
}

impl fmt::Display for CatalogueError {
    fn fmt<W: fmt::Write>(&self, f: &mut fmt::Formatter<W>) -> fmt::Result {
        match self {
            CatalogueError::ByteOrderMark => {
                f.write_str("line 1: the file begins with a byte order mark; save it without one")
            }
            CatalogueError::NotUtf8 { line, column } => {
                write!(
                    f,
                    "line {line}, column {column}: not UTF-8; save the file as UTF-8"
                )
            }
            CatalogueError::Toml {
                line,
                column,
                reason,
            } => {
                write!(f, "line {line}, column {column}: ")?;
                f.write_str(reason.as_str())
            }
            CatalogueError::ForAll { line, fault } => {
                put_line(f, *line)?;
                f.write_str("for all catalogues: ")?;
                put_fault(f, *fault)
            }
            CatalogueError::Setting {
                line,
                catalogue,
                fault,
            } => {
                put_line(f, *line)?;
                f.write_str("catalogue ")?;
                put_name(f, catalogue.as_slice())?;
                f.write_str(": ")?;
                put_fault(f, *fault)
            }
            CatalogueError::UnknownAtTop { line, key, nearest } => {
                put_line(f, *line)?;
                f.write_str("unknown key ")?;
                put_name(f, key.as_bytes())?;
                f.write_str(" for all catalogues")?;
                put_nearest(f, *nearest)
            }
            CatalogueError::UnknownKey {
                line,
                catalogue,
                key,
                nearest,
            } => {
                put_line(f, *line)?;
                f.write_str("unknown key ")?;
                put_name(f, key.as_bytes())?;
                f.write_str(" in ")?;
                put_name(f, catalogue.as_slice())?;
                put_nearest(f, *nearest)
            }
            CatalogueError::EmptyName => f.write_str("a catalogue has an empty name; write [name]"),
            CatalogueError::TooMany => f.write_str("too many catalogues; write fewer than 2^32"),
            CatalogueError::Memory => f.write_str("out of memory"),
        }
    }
}
