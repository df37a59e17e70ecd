// Why a text is no query, and why a query has no text.
ghost use Rattle.std.specs.Prelude.{◌≡◌};
ghost use Rattle.zquery.specs.declared.notation.error.PqfErrorKind.TheVariants as kind;
ghost use Rattle.zquery.specs.Notation.Errors.{pqf_kind_name};

use std::alloc::{AllocError, AllocFailed};
use std::fmt::{self, Display};
use thiserror::Error;

/// What is wrong with a text of the prefix notation.
#[derive(Clone, Copy, Debug, PartialEq, Eq)]
pub enum PqfErrorKind {
    /// No quote closes the one that opens here.
    OpenQuote,
    /// The text has no token.
    Empty,
    /// Where a query is expected, a token begins with `@` and is no keyword of the notation there.
    UnknownWord,
    /// The text ends before the query does.
    MissingOperand,
    /// An attribute is not a type and a value, both decimal digits and at most 2,147,483,647.
    BadAttribute,
    /// An attribute set is neither `bib-1` nor an object identifier.
    UnknownSet,
    /// A type of term is not `general`, `numeric` or `string`.
    BadTermType,
    /// A numeric term is not decimal digits, with or without a minus before them, within 64 bits.
    BadNumber,
    /// An operand or operator stands below 32 operators.
    TooDeep,
    /// A token stands behind the whole query.
    Trailing,
    /// No memory was found.
    Memory,
}

impl Display for PqfErrorKind {
    fn fmt<W: fmt::Write>(&self, f: &mut fmt::Formatter<W>) -> fmt::Result {
        f.write_str(self.name())
    }
}

impl PqfErrorKind {
    /// Returns the variant's name, for example `OpenQuote`.
    pub fn name(self) -> &'static str
        ensures { result.now ≡ pqf_kind_name self }
    {
        match self {
            PqfErrorKind::OpenQuote => "OpenQuote",
            PqfErrorKind::Empty => "Empty",
            PqfErrorKind::UnknownWord => "UnknownWord",
            PqfErrorKind::MissingOperand => "MissingOperand",
            PqfErrorKind::BadAttribute => "BadAttribute",
            PqfErrorKind::UnknownSet => "UnknownSet",
            PqfErrorKind::BadTermType => "BadTermType",
            PqfErrorKind::BadNumber => "BadNumber",
            PqfErrorKind::TooDeep => "TooDeep",
            PqfErrorKind::Trailing => "Trailing",
            PqfErrorKind::Memory => "Memory",
        }
    }
}

/// Why a text is refused, and where. `at` is the octet at which the wrong token begins. If a token is missing, `at` is
/// the text's length; if there is no token, or if no memory was found, `at` is 0.
#[derive(Clone, Copy, Debug, PartialEq, Eq, Error)]
#[error("{kind} at {at}")]
pub struct PqfError {
    /// The octet, from 0.
    pub at: usize,
    /// What is wrong there.
    pub kind: PqfErrorKind,
}

impl From<AllocError> for PqfError {
    ghost from_gives = { λ _ e. e ≡ record { at = 0; kind = kind.Memory } };

    fn from(_: AllocError) -> PqfError {
        PqfError {
            at: 0,
            kind: PqfErrorKind::Memory,
        }
    }
}

impl<T: Drop> From<AllocFailed<T>> for PqfError {
    ghost from_gives = { λ _ e. e ≡ record { at = 0; kind = kind.Memory } };

    fn from(_: AllocFailed<T>) -> PqfError {
        PqfError {
            at: 0,
            kind: PqfErrorKind::Memory,
        }
    }
}
