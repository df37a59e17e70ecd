//! Formats of records, and where each has what is shown.
ghost use Rattle.std.specs.Prelude.{◌≡◌};
ghost use Rattle.std.specs.Option.{option_copied};
ghost use Rattle.zmarc.specs.Briefs.{title_tag, title_codes, mark_before, maker_code, other_charset, read_in};
ghost use Rattle.zmarc.specs.Fields.{title_alone_codes};
ghost use Rattle.zmarc.specs.Isbns.{isbn_tag};

use crate::charset::Charset;

/// Formats of bibliographic records.
#[derive(Clone, Copy, PartialEq, Eq)]
pub enum Format {
    /// MARC 21, and what is of its family.
    Marc21,
    /// UNIMARC.
    Unimarc,
}

/// How the octets of a record are read.
#[derive(Clone, Copy, PartialEq, Eq)]
pub struct Reading {
    /// Which tags and codes the record has.
    pub format: Format,
    /// The set of characters, if it is known from elsewhere: then it does not count what the record says of its set.
    pub charset: Option<Charset>,
}

impl Format {
    /// How records of this format are read in a set of characters that is known from elsewhere. If none is, they are
    /// read in the sets that they say they are in.
    pub fn read_in(self, charset: Option<Charset>) -> Reading
        ensures { result ≡ read_in self charset }
    {
        Reading {
            format: self,
            charset,
        }
    }

    /// The tag of the title.
    pub(crate) fn title_tag(self) -> &'static [u8]
        ensures { result.now ≡ title_tag self }
    {
        match self {
            Self::Marc21 => b"245",
            Self::Unimarc => b"200",
        }
    }

    /// The codes of the subfields that are shown of the title.
    pub(crate) fn title_codes(self) -> &'static [u8]
        ensures { result.now ≡ title_codes self }
    {
        match self {
            Self::Marc21 => b"abnpc",
            Self::Unimarc => b"aefg",
        }
    }

    /// The codes of those that are the title without the statement of responsibility.
    pub(crate) fn title_alone_codes(self) -> &'static [u8]
        ensures { result.now ≡ title_alone_codes self }
    {
        match self {
            Self::Marc21 => b"abnp",
            Self::Unimarc => b"ae",
        }
    }

    /// The mark of ISBD that stands before a subfield of the title: in UNIMARC it is not in the data.
    pub(crate) fn mark_before(self, code: u8) -> Option<&'static [u8]>
        ensures { option_copied result ≡ mark_before self code }
    {
        match (self, code) {
            (Self::Unimarc, b'e') => Some(b":"),
            (Self::Unimarc, b'f') => Some(b"/"),
            (Self::Unimarc, b'g') => Some(b";"),
            _ => None,
        }
    }

    /// The code of the subfield of the title that says who made it.
    pub(crate) fn maker_code(self) -> u8
        ensures { result ≡ maker_code self }
    {
        match self {
            Self::Marc21 => b'c',
            Self::Unimarc => b'f',
        }
    }

    /// The set of characters of a record that does not say that it is in UTF-8.
    pub(crate) fn other_charset(self) -> Charset
        ensures { result ≡ other_charset self }
    {
        match self {
            Self::Marc21 => Charset::Marc8,
            Self::Unimarc => Charset::Ascii,
        }
    }

    /// The tag of the ISBN.
    pub(crate) fn isbn_tag(self) -> &'static [u8]
        ensures { result.now ≡ isbn_tag self }
    {
        match self {
            Self::Marc21 => b"020",
            Self::Unimarc => b"010",
        }
    }
}
