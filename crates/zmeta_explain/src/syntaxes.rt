//! The names of record syntaxes, and what else people write for them.
ghost use Rattle.std.specs.Prelude.{◌≡◌};
ghost use Rattle.std.specs.Option.{option_map};
ghost use Rattle.std.specs.Str.{str_eq_ignore_ascii_case};
ghost use Rattle.zmeta_explain.specs.Sentences.{sentence_text};
ghost use Rattle.zmeta_explain.specs.Syntaxes.{marc21_word, unimarc_word, xml_word, sutrs_word, opac_word, grs1_word, meant_syntax, syntax_name, syntax_oid, syntax_words, other_words};

use crate::sentences::{Insert, Sentence};

/// A record syntax that has a name.
#[derive(Clone, Copy, PartialEq, Eq)]
pub(crate) enum NamedSyntax {
    Marc21,
    Unimarc,
    Xml,
    Sutrs,
    Opac,
    Grs1,
}

impl NamedSyntax {
    /// Returns the name, as `--syntax` takes it.
    fn name(self) -> &'static str
        ensures { result.now ≡ syntax_name self }
    {
        match self {
            NamedSyntax::Marc21 => "marc21",
            NamedSyntax::Unimarc => "unimarc",
            NamedSyntax::Xml => "xml",
            NamedSyntax::Sutrs => "sutrs",
            NamedSyntax::Opac => "opac",
            NamedSyntax::Grs1 => "grs1",
        }
    }

    /// Returns the object identifier in dotted form (Z39.50-2003, Appendix REC).
    pub(crate) fn dotted(self) -> &'static str
        ensures { result.now ≡ syntax_oid self }
    {
        match self {
            NamedSyntax::Marc21 => "1.2.840.10003.5.10",
            NamedSyntax::Unimarc => "1.2.840.10003.5.1",
            NamedSyntax::Xml => "1.2.840.10003.5.109.10",
            NamedSyntax::Sutrs => "1.2.840.10003.5.101",
            NamedSyntax::Opac => "1.2.840.10003.5.102",
            NamedSyntax::Grs1 => "1.2.840.10003.5.105",
        }
    }
}

/// Tells whether a text is this word, in either case.
pub(crate) fn is_same(text: &[u8], word: &[u8]) -> bool
    ensures { result ≡ str_eq_ignore_ascii_case text.now word.now }
{
    text.eq_ignore_ascii_case(word)
}

fn is_marc21(text: &[u8]) -> bool
    ensures { result ≡ marc21_word text.now }
{
    is_same(text, b"marc21") || is_same(text, b"usmarc") || is_same(text, b"marc")
}

fn is_unimarc(text: &[u8]) -> bool
    ensures { result ≡ unimarc_word text.now }
{
    is_same(text, b"unimarc")
}

fn is_xml(text: &[u8]) -> bool
    ensures { result ≡ xml_word text.now }
{
    is_same(text, b"xml") || is_same(text, b"marcxml")
}

fn is_sutrs(text: &[u8]) -> bool
    ensures { result ≡ sutrs_word text.now }
{
    is_same(text, b"sutrs") || is_same(text, b"text")
}

fn is_opac(text: &[u8]) -> bool
    ensures { result ≡ opac_word text.now }
{
    is_same(text, b"opac")
}

fn is_grs1(text: &[u8]) -> bool
    ensures { result ≡ grs1_word text.now }
{
    is_same(text, b"grs1") || is_same(text, b"grs-1")
}

/// Returns the syntax that a word is a name of, in either case, here or elsewhere.
pub(crate) fn meant_syntax(text: &[u8]) -> Option<NamedSyntax>
    ensures { result ≡ meant_syntax text.now }
{
    if is_marc21(text) {
        Some(NamedSyntax::Marc21)
    } else if is_unimarc(text) {
        Some(NamedSyntax::Unimarc)
    } else if is_xml(text) {
        Some(NamedSyntax::Xml)
    } else if is_sutrs(text) {
        Some(NamedSyntax::Sutrs)
    } else if is_opac(text) {
        Some(NamedSyntax::Opac)
    } else if is_grs1(text) {
        Some(NamedSyntax::Grs1)
    } else {
        None
    }
}

/// Returns the words for a text that is no syntax of `--syntax`.
pub(crate) fn syntax_sentence(text: &[u8]) -> Sentence<'_>
    ensures { sentence_text result ≡ syntax_words text.now }
{
    match meant_syntax(text) {
        Some(meant) => Sentence::Two(
            "",
            Insert::Text(text),
            " is no name of a syntax here; write ",
            Insert::Words(meant.name()),
            "",
        ),
        None => Sentence::One(
            "",
            Insert::Text(text),
            " is no syntax; syntaxes are marc21, unimarc, xml, sutrs, opac, grs1, or a dotted OID",
        ),
    }
}
