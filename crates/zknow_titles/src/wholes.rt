//! Whole records: the lines that stand below the title of a record.
ghost use Rattle.std.specs.Prelude.{◌≡◌, ◌++◌, ◌∷◌, [], unwrap_or, IfOk, OnOk, map, string_bytes};
ghost use Rattle.std.specs.Str.{encode_utf8_all};
ghost use Rattle.zmarc.specs.Charsets.{characters, text};
ghost use Rattle.zmarc.specs.declared.charset.Charset.TheVariants.{Utf8};
ghost use Rattle.zknow_titles.specs.Wholes.{text_lines, marc_lines, octets_lines, element_lines, content_lines};
ghost use Rattle.zknow_titles.specs.Wholes.{body_lines, bibliographic_lines, lines_with, whole_lines};

use crate::characters::put_chars;
use crate::entries::{SUTRS, arcs_of, string_of};
use crate::sutrs::text_charset;
use std::alloc::{AllocError, Global};
use zapdu::{Content, External, Record, RecordBody};
use zber::Node;
use zmarc::{Charset, Format, format_of, gather_lines, put_text, read_characters};
use zopac::OpacRecord;

/// How much the view shows of a record.
#[derive(Clone, Copy, PartialEq, Eq)]
pub enum Extent {
    /// Its year and its title.
    Title,
    /// These, and below them the whole record.
    Whole,
}

/// Adds a line of text.
fn take_line(alloc: Global, shown: &str, lines: &mut Vec<String>) -> Result<(), AllocError>
    ensures { OnOk result (map string_bytes lines.new.items
        ≡ map string_bytes lines.old.items ++ map (text Utf8) (shown.now ∷ [])) }
{
    let mut line = String::new(alloc);
    put_text(alloc, Charset::Utf8, shown.as_bytes(), &mut line)?;
    lines.push(line)?;
    Ok(())
}

/// Returns the text of octets in a character set.
fn decode(alloc: Global, charset: Charset, octets: &[u8]) -> Result<String, AllocError>
    ensures { IfOk result (λ text. string_bytes text ≡ encode_utf8_all (characters charset octets.now)) }
{
    let read = read_characters(alloc, charset, octets)?;
    let mut text = String::new(alloc);
    put_chars(&read, &mut text)?;
    Ok(text)
}

/// Returns the lines of a text of SUTRS.
fn text_lines(alloc: Global, charset: Charset, octets: &[u8]) -> Result<Vec<String>, AllocError>
    ensures { IfOk result (λ lines. map string_bytes lines.items ≡ text_lines charset octets.now) }
{
    let text = decode(alloc, charset, octets)?;
    let mut lines = Vec::new(alloc);
    for shown in text.as_str().lines() {
        take_line(alloc, shown, &mut lines)?;
    }
    Ok(lines)
}

/// Returns the lines of a record of MARC, none where it is in no format.
fn marc_lines(
    alloc: Global,
    charset: Option<Charset>,
    format: Option<Format>,
    octets: &[u8],
) -> Result<Vec<String>, AllocError>
    ensures { IfOk result (λ lines. map string_bytes lines.items ≡ marc_lines charset format octets.now) }
{
    match format {
        Some(found) => gather_lines(alloc, octets, found.read_in(charset)),
        None => Ok(Vec::new(alloc)),
    }
}

/// Returns the lines of octets of a syntax.
fn octets_lines(
    alloc: Global,
    charset: Option<Charset>,
    syntax: &[u32],
    octets: &[u8],
) -> Result<Vec<String>, AllocError>
    ensures { IfOk result (λ lines. map string_bytes lines.items ≡ octets_lines charset syntax.now octets.now) }
{
    if syntax == SUTRS.as_slice() {
        return text_lines(alloc, text_charset(charset), octets);
    }
    marc_lines(alloc, charset, format_of(syntax, octets), octets)
}

/// Returns the lines of an element of a syntax: of text of SUTRS, of others none.
fn element_lines(
    alloc: Global,
    charset: Option<Charset>,
    syntax: &[u32],
    element: &Node,
) -> Result<Vec<String>, AllocError>
    ensures { IfOk result (λ lines. map string_bytes lines.items ≡ element_lines charset syntax.now element.now) }
{
    if syntax == SUTRS.as_slice() {
        if let Some(octets) = string_of(alloc, element)? {
            return text_lines(alloc, text_charset(charset), octets.as_slice());
        }
    }
    Ok(Vec::new(alloc))
}

/// Returns the lines of a record in a syntax.
fn content_lines(
    alloc: Global,
    charset: Option<Charset>,
    syntax: &[u32],
    content: &Content,
) -> Result<Vec<String>, AllocError>
    ensures { IfOk result (λ lines. map string_bytes lines.items ≡ content_lines charset syntax.now content.now) }
{
    match content {
        Content::Single(element) => element_lines(alloc, charset, syntax, element),
        Content::Aligned(octets) => octets_lines(alloc, charset, syntax, octets.as_slice()),
        Content::Arbitrary(_) => Ok(Vec::new(alloc)),
    }
}

/// Returns the lines of what the target sent.
fn body_lines(
    alloc: Global,
    charset: Option<Charset>,
    body: &RecordBody,
) -> Result<Vec<String>, AllocError>
    ensures { IfOk result (λ lines. map string_bytes lines.items ≡ body_lines charset body.now) }
{
    match body {
        RecordBody::Retrieval(external) => {
            content_lines(alloc, charset, arcs_of(&external.direct), &external.content)
        }
        RecordBody::Surrogate(_) | RecordBody::Fragment(_) => Ok(Vec::new(alloc)),
    }
}

/// Returns the lines of a bibliographic record.
fn bibliographic_lines(
    alloc: Global,
    charset: Option<Charset>,
    found: &Option<External>,
) -> Result<Vec<String>, AllocError>
    ensures { IfOk result (λ lines. map string_bytes lines.items ≡ bibliographic_lines charset found.now) }
{
    match found {
        Some(external) => content_lines(
            alloc,
            charset,
            arcs_of(&external.direct),
            &external.content,
        ),
        None => Ok(Vec::new(alloc)),
    }
}

/// Returns the lines of a record, as `print_fields` shows them below its title; of a record with its copies those of
/// the bibliographic record. `charset` is the character set of the target's records, if it is known, and `opac` what
/// `opac_of` returns of the record. It fails only if no memory is found.
pub fn lines_with(
    alloc: Global,
    charset: Option<Charset>,
    record: &Record,
    opac: &Option<OpacRecord>,
) -> Result<Vec<String>, AllocError>
    ensures { IfOk result (λ lines. map string_bytes lines.items ≡ lines_with charset «record».now opac.now) }
{
    match opac {
        Some(found) => bibliographic_lines(alloc, charset, &found.bibliographic),
        None => body_lines(alloc, charset, &record.body),
    }
}

/// Returns the lines that stand below the title of a record: none, or the whole record.
pub(crate) fn whole_lines(
    alloc: Global,
    extent: Extent,
    charset: Option<Charset>,
    record: &Record,
    opac: &Option<OpacRecord>,
) -> Result<Vec<String>, AllocError>
    ensures { IfOk result (λ lines. map string_bytes lines.items ≡ whole_lines extent charset «record».now opac.now) }
{
    match extent {
        Extent::Title => Ok(Vec::new(alloc)),
        Extent::Whole => lines_with(alloc, charset, record, opac),
    }
}
