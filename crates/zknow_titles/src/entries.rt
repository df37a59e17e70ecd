//! What is shown of one record: a year, where it has one, and a line of text.
ghost use Rattle.std.specs.Prelude.{◌≡◌, ◌++◌, [], true, false, unwrap_or, length, IfOk, OnOk, MatchOption, string_bytes};
ghost use Rattle.zber.specs.Canonical.{canonical};
ghost use Rattle.zber.specs.Segments.{is_string, string_octets};
ghost use Rattle.zknow_titles.specs.Entries.{texts, plain, is_marc, syntax_text, counted_octets, year_text, titled, marc_entry, sutrs_entry, other_entry, octets_entry, element_entry, bits_entry, content_entry, diag_entry, body_entry, bibliographic_entry, opac_in_content, opac_of, entry_with, is_shown};
ghost use Rattle.zopac.specs.Opacs.{opac_meaning};

use crate::diagnostics::put_diag;
use crate::sutrs::put_sutrs;
use bytes::Bytes;
use std::alloc::{AllocError, Global};
use zapdu::{Content, DiagRec, External, Record, RecordBody};
use zber::{Node, Oid, ValueError};
use zmarc::{Charset, Format, Reading, find_year, is_record, put_brief, put_text};
use zopac::{OpacRecord, PartError, read_opac};

/// The syntax of UNIMARC.
const UNIMARC: [u32; 6] = [1, 2, 840, 10003, 5, 1];
/// The syntax of SUTRS.
pub(crate) const SUTRS: [u32; 6] = [1, 2, 840, 10003, 5, 101];
/// The syntax of XML.
const XML: [u32; 7] = [1, 2, 840, 10003, 5, 109, 10];
/// The syntax of OPAC.
const OPAC: [u32; 6] = [1, 2, 840, 10003, 5, 102];
/// What the syntaxes of MARC begin with.
const SYNTAXES: [u32; 5] = [1, 2, 840, 10003, 5];

/// What is shown of a record.
#[derive(Drop)]
pub struct Entry {
    /// The year, empty where there is none.
    pub year: String,
    /// The text.
    pub line: String,
}

/// Returns a text without a year.
pub(crate) fn plain(alloc: Global, line: String) -> Entry
    ensures { texts (string_bytes result.year) (string_bytes result.line) ≡ plain (string_bytes line) }
{
    Entry {
        year: String::new(alloc),
        line,
    }
}

/// Appends a number of octets.
fn put_octet_count(alloc: Global, count: usize, line: &mut String) -> Result<(), AllocError>
    ensures { OnOk result (string_bytes line.new ≡ string_bytes line.old ++ counted_octets count) }
{
    line.push_str(", ")?;
    let number = count.to_string(alloc)?;
    line.push_str(number.as_str())?;
    line.push_str(" octets")
}

/// Returns a text and a number of octets behind it.
fn counted(alloc: Global, text: &str, count: usize) -> Result<Entry, AllocError>
    ensures { IfOk result (λ e. texts (string_bytes e.year) (string_bytes e.line)
        ≡ plain (text.now ++ counted_octets count)) }
{
    let mut line = String::from_str(alloc, text)?;
    put_octet_count(alloc, count, &mut line)?;
    Ok(plain(alloc, line))
}

/// Returns the numbers of a syntax, none where there is no syntax.
pub(crate) fn arcs_of(direct: &Option<Oid>) -> &[u32]
    ensures { result.now ≡ unwrap_or direct.now [] }
{
    match direct {
        Some(syntax) => syntax.arcs(),
        None => &[],
    }
}

/// Tells whether a syntax is one of MARC.
fn is_marc(syntax: &[u32]) -> bool
    ensures { result ≡ is_marc syntax.now }
{
    syntax.len() == 6 && &syntax[..5] == SYNTAXES.as_slice() && syntax[5] <= 99
}

/// Returns how a syntax is named.
fn syntax_text(alloc: Global, direct: &Option<Oid>) -> Result<String, AllocError>
    ensures { IfOk result (λ text. string_bytes text ≡ syntax_text direct.now) }
{
    match direct {
        None => String::from_str(alloc, "record of no named syntax"),
        Some(syntax) => {
            let mut text = String::from_str(alloc, "record of syntax ")?;
            let dotted = syntax.text(alloc)?;
            text.push_str(dotted.as_str())?;
            Ok(text)
        }
    }
}

/// Returns the entry of a record in a syntax that is not read.
fn other_entry(alloc: Global, direct: &Option<Oid>, count: usize) -> Result<Entry, AllocError>
    ensures { IfOk result (λ e. texts (string_bytes e.year) (string_bytes e.line) ≡ other_entry direct.now count) }
{
    let mut line = syntax_text(alloc, direct)?;
    put_octet_count(alloc, count, &mut line)?;
    Ok(plain(alloc, line))
}

/// Returns the year of a record of MARC, empty where it has none.
fn year_of(alloc: Global, format: Format, octets: &[u8]) -> Result<String, AllocError>
    ensures { IfOk result (λ year. string_bytes year ≡ year_text format octets.now) }
{
    let digits = find_year(alloc, octets, format)?.unwrap_or(b"");
    let mut year = String::new(alloc);
    put_text(alloc, Charset::Utf8, digits, &mut year)?;
    Ok(year)
}

/// Returns the line of a record of MARC, or that it has no title.
fn titled(alloc: Global, octets: &[u8], line: String) -> Result<String, AllocError>
    ensures { IfOk result (λ shown. string_bytes shown ≡ titled octets.now (string_bytes line)) }
{
    if !line.is_empty() {
        return Ok(line);
    }
    let mut titled = String::from_str(alloc, "no title")?;
    put_octet_count(alloc, octets.len(), &mut titled)?;
    Ok(titled)
}

/// Returns the entry of a record of MARC.
fn marc_entry(alloc: Global, reading: Reading, octets: &[u8]) -> Result<Entry, AllocError>
    ensures { IfOk result (λ e. texts (string_bytes e.year) (string_bytes e.line) ≡ marc_entry reading octets.now) }
{
    let mut brief = String::new(alloc);
    if !put_brief(alloc, octets, reading, &mut brief)? {
        return counted(alloc, "no record", octets.len());
    }
    let line = titled(alloc, octets, brief)?;
    let year = year_of(alloc, reading.format, octets)?;
    Ok(Entry { year, line })
}

/// Returns the entry of a record of SUTRS.
fn sutrs_entry(alloc: Global, charset: Option<Charset>, octets: &[u8]) -> Result<Entry, AllocError>
    ensures { IfOk result (λ e. texts (string_bytes e.year) (string_bytes e.line) ≡ sutrs_entry charset octets.now) }
{
    let mut line = String::new(alloc);
    put_sutrs(alloc, charset, octets, &mut line)?;
    Ok(plain(alloc, line))
}

/// Returns the entry of octets in a syntax.
fn octets_entry(
    alloc: Global,
    charset: Option<Charset>,
    direct: &Option<Oid>,
    octets: &[u8],
) -> Result<Entry, AllocError>
    ensures { IfOk result (λ e. texts (string_bytes e.year) (string_bytes e.line)
        ≡ octets_entry charset direct.now (unwrap_or direct.now []) octets.now) }
{
    let syntax = arcs_of(direct);
    if syntax == SUTRS.as_slice() {
        return sutrs_entry(alloc, charset, octets);
    }
    if syntax == XML.as_slice() {
        return counted(alloc, "XML", octets.len());
    }
    if syntax == UNIMARC.as_slice() {
        return marc_entry(alloc, Format::Unimarc.read_in(charset), octets);
    }
    if is_marc(syntax) || is_record(octets) {
        return marc_entry(alloc, Format::Marc21.read_in(charset), octets);
    }
    other_entry(alloc, direct, octets.len())
}

/// Returns the octets of a string, `None` where the element is no string.
pub(crate) fn string_of(alloc: Global, element: &Node) -> Result<Option<Bytes>, AllocError>
    ensures { IfOk result (λ found. MatchOption found (is_string element.now ≡ false)
        (λ octets. (is_string element.now ≡ true) × (octets ≡ string_octets element.now))) }
{
    match element.as_octets(alloc) {
        Ok(octets) => Ok(Some(octets)),
        Err(ValueError::Memory) => Err(AllocError),
        Err(_) => Ok(None),
    }
}

/// Returns the number of octets that an element has in its canonical encoding.
fn count_canonical(alloc: Global, element: &Node) -> Result<usize, AllocError>
    ensures { IfOk result (λ count. count ≡ length (canonical element.now)) }
{
    let mut octets = Vec::new(alloc);
    element.canonical(alloc, &mut octets)?;
    Ok(octets.len())
}

/// Returns the entry of an element in a syntax: text of SUTRS, or another.
fn element_entry(
    alloc: Global,
    charset: Option<Charset>,
    direct: &Option<Oid>,
    element: &Node,
) -> Result<Entry, AllocError>
    ensures { IfOk result (λ e. texts (string_bytes e.year) (string_bytes e.line)
        ≡ element_entry charset direct.now (unwrap_or direct.now []) element.now) }
{
    if arcs_of(direct) == SUTRS.as_slice() {
        if let Some(octets) = string_of(alloc, element)? {
            return sutrs_entry(alloc, charset, octets.as_slice());
        }
    }
    let count = count_canonical(alloc, element)?;
    other_entry(alloc, direct, count)
}

/// Returns the entry of bits in a syntax.
fn bits_entry(alloc: Global, direct: &Option<Oid>) -> Result<Entry, AllocError>
    ensures { IfOk result (λ e. texts (string_bytes e.year) (string_bytes e.line) ≡ bits_entry direct.now) }
{
    let mut line = syntax_text(alloc, direct)?;
    line.push_str(", in bits")?;
    Ok(plain(alloc, line))
}

/// Returns the entry of a record in a syntax.
fn content_entry(
    alloc: Global,
    charset: Option<Charset>,
    direct: &Option<Oid>,
    content: &Content,
) -> Result<Entry, AllocError>
    ensures { IfOk result (λ e. texts (string_bytes e.year) (string_bytes e.line)
        ≡ content_entry charset direct.now content.now) }
{
    match content {
        Content::Single(element) => element_entry(alloc, charset, direct, element),
        Content::Aligned(octets) => octets_entry(alloc, charset, direct, octets.as_slice()),
        Content::Arbitrary(_) => bits_entry(alloc, direct),
    }
}

/// Returns the entry of a diagnostic that stands in the place of a record.
fn diag_entry(alloc: Global, diag: &DiagRec) -> Result<Entry, AllocError>
    ensures { IfOk result (λ e. texts (string_bytes e.year) (string_bytes e.line) ≡ diag_entry diag.now) }
{
    let mut line = String::from_str(alloc, "not shown: ")?;
    put_diag(alloc, diag, &mut line)?;
    Ok(plain(alloc, line))
}

/// Returns the record with its copies that an element stands for, `None` if it stands for none.
fn read_copies(alloc: Global, element: &Node) -> Result<Option<OpacRecord>, AllocError>
    ensures { IfOk result (λ found. found ≡ opac_meaning element.now) }
{
    match read_opac(alloc, element) {
        Ok(record) => Ok(Some(record)),
        Err(PartError::Misfit) => Ok(None),
        Err(PartError::Memory) => Err(AllocError),
    }
}

/// Returns the record with its copies that a content in a syntax is, `None` if it is none.
fn opac_in_content(
    alloc: Global,
    direct: &Option<Oid>,
    content: &Content,
) -> Result<Option<OpacRecord>, AllocError>
    ensures { IfOk result (λ found. found ≡ opac_in_content (unwrap_or direct.now []) content.now) }
{
    match content {
        Content::Single(element) => {
            if arcs_of(direct) == OPAC.as_slice() {
                read_copies(alloc, element)
            } else {
                Ok(None)
            }
        }
        Content::Aligned(_) | Content::Arbitrary(_) => Ok(None),
    }
}

/// Returns the record with its copies that a record is, `None` if it is none.
pub fn opac_of(alloc: Global, record: &Record) -> Result<Option<OpacRecord>, AllocError>
    ensures { IfOk result (λ found. found ≡ opac_of «record».now) }
{
    match &record.body {
        RecordBody::Retrieval(external) => {
            opac_in_content(alloc, &external.direct, &external.content)
        }
        RecordBody::Surrogate(_) | RecordBody::Fragment(_) => Ok(None),
    }
}

/// Returns what is shown of what the target sent.
fn body_entry(
    alloc: Global,
    charset: Option<Charset>,
    body: &RecordBody,
) -> Result<Entry, AllocError>
    ensures { IfOk result (λ e. texts (string_bytes e.year) (string_bytes e.line) ≡ body_entry charset body.now) }
{
    match body {
        RecordBody::Retrieval(external) => content_entry(
            alloc,
            charset,
            &external.direct,
            &external.content,
        ),
        RecordBody::Surrogate(diag) => diag_entry(alloc, diag),
        RecordBody::Fragment(_) => {
            let line = String::from_str(alloc, "a part of a record")?;
            Ok(plain(alloc, line))
        }
    }
}

/// Returns what is shown of a bibliographic record.
fn bibliographic_entry(
    alloc: Global,
    charset: Option<Charset>,
    found: &Option<External>,
) -> Result<Entry, AllocError>
    ensures { IfOk result (λ e. texts (string_bytes e.year) (string_bytes e.line)
        ≡ bibliographic_entry charset found.now) }
{
    match found {
        None => {
            let line = String::from_str(alloc, "copies of a record that is not there")?;
            Ok(plain(alloc, line))
        }
        Some(external) => content_entry(alloc, charset, &external.direct, &external.content),
    }
}

/// Returns what is shown of a record, or of what stands in its place; of a record with its copies the bibliographic
/// record. `charset` is the character set of the target's records, if it is known.
pub fn entry_with(
    alloc: Global,
    charset: Option<Charset>,
    record: &Record,
    opac: &Option<OpacRecord>,
) -> Result<Entry, AllocError>
    ensures { IfOk result (λ e. texts (string_bytes e.year) (string_bytes e.line)
        ≡ entry_with charset «record».now opac.now) }
{
    match opac {
        None => body_entry(alloc, charset, &record.body),
        Some(found) => bibliographic_entry(alloc, charset, &found.bibliographic),
    }
}

/// Tells whether it is a record, and not the reason why there is none.
pub(crate) fn is_shown(record: &Record) -> bool
    ensures { result ≡ is_shown «record».now }
{
    match &record.body {
        RecordBody::Retrieval(_) | RecordBody::Fragment(_) => true,
        RecordBody::Surrogate(_) => false,
    }
}
