//! The title, the author and the ISBN of a record.
ghost use Rattle.std.specs.Prelude.{◌≡◌, [], unwrap_or, IfOk, string_bytes};
ghost use Rattle.zmarc.specs.Fields.{title_text, author_text, isbn_text};
ghost use Rattle.zknow_html.specs.Fields.{fields_of, no_fields, marc_fields, format_fields, content_fields, body_fields, bibliographic_fields, fields_with};

use std::alloc::{AllocError, Global};
use zapdu::{Content, External, RecordBody};
use zber::Oid;
use zmarc::{Charset, Format, Reading, format_of, put_author, put_isbn, put_title};
use zopac::OpacRecord;

/// Texts of a record, empty where it has none.
#[derive(Drop)]
pub(crate) struct Fields {
    /// The title.
    pub(crate) title: String,
    /// Who made it.
    pub(crate) author: String,
    /// The number of its ISBN.
    pub(crate) isbn: String,
}

/// Returns no text.
fn no_fields(alloc: Global) -> Fields
    ensures { fields_of (string_bytes result.title) (string_bytes result.author) (string_bytes result.isbn)
        ≡ no_fields }
{
    Fields {
        title: String::new(alloc),
        author: String::new(alloc),
        isbn: String::new(alloc),
    }
}

/// Returns the texts of a record of MARC.
fn marc_fields(alloc: Global, reading: Reading, octets: &[u8]) -> Result<Fields, AllocError>
    ensures { IfOk result (λ f. fields_of (string_bytes f.title) (string_bytes f.author) (string_bytes f.isbn)
        ≡ marc_fields reading octets.now) }
{
    let mut found = no_fields(alloc);
    put_title(alloc, octets, reading, &mut found.title)?;
    put_author(alloc, octets, reading, &mut found.author)?;
    put_isbn(alloc, octets, reading, &mut found.isbn)?;
    Ok(found)
}

/// Returns the texts of octets that are read in a format. Their character set may be known.
fn format_fields(
    alloc: Global,
    charset: Option<Charset>,
    format: Option<Format>,
    octets: &[u8],
) -> Result<Fields, AllocError>
    ensures { IfOk result (λ f. fields_of (string_bytes f.title) (string_bytes f.author) (string_bytes f.isbn)
        ≡ format_fields charset format octets.now) }
{
    match format {
        None => Ok(no_fields(alloc)),
        Some(format) => marc_fields(alloc, format.read_in(charset), octets),
    }
}

/// Returns the numbers of a syntax, none where there is no syntax.
fn arcs_of(direct: &Option<Oid>) -> &[u32]
    ensures { result.now ≡ unwrap_or direct.now [] }
{
    match direct {
        Some(syntax) => syntax.arcs(),
        None => &[],
    }
}

/// Returns the texts of a content in a syntax: the title, the author and the ISBN of octets that are read as MARC.
/// Other contents have no text.
fn content_fields(
    alloc: Global,
    charset: Option<Charset>,
    direct: &Option<Oid>,
    content: &Content,
) -> Result<Fields, AllocError>
    ensures { IfOk result (λ f. fields_of (string_bytes f.title) (string_bytes f.author) (string_bytes f.isbn)
        ≡ content_fields charset direct.now content.now) }
{
    match content {
        Content::Aligned(octets) => {
            let format = format_of(arcs_of(direct), octets.as_slice());
            format_fields(alloc, charset, format, octets.as_slice())
        }
        Content::Single(_) | Content::Arbitrary(_) => Ok(no_fields(alloc)),
    }
}

/// Returns the texts of what the target sent.
fn body_fields(
    alloc: Global,
    charset: Option<Charset>,
    body: &RecordBody,
) -> Result<Fields, AllocError>
    ensures { IfOk result (λ f. fields_of (string_bytes f.title) (string_bytes f.author) (string_bytes f.isbn)
        ≡ body_fields charset body.now) }
{
    match body {
        RecordBody::Retrieval(external) => {
            content_fields(alloc, charset, &external.direct, &external.content)
        }
        RecordBody::Surrogate(_) | RecordBody::Fragment(_) => Ok(no_fields(alloc)),
    }
}

/// Returns the texts of a bibliographic record.
fn bibliographic_fields(
    alloc: Global,
    charset: Option<Charset>,
    found: &Option<External>,
) -> Result<Fields, AllocError>
    ensures { IfOk result (λ f. fields_of (string_bytes f.title) (string_bytes f.author) (string_bytes f.isbn)
        ≡ bibliographic_fields charset found.now) }
{
    match found {
        None => Ok(no_fields(alloc)),
        Some(external) => content_fields(alloc, charset, &external.direct, &external.content),
    }
}

/// Returns the texts of what the target sent, which is a record with its copies or none.
pub(crate) fn fields_with(
    alloc: Global,
    charset: Option<Charset>,
    body: &RecordBody,
    opac: &Option<OpacRecord>,
) -> Result<Fields, AllocError>
    ensures { IfOk result (λ f. fields_of (string_bytes f.title) (string_bytes f.author) (string_bytes f.isbn)
        ≡ fields_with charset body.now opac.now) }
{
    match opac {
        None => body_fields(alloc, charset, body),
        Some(found) => bibliographic_fields(alloc, charset, &found.bibliographic),
    }
}
