//! The fields of a record of MARC, as members of its object.
ghost use Rattle.std.specs.Prelude.{◌≡◌, ◌++◌, [], unwrap_or, OnOk, IfOk, string_bytes};
ghost use Rattle.zmarc.specs.Fields.{year_text, title_text, author_text, isbn_text};
ghost use Rattle.zknow_json.specs.Fields.{filled_member, marc_members, format_members, field_members};

use crate::line::Line;
use std::alloc::{AllocError, Global};
use zapdu::{Content, External};
use zber::Oid;
use zmarc::{Charset, Format, Reading, format_of, put_author, put_isbn, put_title, put_year};

/// Writes a member with a text, unless the text is empty.
#[tactic(auto, unfolding(crate::specs::Fields::filled_member))]
fn put_filled(name: &str, text: &str, line: &mut Line) -> Result<(), AllocError>
    ensures { OnOk result (line.new ≡ line.old ++ filled_member name.now text.now) }
{
    if text.is_empty() {
        return Ok(());
    }
    line.put_text(name, text)
}

/// Returns the year of a record of MARC, empty where it has none.
fn year_of(alloc: Global, reading: Reading, octets: &[u8]) -> Result<String, AllocError>
    ensures { IfOk result (λ text. string_bytes text ≡ year_text reading octets.now) }
{
    let mut text = String::new(alloc);
    put_year(alloc, octets, reading, &mut text)?;
    Ok(text)
}

/// Returns the title of a record of MARC, empty where it has none.
fn title_of(alloc: Global, reading: Reading, octets: &[u8]) -> Result<String, AllocError>
    ensures { IfOk result (λ text. string_bytes text ≡ title_text reading octets.now) }
{
    let mut text = String::new(alloc);
    put_title(alloc, octets, reading, &mut text)?;
    Ok(text)
}

/// Returns who made what a record of MARC describes, empty where it does not say so.
fn author_of(alloc: Global, reading: Reading, octets: &[u8]) -> Result<String, AllocError>
    ensures { IfOk result (λ text. string_bytes text ≡ author_text reading octets.now) }
{
    let mut text = String::new(alloc);
    put_author(alloc, octets, reading, &mut text)?;
    Ok(text)
}

/// Returns the number of the ISBN of a record of MARC, empty where it has none.
fn isbn_of(alloc: Global, reading: Reading, octets: &[u8]) -> Result<String, AllocError>
    ensures { IfOk result (λ text. string_bytes text ≡ isbn_text reading octets.now) }
{
    let mut text = String::new(alloc);
    put_isbn(alloc, octets, reading, &mut text)?;
    Ok(text)
}

/// Writes what a record of MARC has of year, title, author and ISBN.
#[tactic(auto, unfolding(crate::specs::Fields::marc_members))]
fn put_marc(
    alloc: Global,
    reading: Reading,
    octets: &[u8],
    line: &mut Line,
) -> Result<(), AllocError>
    ensures { OnOk result (line.new ≡ line.old ++ marc_members reading octets.now) }
{
    let year = year_of(alloc, reading, octets)?;
    put_filled("year", year.as_str(), line)?;
    let title = title_of(alloc, reading, octets)?;
    put_filled("title", title.as_str(), line)?;
    let author = author_of(alloc, reading, octets)?;
    put_filled("author", author.as_str(), line)?;
    let isbn = isbn_of(alloc, reading, octets)?;
    put_filled("isbn", isbn.as_str(), line)
}

/// Writes the same of octets that are read in a format, and nothing of others. Their character set may be known.
fn put_in_format(
    alloc: Global,
    charset: Option<Charset>,
    format: Option<Format>,
    octets: &[u8],
    line: &mut Line,
) -> Result<(), AllocError>
    ensures { OnOk result (line.new ≡ line.old ++ format_members charset format octets.now) }
{
    match format {
        None => Ok(()),
        Some(format) => put_marc(alloc, format.read_in(charset), octets, line),
    }
}

/// Returns the numbers of a syntax, none where there is no syntax.
pub(crate) fn arcs_of(direct: &Option<Oid>) -> &[u32]
    ensures { result.now ≡ unwrap_or direct.now [] }
{
    match direct {
        Some(syntax) => syntax.arcs(),
        None => &[],
    }
}

/// Writes the fields of a record that is octets in a syntax of MARC, or a record of ISO 2709 in another; nothing of
/// other records. The character set of the target's records may be known.
pub(crate) fn put_fields(
    alloc: Global,
    charset: Option<Charset>,
    external: &External,
    line: &mut Line,
) -> Result<(), AllocError>
    ensures { OnOk result (line.new ≡ line.old ++ field_members charset external.now.direct external.now.content) }
{
    match &external.content {
        Content::Aligned(octets) => {
            let format = format_of(arcs_of(&external.direct), octets.as_slice());
            put_in_format(alloc, charset, format, octets.as_slice(), line)
        }
        Content::Single(_) | Content::Arbitrary(_) => Ok(()),
    }
}
