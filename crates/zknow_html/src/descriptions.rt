//! What is shown of a record.
ghost use Rattle.std.specs.Prelude.{◌≡◌, map, IfOk, string_bytes};
ghost use Rattle.zopac.specs.Copies.{holding_line};
ghost use Rattle.zknow_titles.specs.Entries.{texts, copies_of};
ghost use Rattle.zknow_html.specs.Descriptions.{described, description_of};
ghost use Rattle.zknow_html.specs.Fields.{fields_of};

use crate::differences::Description;
use crate::fields::{Fields, fields_with};
use std::alloc::{AllocError, Global};
use zapdu::Record;
use zknow_titles::{Entry, entry_with, lines_with, opac_of};
use zmarc::Charset;
use zopac::{Holding, OpacRecord, put_holding};

/// Returns the line of each copy.
fn show_holdings(alloc: Global, holdings: &[Holding]) -> Result<Vec<String>, AllocError>
    ensures { IfOk result (λ lines. map string_bytes lines.items ≡ map holding_line holdings.now) }
{
    let mut lines = Vec::new(alloc);
    for holding in holdings {
        let mut line = String::new(alloc);
        put_holding(alloc, holding, &mut line)?;
        lines.push(line)?;
    }
    Ok(lines)
}

/// Returns the lines of a record's copies, none if it has none.
fn show_copies(alloc: Global, opac: &Option<OpacRecord>) -> Result<Vec<String>, AllocError>
    ensures { IfOk result (λ lines. map string_bytes lines.items ≡ copies_of opac.now) }
{
    let Some(record) = opac else {
        return Ok(Vec::new(alloc));
    };
    match &record.holdings {
        None => Ok(Vec::new(alloc)),
        Some(holdings) => show_holdings(alloc, holdings.as_slice()),
    }
}

/// Returns what is shown of a record, by its entry and its fields.
fn describe_with(
    entry: Entry,
    fields: Fields,
    copies: Vec<String>,
    lines: Vec<String>,
) -> Description
    ensures { result ≡ described (texts (string_bytes entry.year) (string_bytes entry.line))
        (fields_of (string_bytes fields.title) (string_bytes fields.author) (string_bytes fields.isbn))
        (map string_bytes copies.items) (map string_bytes lines.items) }
{
    let line = entry.line;
    let found = fields.title;
    let title = if found.is_empty() { line } else { found };
    Description {
        year: entry.year,
        title,
        author: fields.author,
        isbn: fields.isbn,
        copies,
        lines,
    }
}

/// Returns what is shown of a record. The character set of the target's records may be known.
fn describe(
    alloc: Global,
    charset: Option<Charset>,
    record: &Record,
) -> Result<Description, AllocError>
    ensures { IfOk result (λ d. d ≡ description_of charset «record».now) }
{
    let opac = opac_of(alloc, record)?;
    let entry = entry_with(alloc, charset, record, &opac)?;
    let fields = fields_with(alloc, charset, &record.body, &opac)?;
    let copies = show_copies(alloc, &opac)?;
    let lines = lines_with(alloc, charset, record, &opac)?;
    Ok(describe_with(entry, fields, copies, lines))
}

/// Returns what is shown of each record.
pub(crate) fn describe_each(
    alloc: Global,
    charset: Option<Charset>,
    records: &[Record],
) -> Result<Vec<Description>, AllocError>
    ensures { IfOk result (λ found. found.items ≡ map (description_of charset) records.now) }
{
    let mut found = Vec::new(alloc);
    for record in records {
        let description = describe(alloc, charset, record)?;
        found.push(description)?;
    }
    Ok(found)
}
