//! The rows of the view: position, name, year, text.
ghost use Rattle.std.specs.Prelude.{◌≡◌, ◌++◌, OnOk, IfOk, map, max, string_bytes};
ghost use Rattle.std.specs.List.{flat_map};
ghost use Rattle.zopac.specs.Copies.{holding_line};
ghost use Rattle.zknow_titles.specs.Entries.{texts, entry, opac_of};
ghost use Rattle.zknow_titles.specs.Columns.{spaces};
ghost use Rattle.zknow_titles.specs.Lines.{ended_line, ended};
ghost use Rattle.zknow_titles.specs.Wholes.{whole_lines};
ghost use Rattle.zknow_titles.specs.Parts.{widest};
ghost use Rattle.zknow_titles.specs.Rows.{row_name, wider, widths, row_head, row_entry, further_entry, below_row};
ghost use Rattle.zknow_titles.specs.Rows.{copy_rows, below_rows, further_lines, several, record_lines, row_lines};

use crate::blocks::records_of;
use crate::columns::{clip, count_columns, put_padded, put_spaces};
use crate::entries::{entry_with, opac_of};
use crate::names::label_of;
use crate::wholes::{Extent, whole_lines};
use std::alloc::{AllocError, Global};
use zapdu::Record;
use zknow::{Knowledge, RowKey};
use zmarc::{Charset, charset_at};
use zopac::{Holding, OpacRecord, put_holding};

/// The most columns of a name.
const NAME_COLUMNS: usize = 24;

/// The columns of positions and of names, over all rows.
#[derive(Clone, Copy, PartialEq, Eq, Default)]
pub struct Widths {
    /// The columns of positions.
    pub position: usize,
    /// The columns of names.
    pub name: usize,
}

impl Widths {
    /// Returns the greater of both.
    pub fn widest(self, other: Widths) -> Widths
        ensures { result ≡ widest self other }
    {
        Widths {
            position: greater(self.position, other.position),
            name: greater(self.name, other.name),
        }
    }
}

/// Returns the name of a row.
fn row_name(alloc: Global, shown: &[String], key: &RowKey) -> Result<String, AllocError>
    ensures { IfOk result (λ name. string_bytes name ≡ row_name (map string_bytes shown.now) key.now) }
{
    let label = label_of(alloc, shown, key.target, key.set)?;
    clip(alloc, NAME_COLUMNS, label.as_str())
}

/// Returns the greater number.
fn greater(a: usize, b: usize) -> usize
    ensures { result ≡ max a b }
{
    if a <= b { b } else { a }
}

/// Returns at least the widths so far, and those of one row more. `shown` has the names as `show_names` returns them.
pub fn wider(
    alloc: Global,
    shown: &[String],
    so_far: Widths,
    key: &RowKey,
) -> Result<Widths, AllocError>
    ensures { IfOk result (λ more. more ≡ wider (map string_bytes shown.now) so_far key.now) }
{
    let number = key.position.to_string(alloc)?;
    let name = row_name(alloc, shown, key)?;
    Ok(Widths {
        position: greater(so_far.position, number.len()),
        name: greater(so_far.name, count_columns(name.as_str())),
    })
}

/// Returns the columns of positions and of names, over all rows. `shown` has the names as `show_names` returns them.
pub fn find_widths(alloc: Global, shown: &[String], rows: &[RowKey]) -> Result<Widths, AllocError>
    ensures { IfOk result (λ found. found ≡ widths (map string_bytes shown.now) rows.now) }
{
    let mut found = Widths {
        position: 0,
        name: 0,
    };
    for key in rows {
        found = wider(alloc, shown, found, key)?;
    }
    Ok(found)
}

/// Appends the position and the name of a row.
fn put_head(
    alloc: Global,
    w: &Widths,
    shown: &[String],
    key: &RowKey,
    out: &mut Vec<u8>,
) -> Result<(), AllocError>
    ensures { OnOk result (out.new.items
        ≡ out.old.items ++ row_head w.now (map string_bytes shown.now) key.now) }
{
    out.extend_from_slice(b"  ")?;
    let number = key.position.to_string(alloc)?;
    put_spaces(w.position.saturating_sub(number.len()), out)?;
    out.extend_from_slice(number.as_bytes())?;
    out.extend_from_slice(b"  ")?;
    let name = row_name(alloc, shown, key)?;
    put_padded(w.name, name.as_str(), out)?;
    out.extend_from_slice(b"  ")
}

/// Appends a year and a text, and a line feed.
fn put_texts(year: &str, line: &str, out: &mut Vec<u8>) -> Result<(), AllocError>
    ensures { OnOk result (out.new.items ≡ out.old.items ++ ended_line (row_entry (texts year.now line.now))) }
{
    put_padded(4, year, out)?;
    out.extend_from_slice(b"  ")?;
    out.extend_from_slice(line.as_bytes())?;
    out.extend_from_slice(b"\n")
}

/// Appends spaces up to the column of years.
fn put_indent(w: &Widths, out: &mut Vec<u8>) -> Result<(), AllocError>
    ensures { OnOk result (out.new.items
        ≡ out.old.items ++ (spaces 6 ++ spaces w.now.position ++ spaces w.now.name)) }
{
    put_spaces(6, out)?;
    put_spaces(w.position, out)?;
    put_spaces(w.name, out)
}

/// Appends a line below that of a record.
fn put_below_line(w: &Widths, line: &str, out: &mut Vec<u8>) -> Result<(), AllocError>
    ensures { OnOk result (out.new.items ≡ out.old.items ++ ended_line (below_row w.now line.now)) }
{
    put_indent(w, out)?;
    put_texts("", line, out)
}

/// Appends lines below that of a record.
fn put_below_lines(w: &Widths, lines: &[String], out: &mut Vec<u8>) -> Result<(), AllocError>
    ensures { OnOk result (out.new.items
        ≡ out.old.items ++ ended (map (below_row w.now) (map string_bytes lines.now))) }
{
    for line in lines {
        put_below_line(w, line.as_str(), out)?;
    }
    Ok(())
}

/// Appends the line of a copy.
fn put_copy(
    alloc: Global,
    w: &Widths,
    holding: &Holding,
    out: &mut Vec<u8>,
) -> Result<(), AllocError>
    ensures { OnOk result (out.new.items
        ≡ out.old.items ++ ended_line (below_row w.now (holding_line holding.now))) }
{
    let mut line = String::new(alloc);
    put_holding(alloc, holding, &mut line)?;
    put_below_line(w, line.as_str(), out)
}

/// Appends the line of each copy.
fn put_each_copy(
    alloc: Global,
    w: &Widths,
    holdings: &[Holding],
    out: &mut Vec<u8>,
) -> Result<(), AllocError>
    ensures { OnOk result (out.new.items
        ≡ out.old.items ++ ended (map (below_row w.now) (map holding_line holdings.now))) }
{
    for holding in holdings {
        put_copy(alloc, w, holding, out)?;
    }
    Ok(())
}

/// Appends the lines of a record's copies, if it has any.
fn put_copies(
    alloc: Global,
    w: &Widths,
    opac: &Option<OpacRecord>,
    out: &mut Vec<u8>,
) -> Result<(), AllocError>
    ensures { OnOk result (out.new.items ≡ out.old.items ++ ended (copy_rows w.now opac.now)) }
{
    let Some(record) = opac else {
        return Ok(());
    };
    match &record.holdings {
        None => Ok(()),
        Some(holdings) => put_each_copy(alloc, w, holdings.as_slice(), out),
    }
}

/// Appends what stands below the line of a record: the whole record, if it is shown, and its copies.
fn put_below(
    alloc: Global,
    extent: Extent,
    charset: Option<Charset>,
    w: &Widths,
    record: &Record,
    opac: &Option<OpacRecord>,
    out: &mut Vec<u8>,
) -> Result<(), AllocError>
    ensures { OnOk result (out.new.items
        ≡ out.old.items ++ ended (below_rows extent charset w.now «record».now opac.now)) }
{
    let lines = whole_lines(alloc, extent, charset, record, opac)?;
    put_below_lines(w, &lines, out)?;
    put_copies(alloc, w, opac, out)
}

/// Appends the year and the text of a record, and a line feed; then what stands below it.
fn put_record(
    alloc: Global,
    extent: Extent,
    charset: Option<Charset>,
    w: &Widths,
    record: &Record,
    out: &mut Vec<u8>,
) -> Result<(), AllocError>
    ensures { OnOk result (out.new.items ≡ out.old.items
        ++ (ended_line (row_entry (entry charset «record».now))
        ++ ended (below_rows extent charset w.now «record».now (opac_of «record».now)))) }
{
    let opac = opac_of(alloc, record)?;
    let entry = entry_with(alloc, charset, record, &opac)?;
    put_texts(entry.year.as_str(), entry.line.as_str(), out)?;
    put_below(alloc, extent, charset, w, record, &opac, out)
}

/// Appends lines of its own for a further record of a row.
fn put_further(
    alloc: Global,
    extent: Extent,
    charset: Option<Charset>,
    w: &Widths,
    record: &Record,
    out: &mut Vec<u8>,
) -> Result<(), AllocError>
    ensures { OnOk result (out.new.items ≡ out.old.items ++ ended (further_lines extent charset w.now «record».now)) }
{
    put_indent(w, out)?;
    put_record(alloc, extent, charset, w, record, out)
}

/// Appends lines of its own for each record.
fn put_each(
    alloc: Global,
    extent: Extent,
    charset: Option<Charset>,
    w: &Widths,
    records: &[Record],
    out: &mut Vec<u8>,
) -> Result<(), AllocError>
    ensures { OnOk result (out.new.items
        ≡ out.old.items ++ ended (flat_map (further_lines extent charset w.now) records.now)) }
{
    for record in records {
        put_further(alloc, extent, charset, w, record, out)?;
    }
    Ok(())
}

/// Appends the line that says how many records a row has.
fn put_several(
    alloc: Global,
    head: &[u8],
    count: usize,
    out: &mut Vec<u8>,
) -> Result<(), AllocError>
    ensures { OnOk result (out.new.items ≡ out.old.items ++ ended_line (several head.now count)) }
{
    out.extend_from_slice(head)?;
    out.extend_from_slice(b"      ")?;
    let number = count.to_string(alloc)?;
    out.extend_from_slice(number.as_bytes())?;
    out.extend_from_slice(b" different records\n")
}

/// Appends the lines of a row: the record, or how many there are and then each.
fn put_records(
    alloc: Global,
    extent: Extent,
    charset: Option<Charset>,
    w: &Widths,
    head: &[u8],
    records: &[Record],
    out: &mut Vec<u8>,
) -> Result<(), AllocError>
    ensures { OnOk result (out.new.items
        ≡ out.old.items ++ ended (record_lines extent charset w.now head.now records.now)) }
{
    match records {
        [] => Ok(()),
        [record] => {
            out.extend_from_slice(head)?;
            put_record(alloc, extent, charset, w, record, out)
        }
        _ => {
            put_several(alloc, head, records.len(), out)?;
            put_each(alloc, extent, charset, w, records, out)
        }
    }
}

/// Appends the lines of a row.
pub(crate) fn put_row(
    alloc: Global,
    extent: Extent,
    w: &Widths,
    shown: &[String],
    charsets: &[Option<Charset>],
    knowledge: &Knowledge,
    key: &RowKey,
    out: &mut Vec<u8>,
) -> Result<(), AllocError>
    ensures { OnOk result (out.new.items
        ≡ out.old.items ++ ended (row_lines extent w.now (map string_bytes shown.now) charsets.now knowledge.now
        key.now)) }
{
    let mut head = Vec::new(alloc);
    put_head(alloc, w, shown, key, &mut head)?;
    let records = records_of(knowledge, key.target, key.set, &key.position);
    let charset = charset_at(charsets, key.target);
    put_records(alloc, extent, charset, w, &head, records, out)
}
