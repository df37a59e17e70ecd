//! The table of records: position, catalogue, year, title with all fields behind it, author, ISBN, copies.
ghost use Rattle.std.specs.Prelude.{◌≡◌, ◌++◌, codes, map, IfOk, OnOk, string_bytes};
ghost use Rattle.std.specs.List.{flat_map};
ghost use Rattle.zknow_titles.specs.Blocks.{behind_colon};
ghost use Rattle.zknow_html.specs.Records.{name_cell, title_cell, description_cells, record_row, one_of, differing_rows, described_rows, position_rows, block_break, room_behind, rows_from, place_columns, field_columns, record_columns, record_table};

use crate::cells::{
    put_block_end, put_body_start, put_cell, put_cell_start, put_column, put_compared_list,
    put_compared_start, put_compared_text, put_hidden, put_mark, put_row_start, put_table_end,
    put_table_start,
};
use crate::descriptions::describe_each;
use crate::differences::{Description, Differences, compare, name_differences, no_differences};
use std::alloc::{AllocError, Global};
use zhtml::{Element, put_end, put_text};
use zknow::{Knowledge, RowKey};
use zknow_titles::{label_of, put_joined, records_of};
use zmarc::{Charset, charset_at};

/// How many positions a block of rows has at most. A browser lays a block out once it comes near to what is in sight.
const BLOCK: usize = 50;

/// Appends the cell of a catalogue's name, with a mark behind it.
#[tactic(auto, unfolding(crate::specs::Records::name_cell))]
fn put_name(alloc: Global, name: &str, marked: &str, out: &mut String) -> Result<(), AllocError>
    ensures { OnOk result (string_bytes out.new ≡ string_bytes out.old ++ name_cell name.now marked.now) }
{
    put_cell_start(alloc, out)?;
    put_text(alloc, name.as_bytes(), out)?;
    put_mark(alloc, marked, out)?;
    put_end(Element::Td, out)
}

/// Appends the cell of a title, with the lines of all fields behind it; both are marked by themselves.
#[tactic(auto, unfolding(crate::specs::Records::title_cell))]
fn put_title(
    alloc: Global,
    other: bool,
    other_lines: bool,
    title: &str,
    lines: &[String],
    out: &mut String,
) -> Result<(), AllocError>
    ensures { OnOk result (string_bytes out.new
        ≡ string_bytes out.old ++ title_cell other other_lines title.now (map string_bytes lines.now)) }
{
    put_compared_start(alloc, other, out)?;
    put_text(alloc, title.as_bytes(), out)?;
    put_hidden(alloc, other_lines, "Fields", lines, out)?;
    put_end(Element::Td, out)
}

/// Appends the cells of what is shown of a record: each that differs is marked.
#[tactic(auto, unfolding(crate::specs::Records::description_cells))]
fn put_description(
    alloc: Global,
    parts: Differences,
    description: &Description,
    out: &mut String,
) -> Result<(), AllocError>
    ensures { OnOk result (string_bytes out.new ≡ string_bytes out.old ++ description_cells parts description.now) }
{
    let title = description.title.as_str();
    put_compared_text(alloc, parts.year, description.year.as_str(), out)?;
    put_title(
        alloc,
        parts.title,
        parts.lines,
        title,
        &description.lines,
        out,
    )?;
    put_compared_text(alloc, parts.author, description.author.as_str(), out)?;
    put_compared_text(alloc, parts.isbn, description.isbn.as_str(), out)?;
    put_compared_list(alloc, parts.copies, &description.copies, out)
}

/// Appends the row of a record: of a class, with a mark, and with what differs.
#[tactic(auto, unfolding(crate::specs::Records::record_row))]
fn put_record(
    alloc: Global,
    class: &str,
    marked: &str,
    parts: Differences,
    shown: &[String],
    key: &RowKey,
    description: &Description,
    out: &mut String,
) -> Result<(), AllocError>
    ensures { OnOk result (string_bytes out.new ≡ string_bytes out.old
        ++ record_row class.now marked.now parts (map string_bytes shown.now) key.now description.now) }
{
    put_row_start(alloc, class, out)?;
    let position = key.position.to_string(alloc)?;
    put_cell(alloc, position.as_str(), out)?;
    let name = label_of(alloc, shown, key.target, key.set)?;
    put_name(alloc, name.as_str(), marked, out)?;
    put_description(alloc, parts, description, out)?;
    put_end(Element::Tr, out)
}

/// Appends texts behind a colon, nothing if there is none.
fn put_behind_colon(texts: &[String], words: &mut String) -> Result<(), AllocError>
    ensures { OnOk result (string_bytes words.new
        ≡ string_bytes words.old ++ behind_colon (map string_bytes texts.now)) }
{
    if texts.is_empty() {
        return Ok(());
    }
    words.push_str(": ")?;
    put_joined(", ", texts, words)
}

/// Returns what marks each of several different records.
fn one_of(alloc: Global, count: usize, parts: Differences) -> Result<String, AllocError>
    ensures { IfOk result (λ words. string_bytes words ≡ one_of count parts) }
{
    let mut words = String::from_str(alloc, "one of ")?;
    let number = count.to_string(alloc)?;
    words.push_str(number.as_str())?;
    words.push_str(" different records")?;
    let names = name_differences(alloc, parts)?;
    put_behind_colon(&names, &mut words)?;
    Ok(words)
}

/// Appends the row of each of several records.
fn put_each(
    alloc: Global,
    marked: &str,
    parts: Differences,
    shown: &[String],
    key: &RowKey,
    descriptions: &[Description],
    out: &mut String,
) -> Result<(), AllocError>
    ensures { OnOk result (string_bytes out.new ≡ string_bytes out.old
        ++ flat_map (record_row (codes "differs") marked.now parts (map string_bytes shown.now) key.now)
        descriptions.now) }
{
    for description in descriptions {
        put_record(
            alloc,
            "differs",
            marked,
            parts,
            shown,
            key,
            description,
            out,
        )?;
    }
    Ok(())
}

/// Appends the row of each of several records, with its mark.
fn put_differing(
    alloc: Global,
    parts: Differences,
    shown: &[String],
    key: &RowKey,
    descriptions: &[Description],
    out: &mut String,
) -> Result<(), AllocError>
    ensures { OnOk result (string_bytes out.new ≡ string_bytes out.old
        ++ differing_rows (map string_bytes shown.now) key.now parts descriptions.now) }
{
    let marked = one_of(alloc, descriptions.len(), parts)?;
    put_each(alloc, marked.as_str(), parts, shown, key, descriptions, out)
}

/// Appends a row for each record.
fn put_described(
    alloc: Global,
    shown: &[String],
    key: &RowKey,
    descriptions: &[Description],
    out: &mut String,
) -> Result<(), AllocError>
    ensures { OnOk result (string_bytes out.new
        ≡ string_bytes out.old ++ described_rows (map string_bytes shown.now) key.now descriptions.now) }
{
    match descriptions {
        [] => Ok(()),
        [only] => put_record(alloc, "record", "", no_differences(), shown, key, only, out),
        [first, others @ ..] => {
            let parts = compare(first, others);
            put_differing(alloc, parts, shown, key, descriptions, out)
        }
    }
}

/// Appends the rows of a position of a set.
fn put_position(
    alloc: Global,
    shown: &[String],
    charsets: &[Option<Charset>],
    knowledge: &Knowledge,
    key: &RowKey,
    out: &mut String,
) -> Result<(), AllocError>
    ensures { OnOk result (string_bytes out.new
        ≡ string_bytes out.old ++ position_rows (map string_bytes shown.now) charsets.now knowledge.now key.now) }
{
    let records = records_of(knowledge, key.target, key.set, &key.position);
    let descriptions = describe_each(alloc, charset_at(charsets, key.target), records)?;
    put_described(alloc, shown, key, &descriptions, out)
}

/// Begins a new block of rows, if the block has room for no position more.
fn put_break(alloc: Global, room: usize, out: &mut String) -> Result<(), AllocError>
    ensures { OnOk result (string_bytes out.new ≡ string_bytes out.old ++ block_break room) }
{
    if room == 0 {
        return put_block_end(alloc, out);
    }
    Ok(())
}

/// Returns for how many positions a block has room behind one that had room for so many.
fn room_behind(room: usize) -> usize
    ensures { result ≡ room_behind room }
{
    if room == 0 { BLOCK - 1 } else { room - 1 }
}

/// Appends the rows of each position, in blocks.
fn put_positions(
    alloc: Global,
    shown: &[String],
    charsets: &[Option<Charset>],
    knowledge: &Knowledge,
    rows: &[RowKey],
    out: &mut String,
) -> Result<(), AllocError>
    ensures { OnOk result (string_bytes out.new ≡ string_bytes out.old
        ++ rows_from (map string_bytes shown.now) charsets.now knowledge.now 50 rows.now) }
{
    let mut room = BLOCK;
    for key in rows {
        put_break(alloc, room, out)?;
        put_position(alloc, shown, charsets, knowledge, key, out)?;
        room = room_behind(room);
    }
    Ok(())
}

/// Appends the headers of the columns of where a record is.
#[tactic(auto, unfolding(crate::specs::Records::place_columns))]
fn put_place_columns(alloc: Global, out: &mut String) -> Result<(), AllocError>
    ensures { OnOk result (string_bytes out.new ≡ string_bytes out.old ++ place_columns) }
{
    put_column(alloc, "Position", out)?;
    put_column(alloc, "Catalogue", out)
}

/// Appends the headers of the columns of what a record is.
#[tactic(auto, unfolding(crate::specs::Records::field_columns))]
fn put_field_columns(alloc: Global, out: &mut String) -> Result<(), AllocError>
    ensures { OnOk result (string_bytes out.new ≡ string_bytes out.old ++ field_columns) }
{
    put_column(alloc, "Year", out)?;
    put_column(alloc, "Title", out)?;
    put_column(alloc, "Author", out)?;
    put_column(alloc, "ISBN", out)?;
    put_column(alloc, "Copies", out)
}

/// Appends the headers of the columns.
#[tactic(auto, unfolding(crate::specs::Records::record_columns))]
fn put_columns(alloc: Global, out: &mut String) -> Result<(), AllocError>
    ensures { OnOk result (string_bytes out.new ≡ string_bytes out.old ++ record_columns) }
{
    put_place_columns(alloc, out)?;
    put_field_columns(alloc, out)
}

/// Appends the table of these rows.
#[tactic(auto, unfolding(crate::specs::Cells::table))]
pub(crate) fn put_table(
    alloc: Global,
    shown: &[String],
    charsets: &[Option<Charset>],
    knowledge: &Knowledge,
    rows: &[RowKey],
    out: &mut String,
) -> Result<(), AllocError>
    ensures { OnOk result (string_bytes out.new
        ≡ string_bytes out.old ++ record_table (map string_bytes shown.now) charsets.now knowledge.now rows.now) }
{
    put_table_start(alloc, out)?;
    put_columns(alloc, out)?;
    put_body_start(alloc, out)?;
    put_positions(alloc, shown, charsets, knowledge, rows, out)?;
    put_table_end(out)
}
