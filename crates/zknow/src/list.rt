//! The printed list.
ghost use Rattle.std.specs.Prelude.{◌≡◌, ◌++◌, List, codes, OnOk, OnErr};
ghost use Rattle.zapdu.specs.declared.productions.record.Record.{Record};
ghost use Rattle.std.specs.Fmt.{decimal, signed_decimal};
ghost use Rattle.std.specs.List.{flat_map, filter_map};
ghost use Rattle.zapdu.specs.Text.{record_text, diag_text};
ghost use Rattle.zknow.specs.Tables.Keys.{set_cmp, row_cmp};
ghost use Rattle.zknow.specs.Known.{IsKnownOf, records_at};
ghost use Rattle.zknow.specs.List.Listing.{ascending, block_key_of, row_key_of, target_text, line, line_in, block_text, entry_text, row_text, is_hex, listing};
ghost use Rattle.zknow.specs.Tables.Sections.{table_facts, counts_of, failed_of, diags_of, marked, number_pairs};
ghost use Rattle.zknow.specs.Tables.Tables.{AreLawfulTables, IsLawfulKnowledge};

pub mod list_keys;

use crate::fact::{Known, Names};
use crate::knowledge::Knowledge;
use crate::list::list_keys::{block_keys, row_keys};
use crate::tables::Tables;
use crate::tables::distinct::Distinct;
use crate::tables::encoded_diag::EncodedDiag;
use crate::tables::keys::{Mark, RowKey, SetKey};
use crate::tables::table::Table;
use std::alloc::{AllocError, Global};
use zapdu::{DiagRec, Record, print_diag, print_record, quote};
use zber::Mode;
use zber::text::put_number;

/// Appends a number in decimal. Returns `AllocError` if no memory is found.
pub fn put_natural(alloc: Global, number: u32, out: &mut Vec<u8>) -> Result<(), AllocError>
    ensures { OnOk result (out.new.items ≡ out.old.items ++ decimal number) }
{
    let text = number.to_string(alloc)?;
    out.extend_from_slice(text.as_bytes())
}

/// Appends the quoted name of a target, or # and its number if it has no name. Returns `AllocError` if no memory is
/// found; then some of the text may be appended.
pub fn put_name(
    alloc: Global,
    names: &Names,
    target: u32,
    out: &mut Vec<u8>,
) -> Result<(), AllocError>
    ensures { OnOk result (out.new.items ≡ out.old.items ++ target_text names.now target) }
{
    match names.as_slice().get(target as usize) {
        None => {
            out.push(b'#')?;
            put_natural(alloc, target, out)
        }
        Some(name) => quote(alloc, name.as_slice(), out),
    }
}

/// Appends a line of a block.
fn put_line(
    alloc: Global,
    names: &Names,
    key: &SetKey,
    tail: &[u8],
    out: &mut Vec<u8>,
) -> Result<(), AllocError>
    ensures { OnOk result (out.new.items ≡ out.old.items ++ line names.now key.now tail.now) }
{
    out.extend_from_slice(b"target ")?;
    put_name(alloc, names, key.target, out)?;
    out.extend_from_slice(b" set ")?;
    put_natural(alloc, key.set, out)?;
    out.extend_from_slice(tail)?;
    out.extend_from_slice(b"\n")
}

/// Appends a line for each count.
fn put_counts(
    alloc: Global,
    names: &Names,
    key: &SetKey,
    counts: &[i64],
    out: &mut Vec<u8>,
) -> Result<(), AllocError>
    ensures { OnOk result (out.new.items ≡ out.old.items
        ++ flat_map (λ n. line names.now key.now (codes " count " ++ signed_decimal n)) counts.now) }
{
    for count in counts {
        let mut tail = Vec::new(alloc);
        tail.extend_from_slice(b" count ")?;
        put_number(alloc, *count, &mut tail)?;
        put_line(alloc, names, key, &tail, out)?;
    }
    Ok(())
}

/// Appends the line of a failure, if the mark is set.
fn put_failed(
    alloc: Global,
    names: &Names,
    key: &SetKey,
    mark: &Mark,
    out: &mut Vec<u8>,
) -> Result<(), AllocError>
    ensures { OnOk result (out.new.items ≡ out.old.items
        ++ flat_map (λ u. line names.now key.now (codes " failed")) (marked mark.now)) }
{
    if mark.is_set {
        put_line(alloc, names, key, b" failed", out)?;
    }
    Ok(())
}

/// Appends the line of a diagnostic.
fn put_diag(
    alloc: Global,
    names: &Names,
    key: &SetKey,
    place: &i64,
    diag: &DiagRec,
    out: &mut Vec<u8>,
) -> Result<(), AllocError>
    ensures { OnOk result (out.new.items ≡ out.old.items
        ++ line names.now key.now (codes " diag " ++ signed_decimal place.now ++ codes " " ++ diag_text diag.now)) }
{
    let mut tail = Vec::new(alloc);
    tail.extend_from_slice(b" diag ")?;
    put_number(alloc, *place, &mut tail)?;
    tail.extend_from_slice(b" ")?;
    print_diag(alloc, diag, &mut tail)?;
    put_line(alloc, names, key, &tail, out)
}

/// Appends a line for each diagnostic at one place.
fn put_diags(
    alloc: Global,
    names: &Names,
    key: &SetKey,
    place: &i64,
    diags: &[EncodedDiag],
    out: &mut Vec<u8>,
) -> Result<(), AllocError>
    ensures { OnOk result (out.new.items ≡ out.old.items
        ++ flat_map (λ d. line names.now key.now
        (codes " diag " ++ signed_decimal place.now ++ codes " " ++ diag_text d)) diags.now) }
{
    for diag in diags {
        put_diag(alloc, names, key, place, diag.diag(), out)?;
    }
    Ok(())
}

/// Appends a line for each diagnostic, by place.
fn put_all_diags(
    alloc: Global,
    names: &Names,
    key: &SetKey,
    diags: &Table<i64, Distinct<EncodedDiag>>,
    out: &mut Vec<u8>,
) -> Result<(), AllocError>
    ensures { OnOk result (out.new.items ≡ out.old.items
        ++ flat_map (λ x. line names.now key.now
        (codes " diag " ++ signed_decimal x.0 ++ codes " " ++ diag_text x.1)) (number_pairs diags.now)) }
{
    for (place, diags) in diags.iter() {
        put_diags(alloc, names, key, place, diags.values(), out)?;
    }
    Ok(())
}

/// Appends the lines of the counts of a block.
fn put_counts_at(
    alloc: Global,
    names: &Names,
    tables: &Tables,
    key: &SetKey,
    out: &mut Vec<u8>,
) -> Result<(), AllocError>
    requires { AreLawfulTables tables.now }
    ensures { OnOk result (out.new.items ≡ out.old.items
        ++ flat_map (line_in names.now key.now) (counts_of tables.now)) }
{
    match tables.counts.get(key) {
        None => Ok(()),
        Some(counts) => put_counts(alloc, names, key, counts.values(), out),
    }
}

/// Appends the line of the failure of a block, if there is one.
fn put_failed_at(
    alloc: Global,
    names: &Names,
    tables: &Tables,
    key: &SetKey,
    out: &mut Vec<u8>,
) -> Result<(), AllocError>
    requires { AreLawfulTables tables.now }
    ensures { OnOk result (out.new.items ≡ out.old.items
        ++ flat_map (line_in names.now key.now) (failed_of tables.now)) }
{
    match tables.failed.get(key) {
        None => Ok(()),
        Some(mark) => put_failed(alloc, names, key, mark, out),
    }
}

/// Appends the lines of the diagnostics of a block.
fn put_diags_at(
    alloc: Global,
    names: &Names,
    tables: &Tables,
    key: &SetKey,
    out: &mut Vec<u8>,
) -> Result<(), AllocError>
    requires { AreLawfulTables tables.now }
    ensures { OnOk result (out.new.items ≡ out.old.items
        ++ flat_map (line_in names.now key.now) (diags_of tables.now)) }
{
    match tables.diags.get(key) {
        None => Ok(()),
        Some(diags) => put_all_diags(alloc, names, key, diags, out),
    }
}

/// Appends a block.
fn put_block(
    alloc: Global,
    names: &Names,
    tables: &Tables,
    key: &SetKey,
    out: &mut Vec<u8>,
) -> Result<(), AllocError>
    requires { AreLawfulTables tables.now }
    ensures { OnOk result (out.new.items ≡ out.old.items ++ block_text names.now (table_facts tables.now) key.now) }
{
    put_counts_at(alloc, names, tables, key, out)?;
    put_failed_at(alloc, names, tables, key, out)?;
    put_diags_at(alloc, names, tables, key, out)
}

/// Appends a line for each record of a conflict.
fn put_records(
    alloc: Global,
    hex: bool,
    records: &[Record],
    out: &mut Vec<u8>,
) -> Result<(), AllocError>
    ensures { OnOk result (out.new.items ≡ out.old.items
        ++ flat_map (λ r. codes "  " ++ record_text hex r ++ codes "\n") records.now) }
{
    for record in records {
        out.extend_from_slice(b"  ")?;
        print_record(alloc, record, hex, out)?;
        out.extend_from_slice(b"\n")?;
    }
    Ok(())
}

/// Appends the end of a row: its record, or a conflict and its records.
fn put_entry(
    alloc: Global,
    hex: bool,
    known: &Known<'_, Record>,
    out: &mut Vec<u8>,
) -> Result<(), AllocError>
    ensures { OnOk result ((records : List Record) → IsKnownOf known.now records → out.new.items ≡ out.old.items
        ++ entry_text hex records) }
{
    match known {
        Known::Nothing => Ok(()),
        Known::One(record) => {
            out.extend_from_slice(b" ")?;
            print_record(alloc, record, hex, out)?;
            out.extend_from_slice(b"\n")
        }
        Known::Conflict(records) => {
            out.extend_from_slice(b" conflict ")?;
            let count = records.len().to_string(alloc)?;
            out.extend_from_slice(count.as_bytes())?;
            out.extend_from_slice(b"\n")?;
            put_records(alloc, hex, records, out)
        }
    }
}

/// Appends a row.
fn put_row(
    alloc: Global,
    names: &Names,
    hex: bool,
    knowledge: &Knowledge,
    key: &RowKey,
    out: &mut Vec<u8>,
) -> Result<(), AllocError>
    ensures { OnOk result (out.new.items ≡ out.old.items ++ row_text names.now hex knowledge.now key.now) }
{
    put_number(alloc, key.position, out)?;
    out.extend_from_slice(b" ")?;
    put_name(alloc, names, key.target, out)?;
    out.extend_from_slice(b" ")?;
    put_natural(alloc, key.set, out)?;
    let known = knowledge.at(key.target, key.set, key.position);
    put_entry(alloc, hex, &known, out)
}

/// Appends all blocks.
fn put_blocks(
    alloc: Global,
    names: &Names,
    tables: &Tables,
    out: &mut Vec<u8>,
) -> Result<(), AllocError>
    requires { AreLawfulTables tables.now }
    ensures { OnOk result (out.new.items ≡ out.old.items
        ++ flat_map (block_text names.now (table_facts tables.now))
        (ascending set_cmp (filter_map block_key_of (table_facts tables.now)))) }
{
    let keys = block_keys(alloc, tables)?;
    for key in &keys {
        put_block(alloc, names, tables, key, out)?;
    }
    Ok(())
}

/// Appends all rows.
fn put_rows(
    alloc: Global,
    names: &Names,
    hex: bool,
    knowledge: &Knowledge,
    out: &mut Vec<u8>,
) -> Result<(), AllocError>
    ensures { OnOk result (out.new.items ≡ out.old.items
        ++ flat_map (row_text names.now hex knowledge.now) (ascending row_cmp (filter_map row_key_of knowledge.now))) }
{
    let keys = row_keys(alloc, knowledge.tables())?;
    for key in &keys {
        put_row(alloc, names, hex, knowledge, key, out)?;
    }
    Ok(())
}

/// Appends the list. It has for each target and set a line for each count, the failure and each diagnostic. It then has
/// for each position, target and set the record, or a conflict and all its records. A target has its name in `names`,
/// else `#` and its number. `mode` says how octets of records are printed. Returns `AllocError` if no memory is found;
/// nothing is appended.
pub fn print_list(
    alloc: Global,
    knowledge: &Knowledge,
    names: &Names,
    mode: Mode,
    out: &mut Vec<u8>,
) -> Result<(), AllocError>
    ensures ok { OnOk result (out.new.items ≡ out.old.items ++ listing names.now mode knowledge.now) }
    ensures err { OnErr result (out.new.items ≡ out.old.items) }
{
    let hex = mode == Mode::Hex;
    let mut text = Vec::new(alloc);
    put_blocks(alloc, names, knowledge.tables(), &mut text)?;
    put_rows(alloc, names, hex, knowledge, &mut text)?;
    if out.is_empty() {
        // a list of many records is not copied
        *out = text;
        return Ok(());
    }
    out.extend_from_slice(&text)
}
