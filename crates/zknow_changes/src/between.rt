//! What changed from one saved file to another.
ghost use Rattle.std.specs.Prelude.{◌≡◌, ◌++◌, Contains, IfOk, OnOk};
ghost use Rattle.std.specs.List.{flat_map, filter_map};
ghost use Rattle.std.specs.Option.{option_to_list};
ghost use Rattle.zknow.specs.Facts.{AreFacts};
ghost use Rattle.zknow.specs.Known.{IsKnownOf, records_at};
ghost use Rattle.zknow_changes.specs.Changes.{AreChanges, AreAddable};
ghost use Rattle.zknow_changes.specs.Indexes.{kind_of, change_of, row_changes, AreSideChanges};

use crate::index::{Index, Presence, index_of, presence_of};
use std::alloc::{AllocError, Global};
use zapdu::Record;
use zknow::{Knowledge, Known, Names, RowKey};

/// How a record differs between two saved files.
#[derive(Clone, Copy, PartialEq, Eq)]
pub enum ChangeKind {
    /// The later file has it. The earlier one has neither its contents nor its control number.
    New,
    /// The later file has it. The earlier one has its control number with other contents, and not its contents.
    Changed,
    /// The earlier file has it. The later one has neither its contents nor its control number.
    Gone,
}

/// A record that differs between two saved files.
#[derive(Drop)]
pub struct Change {
    /// How it differs.
    pub kind: ChangeKind,
    /// Where it stands: in the later file, or in the earlier one if it is gone.
    pub row: RowKey,
    /// The record.
    pub rec: Record,
}

/// The file whose records are looked for in the other.
#[derive(Clone, Copy, PartialEq, Eq)]
pub(crate) enum Side {
    /// The later file.
    Later,
    /// The earlier file.
    Earlier,
}

/// Returns what a record of a file is, by what the other file has of it; `None` if it is no change.
fn kind_of(side: Side, presence: Presence) -> Option<ChangeKind>
    ensures { result ≡ kind_of side presence }
{
    match (side, presence) {
        (Side::Later, Presence::Other) => Some(ChangeKind::Changed),
        (Side::Later, Presence::Absent) => Some(ChangeKind::New),
        (Side::Earlier, Presence::Absent) => Some(ChangeKind::Gone),
        _ => None,
    }
}

/// Appends a record of a row, if it is a change. Returns `AllocError` if no memory is found.
fn put_change(
    alloc: Global,
    side: Side,
    index: &Index,
    names: &Names,
    row: &RowKey,
    record: &Record,
    found: &mut Vec<Change>,
) -> Result<(), AllocError>
    ensures { OnOk result (found.new.items
        ≡ found.old.items ++ option_to_list (change_of side index.now names.now row.now «record».now)) }
{
    let presence = presence_of(alloc, index, names, row.target, record)?;
    let Some(kind) = kind_of(side, presence) else {
        return Ok(());
    };
    let rec = record.copy(alloc)?;
    found.push(Change {
        kind,
        row: *row,
        rec,
    })?;
    Ok(())
}

/// Appends the records of a row that are changes. Returns `AllocError` if no memory is found.
fn put_records(
    alloc: Global,
    side: Side,
    index: &Index,
    names: &Names,
    row: &RowKey,
    records: &[Record],
    found: &mut Vec<Change>,
) -> Result<(), AllocError>
    ensures { OnOk result (found.new.items
        ≡ found.old.items ++ filter_map (change_of side index.now names.now row.now) records.now) }
{
    for record in records {
        put_change(alloc, side, index, names, row, record, found)?;
    }
    Ok(())
}

/// Returns what is known of the record in a row.
fn known_in<'a>(knowledge: &'a Knowledge, row: &RowKey) -> Known<'a, Record>
    ensures { let k = row.now in IsKnownOf result (records_at k.target k.set k.position knowledge.now) }
{
    knowledge.at(row.target, row.set, row.position)
}

/// Returns the records that are known in a row.
fn records_in<'a>(knowledge: &'a Knowledge, row: &RowKey) -> &'a [Record]
    ensures { let k = row.now in result.now ≡ records_at k.target k.set k.position knowledge.now }
{
    match known_in(knowledge, row) {
        Known::Nothing => &[],
        Known::One(record) => std::slice::from_ref(record),
        Known::Conflict(records) => records,
    }
}

/// Appends the records of rows that are changes. Returns `AllocError` if no memory is found.
fn put_rows(
    alloc: Global,
    side: Side,
    index: &Index,
    names: &Names,
    knowledge: &Knowledge,
    rows: &[RowKey],
    found: &mut Vec<Change>,
) -> Result<(), AllocError>
    ensures { OnOk result (found.new.items
        ≡ found.old.items ++ flat_map (row_changes side index.now names.now knowledge.now) rows.now) }
{
    for row in rows {
        put_records(
            alloc,
            side,
            index,
            names,
            row,
            records_in(knowledge, row),
            found,
        )?;
    }
    Ok(())
}

/// Appends the records of a file that are changes against the other. Returns `AllocError` if no memory is found.
fn put_side(
    alloc: Global,
    side: Side,
    names: &Names,
    knowledge: &Knowledge,
    other_names: &Names,
    other: &Knowledge,
    found: &mut Vec<Change>,
) -> Result<(), AllocError>
    ensures { OnOk result (AreSideChanges side names.now knowledge.now other_names.now other.now
        found.old.items found.new.items) }
{
    let index = index_of(alloc, other_names, other)?;
    let rows = knowledge.rows()?;
    put_rows(alloc, side, &index, names, knowledge, &rows, found)?;
    Ok(())
}

/// Returns the records that are new or changed in the later of two saved files, in the order of its list; then those
/// that are gone from the earlier one, in the order of its list. Each record stands there once.
///
/// A catalogue of one file is that of the other with the same name; if it has no name, with the same number. A record
/// is new if no record of this catalogue in the earlier file has its contents or its control number; changed if one has
/// its control number, and none its contents; and gone if it is in the earlier file, and in the later one no record has
/// its contents or its control number. The name of the database is not compared.
///
/// Returns `AllocError` if no memory is found.
pub fn changes(
    alloc: Global,
    earlier_names: &Names,
    earlier: &Knowledge,
    later_names: &Names,
    later: &Knowledge,
) -> Result<Vec<Change>, AllocError>
    ensures changes { IfOk result (λ found. AreChanges earlier_names.now earlier.now later_names.now later.now
        found.items) }
    ensures facts { IfOk result (λ found. AreAddable found.items) }
{
    earlier.lawful();
    later.lawful();
    let mut found = Vec::new(alloc);
    put_side(
        alloc,
        Side::Later,
        later_names,
        later,
        earlier_names,
        earlier,
        &mut found,
    )?;
    put_side(
        alloc,
        Side::Earlier,
        earlier_names,
        earlier,
        later_names,
        later,
        &mut found,
    )?;
    Ok(found)
}
