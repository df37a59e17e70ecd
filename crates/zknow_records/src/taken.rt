//! The records that are taken, in the order of the rows of the list.
ghost use Rattle.std.specs.Prelude.{◌≡◌, ◌++◌, IfOk, OnOk, filter};
ghost use Rattle.std.specs.List.{flat_map, count_by};
ghost use Rattle.std.specs.Option.{option_copied};
ghost use Rattle.zknow.specs.Known.{IsKnownOf};
ghost use Rattle.zknow_records.specs.Records.{is_wanted, is_conflict, taken, row_records, referenced};

use crate::one_record::is_wanted;
use std::alloc::{AllocError, Global};
use zapdu::Record;
use zber::Oid;
use zknow::{Knowledge, Known, RowKey};

/// Returns what is known of the record in a row of the list.
fn known_in<'a>(knowledge: &'a Knowledge, row: &RowKey) -> Known<'a, Record>
    ensures { IsKnownOf result (row_records knowledge.now row.now) }
{
    knowledge.at(row.target, row.set, row.position)
}

/// Appends the records that are not of another syntax than the one asked for. Returns `AllocError` if no memory is
/// found.
fn take_wanted<'a>(
    alloc: Global,
    asked: Option<&Oid>,
    records: &'a [Record],
    found: &mut Vec<&'a Record>,
) -> Result<(), AllocError>
    ensures { OnOk result (referenced found.new.items
        ≡ referenced found.old.items ++ filter (is_wanted (option_copied asked.entry)) records.now) }
{
    for record in records {
        if is_wanted(alloc, asked, record)? {
            found.push(record)?;
        }
    }
    Ok(())
}

/// Appends the records that are taken from a row. Returns `AllocError` if no memory is found.
fn take_row<'a>(
    alloc: Global,
    knowledge: &'a Knowledge,
    row: &RowKey,
    asked: Option<&Oid>,
    conflicts: bool,
    found: &mut Vec<&'a Record>,
) -> Result<(), AllocError>
    ensures { OnOk result (referenced found.new.items
        ≡ referenced found.old.items ++ taken (option_copied asked.entry) conflicts
        (row_records knowledge.now row.now)) }
{
    match known_in(knowledge, row) {
        Known::Nothing => Ok(()),
        Known::One(record) => take_wanted(alloc, asked, std::slice::from_ref(record), found),
        Known::Conflict(records) => {
            if conflicts {
                take_wanted(alloc, asked, records, found)
            } else {
                Ok(())
            }
        }
    }
}

/// Returns the records that are taken, row by row. Returns `AllocError` if no memory is found.
pub(crate) fn take_rows<'a>(
    alloc: Global,
    knowledge: &'a Knowledge,
    rows: &[RowKey],
    asked: Option<&Oid>,
    conflicts: bool,
) -> Result<Vec<&'a Record>, AllocError>
    ensures { IfOk result (λ found. referenced found.items
        ≡ flat_map (λ k. taken (option_copied asked.entry) conflicts (row_records knowledge.now k)) rows.now) }
{
    let mut found = Vec::new(alloc);
    for row in rows {
        take_row(alloc, knowledge, row, asked, conflicts, &mut found)?;
    }
    Ok(found)
}

/// Whether several records are known in a row.
fn is_conflict(knowledge: &Knowledge, row: &RowKey) -> bool
    ensures { result ≡ is_conflict (row_records knowledge.now row.now) }
{
    match known_in(knowledge, row) {
        Known::Nothing | Known::One(_) => false,
        Known::Conflict(_) => true,
    }
}

/// Counts the rows in which several records are known.
pub(crate) fn count_conflicts(knowledge: &Knowledge, rows: &[RowKey]) -> u64
    ensures { result ≡ count_by (λ k. is_conflict (row_records knowledge.now k)) rows.now }
{
    let mut count = 0;
    for row in rows {
        if is_conflict(knowledge, row) {
            count += 1;
        }
    }
    count
}
