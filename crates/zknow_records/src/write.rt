//! Writing the octets of the known records.
ghost use Rattle.std.specs.Prelude.{◌≡◌, ◌++◌, IfOk, OnOk, OnErr};
ghost use Rattle.std.specs.List.{flat_map, count_by};
ghost use Rattle.std.specs.Option.{option_copied};
ghost use Rattle.zknow_records.specs.Records.{referenced, record_octets, is_unwanted, is_diagnostic, is_other, syntaxes_left, conflicts_left, rows, records_octets, left_out};

use crate::left_out::LeftOut;
use crate::one_record::{is_diagnostic, is_other, is_wanted, opac_in, own_octets};
use crate::taken::{count_conflicts, take_rows};
use std::alloc::{AllocError, Global};
use zapdu::Record;
use zber::Oid;
use zknow::{Knowledge, RowKey};

/// Appends the octets of a record, if it has octets of its own.
fn put_record(alloc: Global, record: &Record, out: &mut Vec<u8>) -> Result<(), AllocError>
    ensures { OnOk result (out.new.items ≡ out.old.items ++ record_octets «record».now) }
{
    let opac = opac_in(alloc, record)?;
    match own_octets(record, &opac) {
        Some(octets) => out.extend_from_slice(octets.as_slice()),
        None => Ok(()),
    }
}

/// Appends the octets of records.
fn put_records(alloc: Global, taken: &[&Record], out: &mut Vec<u8>) -> Result<(), AllocError>
    ensures { OnOk result (out.new.items ≡ out.old.items ++ flat_map record_octets (referenced taken.now)) }
{
    for record in taken {
        put_record(alloc, record, out)?;
    }
    Ok(())
}

/// Counts the surrogate diagnostics.
fn count_diagnostics(taken: &[&Record]) -> u64
    ensures { result ≡ count_by is_diagnostic (referenced taken.now) }
{
    let mut count = 0;
    for record in taken {
        if is_diagnostic(record) {
            count += 1;
        }
    }
    count
}

/// Counts the records that have no octets and are no surrogate diagnostics.
fn count_others(alloc: Global, taken: &[&Record]) -> Result<u64, AllocError>
    ensures { IfOk result (λ n. n ≡ count_by is_other (referenced taken.now)) }
{
    let mut count = 0;
    for record in taken {
        if is_other(alloc, record)? {
            count += 1;
        }
    }
    Ok(count)
}

/// Counts the records of another syntax than the one asked for.
fn count_unwanted(alloc: Global, asked: Option<&Oid>, taken: &[&Record]) -> Result<u64, AllocError>
    ensures { IfOk result (λ n. n ≡ count_by (is_unwanted (option_copied asked.entry)) (referenced taken.now)) }
{
    let mut count = 0;
    for record in taken {
        if !is_wanted(alloc, asked, record)? {
            count += 1;
        }
    }
    Ok(count)
}

/// Counts the records that are left out because of their syntax.
fn syntaxes_left(
    alloc: Global,
    knowledge: &Knowledge,
    keys: &[RowKey],
    asked: Option<&Oid>,
    conflicts: bool,
) -> Result<u64, AllocError>
    requires { keys.now ≡ rows knowledge.now }
    ensures { IfOk result (λ n. n ≡ syntaxes_left (option_copied asked.entry) conflicts knowledge.now) }
{
    let all = take_rows(alloc, knowledge, keys, None, conflicts)?;
    count_unwanted(alloc, asked, &all)
}

/// Counts the conflicts that are left out.
fn conflicts_left(knowledge: &Knowledge, keys: &[RowKey], conflicts: bool) -> u64
    requires { keys.now ≡ rows knowledge.now }
    ensures { result ≡ conflicts_left conflicts knowledge.now }
{
    if conflicts {
        0
    } else {
        count_conflicts(knowledge, keys)
    }
}

/// Appends the octets of the known records, one record after the other, and returns counts of what was left out.
///
/// The records are in the order of the rows of the list: by position, target and set. If several records are known at a
/// position, they are left out; with `conflicts` all of them are written, in the order of their canonical encodings. If
/// `syntax` is given, records of another syntax are left out. Only an EXTERNAL with a direct reference, octet-aligned
/// contents and nothing else has octets to write (Z39.50-2003, 3.6; X.690, 8.18). A surrogate diagnostic has none (4.1:
/// NamePlusRecord). An OPAC record (Appendix REC: OPACRecord) stands for its bibliographic record: its octets are
/// written, and its syntax is compared. Returns `AllocError` if no memory is found; nothing is appended.
pub fn write_records(
    alloc: Global,
    knowledge: &Knowledge,
    syntax: Option<&Oid>,
    conflicts: bool,
    out: &mut Vec<u8>,
) -> Result<LeftOut, AllocError>
    ensures ok { OnOk result (out.new.items ≡ out.old.items
        ++ records_octets (option_copied syntax.entry) conflicts knowledge.now) }
    ensures left { IfOk result (λ left. left ≡ left_out (option_copied syntax.entry) conflicts knowledge.now) }
    ensures err { OnErr result (out.new.items ≡ out.old.items) }
{
    let rows = knowledge.rows()?;
    let taken = take_rows(alloc, knowledge, &rows, syntax, conflicts)?;
    let syntaxes = syntaxes_left(alloc, knowledge, &rows, syntax, conflicts)?;
    let others = count_others(alloc, &taken)?;
    let left = LeftOut {
        conflicts: conflicts_left(knowledge, &rows, conflicts),
        syntaxes,
        diagnostics: count_diagnostics(&taken),
        others,
    };
    let mut octets = Vec::new(alloc);
    put_records(alloc, &taken, &mut octets)?;
    out.extend_from_slice(&octets)?;
    Ok(left)
}
