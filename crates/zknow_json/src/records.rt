//! The lines of records: one for each position of a set.
ghost use Rattle.std.specs.Prelude.{◌≡◌, ◌++◌, OnOk, string_bytes};
ghost use Rattle.std.specs.List.{flat_map};
ghost use Rattle.zapdu.specs.Text.{octets_alone};
ghost use Rattle.zknow.specs.Known.{IsKnownOf, records_at};
ghost use Rattle.zknow_json.specs.Records.{syntax_member, database_member, encoding_member, contents_member, body_kind, body_members, record_object, row_head, record_line, conflict_line, records_line, row_line};

use crate::encoding::encode;
use crate::holdings::put_read;
use crate::line::Line;
use crate::sets::{put_diag, put_head};
use bytes::Bytes;
use std::alloc::{AllocError, Global};
use zapdu::{External, Record, RecordBody, octet_aligned};
use zber::Oid;
use zknow::{Knowledge, Known, Names, RowKey};
use zmarc::{Charset, charset_at};

/// Writes the syntax, if an object identifier names it.
fn put_syntax(alloc: Global, syntax: &Option<Oid>, line: &mut Line) -> Result<(), AllocError>
    ensures { OnOk result (line.new ≡ line.old ++ syntax_member syntax.now) }
{
    match syntax {
        None => Ok(()),
        Some(syntax) => {
            let text = syntax.text(alloc)?;
            line.put_text("syntax", text.as_str())
        }
    }
}

/// Writes the name of the database, if the record has it.
fn put_database(database: &Option<Bytes>, line: &mut Line) -> Result<(), AllocError>
    ensures { OnOk result (line.new ≡ line.old ++ database_member database.now) }
{
    match database {
        None => Ok(()),
        Some(name) => line.put_received("database", "databaseOctets", name.as_slice()),
    }
}

/// Writes the canonical encoding of a record.
fn put_encoding(alloc: Global, record: &Record, line: &mut Line) -> Result<(), AllocError>
    ensures { OnOk result (line.new ≡ line.old ++ encoding_member «record».now) }
{
    let octets = encode(alloc, record)?;
    line.put_octets("encoding", &octets)
}

/// Writes the octets of a record, or its encoding if it has no octets of its own.
fn put_contents(
    alloc: Global,
    record: &Record,
    external: &External,
    line: &mut Line,
) -> Result<(), AllocError>
    ensures { let v = external.now in OnOk result (line.new ≡ line.old
        ++ contents_member «record».now (octets_alone v.direct v.indirect v.descriptor v.content)) }
{
    match octet_aligned(external) {
        Some((_, octets)) => line.put_octets("octets", octets.as_slice()),
        None => put_encoding(alloc, record, line),
    }
}

/// Returns the type of a record.
pub(crate) fn kind_of(body: &RecordBody) -> &'static str
    ensures { result.now ≡ body_kind body.now }
{
    match body {
        RecordBody::Retrieval(_) => "record",
        RecordBody::Surrogate(_) => "diagnostic",
        RecordBody::Fragment(_) => "element",
    }
}

/// Writes what a line has of a record. The character set of the target's records may be known.
pub(crate) fn put_body(
    alloc: Global,
    charset: Option<Charset>,
    record: &Record,
    line: &mut Line,
) -> Result<(), AllocError>
    ensures { OnOk result (line.new ≡ line.old ++ body_members charset «record».now «record».now.body) }
{
    match &record.body {
        RecordBody::Retrieval(external) => {
            put_syntax(alloc, &external.direct, line)?;
            put_database(&record.name, line)?;
            put_read(alloc, charset, external, line)?;
            put_contents(alloc, record, external, line)
        }
        RecordBody::Surrogate(diag) => {
            put_database(&record.name, line)?;
            put_diag(alloc, diag, line)
        }
        RecordBody::Fragment(_) => put_encoding(alloc, record, line),
    }
}

/// Writes one of several records.
#[tactic(auto, unfolding(crate::specs::Records::record_object))]
fn put_object(
    alloc: Global,
    charset: Option<Charset>,
    record: &Record,
    line: &mut Line,
) -> Result<(), AllocError>
    ensures { OnOk result (line.new ≡ line.old ++ record_object charset «record».now) }
{
    line.begin()?;
    line.put_text("type", kind_of(&record.body))?;
    put_body(alloc, charset, record, line)?;
    line.end()
}

/// Writes each of several records.
fn put_objects(
    alloc: Global,
    charset: Option<Charset>,
    records: &[Record],
    line: &mut Line,
) -> Result<(), AllocError>
    ensures { OnOk result (line.new ≡ line.old ++ flat_map (record_object charset) records.now) }
{
    for record in records {
        put_object(alloc, charset, record, line)?;
    }
    Ok(())
}

/// Writes what the line of a row begins with.
#[tactic(auto, unfolding(crate::specs::Records::row_head))]
pub(crate) fn put_row_head(
    kind: &str,
    names: &Names,
    key: &RowKey,
    line: &mut Line,
) -> Result<(), AllocError>
    ensures { OnOk result (line.new ≡ line.old ++ row_head kind.now names.now key.now) }
{
    put_head(kind, names, key.target, key.set, line)?;
    line.put_integer("position", key.position)
}

/// Appends the line of one record.
#[tactic(auto, unfolding(crate::specs::Records::record_line))]
fn put_record_line(
    alloc: Global,
    charset: Option<Charset>,
    names: &Names,
    key: &RowKey,
    record: &Record,
    out: &mut String,
) -> Result<(), AllocError>
    ensures { OnOk result (string_bytes out.new
        ≡ string_bytes out.old ++ record_line charset names.now key.now «record».now) }
{
    let mut line = Line::new(alloc)?;
    put_row_head(kind_of(&record.body), names, key, &mut line)?;
    put_body(alloc, charset, record, &mut line)?;
    line.finish(out)
}

/// Appends the line of several records.
#[tactic(auto, unfolding(crate::specs::Records::conflict_line))]
fn put_conflict_line(
    alloc: Global,
    charset: Option<Charset>,
    names: &Names,
    key: &RowKey,
    records: &[Record],
    out: &mut String,
) -> Result<(), AllocError>
    ensures { OnOk result (string_bytes out.new
        ≡ string_bytes out.old ++ conflict_line charset names.now key.now records.now) }
{
    let mut line = Line::new(alloc)?;
    put_row_head("conflict", names, key, &mut line)?;
    line.begin_array("records")?;
    put_objects(alloc, charset, records, &mut line)?;
    line.end_array()?;
    line.finish(out)
}

/// Appends the line of the records of a row, nothing if there are none.
fn put_records(
    alloc: Global,
    charset: Option<Charset>,
    names: &Names,
    key: &RowKey,
    records: &[Record],
    out: &mut String,
) -> Result<(), AllocError>
    ensures { OnOk result (string_bytes out.new
        ≡ string_bytes out.old ++ records_line charset names.now key.now records.now) }
{
    match records {
        [] => Ok(()),
        [record] => put_record_line(alloc, charset, names, key, record, out),
        _ => put_conflict_line(alloc, charset, names, key, records, out),
    }
}

/// Returns what is known of the record in a row.
fn known_in<'a>(knowledge: &'a Knowledge, key: &RowKey) -> Known<'a, Record>
    ensures { let k = key.now in IsKnownOf result (records_at k.target k.set k.position knowledge.now) }
{
    knowledge.at(key.target, key.set, key.position)
}

/// Returns the records that are known in a row.
fn records_in<'a>(knowledge: &'a Knowledge, key: &RowKey) -> &'a [Record]
    ensures { let k = key.now in result.now ≡ records_at k.target k.set k.position knowledge.now }
{
    match known_in(knowledge, key) {
        Known::Nothing => &[],
        Known::One(record) => std::slice::from_ref(record),
        Known::Conflict(records) => records,
    }
}

/// Appends the line of a row.
#[tactic(auto, unfolding(crate::specs::Records::row_line))]
pub(crate) fn put_row(
    alloc: Global,
    names: &Names,
    charsets: &[Option<Charset>],
    knowledge: &Knowledge,
    key: &RowKey,
    out: &mut String,
) -> Result<(), AllocError>
    ensures { OnOk result (string_bytes out.new
        ≡ string_bytes out.old ++ row_line names.now charsets.now knowledge.now key.now) }
{
    let charset = charset_at(charsets, key.target);
    put_records(alloc, charset, names, key, records_in(knowledge, key), out)
}
