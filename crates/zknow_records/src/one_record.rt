//! The kind and the octets of one record.
ghost use Rattle.std.specs.Prelude.{◌≡◌, [], unwrap_or, IfOk};
ghost use Rattle.std.specs.Option.{option_copied};
ghost use Rattle.zopac.specs.Opacs.{opac_meaning};
ghost use Rattle.zknow_records.specs.Records.{opac_of, opac_in, written_in, is_in_syntax, is_external_wanted, is_wanted, external_octets, is_diagnostic, is_other};

use bytes::Bytes;
use std::alloc::{AllocError, Global};
use zapdu::{Content, External, Record, RecordBody, octet_aligned};
use zber::{Node, Oid};
use zopac::{OpacRecord, PartError, read_opac};

/// The syntax of OPAC.
const OPAC: [u32; 6] = [1, 2, 840, 10003, 5, 102];

/// Returns the numbers of a syntax, none where there is no syntax.
fn arcs_of(direct: &Option<Oid>) -> &[u32]
    ensures { result.now ≡ unwrap_or direct.now [] }
{
    match direct {
        Some(syntax) => syntax.arcs(),
        None => &[],
    }
}

/// Returns the record with its copies that an element stands for, `None` if it stands for none.
fn read_copies(alloc: Global, element: &Node) -> Result<Option<OpacRecord>, AllocError>
    ensures { IfOk result (λ found. found ≡ opac_meaning element.now) }
{
    match read_opac(alloc, element) {
        Ok(found) => Ok(Some(found)),
        Err(PartError::Misfit) => Ok(None),
        Err(PartError::Memory) => Err(AllocError),
    }
}

/// Returns the record with its copies that a content in a syntax is, `None` if it is none.
fn opac_of(
    alloc: Global,
    direct: &Option<Oid>,
    content: &Content,
) -> Result<Option<OpacRecord>, AllocError>
    ensures { IfOk result (λ found. found ≡ opac_of (unwrap_or direct.now []) content.now) }
{
    match content {
        Content::Single(element) => {
            if arcs_of(direct) == OPAC.as_slice() {
                read_copies(alloc, element)
            } else {
                Ok(None)
            }
        }
        Content::Aligned(_) | Content::Arbitrary(_) => Ok(None),
    }
}

/// Returns the record with its copies that a record is, `None` if it is none.
pub(crate) fn opac_in(alloc: Global, record: &Record) -> Result<Option<OpacRecord>, AllocError>
    ensures { IfOk result (λ found. found ≡ opac_in «record».now.body) }
{
    match &record.body {
        RecordBody::Retrieval(external) => opac_of(alloc, &external.direct, &external.content),
        RecordBody::Surrogate(_) | RecordBody::Fragment(_) => Ok(None),
    }
}

/// Returns the EXTERNAL whose octets are written for a record: of a record with its copies the bibliographic record.
fn written_in<'a>(record: &'a Record, opac: &'a Option<OpacRecord>) -> Option<&'a External>
    ensures { option_copied result ≡ written_in «record».now.body opac.now }
{
    match &record.body {
        RecordBody::Retrieval(external) => match opac {
            None => Some(external),
            Some(found) => match &found.bibliographic {
                None => None,
                Some(bibliographic) => Some(bibliographic),
            },
        },
        RecordBody::Surrogate(_) | RecordBody::Fragment(_) => None,
    }
}

/// Whether no syntax is asked for, or the EXTERNAL names none, or it names the one asked for.
fn is_in_syntax(asked: Option<&Oid>, direct: &Option<Oid>) -> bool
    ensures { result ≡ is_in_syntax (option_copied asked.entry) direct.now }
{
    match (asked, direct) {
        (Some(asked), Some(direct)) => asked.arcs() == direct.arcs(),
        _ => true,
    }
}

/// Whether there is no EXTERNAL of another syntax than the one asked for.
fn is_external_wanted(asked: Option<&Oid>, external: Option<&External>) -> bool
    ensures { result ≡ is_external_wanted (option_copied asked.entry) (option_copied external.entry) }
{
    match external {
        None => true,
        Some(external) => is_in_syntax(asked, &external.direct),
    }
}

/// Whether the record is not of another syntax than the one asked for. Of a record with its copies the syntax is that
/// of the bibliographic record. Returns `AllocError` if no memory is found.
pub(crate) fn is_wanted(
    alloc: Global,
    asked: Option<&Oid>,
    record: &Record,
) -> Result<bool, AllocError>
    ensures { IfOk result (λ wanted. wanted ≡ is_wanted (option_copied asked.entry) «record».now) }
{
    let opac = opac_in(alloc, record)?;
    Ok(is_external_wanted(asked, written_in(record, &opac)))
}

/// Returns the octets of an EXTERNAL that has octets of its own, else `None` (Z39.50-2003, 3.6; X.690, 8.18).
fn external_octets(external: Option<&External>) -> Option<&Bytes>
    ensures { option_copied result ≡ external_octets (option_copied external.entry) }
{
    match external {
        None => None,
        Some(external) => match octet_aligned(external) {
            Some((_, octets)) => Some(octets),
            None => None,
        },
    }
}

/// Returns the octets that are written for a record, `None` if it has none. `opac` is the record with its copies that
/// it is, if it is one.
pub(crate) fn own_octets<'a>(record: &'a Record, opac: &'a Option<OpacRecord>) -> Option<&'a Bytes>
    ensures { option_copied result ≡ external_octets (written_in «record».now.body opac.now) }
{
    external_octets(written_in(record, opac))
}

/// Whether the record is a surrogate diagnostic (Z39.50-2003, 4.1: NamePlusRecord).
pub(crate) fn is_diagnostic(record: &Record) -> bool
    ensures { result ≡ is_diagnostic «record».now }
{
    match &record.body {
        RecordBody::Retrieval(_) | RecordBody::Fragment(_) => false,
        RecordBody::Surrogate(_) => true,
    }
}

/// Whether the record has no octets of its own and is no surrogate diagnostic. Returns `AllocError` if no memory is
/// found.
pub(crate) fn is_other(alloc: Global, record: &Record) -> Result<bool, AllocError>
    ensures { IfOk result (λ other. other ≡ is_other «record».now) }
{
    let opac = opac_in(alloc, record)?;
    Ok(own_octets(record, &opac).is_none() && !is_diagnostic(record))
}
