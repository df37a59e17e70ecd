//! Control numbers of records.
ghost use Rattle.std.specs.Prelude.{◌≡◌, [], unwrap_or, IfOk};
ghost use Rattle.std.specs.Option.{option_copied};
ghost use Rattle.zopac.specs.Opacs.{opac_meaning};
ghost use Rattle.zknow_changes.specs.Numbers.{marc_number, external_number, opac_of, number_with, control_number};

use bytes::Bytes;
use std::alloc::{AllocError, Global};
use zapdu::{Content, External, Record, RecordBody};
use zber::{Node, Oid};
use zmarc::{first_field, format_of, is_record};
use zopac::{OpacRecord, PartError, read_opac};

/// The syntax of OPAC.
const OPAC: [u32; 6] = [1, 2, 840, 10003, 5, 102];

/// Returns the numbers of a syntax, none where there is no syntax.
fn arcs_of(direct: &Option<Oid>) -> &[u32]
    ensures { result.now ≡ unwrap_or direct.now [] }
{
    match direct {
        Some(syntax) => syntax.arcs(),
        None => &[],
    }
}

/// Returns the control number of a record of ISO 2709, `None` if the octets are no record or it has none.
fn marc_number(octets: &[u8]) -> Option<&[u8]>
    ensures { option_copied result ≡ marc_number octets.now }
{
    if !is_record(octets) {
        return None;
    }
    let number = first_field(octets, b"001")?;
    if number.is_empty() {
        None
    } else {
        Some(number)
    }
}

/// Returns the control number of a record in a syntax of MARC, or of a record of ISO 2709 in another, if it has one.
fn external_number(external: &External) -> Option<&[u8]>
    ensures { option_copied result ≡ external_number external.now }
{
    match &external.content {
        Content::Aligned(octets) => {
            match format_of(arcs_of(&external.direct), octets.as_slice()) {
                Some(_) => marc_number(octets.as_slice()),
                None => None,
            }
        }
        Content::Single(_) | Content::Arbitrary(_) => None,
    }
}

/// Returns the record with its copies that an element stands for, `None` if it stands for none.
fn read_copies(alloc: Global, element: &Node) -> Result<Option<OpacRecord>, AllocError>
    ensures { IfOk result (λ found. found ≡ opac_meaning element.now) }
{
    match read_opac(alloc, element) {
        Ok(found) => Ok(Some(found)),
        Err(PartError::Misfit) => Ok(None),
        Err(PartError::Memory) => Err(AllocError),
    }
}

/// Returns the record with its copies that a content in a syntax is, `None` if it is none.
fn opac_of(
    alloc: Global,
    direct: &Option<Oid>,
    content: &Content,
) -> Result<Option<OpacRecord>, AllocError>
    ensures { IfOk result (λ found. found ≡ opac_of (unwrap_or direct.now []) content.now) }
{
    match content {
        Content::Single(element) => {
            if arcs_of(direct) == OPAC.as_slice() {
                read_copies(alloc, element)
            } else {
                Ok(None)
            }
        }
        Content::Aligned(_) | Content::Arbitrary(_) => Ok(None),
    }
}

/// Returns the control number of a record, of one with its copies that of the bibliographic record.
fn number_with<'a>(external: &'a External, opac: &'a Option<OpacRecord>) -> Option<&'a [u8]>
    ensures { option_copied result ≡ number_with external.now opac.now }
{
    match opac {
        None => external_number(external),
        Some(found) => match &found.bibliographic {
            None => None,
            Some(bibliographic) => external_number(bibliographic),
        },
    }
}

/// Returns a copy of the octets, if there are any.
fn copied(alloc: Global, number: Option<&[u8]>) -> Result<Option<Bytes>, AllocError>
    ensures { IfOk result (λ copy. copy ≡ option_copied number.entry) }
{
    match number {
        None => Ok(None),
        Some(octets) => Ok(Some(Bytes::copy_from_slice(alloc, octets)?)),
    }
}

/// Returns the control number of a record, `None` if it has none: the field 001 of a record of MARC (MARC 21 and
/// UNIMARC), unless it is empty; of a record with its copies that of the bibliographic record. Returns `AllocError` if
/// no memory is found.
pub(crate) fn number_of(alloc: Global, record: &Record) -> Result<Option<Bytes>, AllocError>
    ensures { IfOk result (λ number. number ≡ control_number «record».now) }
{
    match &record.body {
        RecordBody::Retrieval(external) => {
            let opac = opac_of(alloc, &external.direct, &external.content)?;
            copied(alloc, number_with(external, &opac))
        }
        RecordBody::Surrogate(_) | RecordBody::Fragment(_) => Ok(None),
    }
}
