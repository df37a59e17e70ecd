//! The APDUs that an origin sends.
ghost use Rattle.std.specs.Prelude.{◌≡◌, IfOk};
ghost use Rattle.zorigin.specs.Sending.{init_request, set_name, element_set, search_request, composition, sent_range, additional, present_request, close_request};

use crate::reference::reference_id;
use crate::settings::{Ask, Settings};
use crate::state::Searched;
use bytes::Bytes;
use std::alloc::{AllocError, Global};
use zapdu::{
    Apdu, Close, ElementSetNames, InitRequest, PresentRequest, Range as SentRange,
    RecordComposition, SearchQuery, SearchRequest,
};
use zber::{Bits, Duplicate, Seq};
use zplan::Range;

/// The size in octets that is offered for records and for one record.
const SIZE: i64 = 1_048_576;

/// Versions 1 to 3: bits 0, 1 and 2 of ProtocolVersion (Z39.50-2003, 4.1).
const VERSIONS: [bool; 3] = [true, true, true];

/// Search 0, present 1, concurrentOperations 13, namedResultSets 14: bits of Options (Z39.50-2003, 4.1).
const OPTIONS: [bool; 15] = [
    true, true, false, false, false, false, false, false, false, false, false, false, false, true,
    true,
];

/// Returns the request of Init. Returns `AllocError` if no memory is found.
pub(crate) fn init_request(alloc: Global, settings: &Settings) -> Result<Apdu, AllocError>
    ensures { IfOk result (λ apdu. apdu ≡ init_request settings.now) }
{
    Ok(Apdu::InitRequest(InitRequest {
        reference_id: Some(reference_id(alloc, 0)?),
        protocol_version: Bits::from_slice(alloc, &VERSIONS)?,
        options: Bits::from_slice(alloc, &OPTIONS)?,
        preferred_message_size: SIZE,
        exceptional_record_size: SIZE,
        id_authentication: None,
        implementation_id: None,
        implementation_name: Some(settings.name.clone()?),
        implementation_version: None,
        user_information_field: None,
        other_info: None,
    }))
}

/// The name of a set: its number in decimal if named result sets are in force, else `default`.
fn set_name(alloc: Global, named: bool, set: u32) -> Result<Bytes, AllocError>
    ensures { IfOk result (λ name. name ≡ set_name named set) }
{
    if named {
        let text = set.to_string(alloc)?;
        Bytes::copy_from_slice(alloc, text.as_bytes())
    } else {
        Ok(Bytes::from_static(b"default"))
    }
}

/// One element set for all databases.
fn element_set(
    alloc: Global,
    elements: &Option<Bytes>,
) -> Result<Option<ElementSetNames>, AllocError>
    ensures { IfOk result (λ names. names ≡ element_set elements.now) }
{
    match elements {
        None => Ok(None),
        Some(name) => Ok(Some(ElementSetNames::Generic(name.duplicate(alloc)?))),
    }
}

/// Returns the request of a search. Returns `AllocError` if no memory is found.
pub(crate) fn search_request(
    alloc: Global,
    named: bool,
    op: u32,
    set: u32,
    ask: &Ask,
) -> Result<Apdu, AllocError>
    ensures { IfOk result (λ apdu. apdu ≡ search_request named op set ask.now) }
{
    Ok(Apdu::SearchRequest(SearchRequest {
        reference_id: Some(reference_id(alloc, op)?),
        small_set_upper_bound: ask.small,
        large_set_lower_bound: ask.large,
        medium_set_present_number: ask.medium,
        replace_indicator: true,
        result_set_name: set_name(alloc, named, set)?,
        database_names: ask.databases.duplicate(alloc)?,
        small_set_element_set_names: element_set(alloc, &ask.elements)?,
        medium_set_element_set_names: element_set(alloc, &ask.elements)?,
        preferred_record_syntax: ask.syntax.duplicate(alloc)?,
        query: SearchQuery::Rpn(ask.query.copy(alloc)?),
        additional_search_info: None,
        other_info: None,
    }))
}

/// The element set of a Present.
fn composition(
    alloc: Global,
    elements: &Option<Bytes>,
) -> Result<Option<RecordComposition>, AllocError>
    ensures { IfOk result (λ made. made ≡ composition elements.now) }
{
    match elements {
        None => Ok(None),
        Some(name) => Ok(Some(RecordComposition::Simple(ElementSetNames::Generic(name.duplicate(
            alloc,
        )?)))),
    }
}

fn sent_range(range: Range) -> SentRange
    ensures { result ≡ sent_range range }
{
    SentRange {
        starting_position: range.start,
        number_of_records: range.n,
    }
}

/// The ranges after the first, if there are some.
fn additional(alloc: Global, others: &[Range]) -> Result<Option<Seq<SentRange>>, AllocError>
    ensures { IfOk result (λ ranges. ranges ≡ additional others.now) }
{
    if others.is_empty() {
        return Ok(None);
    }
    let mut ranges = Vec::with_capacity(alloc, others.len())?;
    for range in others {
        ranges.push(sent_range(*range))?;
    }
    Ok(Some(Seq::from_vec(ranges)))
}

/// Returns the request of a Present, with the syntax and the element set of its search. Returns `AllocError` if no
/// memory is found.
pub(crate) fn present_request(
    alloc: Global,
    named: bool,
    op: u32,
    first: Range,
    others: &[Range],
    searched: &Searched,
) -> Result<Apdu, AllocError>
    ensures { IfOk result (λ apdu. apdu ≡ present_request named op first others.now searched.now) }
{
    Ok(Apdu::PresentRequest(PresentRequest {
        reference_id: Some(reference_id(alloc, op)?),
        result_set_id: set_name(alloc, named, searched.set)?,
        result_set_start_point: first.start,
        number_of_records_requested: first.n,
        additional_ranges: additional(alloc, others)?,
        record_composition: composition(alloc, &searched.elements)?,
        preferred_record_syntax: searched.syntax.duplicate(alloc)?,
        max_segment_count: None,
        max_record_size: None,
        max_segment_size: None,
        other_info: None,
    }))
}

/// The request of a Close, with reason 0 (finished).
pub(crate) fn close_request() -> Apdu
    ensures { result ≡ close_request }
{
    Apdu::Close(Close {
        reference_id: None,
        close_reason: 0,
        diagnostic_information: None,
        resource_report_format: None,
        resource_report: None,
        other_info: None,
    })
}
