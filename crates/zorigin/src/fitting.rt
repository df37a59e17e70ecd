//! Whether a reply fits an operation.
ghost use Rattle.std.specs.Prelude.{◌≡◌, not, length};
ghost use Rattle.zplan.specs.Ranges.{positions};
ghost use Rattle.zorigin.specs.Fitting.{records_in, diagnostics_in, is_empty, is_fragment, has_fragment, is_number, is_more_than, count_mismatch, has_negative_count, bad_search, bad_present, search_fault, present_fault, fault_of};

use crate::answer::What;
use crate::range::exceed_positions;
use crate::refusal::Refused;
use zapdu::{Apdu, PresentResponse, Record, RecordBody, Records, SearchResponse};
use zplan::Range;

/// The records of a response.
pub fn records_in(records: &Option<Records>) -> &[Record]
    ensures { result.now ≡ records_in records.now }
{
    match records {
        Some(Records::List(records)) => records.as_slice(),
        _ => &[],
    }
}

/// Whether nonsurrogate diagnostics came.
fn has_diagnostics(records: &Option<Records>) -> bool
    ensures { result ≡ not (is_empty (diagnostics_in records.now)) }
{
    match records {
        Some(Records::OneDiag(_)) => true,
        Some(Records::ManyDiags(diags)) => !diags.as_slice().is_empty(),
        _ => false,
    }
}

/// Whether the record is a fragment.
fn is_fragment(given: &Record) -> bool
    ensures { result ≡ is_fragment given.now.body }
{
    matches!(&given.body, RecordBody::Fragment(_))
}

/// Whether a fragment is among the records.
fn has_fragment(records: &Option<Records>) -> bool
    ensures { result ≡ has_fragment records.now }
{
    records_in(records).iter().any(|given| is_fragment(given))
}

/// Whether the number equals the length.
fn is_number(number: i64, len: usize) -> bool
    ensures { result ≡ is_number number len }
{
    number >= 0 && number as usize == len
}

/// Whether the length is above the number.
fn is_more_than(len: usize, number: i64) -> bool
    ensures { result ≡ is_more_than len number }
{
    number < 0 || (number as usize) < len
}

/// Whether no diagnostics came, and numberOfRecordsReturned is not the number of records.
fn is_count_mismatch(records: &Option<Records>, returned: i64) -> bool
    ensures { result ≡ count_mismatch records.now returned }
{
    !has_diagnostics(records) && !is_number(returned, records_in(records).len())
}

/// Whether the response to a search has more records than resultCount, or a fragment.
fn is_bad_search(response: &SearchResponse) -> bool
    ensures { result ≡ bad_search response.now }
{
    is_more_than(records_in(&response.records).len(), response.result_count)
        || has_fragment(&response.records)
}

/// Whether the response to a Present has more records than asked for, a fragment, or neither records nor diagnostics.
fn is_bad_present(ranges: &[Range], response: &PresentResponse) -> bool
    ensures { result ≡ bad_present (positions ranges.now) response.now }
{
    let records = records_in(&response.records);
    exceed_positions(records.len(), ranges)
        || has_fragment(&response.records)
        || (records.is_empty() && !has_diagnostics(&response.records))
}

/// Why the response does not fit a search, or `None` if it fits.
fn search_fault(response: &SearchResponse) -> Option<Refused>
    ensures { result ≡ search_fault response.now }
{
    if is_count_mismatch(&response.records, response.number_of_records_returned) {
        return Some(Refused::CountMismatch);
    }
    if response.result_count < 0 {
        return Some(Refused::BadNumber);
    }
    if is_bad_search(response) {
        return Some(Refused::BadShape);
    }
    None
}

/// Why the response does not fit a Present of these ranges, or `None` if it fits.
fn present_fault(ranges: &[Range], response: &PresentResponse) -> Option<Refused>
    ensures { result ≡ present_fault (positions ranges.now) response.now }
{
    let returned = response.number_of_records_returned;
    if is_count_mismatch(&response.records, returned) {
        return Some(Refused::CountMismatch);
    }
    if is_bad_present(ranges, response) {
        return Some(Refused::BadShape);
    }
    None
}

/// Why the reply does not fit an operation that asks for this, or `None` if it fits.
pub(crate) fn fault_of(what: &What, reply: &Apdu) -> Option<Refused>
    ensures { result ≡ fault_of what.now reply.now }
{
    match (what, reply) {
        (What::Init, Apdu::InitResponse(_)) => None,
        (What::Search, Apdu::SearchResponse(response)) => search_fault(response),
        (What::Present { ranges }, Apdu::PresentResponse(response)) => {
            present_fault(ranges.as_slice(), response)
        }
        _ => Some(Refused::WrongKind),
    }
}
