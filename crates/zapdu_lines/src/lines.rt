//! Prints the lines of an APDU, as the command `show` does.
ghost use Rattle.std.specs.Prelude.{◌≡◌, ◌++◌, OnOk, OnErr};
ghost use Rattle.zapdu_lines.specs.Fields.{head_line};
ghost use Rattle.zapdu_lines.specs.Lines.{apdu_text, init_request_text, init_response_text, search_response_line, search_response_text, present_request_text, range_line, range_lines, present_response_text, close_text, records_text, optional_records, apdu_record_lines, apdu_record_line, nonsurrogate, default_diag_line, diag_lines, diag_line, info_text};

use crate::fields::{put_bits, put_name, put_numbers, put_reference, put_start, put_truth};
use crate::search::put_search_request;
use bytes::Bytes;
use std::alloc::{AllocError, Global};
use zapdu::{
    Apdu, Close, DefaultDiag, DiagRec, InitRequest, InitResponse, Kind, PresentRequest,
    PresentResponse, Range, Record, Records, SearchResponse, print_default_diag, print_diag,
    print_given_record, quote,
};
use zber::Seq;

/// Appends the lines of an APDU: the name of its kind with its fields in order, and an indented line for each record or
/// text. A reference id is in hexadecimal; an absent field is `-`. Returns `AllocError` if no memory is found; `text`
/// is then unchanged.
pub fn print_apdu(alloc: Global, apdu: Apdu, text: &mut Vec<u8>) -> Result<(), AllocError>
    ensures ok { OnOk result (text.new.items ≡ text.old.items ++ apdu_text apdu) }
    ensures err { OnErr result (text.new.items ≡ text.old.items) }
{
    let mut lines = Vec::new(alloc);
    put_apdu(alloc, apdu, &mut lines)?;
    text.extend_from_slice(&lines)
}

fn put_apdu(alloc: Global, apdu: Apdu, text: &mut Vec<u8>) -> Result<(), AllocError>
    ensures { OnOk result (text.new.items ≡ text.old.items ++ apdu_text apdu) }
{
    // one call drops each value that is only read, so that the drops of its fields are not written out here
    match apdu {
        Apdu::InitRequest(request) => {
            let appended = put_init_request(alloc, &request, text);
            drop(request);
            appended
        }
        Apdu::InitResponse(response) => {
            let appended = put_init_response(alloc, &response, text);
            drop(response);
            appended
        }
        Apdu::SearchRequest(request) => {
            let appended = put_search_request(alloc, &request, text);
            drop(request);
            appended
        }
        Apdu::SearchResponse(response) => put_search_response(alloc, response, text),
        Apdu::PresentRequest(request) => {
            let appended = put_present_request(alloc, &request, text);
            drop(request);
            appended
        }
        Apdu::PresentResponse(response) => put_response(alloc, response, text),
        Apdu::Close(close) => {
            let appended = put_close(alloc, &close, text);
            drop(close);
            appended
        }
    }
}

fn put_init_request(
    alloc: Global,
    request: &InitRequest,
    text: &mut Vec<u8>,
) -> Result<(), AllocError>
    ensures { OnOk result (text.new.items ≡ text.old.items ++ init_request_text request.now) }
{
    let sizes = [
        request.preferred_message_size,
        request.exceptional_record_size,
    ];
    put_start(alloc, Kind::InitRequest, &request.reference_id, text)?;
    put_bits(&request.protocol_version, text)?;
    put_bits(&request.options, text)?;
    put_numbers(alloc, &sizes, text)?;
    put_name(alloc, &request.implementation_name, text)?;
    text.extend_from_slice(b"\n")
}

fn put_init_response(
    alloc: Global,
    response: &InitResponse,
    text: &mut Vec<u8>,
) -> Result<(), AllocError>
    ensures { OnOk result (text.new.items ≡ text.old.items ++ init_response_text response.now) }
{
    let sizes = [
        response.preferred_message_size,
        response.exceptional_record_size,
    ];
    put_start(alloc, Kind::InitResponse, &response.reference_id, text)?;
    put_bits(&response.protocol_version, text)?;
    put_bits(&response.options, text)?;
    put_numbers(alloc, &sizes, text)?;
    put_truth(response.result, text)?;
    put_name(alloc, &response.implementation_name, text)?;
    text.extend_from_slice(b"\n")
}

/// Appends the first line of a SearchResponse.
fn put_search_response_line(
    alloc: Global,
    response: &SearchResponse,
    text: &mut Vec<u8>,
) -> Result<(), AllocError>
    ensures { OnOk result (text.new.items ≡ text.old.items ++ search_response_line response.now) }
{
    let numbers = [
        response.result_count,
        response.number_of_records_returned,
        response.next_result_set_position,
    ];
    put_start(alloc, Kind::SearchResponse, &response.reference_id, text)?;
    put_numbers(alloc, &numbers, text)?;
    put_truth(response.search_status, text)?;
    text.extend_from_slice(b"\n")
}

fn put_search_response(
    alloc: Global,
    response: SearchResponse,
    text: &mut Vec<u8>,
) -> Result<(), AllocError>
    ensures { OnOk result (text.new.items ≡ text.old.items ++ search_response_text response) }
{
    put_search_response_line(alloc, &response, text)?;
    put_optional_records(alloc, response.records, text)
}

fn put_present_request(
    alloc: Global,
    request: &PresentRequest,
    text: &mut Vec<u8>,
) -> Result<(), AllocError>
    ensures { OnOk result (text.new.items ≡ text.old.items ++ present_request_text request.now) }
{
    let numbers = [
        request.result_set_start_point,
        request.number_of_records_requested,
    ];
    put_start(alloc, Kind::PresentRequest, &request.reference_id, text)?;
    text.extend_from_slice(b" ")?;
    quote(alloc, request.result_set_id.as_slice(), text)?;
    put_numbers(alloc, &numbers, text)?;
    text.extend_from_slice(b"\n")?;
    match &request.additional_ranges {
        None => Ok(()),
        Some(ranges) => put_ranges(alloc, ranges.as_slice(), text),
    }
}

fn put_ranges(alloc: Global, ranges: &[Range], text: &mut Vec<u8>) -> Result<(), AllocError>
    ensures { OnOk result (text.new.items ≡ text.old.items ++ range_lines ranges.now) }
{
    for range in ranges {
        put_range(alloc, range, text)?;
    }
    Ok(())
}

fn put_range(alloc: Global, range: &Range, text: &mut Vec<u8>) -> Result<(), AllocError>
    ensures { OnOk result (text.new.items ≡ text.old.items ++ range_line range.now) }
{
    let numbers = [range.starting_position, range.number_of_records];
    text.extend_from_slice(b"  range")?;
    put_numbers(alloc, &numbers, text)?;
    text.extend_from_slice(b"\n")
}

fn put_response(
    alloc: Global,
    response: PresentResponse,
    text: &mut Vec<u8>,
) -> Result<(), AllocError>
    ensures { OnOk result (text.new.items ≡ text.old.items ++ present_response_text response) }
{
    let numbers = [
        response.number_of_records_returned,
        response.next_result_set_position,
        response.present_status,
    ];
    put_head(
        alloc,
        Kind::PresentResponse,
        &response.reference_id,
        &numbers,
        text,
    )?;
    put_optional_records(alloc, response.records, text)
}

fn put_optional_records(
    alloc: Global,
    records: Option<Records>,
    text: &mut Vec<u8>,
) -> Result<(), AllocError>
    ensures { OnOk result (text.new.items ≡ text.old.items ++ optional_records records) }
{
    match records {
        None => Ok(()),
        Some(records) => put_records(alloc, records, text),
    }
}

fn put_close(alloc: Global, close: &Close, text: &mut Vec<u8>) -> Result<(), AllocError>
    ensures { OnOk result (text.new.items ≡ text.old.items ++ close_text close.now) }
{
    put_head(
        alloc,
        Kind::Close,
        &close.reference_id,
        &[close.close_reason],
        text,
    )?;
    match &close.diagnostic_information {
        None => Ok(()),
        Some(information) => put_information(alloc, information, text),
    }
}

/// Appends the line of the kind's name, the reference id and the numbers.
#[tactic(auto, unfolding(crate::specs::Fields::head_line))]
fn put_head(
    alloc: Global,
    kind: Kind,
    reference: &Option<Bytes>,
    numbers: &[i64],
    text: &mut Vec<u8>,
) -> Result<(), AllocError>
    ensures { OnOk result (text.new.items ≡ text.old.items ++ head_line kind reference.now numbers.now) }
{
    text.extend_from_slice(kind.name().as_bytes())?;
    text.extend_from_slice(b" ")?;
    put_reference(alloc, reference, text)?;
    put_numbers(alloc, numbers, text)?;
    text.extend_from_slice(b"\n")
}

fn put_information(alloc: Global, information: &Bytes, text: &mut Vec<u8>) -> Result<(), AllocError>
    ensures { OnOk result (text.new.items ≡ text.old.items ++ info_text information.now) }
{
    text.extend_from_slice(b"  info ")?;
    quote(alloc, information.as_slice(), text)?;
    text.extend_from_slice(b"\n")
}

fn put_records(alloc: Global, records: Records, text: &mut Vec<u8>) -> Result<(), AllocError>
    ensures { OnOk result (text.new.items ≡ text.old.items ++ records_text records) }
{
    match records {
        Records::List(list) => put_list(alloc, list, text),
        Records::OneDiag(diag) => put_default(alloc, &diag, text),
        Records::ManyDiags(diags) => put_diags(alloc, diags.as_slice(), text),
    }
}

fn put_list(alloc: Global, records: Seq<Record>, text: &mut Vec<u8>) -> Result<(), AllocError>
    ensures { OnOk result (text.new.items ≡ text.old.items ++ apdu_record_lines records) }
{
    for record in records.into_vec() {
        put_record(alloc, record, text)?;
    }
    Ok(())
}

fn put_record(alloc: Global, value: Record, text: &mut Vec<u8>) -> Result<(), AllocError>
    ensures { OnOk result (text.new.items ≡ text.old.items ++ apdu_record_line value) }
{
    text.extend_from_slice(b"  ")?;
    print_given_record(alloc, value, false, text)?;
    text.extend_from_slice(b"\n")
}

#[tactic(auto, unfolding(crate::specs::Lines::nonsurrogate))]
fn put_nonsurrogate(text: &mut Vec<u8>) -> Result<(), AllocError>
    ensures { OnOk result (text.new.items ≡ text.old.items ++ nonsurrogate) }
{
    text.extend_from_slice(b"  nonsurrogate ")
}

fn put_default(alloc: Global, diag: &DefaultDiag, text: &mut Vec<u8>) -> Result<(), AllocError>
    ensures { OnOk result (text.new.items ≡ text.old.items ++ default_diag_line diag.now) }
{
    put_nonsurrogate(text)?;
    print_default_diag(alloc, diag, text)?;
    text.extend_from_slice(b"\n")
}

fn put_diags(alloc: Global, diags: &[DiagRec], text: &mut Vec<u8>) -> Result<(), AllocError>
    ensures { OnOk result (text.new.items ≡ text.old.items ++ diag_lines diags.now) }
{
    for diag in diags {
        put_diag(alloc, diag, text)?;
    }
    Ok(())
}

fn put_diag(alloc: Global, diag: &DiagRec, text: &mut Vec<u8>) -> Result<(), AllocError>
    ensures { OnOk result (text.new.items ≡ text.old.items ++ diag_line diag.now) }
{
    put_nonsurrogate(text)?;
    print_diag(alloc, diag, text)?;
    text.extend_from_slice(b"\n")
}
