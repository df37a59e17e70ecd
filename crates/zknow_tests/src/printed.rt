//! APDUs as text: the kind's name, and the fields in their order.
use crate::fields::{
    put_bits, put_composition, put_query, put_ranges, put_records, put_reference,
    put_some_element_set, put_some_external, put_some_node, put_some_number, put_some_oid,
    put_some_text, put_text, put_texts, put_truth,
};
use std::alloc::Global;
use zapdu::{
    Apdu, Close, InitRequest, InitResponse, PresentRequest, PresentResponse, SearchRequest,
    SearchResponse,
};
use zapdu_rows::parts::{Line, put_number, put_word};

fn put_init_request(alloc: Global, request: &InitRequest, out: &mut Line) {
    put_word("initRequest", out);
    put_reference(alloc, &request.reference_id, out);
    put_bits(alloc, &request.protocol_version, out);
    put_bits(alloc, &request.options, out);
    put_number(alloc, request.preferred_message_size, out);
    put_number(alloc, request.exceptional_record_size, out);
    put_some_node(alloc, &request.id_authentication, out);
    put_some_text(alloc, &request.implementation_id, out);
    put_some_text(alloc, &request.implementation_name, out);
    put_some_text(alloc, &request.implementation_version, out);
    put_some_external(alloc, &request.user_information_field, out);
    put_some_node(alloc, &request.other_info, out)
}

fn put_init_response(alloc: Global, response: &InitResponse, out: &mut Line) {
    put_word("initResponse", out);
    put_reference(alloc, &response.reference_id, out);
    put_bits(alloc, &response.protocol_version, out);
    put_bits(alloc, &response.options, out);
    put_number(alloc, response.preferred_message_size, out);
    put_number(alloc, response.exceptional_record_size, out);
    put_truth(response.result, out);
    put_some_text(alloc, &response.implementation_id, out);
    put_some_text(alloc, &response.implementation_name, out);
    put_some_text(alloc, &response.implementation_version, out);
    put_some_external(alloc, &response.user_information_field, out);
    put_some_node(alloc, &response.other_info, out)
}

fn put_search_request(alloc: Global, request: &SearchRequest, out: &mut Line) {
    put_word("searchRequest", out);
    put_reference(alloc, &request.reference_id, out);
    put_number(alloc, request.small_set_upper_bound, out);
    put_number(alloc, request.large_set_lower_bound, out);
    put_number(alloc, request.medium_set_present_number, out);
    put_truth(request.replace_indicator, out);
    put_text(alloc, &request.result_set_name, out);
    put_texts(alloc, request.database_names.as_slice(), out);
    put_some_element_set(alloc, &request.small_set_element_set_names, out);
    put_some_element_set(alloc, &request.medium_set_element_set_names, out);
    put_some_oid(alloc, &request.preferred_record_syntax, out);
    put_query(alloc, &request.query, out);
    put_some_node(alloc, &request.additional_search_info, out);
    put_some_node(alloc, &request.other_info, out)
}

fn put_search_response(alloc: Global, response: &SearchResponse, out: &mut Line) {
    put_word("searchResponse", out);
    put_reference(alloc, &response.reference_id, out);
    put_number(alloc, response.result_count, out);
    put_number(alloc, response.number_of_records_returned, out);
    put_number(alloc, response.next_result_set_position, out);
    put_truth(response.search_status, out);
    put_some_number(alloc, &response.result_set_status, out);
    put_some_number(alloc, &response.present_status, out);
    put_records(alloc, &response.records, out);
    put_some_node(alloc, &response.additional_search_info, out);
    put_some_node(alloc, &response.other_info, out)
}

fn put_present_request(alloc: Global, request: &PresentRequest, out: &mut Line) {
    put_word("presentRequest", out);
    put_reference(alloc, &request.reference_id, out);
    put_text(alloc, &request.result_set_id, out);
    put_number(alloc, request.result_set_start_point, out);
    put_number(alloc, request.number_of_records_requested, out);
    match &request.additional_ranges {
        None => put_word("-", out),
        Some(ranges) => put_ranges(alloc, ranges.as_slice(), out),
    }
    put_composition(alloc, &request.record_composition, out);
    put_some_oid(alloc, &request.preferred_record_syntax, out);
    put_some_node(alloc, &request.max_segment_count, out);
    put_some_node(alloc, &request.max_record_size, out);
    put_some_node(alloc, &request.max_segment_size, out);
    put_some_node(alloc, &request.other_info, out)
}

fn put_present_response(alloc: Global, response: &PresentResponse, out: &mut Line) {
    put_word("presentResponse", out);
    put_reference(alloc, &response.reference_id, out);
    put_number(alloc, response.number_of_records_returned, out);
    put_number(alloc, response.next_result_set_position, out);
    put_number(alloc, response.present_status, out);
    put_records(alloc, &response.records, out);
    put_some_node(alloc, &response.other_info, out)
}

fn put_close(alloc: Global, close: &Close, out: &mut Line) {
    put_word("close", out);
    put_reference(alloc, &close.reference_id, out);
    put_number(alloc, close.close_reason, out);
    put_some_text(alloc, &close.diagnostic_information, out);
    put_some_oid(alloc, &close.resource_report_format, out);
    put_some_external(alloc, &close.resource_report, out);
    put_some_node(alloc, &close.other_info, out)
}

/// Appends the text of an APDU.
pub(crate) fn put_apdu(alloc: Global, apdu: &Apdu, out: &mut Line) {
    match apdu {
        Apdu::InitRequest(request) => put_init_request(alloc, request, out),
        Apdu::InitResponse(response) => put_init_response(alloc, response, out),
        Apdu::SearchRequest(request) => put_search_request(alloc, request, out),
        Apdu::SearchResponse(response) => put_search_response(alloc, response, out),
        Apdu::PresentRequest(request) => put_present_request(alloc, request, out),
        Apdu::PresentResponse(response) => put_present_response(alloc, response, out),
        Apdu::Close(close) => put_close(alloc, close, out),
    }
}
