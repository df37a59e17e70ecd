//! The parts of APDUs as text, with a space before each. An absent one is `-`, a text stands in quotes, octets that are
//! no text are `#` and digits, and an opaque element is the digits of its canonical encoding.
//!
//! Of each element, object identifier and query a copy is printed, and of each record and diagnostic a copy of the one
//! that comes back from its element. So where the text is the due one, both are equal to what was there.
use crate::elements::shown::bit_digits;
use crate::plain::{diag_copy, diag_of, record_copy, record_of};
use crate::queries::plain::{query_copy, query_text};
use bytes::Bytes;
use std::alloc::{AllocError, Global};
use zapdu::{
    Content, DefaultDiag, DiagRec, ElementSetNames, External, Info, Range, Record, RecordBody,
    RecordComposition, Records, SearchQuery,
};
use zapdu_rows::boxes::{diag_node, record_node};
use zapdu_rows::parts::{Line, put_node, put_number, put_word};
use zber::{Bits, Node, Oid};
use zber_rows::rows::digits;
use zber_rows::unread::Unread;
use zquery::Query;

pub(crate) fn put_some_number(alloc: Global, number: &Option<i64>, out: &mut Line) {
    match number {
        None => put_word("-", out),
        Some(number) => put_number(alloc, *number, out),
    }
}

pub(crate) fn put_truth(value: bool, out: &mut Line) {
    put_word(if value { "true" } else { "false" }, out)
}

pub(crate) fn put_text(alloc: Global, text: &Bytes, out: &mut Line) {
    out.add_quoted(alloc, text.as_slice())
}

pub(crate) fn put_some_text(alloc: Global, text: &Option<Bytes>, out: &mut Line) {
    match text {
        None => put_word("-", out),
        Some(text) => put_text(alloc, text, out),
    }
}

pub(crate) fn put_reference(alloc: Global, octets: &Option<Bytes>, out: &mut Line) {
    match octets {
        None => put_word("-", out),
        Some(octets) => {
            put_word("#", out);
            out.add_text(digits(alloc, octets.as_slice()))
        }
    }
}

pub(crate) fn put_bits(alloc: Global, bits: &Bits, out: &mut Line) {
    out.add_word(bit_digits(alloc, bits, bits.len()))
}

pub(crate) fn put_some_node(alloc: Global, node: &Option<Node>, out: &mut Line) {
    match node {
        None => put_word("-", out),
        Some(node) => put_node(alloc, node, out),
    }
}

fn oid_text(alloc: Global, oid: &Oid) -> Result<String, AllocError> {
    let Ok(copy) = oid.copy(alloc) else {
        return Err(AllocError);
    };
    copy.text(alloc)
}

fn put_oid(alloc: Global, oid: &Oid, out: &mut Line) {
    out.add_word(oid_text(alloc, oid))
}

pub(crate) fn put_some_oid(alloc: Global, oid: &Option<Oid>, out: &mut Line) {
    match oid {
        None => put_word("-", out),
        Some(oid) => put_oid(alloc, oid, out),
    }
}

fn put_content(alloc: Global, content: &Content, out: &mut Line) {
    match content {
        Content::Single(node) => put_node(alloc, node, out),
        Content::Aligned(octets) => put_text(alloc, octets, out),
        Content::Arbitrary(bits) => put_bits(alloc, bits, out),
    }
}

fn put_external(alloc: Global, external: &External, out: &mut Line) {
    put_word("external", out);
    put_some_oid(alloc, &external.direct, out);
    put_some_number(alloc, &external.indirect, out);
    put_some_text(alloc, &external.descriptor, out);
    put_content(alloc, &external.content, out)
}

pub(crate) fn put_some_external(alloc: Global, external: &Option<External>, out: &mut Line) {
    match external {
        None => put_word("-", out),
        Some(external) => put_external(alloc, external, out),
    }
}

fn put_info(alloc: Global, info: &Info, out: &mut Line) {
    match info {
        Info::V2(text) => {
            put_word("v2", out);
            put_text(alloc, text, out)
        }
        Info::V3(text) => {
            put_word("v3", out);
            put_text(alloc, text, out)
        }
    }
}

fn put_default_diag(alloc: Global, diag: &DefaultDiag, out: &mut Line) {
    put_word("diag", out);
    put_oid(alloc, &diag.diag_set, out);
    put_number(alloc, diag.condition, out);
    put_info(alloc, &diag.info, out)
}

// The diagnostic that a diagnostic's element stands for.
fn again_diag(alloc: Global, diag: &DiagRec) -> Result<Box<DiagRec>, Unread> {
    let Ok(node) = diag_node(alloc, diag) else {
        return Err(Unread);
    };
    diag_of(alloc, &node)
}

fn put_same_diag(alloc: Global, diag: &DiagRec, out: &mut Line) {
    match diag {
        DiagRec::Default(diag) => put_default_diag(alloc, diag, out),
        DiagRec::Ext(external) => put_external(alloc, external, out),
    }
}

fn put_diag_copy(alloc: Global, diag: &DiagRec, out: &mut Line) {
    match diag_copy(alloc, diag) {
        Ok(copy) => put_same_diag(alloc, &copy, out),
        Err(_) => out.fail(),
    }
}

pub(crate) fn put_diag(alloc: Global, diag: &DiagRec, out: &mut Line) {
    match again_diag(alloc, diag) {
        Ok(again) => put_diag_copy(alloc, &again, out),
        Err(_) => out.fail(),
    }
}

fn put_body(alloc: Global, body: &RecordBody, out: &mut Line) {
    match body {
        RecordBody::Retrieval(external) => put_external(alloc, external, out),
        RecordBody::Surrogate(diag) => put_diag(alloc, diag, out),
        RecordBody::Fragment(node) => put_node(alloc, node, out),
    }
}

// The record that a record's element stands for.
fn again_record(alloc: Global, record: &Record) -> Result<Box<Record>, Unread> {
    let Ok(node) = record_node(alloc, record) else {
        return Err(Unread);
    };
    record_of(alloc, &node)
}

fn put_same_record(alloc: Global, record: &Record, out: &mut Line) {
    put_word("record", out);
    put_some_text(alloc, &record.name, out);
    put_body(alloc, &record.body, out)
}

fn put_record_copy(alloc: Global, record: &Record, out: &mut Line) {
    match record_copy(alloc, record) {
        Ok(copy) => put_same_record(alloc, &copy, out),
        Err(_) => out.fail(),
    }
}

fn put_record(alloc: Global, record: &Record, out: &mut Line) {
    match again_record(alloc, record) {
        Ok(again) => put_record_copy(alloc, &again, out),
        Err(_) => out.fail(),
    }
}

fn put_each_record(alloc: Global, records: &[Record], out: &mut Line) {
    for record in records {
        put_record(alloc, record, out);
    }
}

fn put_each_diag(alloc: Global, diags: &[DiagRec], out: &mut Line) {
    for diag in diags {
        put_diag(alloc, diag, out);
    }
}

fn put_these_records(alloc: Global, records: &Records, out: &mut Line) {
    match records {
        Records::List(records) => {
            put_word("list", out);
            put_each_record(alloc, records.as_slice(), out)
        }
        Records::OneDiag(diag) => {
            put_word("one", out);
            put_default_diag(alloc, diag, out)
        }
        Records::ManyDiags(diags) => {
            put_word("many", out);
            put_each_diag(alloc, diags.as_slice(), out)
        }
    }
}

pub(crate) fn put_records(alloc: Global, records: &Option<Records>, out: &mut Line) {
    match records {
        None => put_word("-", out),
        Some(records) => put_these_records(alloc, records, out),
    }
}

pub(crate) fn put_texts(alloc: Global, texts: &[Bytes], out: &mut Line) {
    put_word("names", out);
    for text in texts {
        put_text(alloc, text, out);
    }
}

fn put_element_set(alloc: Global, names: &ElementSetNames, out: &mut Line) {
    match names {
        ElementSetNames::Generic(name) => put_text(alloc, name, out),
        ElementSetNames::DatabaseSpecific(names) => {
            put_word("specific", out);
            for name in names.as_slice() {
                put_text(alloc, &name.database_name, out);
                put_text(alloc, &name.element_set_name, out);
            }
        }
    }
}

pub(crate) fn put_some_element_set(alloc: Global, names: &Option<ElementSetNames>, out: &mut Line) {
    match names {
        None => put_word("-", out),
        Some(names) => put_element_set(alloc, names, out),
    }
}

pub(crate) fn put_composition(
    alloc: Global,
    composition: &Option<RecordComposition>,
    out: &mut Line,
) {
    match composition {
        None => put_word("-", out),
        Some(RecordComposition::Simple(names)) => put_element_set(alloc, names, out),
        Some(RecordComposition::Complex(node)) => put_node(alloc, node, out),
    }
}

pub(crate) fn put_ranges(alloc: Global, ranges: &[Range], out: &mut Line) {
    put_word("ranges", out);
    for range in ranges {
        put_number(alloc, range.starting_position, out);
        put_number(alloc, range.number_of_records, out);
    }
}

fn copy_text(alloc: Global, query: &Query) -> Result<Vec<u8>, Unread> {
    let Ok(copy) = query_copy(alloc, query) else {
        return Err(Unread);
    };
    query_text(alloc, &copy)
}

fn put_rpn(alloc: Global, query: &Query, out: &mut Line) {
    put_word("query ", out);
    out.add_octets(copy_text(alloc, query))
}

pub(crate) fn put_query(alloc: Global, query: &SearchQuery, out: &mut Line) {
    match query {
        SearchQuery::Rpn(query) => put_rpn(alloc, query, out),
        SearchQuery::Other(node) => put_node(alloc, node, out),
    }
}
