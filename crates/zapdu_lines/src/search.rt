//! Prints the lines of a SearchRequest.
ghost use Rattle.std.specs.Prelude.{◌≡◌, ◌++◌, Some, OnOk};
ghost use Rattle.zquery.specs.Element.Type1Reading.{query_spelling};
ghost use Rattle.zapdu.specs.Text.{ber_text};
ghost use Rattle.zapdu_lines.specs.Searches.{search_request_text, searched_database_line, searched_database_lines, optional_syntax, search_line, type_1_text, search_query_text, query_line};

use crate::fields::{put_numbers, put_start, put_truth};
use bytes::Bytes;
use std::alloc::{AllocError, Global};
use zapdu::{Kind, SearchQuery, SearchRequest, put_node, quote};
use zber::{Node, Oid};
use zquery::{BuildError, PrintError, Query, print_pqf, to_node};

/// Appends the lines of a SearchRequest.
pub(crate) fn put_search_request(
    alloc: Global,
    request: &SearchRequest,
    text: &mut Vec<u8>,
) -> Result<(), AllocError>
    ensures { OnOk result (text.new.items ≡ text.old.items ++ search_request_text request.now) }
{
    put_search_line(alloc, request, text)?;
    put_databases(alloc, request.database_names.as_slice(), text)?;
    put_syntax(alloc, &request.preferred_record_syntax, text)?;
    put_query(alloc, &request.query, text)
}

#[tactic(auto, unfolding(crate::specs::Searches::search_line))]
fn put_search_line(
    alloc: Global,
    request: &SearchRequest,
    text: &mut Vec<u8>,
) -> Result<(), AllocError>
    ensures { OnOk result (text.new.items ≡ text.old.items ++ search_line request.now) }
{
    let numbers = [
        request.small_set_upper_bound,
        request.large_set_lower_bound,
        request.medium_set_present_number,
    ];
    put_start(alloc, Kind::SearchRequest, &request.reference_id, text)?;
    put_numbers(alloc, &numbers, text)?;
    put_truth(request.replace_indicator, text)?;
    text.extend_from_slice(b" ")?;
    quote(alloc, request.result_set_name.as_slice(), text)?;
    text.extend_from_slice(b"\n")
}

fn put_databases(alloc: Global, names: &[Bytes], text: &mut Vec<u8>) -> Result<(), AllocError>
    ensures { OnOk result (text.new.items ≡ text.old.items ++ searched_database_lines names.now) }
{
    for name in names {
        put_database(alloc, name, text)?;
    }
    Ok(())
}

fn put_database(alloc: Global, name: &Bytes, text: &mut Vec<u8>) -> Result<(), AllocError>
    ensures { OnOk result (text.new.items ≡ text.old.items ++ searched_database_line name.now) }
{
    text.extend_from_slice(b"  db ")?;
    quote(alloc, name.as_slice(), text)?;
    text.extend_from_slice(b"\n")
}

fn put_syntax(alloc: Global, syntax: &Option<Oid>, text: &mut Vec<u8>) -> Result<(), AllocError>
    ensures { OnOk result (text.new.items ≡ text.old.items ++ optional_syntax syntax.now) }
{
    let Some(syntax) = syntax else {
        return Ok(());
    };
    let arcs = syntax.text(alloc)?;
    text.extend_from_slice(b"  syntax ")?;
    text.extend_from_slice(arcs.as_bytes())?;
    text.extend_from_slice(b"\n")
}

fn put_query(alloc: Global, query: &SearchQuery, text: &mut Vec<u8>) -> Result<(), AllocError>
    ensures { OnOk result (text.new.items ≡ text.old.items ++ query_line query.now) }
{
    text.extend_from_slice(b"  query ")?;
    put_search_query(alloc, query, text)?;
    text.extend_from_slice(b"\n")
}

fn put_search_query(
    alloc: Global,
    query: &SearchQuery,
    text: &mut Vec<u8>,
) -> Result<(), AllocError>
    ensures { OnOk result (text.new.items ≡ text.old.items ++ search_query_text query.now) }
{
    match query {
        SearchQuery::Rpn(query) => put_type_1(alloc, query, text),
        SearchQuery::Other(node) => put_element(alloc, node, text),
    }
}

/// Appends a query in the prefix notation, or its element if the notation has no text for it.
fn put_type_1(alloc: Global, query: &Query, text: &mut Vec<u8>) -> Result<(), AllocError>
    ensures { OnOk result (text.new.items ≡ text.old.items ++ type_1_text query.now) }
{
    match print_pqf(alloc, query, text) {
        Ok(()) => Ok(()),
        Err(PrintError::NotPrintable) => put_spelling(alloc, query, text),
        Err(PrintError::Memory) => Err(AllocError),
    }
}

/// Appends `ber` and the canonical encoding of the query's element; only `ber` if no element stands for the query.
fn put_spelling(alloc: Global, query: &Query, text: &mut Vec<u8>) -> Result<(), AllocError>
    ensures { OnOk result (text.new.items ≡ text.old.items ++ ber_text (query_spelling query.now)) }
{
    match to_node(alloc, query) {
        Ok(node) => put_element(alloc, &node, text),
        Err(BuildError::NotSpellable) => text.extend_from_slice(b"ber "),
        Err(BuildError::Memory) => Err(AllocError),
    }
}

/// Appends `ber` and the canonical encoding of an element.
fn put_element(alloc: Global, node: &Node, text: &mut Vec<u8>) -> Result<(), AllocError>
    ensures { OnOk result (text.new.items ≡ text.old.items ++ ber_text (Some node.now)) }
{
    text.extend_from_slice(b"ber ")?;
    put_node(alloc, node, text)
}
