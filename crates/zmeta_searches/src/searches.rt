//! What the options of the command line put to every question.

ghost use Rattle.std.specs.Prelude.{◌≡◌, IfOk};
ghost use Rattle.std.specs.Option.{option_map};
ghost use Rattle.zmeta_world.specs.Search.{search_texts};
ghost use Rattle.zmeta_searches.specs.Searches.{copied_texts, search_of};

use crate::asked::asked_terms;
use crate::texts::terms_query;
use std::alloc::{AllocError, Global};
use zmeta_args::SearchOptions;
use zmeta_world::search::Search;

/// What the options put to every question, as texts of their own.
#[derive(Drop)]
pub struct SearchCopy {
    /// The query, in the prefix notation.
    pub query: Option<Vec<u8>>,
    /// The wanted records: a number, or ranges of positions.
    pub records: Option<Vec<u8>>,
    /// The element set name.
    pub elements: Option<Vec<u8>>,
    /// The record syntax.
    pub syntax: Option<Vec<u8>>,
}

/// Returns the query of the options, if they have one: that of `--query`, or the terms joined by `@and`.
fn query_of(alloc: Global, search: &SearchOptions<'_>) -> Result<Option<Vec<u8>>, AllocError>
    ensures { IfOk result (λ text. option_map (λ text. text.items) text ≡ (search_of search.now).query) }
{
    if let Some(query) = search.query {
        let mut text = Vec::new(alloc);
        text.extend_from_slice(query.as_bytes())?;
        return Ok(Some(text));
    }
    let terms = asked_terms(alloc, search)?;
    terms_query(alloc, terms.as_slice())
}

/// Copies a text, if there is one.
fn copy_text(alloc: Global, text: Option<&str>) -> Result<Option<Vec<u8>>, AllocError>
    ensures { IfOk result (λ copy. option_map (λ copy. copy.items) copy
        ≡ option_map (λ text. text.now) text.entry) }
{
    let Some(text) = text else {
        return Ok(None);
    };
    let mut copy = Vec::new(alloc);
    copy.extend_from_slice(text.as_bytes())?;
    Ok(Some(copy))
}

/// Returns the octets of a text, if there is one.
fn slice_of(text: &Option<Vec<u8>>) -> Option<&[u8]>
    ensures { option_map (λ octets. octets.now) result ≡ option_map (λ text. text.items) text.now }
{
    match text {
        Some(text) => Some(text.as_slice()),
        None => None,
    }
}

/// Returns what the options put to every question. The query is that of `--query`, or else the terms of the options
/// joined by `@and`. If nothing is left of a term (without its hyphens or its asterisk), it is the empty text, which is
/// no query.
///
/// `AllocError` if no memory is found.
pub fn copy_search(alloc: Global, search: &SearchOptions<'_>) -> Result<SearchCopy, AllocError>
    ensures { IfOk result (λ copy. copied_texts copy ≡ search_of search.now) }
{
    let query = query_of(alloc, search)?;
    let records = copy_text(alloc, search.records)?;
    let elements = copy_text(alloc, search.elements)?;
    let syntax = copy_text(alloc, search.syntax)?;
    Ok(SearchCopy {
        query,
        records,
        elements,
        syntax,
    })
}

impl SearchCopy {
    /// Returns the texts.
    pub fn texts(&self) -> Search<'_>
        ensures { search_texts result ≡ copied_texts self.now }
    {
        Search {
            query: slice_of(&self.query),
            records: slice_of(&self.records),
            elements: slice_of(&self.elements),
            syntax: slice_of(&self.syntax),
        }
    }
}
