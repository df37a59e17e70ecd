//! The last elements of a SearchRequest: the element sets and the syntax of the records in the response, and the query.
ghost use Rattle.std.specs.Prelude.{◌≡◌, [], IfOk};
ghost use Rattle.zasn.specs.Results.{ReadingResult, BuildStepResult};
ghost use Rattle.zapdu.specs.Productions.SearchDetails.{details_of, search_details_parts};

use crate::productions::element_set_names::ElementSetNames;
use crate::productions::search_query::SearchQuery;
use crate::productions::search_request::SearchRequest;
use std::alloc::Global;
use zasn::{BuildError, PartError, Parts, PartsBuf};
use zber::{Node, Oid, Tag};

/// The values of these elements.
#[derive(Drop)]
pub(crate) struct SearchDetails {
    pub small_set_element_set_names: Option<ElementSetNames>,
    pub medium_set_element_set_names: Option<ElementSetNames>,
    pub preferred_record_syntax: Option<Oid>,
    pub query: SearchQuery,
    pub additional_search_info: Option<Node>,
    pub other_info: Option<Node>,
}

#[tactic(auto, unfolding(crate::specs::Productions::SearchDetails::search_details_parts))]
pub(crate) fn read_search_details(
    alloc: Global,
    parts: &mut Parts<'_>,
) -> Result<SearchDetails, PartError>
    ensures finds { ReadingResult (search_details_parts.at parts.old) result parts.new }
    ensures none { IfOk result (λ _. parts.new ≡ []) }
{
    let small_set_element_set_names = parts.optional_explicit_tagged(alloc, Tag::context(100))?;
    let medium_set_element_set_names = parts.optional_explicit_tagged(alloc, Tag::context(101))?;
    let preferred_record_syntax = parts.optional(alloc, Tag::context(104))?;
    let query = parts.required_tagged(alloc)?;
    let additional_search_info = parts.optional(alloc, Tag::context(203))?;
    let other_info = parts.optional(alloc, Tag::context(201))?;
    parts.end()?;
    Ok(SearchDetails {
        small_set_element_set_names,
        medium_set_element_set_names,
        preferred_record_syntax,
        query,
        additional_search_info,
        other_info,
    })
}

/// Adds these elements.
#[tactic(auto, unfolding(crate::specs::Productions::SearchDetails::search_details_parts))]
pub(crate) fn write_search_details(
    alloc: Global,
    out: &mut PartsBuf,
    request: &SearchRequest,
) -> Result<(), BuildError>
    ensures { BuildStepResult (search_details_parts.spelling (details_of request.now) out.old) result out.new }
{
    out.optional_explicit_tagged(
        alloc,
        Tag::context(100),
        &request.small_set_element_set_names,
    )?;
    out.optional_explicit_tagged(
        alloc,
        Tag::context(101),
        &request.medium_set_element_set_names,
    )?;
    out.optional(alloc, Tag::context(104), &request.preferred_record_syntax)?;
    out.required_tagged(alloc, &request.query)?;
    out.optional(alloc, Tag::context(203), &request.additional_search_info)?;
    out.optional(alloc, Tag::context(201), &request.other_info)
}
