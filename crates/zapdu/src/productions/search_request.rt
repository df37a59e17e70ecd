//! SearchRequest.
ghost use Rattle.zapdu.specs.Productions.SearchRequests.{search_request_parts};

use crate::productions::element_set_names::ElementSetNames;
use crate::productions::search_details::{
    SearchDetails, read_search_details, write_search_details,
};
use crate::productions::search_query::SearchQuery;
use bytes::Bytes;
use std::alloc::Global;
use zasn::{BuildError, PartError, Parts, PartsBuf, Production};
use zber::{Node, Oid, Seq, Tag};

/// A request for a search: a query for databases. The target keeps the matches as a result set (Z39.50-2003, 3.2.2.1).
#[derive(Drop)]
pub struct SearchRequest {
    /// The reference id.
    pub reference_id: Option<Bytes>,
    /// If there are at most this many matches, all records come with the response.
    pub small_set_upper_bound: i64,
    /// If there are at least this many matches, no record comes with the response.
    pub large_set_lower_bound: i64,
    /// If the number of matches is between these bounds, this many records come with the response.
    pub medium_set_present_number: i64,
    /// Whether the target replaces a result set of the same name. If it does not, it refuses the search if there is
    /// one.
    pub replace_indicator: bool,
    /// The result set's name.
    pub result_set_name: Bytes,
    /// The databases' names.
    pub database_names: Seq<Bytes>,
    /// The element set of the records of a small set.
    pub small_set_element_set_names: Option<ElementSetNames>,
    /// The element set of the records of a medium set.
    pub medium_set_element_set_names: Option<ElementSetNames>,
    /// The syntax that the origin prefers.
    pub preferred_record_syntax: Option<Oid>,
    /// The query.
    pub query: SearchQuery,
    /// additionalSearchInfo `[203]`, kept as its element.
    pub additional_search_info: Option<Node>,
    /// otherInfo `[201]`, kept as its element.
    pub other_info: Option<Node>,
}

#[tactic(auto, unfolding(crate::specs::Productions::SearchRequests::search_request_parts))]
impl Production for SearchRequest {
    ghost table = { search_request_parts };

    fn read(alloc: Global, parts: &mut Parts<'_>) -> Result<Self, PartError> {
        let reference_id = parts.optional(alloc, Tag::context(2))?;
        let small_set_upper_bound = parts.required(alloc, Tag::context(13))?;
        let large_set_lower_bound = parts.required(alloc, Tag::context(14))?;
        let medium_set_present_number = parts.required(alloc, Tag::context(15))?;
        let replace_indicator = parts.required(alloc, Tag::context(16))?;
        let result_set_name = parts.required(alloc, Tag::context(17))?;
        let database_names = parts.required_texts(alloc, Tag::context(18), Tag::context(105))?;
        let SearchDetails {
            small_set_element_set_names,
            medium_set_element_set_names,
            preferred_record_syntax,
            query,
            additional_search_info,
            other_info,
        } = read_search_details(alloc, parts)?;
        Ok(SearchRequest {
            reference_id,
            small_set_upper_bound,
            large_set_lower_bound,
            medium_set_present_number,
            replace_indicator,
            result_set_name,
            database_names,
            small_set_element_set_names,
            medium_set_element_set_names,
            preferred_record_syntax,
            query,
            additional_search_info,
            other_info,
        })
    }

    fn write(&self, alloc: Global, out: &mut PartsBuf) -> Result<(), BuildError> {
        out.optional(alloc, Tag::context(2), &self.reference_id)?;
        out.required(alloc, Tag::context(13), &self.small_set_upper_bound)?;
        out.required(alloc, Tag::context(14), &self.large_set_lower_bound)?;
        out.required(alloc, Tag::context(15), &self.medium_set_present_number)?;
        out.required(alloc, Tag::context(16), &self.replace_indicator)?;
        out.required(alloc, Tag::context(17), &self.result_set_name)?;
        out.required_texts(
            alloc,
            Tag::context(18),
            Tag::context(105),
            &self.database_names,
        )?;
        write_search_details(alloc, out, self)
    }
}
