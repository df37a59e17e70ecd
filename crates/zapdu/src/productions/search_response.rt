//! SearchResponse.
ghost use Rattle.zapdu.specs.Productions.SearchResponses.{search_response_parts};

use crate::productions::record::Records;
use bytes::Bytes;
use std::alloc::Global;
use zasn::{BuildError, OwnParts, PartError, Parts, PartsBuf, Production, Taken, read_copies};
use zber::{Node, Tag};

/// The reply to a SearchRequest (Z39.50-2003, 3.2.2.1).
#[derive(Drop)]
pub struct SearchResponse {
    /// The request's reference id.
    pub reference_id: Option<Bytes>,
    /// How many records the result set has.
    pub result_count: i64,
    /// How many records the response has; surrogates are counted.
    pub number_of_records_returned: i64,
    /// The position after the last record returned; 0 if this is the last of the set.
    pub next_result_set_position: i64,
    /// Whether the search succeeded.
    pub search_status: bool,
    /// If the search failed, what the result set has: 1 subset, 2 interim, 3 none.
    pub result_set_status: Option<i64>,
    /// 0 success, 1 to 4 partial, 5 failure.
    pub present_status: Option<i64>,
    /// The records, or diagnostics.
    pub records: Option<Records>,
    /// additionalSearchInfo `[203]`, kept as its element.
    pub additional_search_info: Option<Node>,
    /// otherInfo `[201]`, kept as its element.
    pub other_info: Option<Node>,
}

#[tactic(auto, unfolding(crate::specs::Productions::SearchResponses::search_response_parts))]
impl Production for SearchResponse {
    ghost table = { search_response_parts };

    fn read(alloc: Global, parts: &mut Parts<'_>) -> Result<Self, PartError> {
        read_copies(alloc, parts)
    }

    fn write(&self, alloc: Global, out: &mut PartsBuf) -> Result<(), BuildError> {
        out.optional(alloc, Tag::context(2), &self.reference_id)?;
        out.required(alloc, Tag::context(23), &self.result_count)?;
        out.required(alloc, Tag::context(24), &self.number_of_records_returned)?;
        out.required(alloc, Tag::context(25), &self.next_result_set_position)?;
        out.required(alloc, Tag::context(22), &self.search_status)?;
        out.optional(alloc, Tag::context(26), &self.result_set_status)?;
        out.optional(alloc, Tag::context(27), &self.present_status)?;
        out.optional_tagged(alloc, &self.records)?;
        out.optional(alloc, Tag::context(203), &self.additional_search_info)?;
        out.optional(alloc, Tag::context(201), &self.other_info)
    }
}

#[tactic(auto, unfolding(crate::specs::Productions::SearchResponses::search_response_parts))]
impl Taken for SearchResponse {
    ghost table = { search_response_parts };

    fn take(alloc: Global, parts: &mut OwnParts) -> Result<Self, PartError> {
        let reference_id = parts.optional(alloc, Tag::context(2))?;
        let result_count = parts.required(alloc, Tag::context(23))?;
        let number_of_records_returned = parts.required(alloc, Tag::context(24))?;
        let next_result_set_position = parts.required(alloc, Tag::context(25))?;
        let search_status = parts.required(alloc, Tag::context(22))?;
        let result_set_status = parts.optional(alloc, Tag::context(26))?;
        let present_status = parts.optional(alloc, Tag::context(27))?;
        let records = parts.optional_tagged(alloc)?;
        let additional_search_info = parts.optional(alloc, Tag::context(203))?;
        let other_info = parts.optional(alloc, Tag::context(201))?;
        parts.end()?;
        Ok(SearchResponse {
            reference_id,
            result_count,
            number_of_records_returned,
            next_result_set_position,
            search_status,
            result_set_status,
            present_status,
            records,
            additional_search_info,
            other_info,
        })
    }
}
