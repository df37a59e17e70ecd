//! PresentResponse.
ghost use Rattle.zapdu.specs.Productions.PresentResponses.{present_response_parts};

use crate::productions::record::Records;
use bytes::Bytes;
use std::alloc::Global;
use zasn::{BuildError, OwnParts, PartError, Parts, PartsBuf, Production, Taken, read_copies};
use zber::{Node, Tag};

/// The reply to a PresentRequest (Z39.50-2003, 3.2.3.1).
#[derive(Drop)]
pub struct PresentResponse {
    /// The request's reference id.
    pub reference_id: Option<Bytes>,
    /// How many records the response has; surrogates are counted.
    pub number_of_records_returned: i64,
    /// The position after the last record returned; 0 if this is the last of the set.
    pub next_result_set_position: i64,
    /// 0 success, 1 to 4 partial, 5 failure.
    pub present_status: i64,
    /// The records, or diagnostics.
    pub records: Option<Records>,
    /// otherInfo `[201]`, kept as its element.
    pub other_info: Option<Node>,
}

#[tactic(auto, unfolding(crate::specs::Productions::PresentResponses::present_response_parts))]
impl Production for PresentResponse {
    ghost table = { present_response_parts };

    fn read(alloc: Global, parts: &mut Parts<'_>) -> Result<Self, PartError> {
        read_copies(alloc, parts)
    }

    fn write(&self, alloc: Global, out: &mut PartsBuf) -> Result<(), BuildError> {
        out.optional(alloc, Tag::context(2), &self.reference_id)?;
        out.required(alloc, Tag::context(24), &self.number_of_records_returned)?;
        out.required(alloc, Tag::context(25), &self.next_result_set_position)?;
        out.required(alloc, Tag::context(27), &self.present_status)?;
        out.optional_tagged(alloc, &self.records)?;
        out.optional(alloc, Tag::context(201), &self.other_info)
    }
}

#[tactic(auto, unfolding(crate::specs::Productions::PresentResponses::present_response_parts))]
impl Taken for PresentResponse {
    ghost table = { present_response_parts };

    fn take(alloc: Global, parts: &mut OwnParts) -> Result<Self, PartError> {
        let reference_id = parts.optional(alloc, Tag::context(2))?;
        let number_of_records_returned = parts.required(alloc, Tag::context(24))?;
        let next_result_set_position = parts.required(alloc, Tag::context(25))?;
        let present_status = parts.required(alloc, Tag::context(27))?;
        let records = parts.optional_tagged(alloc)?;
        let other_info = parts.optional(alloc, Tag::context(201))?;
        parts.end()?;
        Ok(PresentResponse {
            reference_id,
            number_of_records_returned,
            next_result_set_position,
            present_status,
            records,
            other_info,
        })
    }
}
