//! PresentRequest.
ghost use Rattle.zapdu.specs.Productions.PresentRequests.{present_request_parts};

use crate::productions::delivery::{Delivery, read_delivery, write_delivery};
use crate::productions::range::Range;
use crate::productions::record_composition::RecordComposition;
use bytes::Bytes;
use std::alloc::Global;
use zasn::{BuildError, PartError, Parts, PartsBuf, Production};
use zber::{Node, Oid, Seq, Tag};

/// A request for records of a result set (Z39.50-2003, 3.2.3.1).
#[derive(Drop)]
pub struct PresentRequest {
    /// The reference id.
    pub reference_id: Option<Bytes>,
    /// The result set's name.
    pub result_set_id: Bytes,
    /// The first record's position; the set's first is 1.
    pub result_set_start_point: i64,
    /// How many records.
    pub number_of_records_requested: i64,
    /// Further ranges, after the first.
    pub additional_ranges: Option<Seq<Range>>,
    /// Which elements the records are to have.
    pub record_composition: Option<RecordComposition>,
    /// The syntax that the origin prefers.
    pub preferred_record_syntax: Option<Oid>,
    /// maxSegmentCount `[204]`, kept as its element.
    pub max_segment_count: Option<Node>,
    /// maxRecordSize `[206]`, kept as its element.
    pub max_record_size: Option<Node>,
    /// maxSegmentSize `[207]`, kept as its element.
    pub max_segment_size: Option<Node>,
    /// otherInfo `[201]`, kept as its element.
    pub other_info: Option<Node>,
}

#[tactic(auto, unfolding(crate::specs::Productions::PresentRequests::present_request_parts))]
impl Production for PresentRequest {
    ghost table = { present_request_parts };

    fn read(alloc: Global, parts: &mut Parts<'_>) -> Result<Self, PartError> {
        let reference_id = parts.optional(alloc, Tag::context(2))?;
        let result_set_id = parts.required(alloc, Tag::context(31))?;
        let result_set_start_point = parts.required(alloc, Tag::context(30))?;
        let number_of_records_requested = parts.required(alloc, Tag::context(29))?;
        let additional_ranges = parts.optional(alloc, Tag::context(212))?;
        let record_composition = parts.optional_tagged(alloc)?;
        let Delivery {
            preferred_record_syntax,
            max_segment_count,
            max_record_size,
            max_segment_size,
            other_info,
        } = read_delivery(alloc, parts)?;
        Ok(PresentRequest {
            reference_id,
            result_set_id,
            result_set_start_point,
            number_of_records_requested,
            additional_ranges,
            record_composition,
            preferred_record_syntax,
            max_segment_count,
            max_record_size,
            max_segment_size,
            other_info,
        })
    }

    fn write(&self, alloc: Global, out: &mut PartsBuf) -> Result<(), BuildError> {
        out.optional(alloc, Tag::context(2), &self.reference_id)?;
        out.required(alloc, Tag::context(31), &self.result_set_id)?;
        out.required(alloc, Tag::context(30), &self.result_set_start_point)?;
        out.required(alloc, Tag::context(29), &self.number_of_records_requested)?;
        out.optional(alloc, Tag::context(212), &self.additional_ranges)?;
        out.optional_tagged(alloc, &self.record_composition)?;
        write_delivery(
            alloc,
            out,
            &self.preferred_record_syntax,
            &self.max_segment_count,
            &self.max_record_size,
            &self.max_segment_size,
            &self.other_info,
        )
    }
}
