//! Copies of APDUs and their parts.
ghost use Rattle.std.specs.Prelude.{◌≡◌, IfOk};

use crate::apdu::Apdu;
use crate::productions::close::Close;
use crate::productions::diagnostic::{DefaultDiag, DiagRec, Info};
use crate::productions::element_set_names::{DatabaseElementSet, ElementSetNames};
use crate::productions::external::{Content, External};
use crate::productions::init_request::InitRequest;
use crate::productions::init_response::InitResponse;
use crate::productions::present_request::PresentRequest;
use crate::productions::present_response::PresentResponse;
use crate::productions::range::Range;
use crate::productions::record::{Record, RecordBody, Records};
use crate::productions::record_composition::RecordComposition;
use crate::productions::search_query::SearchQuery;
use crate::productions::search_request::SearchRequest;
use crate::productions::search_response::SearchResponse;
use std::alloc::{AllocError, Global};
use zber::Duplicate;

/// Duplicates two values. A struct's fields are duplicated a few at a time: few steps can then fail while many fields
/// are to be dropped.
fn two<A: Duplicate + Drop, B: Duplicate + Drop>(
    alloc: Global,
    a: &A,
    b: &B,
) -> Result<(A, B), AllocError>
    ensures { IfOk result (λ copies. copies ≡ (a.now, b.now)) }
{
    let a = a.duplicate(alloc)?;
    let b = b.duplicate(alloc)?;
    Ok((a, b))
}

/// Duplicates three values.
fn three<A: Duplicate + Drop, B: Duplicate + Drop, C: Duplicate + Drop>(
    alloc: Global,
    a: &A,
    b: &B,
    c: &C,
) -> Result<(A, B, C), AllocError>
    ensures { IfOk result (λ copies. copies ≡ (a.now, b.now, c.now)) }
{
    let (a, b) = two(alloc, a, b)?;
    let c = c.duplicate(alloc)?;
    Ok((a, b, c))
}

impl Duplicate for Content {
    fn duplicate(&self, alloc: Global) -> Result<Self, AllocError> {
        match self {
            Content::Single(node) => Ok(Content::Single(node.duplicate(alloc)?)),
            Content::Aligned(octets) => Ok(Content::Aligned(octets.duplicate(alloc)?)),
            Content::Arbitrary(bits) => Ok(Content::Arbitrary(bits.duplicate(alloc)?)),
        }
    }
}

impl Duplicate for External {
    fn duplicate(&self, alloc: Global) -> Result<Self, AllocError> {
        Ok(External {
            direct: self.direct.duplicate(alloc)?,
            indirect: self.indirect,
            descriptor: self.descriptor.duplicate(alloc)?,
            content: self.content.duplicate(alloc)?,
        })
    }
}

impl Duplicate for Info {
    fn duplicate(&self, alloc: Global) -> Result<Self, AllocError> {
        match self {
            Info::V2(text) => Ok(Info::V2(text.duplicate(alloc)?)),
            Info::V3(text) => Ok(Info::V3(text.duplicate(alloc)?)),
        }
    }
}

impl Duplicate for DefaultDiag {
    fn duplicate(&self, alloc: Global) -> Result<Self, AllocError> {
        Ok(DefaultDiag {
            diag_set: self.diag_set.duplicate(alloc)?,
            condition: self.condition,
            info: self.info.duplicate(alloc)?,
        })
    }
}

impl Duplicate for DiagRec {
    fn duplicate(&self, alloc: Global) -> Result<Self, AllocError> {
        match self {
            DiagRec::Default(diag) => Ok(DiagRec::Default(diag.duplicate(alloc)?)),
            DiagRec::Ext(external) => Ok(DiagRec::Ext(external.duplicate(alloc)?)),
        }
    }
}

impl Duplicate for RecordBody {
    fn duplicate(&self, alloc: Global) -> Result<Self, AllocError> {
        match self {
            RecordBody::Retrieval(external) => Ok(RecordBody::Retrieval(external.duplicate(
                alloc,
            )?)),
            RecordBody::Surrogate(diag) => Ok(RecordBody::Surrogate(diag.duplicate(alloc)?)),
            RecordBody::Fragment(node) => Ok(RecordBody::Fragment(node.duplicate(alloc)?)),
        }
    }
}

impl Duplicate for Record {
    fn duplicate(&self, alloc: Global) -> Result<Self, AllocError> {
        Ok(Record {
            name: self.name.duplicate(alloc)?,
            body: self.body.duplicate(alloc)?,
        })
    }
}

impl Duplicate for Records {
    fn duplicate(&self, alloc: Global) -> Result<Self, AllocError> {
        match self {
            Records::List(list) => Ok(Records::List(list.duplicate(alloc)?)),
            Records::OneDiag(diag) => Ok(Records::OneDiag(diag.duplicate(alloc)?)),
            Records::ManyDiags(diags) => Ok(Records::ManyDiags(diags.duplicate(alloc)?)),
        }
    }
}

impl Duplicate for InitRequest {
    fn duplicate(&self, alloc: Global) -> Result<Self, AllocError> {
        let (reference_id, protocol_version, options) = three(
            alloc,
            &self.reference_id,
            &self.protocol_version,
            &self.options,
        )?;
        let (id_authentication, implementation_id, implementation_name) = three(
            alloc,
            &self.id_authentication,
            &self.implementation_id,
            &self.implementation_name,
        )?;
        let (implementation_version, user_information_field, other_info) = three(
            alloc,
            &self.implementation_version,
            &self.user_information_field,
            &self.other_info,
        )?;
        Ok(InitRequest {
            reference_id,
            protocol_version,
            options,
            preferred_message_size: self.preferred_message_size,
            exceptional_record_size: self.exceptional_record_size,
            id_authentication,
            implementation_id,
            implementation_name,
            implementation_version,
            user_information_field,
            other_info,
        })
    }
}

impl Duplicate for InitResponse {
    fn duplicate(&self, alloc: Global) -> Result<Self, AllocError> {
        let (reference_id, protocol_version, options) = three(
            alloc,
            &self.reference_id,
            &self.protocol_version,
            &self.options,
        )?;
        let (implementation_id, implementation_name, implementation_version) = three(
            alloc,
            &self.implementation_id,
            &self.implementation_name,
            &self.implementation_version,
        )?;
        let (user_information_field, other_info) = two(
            alloc,
            &self.user_information_field,
            &self.other_info,
        )?;
        Ok(InitResponse {
            reference_id,
            protocol_version,
            options,
            preferred_message_size: self.preferred_message_size,
            exceptional_record_size: self.exceptional_record_size,
            result: self.result,
            implementation_id,
            implementation_name,
            implementation_version,
            user_information_field,
            other_info,
        })
    }
}

impl Duplicate for SearchQuery {
    fn duplicate(&self, alloc: Global) -> Result<Self, AllocError> {
        match self {
            SearchQuery::Rpn(query) => Ok(SearchQuery::Rpn(query.copy(alloc)?)),
            SearchQuery::Other(node) => Ok(SearchQuery::Other(node.duplicate(alloc)?)),
        }
    }
}

impl Duplicate for SearchRequest {
    fn duplicate(&self, alloc: Global) -> Result<Self, AllocError> {
        let (reference_id, result_set_name, database_names) = three(
            alloc,
            &self.reference_id,
            &self.result_set_name,
            &self.database_names,
        )?;
        let (small_set_element_set_names, medium_set_element_set_names, preferred_record_syntax) =
            three(
                alloc,
                &self.small_set_element_set_names,
                &self.medium_set_element_set_names,
                &self.preferred_record_syntax,
            )?;
        let (query, additional_search_info, other_info) = three(
            alloc,
            &self.query,
            &self.additional_search_info,
            &self.other_info,
        )?;
        Ok(SearchRequest {
            reference_id,
            small_set_upper_bound: self.small_set_upper_bound,
            large_set_lower_bound: self.large_set_lower_bound,
            medium_set_present_number: self.medium_set_present_number,
            replace_indicator: self.replace_indicator,
            result_set_name,
            database_names,
            small_set_element_set_names,
            medium_set_element_set_names,
            preferred_record_syntax,
            query,
            additional_search_info,
            other_info,
        })
    }
}

impl Duplicate for SearchResponse {
    fn duplicate(&self, alloc: Global) -> Result<Self, AllocError> {
        let (reference_id, records) = two(alloc, &self.reference_id, &self.records)?;
        let (additional_search_info, other_info) = two(
            alloc,
            &self.additional_search_info,
            &self.other_info,
        )?;
        Ok(SearchResponse {
            reference_id,
            result_count: self.result_count,
            number_of_records_returned: self.number_of_records_returned,
            next_result_set_position: self.next_result_set_position,
            search_status: self.search_status,
            result_set_status: self.result_set_status,
            present_status: self.present_status,
            records,
            additional_search_info,
            other_info,
        })
    }
}

impl Duplicate for DatabaseElementSet {
    fn duplicate(&self, alloc: Global) -> Result<Self, AllocError> {
        Ok(DatabaseElementSet {
            database_name: self.database_name.duplicate(alloc)?,
            element_set_name: self.element_set_name.duplicate(alloc)?,
        })
    }
}

impl Duplicate for ElementSetNames {
    fn duplicate(&self, alloc: Global) -> Result<Self, AllocError> {
        match self {
            ElementSetNames::Generic(name) => Ok(ElementSetNames::Generic(name.duplicate(alloc)?)),
            ElementSetNames::DatabaseSpecific(names) => Ok(ElementSetNames::DatabaseSpecific(
                names.duplicate(alloc)?,
            )),
        }
    }
}

impl Duplicate for RecordComposition {
    fn duplicate(&self, alloc: Global) -> Result<Self, AllocError> {
        match self {
            RecordComposition::Simple(names) => Ok(RecordComposition::Simple(names.duplicate(
                alloc,
            )?)),
            RecordComposition::Complex(node) => Ok(RecordComposition::Complex(node.duplicate(
                alloc,
            )?)),
        }
    }
}

impl Duplicate for Range {
    fn duplicate(&self, _alloc: Global) -> Result<Self, AllocError> {
        Ok(Range {
            starting_position: self.starting_position,
            number_of_records: self.number_of_records,
        })
    }
}

impl Duplicate for PresentRequest {
    fn duplicate(&self, alloc: Global) -> Result<Self, AllocError> {
        let (reference_id, result_set_id, additional_ranges) = three(
            alloc,
            &self.reference_id,
            &self.result_set_id,
            &self.additional_ranges,
        )?;
        let (record_composition, preferred_record_syntax, max_segment_count) = three(
            alloc,
            &self.record_composition,
            &self.preferred_record_syntax,
            &self.max_segment_count,
        )?;
        let (max_record_size, max_segment_size, other_info) = three(
            alloc,
            &self.max_record_size,
            &self.max_segment_size,
            &self.other_info,
        )?;
        Ok(PresentRequest {
            reference_id,
            result_set_id,
            result_set_start_point: self.result_set_start_point,
            number_of_records_requested: self.number_of_records_requested,
            additional_ranges,
            record_composition,
            preferred_record_syntax,
            max_segment_count,
            max_record_size,
            max_segment_size,
            other_info,
        })
    }
}

impl Duplicate for PresentResponse {
    fn duplicate(&self, alloc: Global) -> Result<Self, AllocError> {
        Ok(PresentResponse {
            reference_id: self.reference_id.duplicate(alloc)?,
            number_of_records_returned: self.number_of_records_returned,
            next_result_set_position: self.next_result_set_position,
            present_status: self.present_status,
            records: self.records.duplicate(alloc)?,
            other_info: self.other_info.duplicate(alloc)?,
        })
    }
}

impl Duplicate for Close {
    fn duplicate(&self, alloc: Global) -> Result<Self, AllocError> {
        let (reference_id, diagnostic_information, resource_report_format) = three(
            alloc,
            &self.reference_id,
            &self.diagnostic_information,
            &self.resource_report_format,
        )?;
        let (resource_report, other_info) = two(alloc, &self.resource_report, &self.other_info)?;
        Ok(Close {
            reference_id,
            close_reason: self.close_reason,
            diagnostic_information,
            resource_report_format,
            resource_report,
            other_info,
        })
    }
}

impl Duplicate for Apdu {
    fn duplicate(&self, alloc: Global) -> Result<Self, AllocError> {
        match self {
            Apdu::InitRequest(apdu) => Ok(Apdu::InitRequest(apdu.duplicate(alloc)?)),
            Apdu::InitResponse(apdu) => Ok(Apdu::InitResponse(apdu.duplicate(alloc)?)),
            Apdu::SearchRequest(apdu) => Ok(Apdu::SearchRequest(apdu.duplicate(alloc)?)),
            Apdu::SearchResponse(apdu) => Ok(Apdu::SearchResponse(apdu.duplicate(alloc)?)),
            Apdu::PresentRequest(apdu) => Ok(Apdu::PresentRequest(apdu.duplicate(alloc)?)),
            Apdu::PresentResponse(apdu) => Ok(Apdu::PresentResponse(apdu.duplicate(alloc)?)),
            Apdu::Close(apdu) => Ok(Apdu::Close(apdu.duplicate(alloc)?)),
        }
    }
}

impl Apdu {
    /// Returns an equal APDU, or `AllocError` if no memory is found.
    pub fn copy(&self, alloc: Global) -> Result<Apdu, AllocError>
        ensures { IfOk result (λ copy. copy ≡ self.now) }
    {
        self.duplicate(alloc)
    }
}

impl Record {
    /// Returns an equal record, or `AllocError` if no memory is found.
    pub fn copy(&self, alloc: Global) -> Result<Record, AllocError>
        ensures { IfOk result (λ copy. copy ≡ self.now) }
    {
        self.duplicate(alloc)
    }
}

impl DiagRec {
    /// Returns an equal diagnostic, or `AllocError` if no memory is found.
    pub fn copy(&self, alloc: Global) -> Result<DiagRec, AllocError>
        ensures { IfOk result (λ copy. copy ≡ self.now) }
    {
        self.duplicate(alloc)
    }
}
