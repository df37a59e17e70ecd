//! InitializeResponse.
ghost use Rattle.zapdu.specs.Productions.InitResponses.{init_response_parts};

use crate::productions::external::External;
use crate::productions::implementation::{
    Implementation, read_implementation, write_implementation,
};
use bytes::Bytes;
use std::alloc::Global;
use zasn::{BuildError, PartError, Parts, PartsBuf, Production};
use zber::{Bits, Node, Tag};

/// The reply to an InitializeRequest: which of the origin's proposals are in force (Z39.50-2003, 3.2.1.1).
#[derive(Drop)]
pub struct InitResponse {
    /// The request's reference id.
    pub reference_id: Option<Bytes>,
    /// The versions that both sides speak: bit 0 is version 1, bit 1 version 2, bit 2 version 3.
    pub protocol_version: Bits,
    /// The options that both sides agree on: bit 0 search, 1 present, 13 concurrentOperations, 14 namedResultSets,
    /// others as the standard numbers them.
    pub options: Bits,
    /// The most octets that the records of a response should have.
    pub preferred_message_size: i64,
    /// The most octets that one record alone may have.
    pub exceptional_record_size: i64,
    /// Whether the target accepts the association.
    pub result: bool,
    /// Who made the implementation.
    pub implementation_id: Option<Bytes>,
    /// The implementation's name.
    pub implementation_name: Option<Bytes>,
    /// The implementation's version.
    pub implementation_version: Option<Bytes>,
    /// Further information from the target, for example why it refuses.
    pub user_information_field: Option<External>,
    /// otherInfo `[201]`, kept as its element.
    pub other_info: Option<Node>,
}

#[tactic(auto, unfolding(crate::specs::Productions::InitResponses::init_response_parts))]
impl Production for InitResponse {
    ghost table = { init_response_parts };

    fn read(alloc: Global, parts: &mut Parts<'_>) -> Result<Self, PartError> {
        let reference_id = parts.optional(alloc, Tag::context(2))?;
        let protocol_version = parts.required(alloc, Tag::context(3))?;
        let options = parts.required(alloc, Tag::context(4))?;
        let preferred_message_size = parts.required(alloc, Tag::context(5))?;
        let exceptional_record_size = parts.required(alloc, Tag::context(6))?;
        let result = parts.required(alloc, Tag::context(12))?;
        let Implementation {
            implementation_id,
            implementation_name,
            implementation_version,
            user_information_field,
            other_info,
        } = read_implementation(alloc, parts)?;
        Ok(InitResponse {
            reference_id,
            protocol_version,
            options,
            preferred_message_size,
            exceptional_record_size,
            result,
            implementation_id,
            implementation_name,
            implementation_version,
            user_information_field,
            other_info,
        })
    }

    fn write(&self, alloc: Global, out: &mut PartsBuf) -> Result<(), BuildError> {
        out.optional(alloc, Tag::context(2), &self.reference_id)?;
        out.required(alloc, Tag::context(3), &self.protocol_version)?;
        out.required(alloc, Tag::context(4), &self.options)?;
        out.required(alloc, Tag::context(5), &self.preferred_message_size)?;
        out.required(alloc, Tag::context(6), &self.exceptional_record_size)?;
        out.required(alloc, Tag::context(12), &self.result)?;
        write_implementation(
            alloc,
            out,
            &self.implementation_id,
            &self.implementation_name,
            &self.implementation_version,
            &self.user_information_field,
            &self.other_info,
        )
    }
}
