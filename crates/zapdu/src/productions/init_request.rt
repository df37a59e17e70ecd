//! InitializeRequest.
ghost use Rattle.zapdu.specs.Productions.InitRequests.{init_request_parts};

use crate::productions::external::External;
use crate::productions::implementation::{
    Implementation, read_implementation, write_implementation,
};
use bytes::Bytes;
use std::alloc::Global;
use zasn::{BuildError, PartError, Parts, PartsBuf, Production};
use zber::{Bits, Node, Tag};

/// An origin's first APDU: what it proposes for the Z39.50 association (Z39.50-2003, 3.2.1.1).
#[derive(Drop)]
pub struct InitRequest {
    /// The reference id.
    pub reference_id: Option<Bytes>,
    /// The versions that the origin speaks: bit 0 is version 1, bit 1 version 2, bit 2 version 3.
    pub protocol_version: Bits,
    /// The options that the origin proposes: bit 0 search, 1 present, 13 concurrentOperations, 14 namedResultSets,
    /// others as the standard numbers them.
    pub options: Bits,
    /// The most octets that the records of a response should have.
    pub preferred_message_size: i64,
    /// The most octets that one record alone may have.
    pub exceptional_record_size: i64,
    /// idAuthentication `[7]`: the one element within it, of any kind.
    pub id_authentication: Option<Node>,
    /// Who made the implementation.
    pub implementation_id: Option<Bytes>,
    /// The implementation's name.
    pub implementation_name: Option<Bytes>,
    /// The implementation's version.
    pub implementation_version: Option<Bytes>,
    /// Further information from the origin.
    pub user_information_field: Option<External>,
    /// otherInfo `[201]`, kept as its element.
    pub other_info: Option<Node>,
}

#[tactic(auto, unfolding(crate::specs::Productions::InitRequests::init_request_parts))]
impl Production for InitRequest {
    ghost table = { init_request_parts };

    fn read(alloc: Global, parts: &mut Parts<'_>) -> Result<Self, PartError> {
        let reference_id = parts.optional(alloc, Tag::context(2))?;
        let protocol_version = parts.required(alloc, Tag::context(3))?;
        let options = parts.required(alloc, Tag::context(4))?;
        let preferred_message_size = parts.required(alloc, Tag::context(5))?;
        let exceptional_record_size = parts.required(alloc, Tag::context(6))?;
        let id_authentication = parts.optional_any(alloc, Tag::context(7))?;
        let Implementation {
            implementation_id,
            implementation_name,
            implementation_version,
            user_information_field,
            other_info,
        } = read_implementation(alloc, parts)?;
        Ok(InitRequest {
            reference_id,
            protocol_version,
            options,
            preferred_message_size,
            exceptional_record_size,
            id_authentication,
            implementation_id,
            implementation_name,
            implementation_version,
            user_information_field,
            other_info,
        })
    }

    fn write(&self, alloc: Global, out: &mut PartsBuf) -> Result<(), BuildError> {
        out.optional(alloc, Tag::context(2), &self.reference_id)?;
        out.required(alloc, Tag::context(3), &self.protocol_version)?;
        out.required(alloc, Tag::context(4), &self.options)?;
        out.required(alloc, Tag::context(5), &self.preferred_message_size)?;
        out.required(alloc, Tag::context(6), &self.exceptional_record_size)?;
        out.optional_any(alloc, Tag::context(7), &self.id_authentication)?;
        write_implementation(
            alloc,
            out,
            &self.implementation_id,
            &self.implementation_name,
            &self.implementation_version,
            &self.user_information_field,
            &self.other_info,
        )
    }
}
