//! Close.
ghost use Rattle.zapdu.specs.Productions.Closes.{close_parts};

use crate::productions::external::External;
use bytes::Bytes;
use std::alloc::Global;
use zasn::{BuildError, PartError, Parts, PartsBuf, Production};
use zber::{Node, Oid, Tag};

/// The end of a Z39.50 association, from either side (Z39.50-2003, 3.2.11.1).
#[derive(Drop)]
pub struct Close {
    /// The reference id.
    pub reference_id: Option<Bytes>,
    /// The reason: 0 finished, 1 shutdown, 2 system problem, 6 protocol error, 7 lack of activity, 8 peer abort, 9
    /// unspecified.
    pub close_reason: i64,
    /// A text about the reason.
    pub diagnostic_information: Option<Bytes>,
    /// The format of the resource report.
    pub resource_report_format: Option<Oid>,
    /// The resource report.
    pub resource_report: Option<External>,
    /// otherInfo `[201]`, kept as its element.
    pub other_info: Option<Node>,
}

#[tactic(auto, unfolding(crate::specs::Productions::Closes::close_parts))]
impl Production for Close {
    ghost table = { close_parts };

    fn read(alloc: Global, parts: &mut Parts<'_>) -> Result<Self, PartError> {
        let reference_id = parts.optional(alloc, Tag::context(2))?;
        let close_reason = parts.required(alloc, Tag::context(211))?;
        let diagnostic_information = parts.optional(alloc, Tag::context(3))?;
        let resource_report_format = parts.optional(alloc, Tag::context(4))?;
        let resource_report = parts.optional_explicit(alloc, Tag::context(5), Tag::universal(8))?;
        let other_info = parts.optional(alloc, Tag::context(201))?;
        parts.end()?;
        Ok(Close {
            reference_id,
            close_reason,
            diagnostic_information,
            resource_report_format,
            resource_report,
            other_info,
        })
    }

    fn write(&self, alloc: Global, out: &mut PartsBuf) -> Result<(), BuildError> {
        out.optional(alloc, Tag::context(2), &self.reference_id)?;
        out.required(alloc, Tag::context(211), &self.close_reason)?;
        out.optional(alloc, Tag::context(3), &self.diagnostic_information)?;
        out.optional(alloc, Tag::context(4), &self.resource_report_format)?;
        out.optional_explicit(
            alloc,
            Tag::context(5),
            Tag::universal(8),
            &self.resource_report,
        )?;
        out.optional(alloc, Tag::context(201), &self.other_info)
    }
}
