//! A bibliographic record with its copies.
ghost use Rattle.zasn.specs.Results.{MeaningResult, BuildResult, WritingResult};
ghost use Rattle.zopac.specs.Opacs.{IsReadResult, WritesOpac, opac_meaning, opac_parts, opac_spelling, whole_opac};

use crate::holding::Holding;
use std::alloc::Global;
use zapdu::External;
use zasn::{BuildError, PartError, Parts, PartsBuf, Production, Tagged, read_within, write_within};
use zber::{Node, Seq, Tag};

/// A bibliographic record with its copies (Z39.50-2003, Appendix REC: OPACRecord).
#[derive(Drop)]
pub struct OpacRecord {
    /// bibliographicRecord: the bibliographic record, for example one of MARC 21.
    pub bibliographic: Option<External>,
    /// holdingsData: the copies.
    pub holdings: Option<Seq<Holding>>,
}

#[tactic(auto, unfolding(crate::specs::Opacs::opac_parts))]
impl Production for OpacRecord {
    ghost table = { opac_parts };

    fn read(alloc: Global, parts: &mut Parts<'_>) -> Result<Self, PartError> {
        let bibliographic = parts.optional(alloc, Tag::context(1))?;
        let holdings = parts.optional(alloc, Tag::context(2))?;
        parts.end()?;
        Ok(OpacRecord {
            bibliographic,
            holdings,
        })
    }

    fn write(&self, alloc: Global, out: &mut PartsBuf) -> Result<(), BuildError> {
        out.optional(alloc, Tag::context(1), &self.bibliographic)?;
        out.optional(alloc, Tag::context(2), &self.holdings)
    }
}

impl Tagged for OpacRecord {
    ghost place = { whole_opac };

    fn has(tag: Tag) -> bool {
        tag == Tag::universal(16)
    }

    fn of_element(alloc: Global, node: &Node) -> Result<Self, PartError> {
        read_within(alloc, node)
    }

    fn to_element(&self, alloc: Global) -> Result<Node, BuildError> {
        write_within(alloc, self, Tag::universal(16))
    }
}

/// Returns the OPAC record that the element stands for: in Z39.50 the one element of an EXTERNAL (`Content::Single`)
/// whose direct reference is 1.2.840.10003.5.102. Texts share the octets of the element; EXTERNALs within are copied.
///
/// Returns `Misfit` if the element stands for none: it has another tag than SEQUENCE, or is primitive; an element
/// within has no place there, stands before one that it should follow, or has no value of its kind; or a CircRecord
/// lacks availableNow, renewable or onHold. Returns `Memory` if no memory is found.
pub fn read_opac(alloc: Global, node: &Node) -> Result<OpacRecord, PartError>
    ensures exact { MeaningResult (opac_meaning node.now) result }
    ensures written { IsReadResult node.now result }
{
    if !OpacRecord::has(node.tag) {
        return Err(PartError::Misfit);
    }
    OpacRecord::of_element(alloc, node)
}

/// Builds the element that stands for an OPAC record, with the contents octets of the canonical encoding.
///
/// Returns `NotSpellable` if a part of an EXTERNAL has no spelling, and `Memory` if no memory is found.
pub fn opac_node(alloc: Global, value: &OpacRecord) -> Result<Node, BuildError>
    ensures exact { BuildResult (opac_spelling value.now) result }
    ensures written { WritingResult (WritesOpac value.now) result }
{
    value.to_element(alloc)
}
