//! A volume of a copy.
ghost use Rattle.zopac.specs.Volumes.{volume_parts, whole_volume};

use bytes::Bytes;
use std::alloc::Global;
use zasn::{BuildError, PartError, Parts, PartsBuf, Production, Tagged, read_within, write_within};
use zber::{Node, Tag};

/// A volume of a copy (Z39.50-2003, Appendix REC: Volume).
#[derive(Drop)]
pub struct Volume {
    /// enumeration: its number, for example `v.3`.
    pub enumeration: Option<Bytes>,
    /// chronology: its date, for example a year.
    pub chronology: Option<Bytes>,
    /// enumAndChron: both in one text.
    pub enumeration_and_chronology: Option<Bytes>,
}

#[tactic(auto, unfolding(crate::specs::Volumes::volume_parts))]
impl Production for Volume {
    ghost table = { volume_parts };

    fn read(alloc: Global, parts: &mut Parts<'_>) -> Result<Self, PartError> {
        let enumeration = parts.optional(alloc, Tag::context(1))?;
        let chronology = parts.optional(alloc, Tag::context(2))?;
        let enumeration_and_chronology = parts.optional(alloc, Tag::context(3))?;
        parts.end()?;
        Ok(Volume {
            enumeration,
            chronology,
            enumeration_and_chronology,
        })
    }

    fn write(&self, alloc: Global, out: &mut PartsBuf) -> Result<(), BuildError> {
        out.optional(alloc, Tag::context(1), &self.enumeration)?;
        out.optional(alloc, Tag::context(2), &self.chronology)?;
        out.optional(alloc, Tag::context(3), &self.enumeration_and_chronology)
    }
}

impl Tagged for Volume {
    ghost place = { whole_volume };

    fn has(tag: Tag) -> bool {
        tag == Tag::universal(16)
    }

    fn of_element(alloc: Global, node: &Node) -> Result<Self, PartError> {
        read_within(alloc, node)
    }

    fn to_element(&self, alloc: Global) -> Result<Node, BuildError> {
        write_within(alloc, self, Tag::universal(16))
    }
}
