//! Diagnostics: why an operation failed, or why a record is missing.
ghost use Rattle.zasn.specs.Places.{within};
ghost use Rattle.zapdu.specs.Productions.Diagnostics.{default_parts, diag_rec, info};

use crate::productions::external::External;
use bytes::Bytes;
use std::alloc::Global;
use zasn::{
    BuildError, Contents, PartError, Parts, PartsBuf, Production, Tagged, read_within, write_within,
};
use zber::{Node, Oid, Tag};

/// The additional information of a diagnostic.
#[derive(Drop)]
pub enum Info {
    /// v2Addinfo, VisibleString.
    V2(Bytes),
    /// v3Addinfo, InternationalString.
    V3(Bytes),
}

/// A diagnostic in the default format (Z39.50-2003, 4.1: DefaultDiagFormat).
#[derive(Drop)]
pub struct DefaultDiag {
    /// diagnosticSetId: the diagnostic set, for example bib-1's 1.2.840.10003.4.1.
    pub diag_set: Oid,
    /// condition: the condition's number in this set.
    pub condition: i64,
    /// addinfo: the additional information.
    pub info: Info,
}

/// A diagnostic (Z39.50-2003, 4.1: DiagRec).
#[derive(Drop)]
pub enum DiagRec {
    /// defaultFormat: a condition of a diagnostic set.
    Default(DefaultDiag),
    /// externallyDefined: an EXTERNAL.
    Ext(External),
}

impl Tagged for Info {
    ghost place = { info };

    fn has(tag: Tag) -> bool {
        tag == Tag::universal(26) || tag == Tag::universal(27)
    }

    fn of_element(alloc: Global, node: &Node) -> Result<Self, PartError> {
        if node.tag == Tag::universal(26) {
            let text = Bytes::of_node(alloc, node)?;
            return Ok(Info::V2(text));
        }
        if node.tag == Tag::universal(27) {
            let text = Bytes::of_node(alloc, node)?;
            return Ok(Info::V3(text));
        }
        Err(PartError::Misfit)
    }

    fn to_element(&self, alloc: Global) -> Result<Node, BuildError> {
        match self {
            Info::V2(text) => text.to_node(alloc, Tag::universal(26)),
            Info::V3(text) => text.to_node(alloc, Tag::universal(27)),
        }
    }
}

#[tactic(auto, unfolding(crate::specs::Productions::Diagnostics::default_parts))]
impl Production for DefaultDiag {
    ghost table = { default_parts };

    fn read(alloc: Global, parts: &mut Parts<'_>) -> Result<Self, PartError> {
        let diag_set = parts.required(alloc, Tag::universal(6))?;
        let condition = parts.required(alloc, Tag::universal(2))?;
        let info = parts.required_tagged(alloc)?;
        parts.end()?;
        Ok(DefaultDiag {
            diag_set,
            condition,
            info,
        })
    }

    fn write(&self, alloc: Global, out: &mut PartsBuf) -> Result<(), BuildError> {
        out.required(alloc, Tag::universal(6), &self.diag_set)?;
        out.required(alloc, Tag::universal(2), &self.condition)?;
        out.required_tagged(alloc, &self.info)
    }
}

impl Contents for DefaultDiag {
    ghost place = { λ tag. within tag default_parts };

    fn of_node(alloc: Global, node: &Node) -> Result<Self, PartError> {
        read_within(alloc, node)
    }

    fn to_node(&self, alloc: Global, tag: Tag) -> Result<Node, BuildError> {
        write_within(alloc, self, tag)
    }
}

impl Tagged for DiagRec {
    ghost place = { diag_rec };

    fn has(tag: Tag) -> bool {
        tag == Tag::universal(16) || tag == Tag::universal(8)
    }

    fn of_element(alloc: Global, node: &Node) -> Result<Self, PartError> {
        if node.tag == Tag::universal(16) {
            let diag = DefaultDiag::of_node(alloc, node)?;
            return Ok(DiagRec::Default(diag));
        }
        if node.tag == Tag::universal(8) {
            let external = External::of_node(alloc, node)?;
            return Ok(DiagRec::Ext(external));
        }
        Err(PartError::Misfit)
    }

    fn to_element(&self, alloc: Global) -> Result<Node, BuildError> {
        match self {
            DiagRec::Default(diag) => diag.to_node(alloc, Tag::universal(16)),
            DiagRec::Ext(external) => external.to_node(alloc, Tag::universal(8)),
        }
    }
}
