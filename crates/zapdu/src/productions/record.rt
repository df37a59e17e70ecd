//! Records of a response.
ghost use Rattle.zasn.specs.Places.{within};
ghost use Rattle.zapdu.specs.Productions.Records.{body, record_parts, records, whole_record};

use crate::productions::diagnostic::{DefaultDiag, DiagRec};
use crate::productions::external::External;
use bytes::Bytes;
use std::alloc::Global;
use zasn::{
    BuildError, Contents, Given, OwnParts, PartError, PartsBuf, Tagged, Taken, give_alone,
    give_alone_tagged, give_within, take_alone, take_alone_tagged, take_within,
};
use zber::{Duplicate, Node, Seq, Tag};

/// A record, or what the target sends instead of it.
pub enum RecordBody {
    /// retrievalRecord: the record.
    Retrieval(External),
    /// surrogateDiagnostic: why the target cannot send the record.
    Surrogate(DiagRec),
    /// A fragment of a record, kept as its element `[3]`, `[4]` or `[5]`.
    Fragment(Node),
}

/// A record with the name of its database (Z39.50-2003, 4.1: NamePlusRecord).
#[derive(Drop)]
pub struct Record {
    /// The database's name.
    pub name: Option<Bytes>,
    /// The record, or what the target sends instead of it.
    pub body: RecordBody,
}

/// The records of a response, or diagnostics instead of them (Z39.50-2003, 4.1: Records).
#[derive(Drop)]
pub enum Records {
    /// responseRecords: records, or surrogates instead of them.
    List(Seq<Record>),
    /// nonSurrogateDiagnostic: why there are no records.
    OneDiag(DefaultDiag),
    /// multipleNonSurDiagnostics: why there are no records, in several diagnostics.
    ManyDiags(Seq<DiagRec>),
}

impl Drop for RecordBody {
    fn drop(self) {
        match self {
            RecordBody::Retrieval(_) => {}
            RecordBody::Surrogate(_) => {}
            RecordBody::Fragment(_) => {}
        }
    }
}

impl Tagged for RecordBody {
    ghost place = { body };

    fn has(tag: Tag) -> bool {
        tag == Tag::context(1)
            || tag == Tag::context(2)
            || tag == Tag::context(3)
            || tag == Tag::context(4)
            || tag == Tag::context(5)
    }

    fn of_element(alloc: Global, node: &Node) -> Result<Self, PartError> {
        let copy = node.copy(alloc)?;
        Self::take_element(alloc, copy)
    }

    fn take_element(alloc: Global, node: Node) -> Result<Self, PartError> {
        let tag = node.tag;
        if tag == Tag::context(1) {
            let external = take_alone(alloc, node, Tag::universal(8))?;
            return Ok(RecordBody::Retrieval(external));
        }
        if tag == Tag::context(2) {
            let diag = take_alone_tagged(alloc, node)?;
            return Ok(RecordBody::Surrogate(diag));
        }
        if tag == Tag::context(3) || tag == Tag::context(4) || tag == Tag::context(5) {
            return Ok(RecordBody::Fragment(node));
        }
        Err(PartError::Misfit)
    }

    fn to_element(&self, alloc: Global) -> Result<Node, BuildError> {
        let copy = self.duplicate(alloc)?;
        copy.into_element(alloc)
    }

    fn into_element(self, alloc: Global) -> Result<Node, BuildError> {
        match self {
            RecordBody::Retrieval(external) => {
                give_alone(alloc, external, Tag::context(1), Tag::universal(8))
            }
            RecordBody::Surrogate(diag) => give_alone_tagged(alloc, diag, Tag::context(2)),
            RecordBody::Fragment(node) => {
                let tag = node.tag;
                if tag == Tag::context(3) || tag == Tag::context(4) || tag == Tag::context(5) {
                    Ok(node)
                } else {
                    Err(BuildError::NotSpellable)
                }
            }
        }
    }
}

#[tactic(auto, unfolding(crate::specs::Productions::Records::record_parts))]
impl Taken for Record {
    ghost table = { record_parts };

    fn take(alloc: Global, parts: &mut OwnParts) -> Result<Self, PartError> {
        let name = parts.optional(alloc, Tag::context(0))?;
        let body = parts.required_explicit_tagged(alloc, Tag::context(1))?;
        parts.end()?;
        Ok(Record { name, body })
    }
}

#[tactic(auto, unfolding(crate::specs::Productions::Records::record_parts))]
impl Given for Record {
    ghost table = { record_parts };

    fn give(self, alloc: Global, out: &mut PartsBuf) -> Result<(), BuildError> {
        let Record { name, body } = self;
        out.optional(alloc, Tag::context(0), &name)?;
        out.give_explicit_tagged(alloc, Tag::context(1), body)
    }
}

impl Tagged for Record {
    ghost place = { whole_record };

    fn has(tag: Tag) -> bool {
        tag == Tag::universal(16)
    }

    fn of_element(alloc: Global, node: &Node) -> Result<Self, PartError> {
        let copy = node.copy(alloc)?;
        Self::take_element(alloc, copy)
    }

    fn take_element(alloc: Global, node: Node) -> Result<Self, PartError> {
        take_within(alloc, node)
    }

    fn to_element(&self, alloc: Global) -> Result<Node, BuildError> {
        let copy = self.duplicate(alloc)?;
        copy.into_element(alloc)
    }

    fn into_element(self, alloc: Global) -> Result<Node, BuildError> {
        give_within(alloc, self, Tag::universal(16))
    }
}

impl Tagged for Records {
    ghost place = { records };

    fn has(tag: Tag) -> bool {
        tag == Tag::context(28) || tag == Tag::context(130) || tag == Tag::context(205)
    }

    fn of_element(alloc: Global, node: &Node) -> Result<Self, PartError> {
        let copy = node.copy(alloc)?;
        Self::take_element(alloc, copy)
    }

    fn take_element(alloc: Global, node: Node) -> Result<Self, PartError> {
        if node.tag == Tag::context(28) {
            let list = Seq::take_node(alloc, node)?;
            return Ok(Records::List(list));
        }
        if node.tag == Tag::context(130) {
            let diag = DefaultDiag::take_node(alloc, node)?;
            return Ok(Records::OneDiag(diag));
        }
        if node.tag == Tag::context(205) {
            let diags = Seq::take_node(alloc, node)?;
            return Ok(Records::ManyDiags(diags));
        }
        Err(PartError::Misfit)
    }

    fn to_element(&self, alloc: Global) -> Result<Node, BuildError> {
        match self {
            Records::List(list) => list.to_node(alloc, Tag::context(28)),
            Records::OneDiag(diag) => diag.to_node(alloc, Tag::context(130)),
            Records::ManyDiags(diags) => diags.to_node(alloc, Tag::context(205)),
        }
    }
}
