//! EXTERNAL: a record, a diagnostic or a report, with the syntax that it is in.
ghost use Rattle.zasn.specs.Places.{within};
ghost use Rattle.zapdu.specs.Productions.Externals.{content, external_parts};

use bytes::Bytes;
use std::alloc::Global;
use zasn::{
    BuildError, Contents, Given, OwnParts, PartError, PartsBuf, Tagged, Taken, give_within,
    take_any, take_within, write_around,
};
use zber::{Bits, Duplicate, Node, Oid, Tag};

/// The contents of an EXTERNAL (X.690, 8.18).
#[derive(Drop)]
pub enum Content {
    /// `[0]` single-ASN1-type: the element within, whatever it is.
    Single(Node),
    /// `[1]` octet-aligned: octets, for example of a MARC record.
    Aligned(Bytes),
    /// `[2]` arbitrary: bits.
    Arbitrary(Bits),
}

/// An EXTERNAL (X.208, 34): its syntax, and its content.
pub struct External {
    /// direct-reference: the syntax's object identifier.
    pub direct: Option<Oid>,
    /// indirect-reference: the number of a presentation context.
    pub indirect: Option<i64>,
    /// data-value-descriptor: a text about the value.
    pub descriptor: Option<Bytes>,
    /// encoding: the value.
    pub content: Content,
}

impl Drop for External {
    fn drop(self) {
        let External {
            direct: _,
            indirect: _,
            descriptor: _,
            content: _,
        } = self;
    }
}

impl Tagged for Content {
    ghost place = { content };

    fn has(tag: Tag) -> bool {
        tag == Tag::context(0) || tag == Tag::context(1) || tag == Tag::context(2)
    }

    fn of_element(alloc: Global, node: &Node) -> Result<Self, PartError> {
        let copy = node.copy(alloc)?;
        Self::take_element(alloc, copy)
    }

    fn take_element(alloc: Global, node: Node) -> Result<Self, PartError> {
        if node.tag == Tag::context(0) {
            let any = take_any(node).ok_or(PartError::Misfit)?;
            return Ok(Content::Single(any));
        }
        if node.tag == Tag::context(1) {
            let octets = Bytes::of_node(alloc, &node)?;
            return Ok(Content::Aligned(octets));
        }
        if node.tag == Tag::context(2) {
            let bits = Bits::of_node(alloc, &node)?;
            return Ok(Content::Arbitrary(bits));
        }
        Err(PartError::Misfit)
    }

    fn to_element(&self, alloc: Global) -> Result<Node, BuildError> {
        let copy = self.duplicate(alloc)?;
        copy.into_element(alloc)
    }

    fn into_element(self, alloc: Global) -> Result<Node, BuildError> {
        match self {
            Content::Single(node) => write_around(alloc, node, Tag::context(0)),
            Content::Aligned(octets) => octets.to_node(alloc, Tag::context(1)),
            Content::Arbitrary(bits) => bits.to_node(alloc, Tag::context(2)),
        }
    }
}

#[tactic(auto, unfolding(crate::specs::Productions::Externals::external_parts))]
impl Taken for External {
    ghost table = { external_parts };

    fn take(alloc: Global, parts: &mut OwnParts) -> Result<Self, PartError> {
        let direct = parts.optional(alloc, Tag::universal(6))?;
        let indirect = parts.optional(alloc, Tag::universal(2))?;
        let descriptor = parts.optional(alloc, Tag::universal(7))?;
        let content = parts.required_tagged(alloc)?;
        parts.end()?;
        Ok(External {
            direct,
            indirect,
            descriptor,
            content,
        })
    }
}

#[tactic(auto, unfolding(crate::specs::Productions::Externals::external_parts))]
impl Given for External {
    ghost table = { external_parts };

    fn give(self, alloc: Global, out: &mut PartsBuf) -> Result<(), BuildError> {
        let External {
            direct,
            indirect,
            descriptor,
            content,
        } = self;
        out.optional(alloc, Tag::universal(6), &direct)?;
        out.optional(alloc, Tag::universal(2), &indirect)?;
        out.optional(alloc, Tag::universal(7), &descriptor)?;
        out.give_tagged(alloc, content)
    }
}

impl Contents for External {
    ghost place = { λ tag. within tag external_parts };

    fn of_node(alloc: Global, node: &Node) -> Result<Self, PartError> {
        let copy = node.copy(alloc)?;
        Self::take_node(alloc, copy)
    }

    fn take_node(alloc: Global, node: Node) -> Result<Self, PartError> {
        take_within(alloc, node)
    }

    fn to_node(&self, alloc: Global, tag: Tag) -> Result<Node, BuildError> {
        let copy = self.duplicate(alloc)?;
        copy.into_node(alloc, tag)
    }

    fn into_node(self, alloc: Global, tag: Tag) -> Result<Node, BuildError> {
        give_within(alloc, self, tag)
    }
}
