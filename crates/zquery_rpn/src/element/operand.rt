//! The parts of operands as elements: attributes and terms (Z39.50-2003, 4.1).
ghost use Rattle.std.specs.Prelude.{◌≡◌};
ghost use Rattle.zber.specs.Tags.{among};
ghost use Rattle.zquery_rpn.specs.Element.Operands.{attribute, attribute_parts, kept_terms, term, value};

use crate::query::{Attr, AttrValue, TermValue};
use bytes::Bytes;
use std::alloc::Global;
use zasn::{
    BuildError, Contents, PartError, Parts, PartsBuf, Production, Tagged, read_within, write_within,
};
use zber::{Node, Tag};

impl Tagged for AttrValue {
    ghost place = { value };

    fn has(tag: Tag) -> bool {
        tag == Tag::context(121) || tag == Tag::context(224)
    }

    fn of_element(alloc: Global, node: &Node) -> Result<Self, PartError> {
        if node.tag == Tag::context(121) {
            let number = i64::of_node(alloc, node)?;
            return Ok(AttrValue::Number(number));
        }
        if node.tag == Tag::context(224) {
            let complex = Node::of_node(alloc, node)?;
            return Ok(AttrValue::Complex(complex));
        }
        Err(PartError::Misfit)
    }

    fn to_element(&self, alloc: Global) -> Result<Node, BuildError> {
        match self {
            AttrValue::Number(number) => number.to_node(alloc, Tag::context(121)),
            AttrValue::Complex(complex) => complex.to_node(alloc, Tag::context(224)),
        }
    }
}

#[tactic(auto, unfolding(crate::specs::Element::Operands::attribute_parts))]
impl Production for Attr {
    ghost table = { attribute_parts };

    fn read(alloc: Global, parts: &mut Parts<'_>) -> Result<Self, PartError> {
        let attr_set = parts.optional(alloc, Tag::context(1))?;
        let kind = parts.required(alloc, Tag::context(120))?;
        let value = parts.required_tagged(alloc)?;
        parts.end()?;
        Ok(Attr {
            attr_set,
            kind,
            value,
        })
    }

    fn write(&self, alloc: Global, out: &mut PartsBuf) -> Result<(), BuildError> {
        out.optional(alloc, Tag::context(1), &self.attr_set)?;
        out.required(alloc, Tag::context(120), &self.kind)?;
        out.required_tagged(alloc, &self.value)
    }
}

impl Tagged for Attr {
    ghost place = { attribute };

    fn has(tag: Tag) -> bool {
        tag == Tag::universal(16)
    }

    fn of_element(alloc: Global, node: &Node) -> Result<Self, PartError> {
        read_within(alloc, node)
    }

    fn to_element(&self, alloc: Global) -> Result<Node, BuildError> {
        write_within(alloc, self, Tag::universal(16))
    }
}

/// Whether a term with this tag is kept as its element.
fn is_kept(tag: Tag) -> bool
    ensures { result ≡ among tag kept_terms }
{
    tag == Tag::context(217)
        || tag == Tag::context(218)
        || tag == Tag::context(219)
        || tag == Tag::context(220)
        || tag == Tag::context(221)
}

#[tactic(auto, unfolding(crate::specs::Element::Operands::term))]
impl Tagged for TermValue {
    ghost place = { term };

    fn has(tag: Tag) -> bool {
        tag == Tag::context(45)
            || tag == Tag::context(215)
            || tag == Tag::context(216)
            || is_kept(tag)
    }

    fn of_element(alloc: Global, node: &Node) -> Result<Self, PartError> {
        if node.tag == Tag::context(45) {
            let octets = Bytes::of_node(alloc, node)?;
            return Ok(TermValue::General(octets));
        }
        if node.tag == Tag::context(215) {
            let number = i64::of_node(alloc, node)?;
            return Ok(TermValue::Numeric(number));
        }
        if node.tag == Tag::context(216) {
            let text = Bytes::of_node(alloc, node)?;
            return Ok(TermValue::Text(text));
        }
        if is_kept(node.tag) {
            let other = node.copy(alloc)?;
            return Ok(TermValue::Other(other));
        }
        Err(PartError::Misfit)
    }

    fn to_element(&self, alloc: Global) -> Result<Node, BuildError> {
        match self {
            TermValue::General(octets) => octets.to_node(alloc, Tag::context(45)),
            TermValue::Numeric(number) => number.to_node(alloc, Tag::context(215)),
            TermValue::Text(text) => text.to_node(alloc, Tag::context(216)),
            TermValue::Other(other) => {
                if !is_kept(other.tag) {
                    return Err(BuildError::NotSpellable);
                }
                Ok(other.copy(alloc)?)
            }
        }
    }
}
