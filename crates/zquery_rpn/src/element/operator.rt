//! Operators as elements (Z39.50-2003, 4.1: Operator).
ghost use Rattle.zquery_rpn.specs.Element.Operators.{joint};

use crate::operator::Operator;
use std::alloc::Global;
use zasn::{BuildError, Contents, PartError, Tagged};
use zber::{Node, Tag};

/// An operator over two structures: and, or, and-not, or proximity, whose operator is kept as its element.
#[derive(Drop)]
pub(crate) enum Joint {
    Logical(Operator),
    ProxOperator(Node),
}

#[tactic(auto, unfolding(crate::specs::Element::Operators::joint))]
impl Tagged for Joint {
    ghost place = { joint };

    fn has(tag: Tag) -> bool {
        tag == Tag::context(0)
            || tag == Tag::context(1)
            || tag == Tag::context(2)
            || tag == Tag::context(3)
    }

    fn of_element(alloc: Global, node: &Node) -> Result<Self, PartError> {
        if node.tag == Tag::context(0) {
            node.as_null()?;
            return Ok(Joint::Logical(Operator::And));
        }
        if node.tag == Tag::context(1) {
            node.as_null()?;
            return Ok(Joint::Logical(Operator::Or));
        }
        if node.tag == Tag::context(2) {
            node.as_null()?;
            return Ok(Joint::Logical(Operator::Not));
        }
        if node.tag == Tag::context(3) {
            let proximity = Node::of_node(alloc, node)?;
            return Ok(Joint::ProxOperator(proximity));
        }
        Err(PartError::Misfit)
    }

    fn to_element(&self, alloc: Global) -> Result<Node, BuildError> {
        match self {
            Joint::Logical(Operator::And) => Ok(Node::of_null(Tag::context(0))),
            Joint::Logical(Operator::Or) => Ok(Node::of_null(Tag::context(1))),
            Joint::Logical(Operator::Not) => Ok(Node::of_null(Tag::context(2))),
            Joint::ProxOperator(proximity) => proximity.to_node(alloc, Tag::context(3)),
        }
    }
}
