//! Reads elements as type-1 queries.
ghost use Rattle.std.specs.Prelude.{◌≡◌, map, Some, IfOk};
ghost use Rattle.zber.specs.Elements.{tag_of};
ghost use Rattle.zber.specs.AsnTags.{context, universal};
ghost use Rattle.zasn.specs.Place.{Place};
ghost use Rattle.zasn.specs.Reading.{option_map};
ghost use Rattle.zasn.specs.Table.{Elements};
ghost use Rattle.zber.specs.Tags.{same_tag};
ghost use Rattle.zasn.specs.Within.{value_read, sequence_of, whole_of};
ghost use Rattle.zasn.specs.Results.{MeaningResult};
ghost use Rattle.zasn.specs.Places.{alone, oid};
ghost use Rattle.zquery_rpn.specs.Element.Operands.{attributes_term_parts, operand, set_attributes_parts};
ghost use Rattle.zquery_rpn.specs.Element.Operators.{operator};
ghost use Rattle.zquery_rpn.specs.Element.Type1.{IsQueryOfElement};
ghost use Rattle.zquery_rpn.specs.Element.Type1Reading.{IsTreeResult, joined_tree_of, tree_and_element, of_joint, of_operand, query_at, query_in, element_query, tree_of};
ghost use Rattle.zquery_rpn.specs.QueryTrees.{rpn_tree};

use crate::element::operator::Joint;
use crate::operator::Operator;
use crate::query::{Attr, Query, Rpn, TermValue};
use bytes::Bytes;
use std::alloc::{AllocError, Global};
use zasn::{Contents, PartError, Parts, read_alone_tagged};
use zber::{Body, Node, Oid, Seq, Tag};

/// Whether the element has the context tag of this number.
fn has_tag(node: &Node, number: u32) -> bool
    ensures { result ≡ same_tag (tag_of node.now) (context number) }
{
    node.tag == Tag::context(number)
}

/// Reads an element of any tag as an AttributesPlusTerm.
#[tactic(auto, unfolding(crate::specs::Element::Operands::attributes_term_parts))]
fn attributes_term(alloc: Global, node: &Node) -> Result<(Seq<Attr>, TermValue), PartError>
    ensures { MeaningResult (sequence_of attributes_term_parts.at node.now) result }
{
    match &node.body {
        Body::Prim(_) => Err(PartError::Misfit),
        Body::Cons(nodes) => {
            let mut parts = Parts::new(nodes.as_slice());
            let attrs = parts.required(alloc, Tag::context(44))?;
            let term = parts.required_tagged(alloc)?;
            parts.end()?;
            Ok((attrs, term))
        }
    }
}

/// Reads an element of any tag as a ResultSetPlusAttributes.
#[tactic(auto, unfolding(crate::specs::Element::Operands::set_attributes_parts))]
fn set_attributes(alloc: Global, node: &Node) -> Result<(Bytes, Seq<Attr>), PartError>
    ensures { MeaningResult (sequence_of set_attributes_parts.at node.now) result }
{
    match &node.body {
        Body::Prim(_) => Err(PartError::Misfit),
        Body::Cons(nodes) => {
            let mut parts = Parts::new(nodes.as_slice());
            let name = parts.required(alloc, Tag::context(31))?;
            let attrs = parts.required(alloc, Tag::context(44))?;
            parts.end()?;
            Ok((name, attrs))
        }
    }
}

/// Reads an element as an operand (Operand).
#[tactic(auto, unfolding(crate::specs::Element::Operands::operand))]
fn operand(alloc: Global, node: &Node) -> Result<Rpn, PartError>
    ensures { IsTreeResult (option_map of_operand (whole_of operand node.now)) result }
{
    if node.tag == Tag::context(102) {
        let (attrs, term) = attributes_term(alloc, node)?;
        return Ok(Rpn::Term { attrs, term });
    }
    if node.tag == Tag::context(31) {
        let name = Bytes::of_node(alloc, node)?;
        return Ok(Rpn::ResultSet { name });
    }
    if node.tag == Tag::context(214) {
        let (name, attrs) = set_attributes(alloc, node)?;
        return Ok(Rpn::SetAttrs { name, attrs });
    }
    Err(PartError::Misfit)
}

/// Reads one element, and no more, as an operand.
fn only_operand(alloc: Global, nodes: &[Node]) -> Result<Rpn, PartError>
    ensures { IsTreeResult (option_map of_operand (value_read ((alone operand).at nodes.now))) result }
{
    match nodes {
        [only] => operand(alloc, only),
        _ => Err(PartError::Misfit),
    }
}

/// Reads an element as an operator (Operator).
fn operator(alloc: Global, node: &Node) -> Result<Joint, PartError>
    ensures { MeaningResult (whole_of operator node.now) result }
{
    if node.tag != Tag::context(46) {
        return Err(PartError::Misfit);
    }
    read_alone_tagged(alloc, node)
}

/// Returns the structure of an operator and two structures.
fn join(joint: Joint, left: Box<Rpn>, right: Box<Rpn>) -> Rpn
    ensures { rpn_tree result ≡ of_joint joint (rpn_tree left.value) (rpn_tree right.value) }
{
    match joint {
        Joint::Logical(Operator::And) => Rpn::And(left, right),
        Joint::Logical(Operator::Or) => Rpn::Or(left, right),
        Joint::Logical(Operator::Not) => Rpn::Not(left, right),
        Joint::ProxOperator(operator) => Rpn::Prox(operator, left, right),
    }
}

/// Reads two structures and an operator (rpnRpnOp).
#[cycle(structure)]
fn rpn_rpn_op(alloc: Global, nodes: &[Node]) -> Result<Rpn, PartError>
    ensures { IsTreeResult (joined_tree_of (map tree_and_element nodes.now)) result }
{
    match nodes {
        [left, right, last] => {
            let left = Box::new(alloc, structure(alloc, left)?)?;
            let right = Box::new(alloc, structure(alloc, right)?)?;
            let joint = operator(alloc, last)?;
            Ok(join(joint, left, right))
        }
        _ => Err(PartError::Misfit),
    }
}

/// Reads an element as an operand, or as two structures with an operator (RPNStructure).
#[cycle(structure)]
fn structure(alloc: Global, node: &Node) -> Result<Rpn, PartError>
    ensures { IsTreeResult (tree_of node.now) result }
{
    match &node.body {
        Body::Prim(_) => Err(PartError::Misfit),
        Body::Cons(nodes) => {
            if has_tag(node, 0) {
                only_operand(alloc, nodes.as_slice())
            } else if has_tag(node, 1) {
                rpn_rpn_op(alloc, nodes.as_slice())
            } else {
                Err(PartError::Misfit)
            }
        }
    }
}

/// Reads an element as the default attribute set.
fn set(alloc: Global, node: &Node) -> Result<Oid, PartError>
    ensures { MeaningResult (whole_of (oid (universal 6)) node.now) result }
{
    if node.tag != Tag::universal(6) {
        return Err(PartError::Misfit);
    }
    Oid::of_node(alloc, node)
}

/// Reads two elements as an object identifier and a structure.
fn query_in(alloc: Global, nodes: &[Node]) -> Result<Query, PartError>
    ensures { MeaningResult (query_in nodes.now) result }
{
    match nodes {
        [attr_set, root] => {
            let attr_set = set(alloc, attr_set)?;
            let root = structure(alloc, root)?;
            Ok(Query { attr_set, root })
        }
        _ => Err(PartError::Misfit),
    }
}

/// Reads an element of any tag as a query.
fn query(alloc: Global, node: &Node) -> Result<Query, PartError>
    ensures { MeaningResult (element_query node.now) result }
{
    match &node.body {
        Body::Prim(_) => Err(PartError::Misfit),
        Body::Cons(nodes) => query_in(alloc, nodes.as_slice()),
    }
}

/// Reads an element as a query. Returns `None` for another element, and `AllocError` if no memory is found.
fn query_at(alloc: Global, node: &Node) -> Result<Option<Query>, AllocError>
    ensures { IfOk result (λ o. o ≡ query_at node.now) }
{
    if !has_tag(node, 1) {
        return Ok(None);
    }
    match query(alloc, node) {
        Ok(query) => Ok(Some(query)),
        Err(PartError::Misfit) => Ok(None),
        Err(PartError::Memory) => Err(AllocError),
    }
}

/// Returns the type-1 query that the element stands for (Z39.50-2003, 4.1: RPNQuery, with the tag `[1]` of Query).
///
/// Returns `None` if it stands for none, and `AllocError` if no memory is found.
pub fn from_node(alloc: Global, node: &Node) -> Result<Option<Query>, AllocError>
    ensures read { IfOk result (IsQueryOfElement node.now) }
    ensures meant { IfOk result (λ o. o ≡ query_at node.now) }
{
    query_at(alloc, node)
}
