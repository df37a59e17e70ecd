//! Builds the elements of type-1 queries.
ghost use Rattle.std.specs.Prelude.{[], ◌∷◌, Some};
ghost use Rattle.zber.specs.AsnTags.{context};
ghost use Rattle.zasn.specs.Within.{around};
ghost use Rattle.zasn.specs.Place.{Place};
ghost use Rattle.zasn.specs.Results.{WritingResult, BuildResult};
ghost use Rattle.zquery_rpn.specs.Element.Operands.{AttrTerm, ResultAttr};
ghost use Rattle.zquery_rpn.specs.Element.Operators.{operator};
ghost use Rattle.zquery_rpn.specs.Element.Type1.{op, WritesQuery};
ghost use Rattle.zquery_rpn.specs.Element.Type1Reading.{query_spelling, three, tree_spelling};
ghost use Rattle.zquery_rpn.specs.QueryTrees.{rpn_tree};
ghost use Rattle.zquery_rpn.specs.declared.element.operator.Joint.TheVariants.{Logical};

use crate::element::operator::Joint;
use crate::operator::Operator;
use crate::query::{Attr, Query, Rpn, TermValue};
use bytes::Bytes;
use std::alloc::Global;
use zasn::{BuildError, Contents, PartsBuf, write_alone, write_alone_tagged, write_around};
use zber::{Node, Seq, Tag};

/// Builds the operand of a term with its attributes.
#[tactic(auto, unfolding(crate::specs::Element::Operands::operand, crate::specs::Element::Operands::attributes_term_parts))]
fn attr_term(alloc: Global, attrs: &Seq<Attr>, term: &TermValue) -> Result<Node, BuildError>
    ensures { BuildResult (op.spelling (AttrTerm (attrs.now, term.now))) result }
{
    let mut out = PartsBuf::new(alloc);
    out.required(alloc, Tag::context(44), attrs)?;
    out.required_tagged(alloc, term)?;
    write_around(alloc, out.into_node(Tag::context(102)), Tag::context(0))
}

/// Builds the operand of a result set with its attributes.
#[tactic(auto, unfolding(crate::specs::Element::Operands::operand, crate::specs::Element::Operands::set_attributes_parts))]
fn result_attr(alloc: Global, name: &Bytes, attrs: &Seq<Attr>) -> Result<Node, BuildError>
    ensures { BuildResult (op.spelling (ResultAttr (name.now, attrs.now))) result }
{
    let mut out = PartsBuf::new(alloc);
    out.required(alloc, Tag::context(31), name)?;
    out.required(alloc, Tag::context(44), attrs)?;
    write_around(alloc, out.into_node(Tag::context(214)), Tag::context(0))
}

/// Builds the operator and, or or and-not.
fn logical(alloc: Global, kind: Operator) -> Result<Node, BuildError>
    ensures { BuildResult (operator.spelling (Logical kind)) result }
{
    write_alone_tagged(alloc, &Joint::Logical(kind), Tag::context(46))
}

/// Builds two structures, with the operator's element behind them (rpnRpnOp).
#[cycle(structure)]
fn rpn_rpn_op(alloc: Global, left: &Rpn, right: &Rpn, operator: Node) -> Result<Node, BuildError>
    ensures { BuildResult (around (context 1)
        (three (tree_spelling (rpn_tree left.now)) (tree_spelling (rpn_tree right.now)) (Some operator))) result }
{
    let mut out = PartsBuf::new(alloc);
    out.push(structure(alloc, left)?)?;
    out.push(structure(alloc, right)?)?;
    out.push(operator)?;
    Ok(out.into_node(Tag::context(1)))
}

/// Builds the element of an operand, or of two structures with an operator (RPNStructure).
#[cycle(structure)]
#[tactic(auto, unfolding(crate::specs::Element::Operands::operand, crate::specs::Element::Operators::joint))]
fn structure(alloc: Global, rpn: &Rpn) -> Result<Node, BuildError>
    ensures { BuildResult (tree_spelling (rpn_tree rpn.now)) result }
{
    match rpn {
        Rpn::Term { attrs, term } => attr_term(alloc, attrs, term),
        Rpn::ResultSet { name } => write_alone(alloc, name, Tag::context(0), Tag::context(31)),
        Rpn::SetAttrs { name, attrs } => result_attr(alloc, name, attrs),
        Rpn::And(left, right) => rpn_rpn_op(alloc, left, right, logical(alloc, Operator::And)?),
        Rpn::Or(left, right) => rpn_rpn_op(alloc, left, right, logical(alloc, Operator::Or)?),
        Rpn::Not(left, right) => rpn_rpn_op(alloc, left, right, logical(alloc, Operator::Not)?),
        Rpn::Prox(operator, left, right) => {
            let operator = write_alone(alloc, operator, Tag::context(46), Tag::context(3))?;
            rpn_rpn_op(alloc, left, right, operator)
        }
    }
}

/// Builds the element of a query (RPNQuery).
fn write_query(alloc: Global, query: &Query) -> Result<Node, BuildError>
    ensures { BuildResult (query_spelling query.now) result }
{
    let mut out = PartsBuf::new(alloc);
    out.required(alloc, Tag::universal(6), &query.attr_set)?;
    out.push(structure(alloc, &query.root)?)?;
    Ok(out.into_node(Tag::context(1)))
}

/// Builds the element that stands for a type-1 query (Z39.50-2003, 4.1: RPNQuery, with the tag `[1]` of Query).
///
/// Returns `NotSpellable` if a part that the query keeps as an element has no lawful tag or form for its place. A
/// complex value must be constructed with the tag `[224]`. A term kept as its element must have one of the tags `[217]`
/// to `[221]`. A proximity operator must be constructed with the tag `[3]`. Returns `Memory` if no memory is found.
pub fn to_node(alloc: Global, query: &Query) -> Result<Node, BuildError>
    ensures written { WritingResult (WritesQuery query.now) result }
    ensures spelled { BuildResult (query_spelling query.now) result }
{
    write_query(alloc, query)
}
