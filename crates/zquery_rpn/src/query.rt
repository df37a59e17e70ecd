// Type-1 queries (Z39.50-2003, RPNQuery).
ghost use Rattle.std.specs.Prelude.{◌≡◌, IfOk};
ghost use Rattle.zquery_rpn.specs.QueryTrees.{rpn_tree};

use crate::attribute::copies;
use bytes::Bytes;
use std::alloc::{AllocError, Global};
use std::marker::Model;
use zber::{Node, Oid, Seq};

/// The value of an attribute.
#[derive(Drop)]
pub enum AttrValue {
    /// A number.
    Number(i64),
    /// A complex value, kept as its element.
    Complex(Node),
}

/// An attribute of an operand (AttributeElement).
#[derive(Drop)]
pub struct Attr {
    /// The attribute's own set; `None` if it has the query's.
    pub attr_set: Option<Oid>,
    /// The attribute type.
    pub kind: i64,
    /// Its value.
    pub value: AttrValue,
}

/// What an operand asks for (Term).
#[derive(Drop)]
pub enum TermValue {
    /// Octets.
    General(Bytes),
    /// A number.
    Numeric(i64),
    /// A characterString.
    Text(Bytes),
    /// A term of any other type, kept as its element.
    Other(Node),
}

/// An operand, or an operator with two of them (RPNStructure).
#[derive(Drop)]
pub enum Rpn {
    /// The records that have a term, with attributes that say where and how (AttributesPlusTerm).
    Term { attrs: Seq<Attr>, term: TermValue },
    /// The records of a result set (ResultSetId).
    ResultSet { name: Bytes },
    /// The records of a result set that have attributes (ResultSetPlusAttributes).
    SetAttrs { name: Bytes, attrs: Seq<Attr> },
    /// The records of both.
    And(Box<Rpn>, Box<Rpn>),
    /// The records of either.
    Or(Box<Rpn>, Box<Rpn>),
    /// The records of the first that are not of the second.
    Not(Box<Rpn>, Box<Rpn>),
    /// A proximity operator, kept as its element, over two structures.
    Prox(Node, Box<Rpn>, Box<Rpn>),
}

/// A type-1 query (Z39.50-2003, 3.7): the default attribute set, and a tree of any height.
///
/// Contracts see it as plain data, an `RpnQuery`, without the addresses of its parts in memory. They see an `Rpn` as a
/// `Tree`, by `rpn_tree`.
#[derive(Drop)]
pub struct Query {
    /// The attribute set of attributes that name none.
    pub attr_set: Oid,
    /// The tree.
    pub root: Rpn,
}

impl Model for Query {
    ghost use Rattle.zquery_rpn.specs.Trees.{RpnQuery};
    ghost use Rattle.zquery_rpn.specs.Coding.{coded_query};

    ghost Value = { RpnQuery };

    ghost coded = { coded_query };

    ghost use Rattle.zquery_rpn.specs.QueryTrees.{rpn_query};

    ghost view = { rpn_query };
}

impl TermValue {
    /// Returns an equal term, or `AllocError` if no memory is found.
    pub(crate) fn copy(&self, alloc: Global) -> Result<TermValue, AllocError>
        ensures { IfOk result (λ t. t ≡ self.now) }
    {
        match self {
            TermValue::General(text) => Ok(TermValue::General(text.clone()?)),
            TermValue::Numeric(number) => Ok(TermValue::Numeric(*number)),
            TermValue::Text(text) => Ok(TermValue::Text(text.clone()?)),
            TermValue::Other(node) => Ok(TermValue::Other(node.copy(alloc)?)),
        }
    }
}

impl Rpn {
    /// Returns an equal tree, or `AllocError` if no memory is found.
    #[cycle(copy)]
    pub(crate) fn copy(&self, alloc: Global) -> Result<Rpn, AllocError>
        ensures { IfOk result (λ r. rpn_tree r ≡ rpn_tree self.now) }
    {
        match self {
            Rpn::Term { attrs, term } => Ok(Rpn::Term {
                attrs: Seq::from_vec(copies(alloc, attrs.as_slice())?),
                term: term.copy(alloc)?,
            }),
            Rpn::ResultSet { name } => Ok(Rpn::ResultSet {
                name: name.clone()?,
            }),
            Rpn::SetAttrs { name, attrs } => Ok(Rpn::SetAttrs {
                name: name.clone()?,
                attrs: Seq::from_vec(copies(alloc, attrs.as_slice())?),
            }),
            Rpn::And(left, right) => {
                Ok(Rpn::And(left.boxed_copy(alloc)?, right.boxed_copy(alloc)?))
            }
            Rpn::Or(left, right) => {
                Ok(Rpn::Or(left.boxed_copy(alloc)?, right.boxed_copy(alloc)?))
            }
            Rpn::Not(left, right) => {
                Ok(Rpn::Not(left.boxed_copy(alloc)?, right.boxed_copy(alloc)?))
            }
            Rpn::Prox(node, left, right) => Ok(Rpn::Prox(
                node.copy(alloc)?,
                left.boxed_copy(alloc)?,
                right.boxed_copy(alloc)?,
            )),
        }
    }

    /// Returns an equal tree in a box, or `AllocError` if no memory is found.
    #[cycle(copy)]
    fn boxed_copy(&self, alloc: Global) -> Result<Box<Rpn>, AllocError>
        ensures { IfOk result (λ b. rpn_tree b.value ≡ rpn_tree self.now) }
    {
        Ok(Box::new(alloc, self.copy(alloc)?)?)
    }
}

impl Query {
    /// Returns an equal query, or `AllocError` if no memory is found.
    pub fn copy(&self, alloc: Global) -> Result<Query, AllocError>
        ensures { IfOk result (λ q. q ≡ self.now) }
    {
        Ok(Query {
            attr_set: self.attr_set.copy(alloc)?,
            root: self.root.copy(alloc)?,
        })
    }
}
