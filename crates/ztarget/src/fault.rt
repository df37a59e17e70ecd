//! Faults of a query: what in it the target does not support.
ghost use Rattle.std.specs.Prelude.{◌≡◌, ℕ, ℤ, pos, Option, Some, None, IfOk, if◌then◌else◌};
ghost use Rattle.std.specs.Fmt.{signed_decimal};
ghost use Rattle.std.specs.List.{find};
ghost use Rattle.std.specs.Option.{option_map};
ghost use Rattle.zquery_rpn.specs.Trees.{OfTerm};
ghost use Rattle.zquery_rpn.specs.QueryTrees.{rpn_tree};
ghost use Rattle.ztarget.specs.Faults.{fault, first_of_faults, is_unknown, is_number_among, number_fault, attribute_row, value_fault, set_fault, attr_fault, attrs_fault, term_fault, tree_fault, query_fault, is_known, names_fault, match_fault};

use crate::decimal::{decimal, dotted};
use crate::indexed::Indexed;
use bytes::Bytes;
use std::alloc::{AllocError, Global};
use std::marker::Model;
use zber::Oid;
use zquery_rpn::{Attr, AttrValue, Query, Rpn, TermValue};

/// Why a request fails: a condition of the bib-1 diagnostics (Z39.50-2003, ERR), and what it names. Contracts see a
/// `Bib1Fault`.
#[derive(Drop)]
pub(crate) struct Fault {
    pub condition: i64,
    pub info: Bytes,
}

impl Model for Fault {
    ghost use Rattle.ztarget.specs.Faults.{Bib1Fault};

    ghost Value = { Bib1Fault };

    ghost view = { λ f. record { condition = f.condition; info = f.info } };
}

/// The arcs of the attribute set bib-1 (Z39.50-2003, ATR).
const BIB_1: [u32; 6] = [1, 2, 840, 10003, 3, 1];

/// Returns whether a value is one of those that are supported.
fn is_number_among(values: &[u16], value: i64) -> bool
    ensures { result ≡ is_number_among values.now value }
{
    values
        .iter()
        .any(|supported| value == i64::from(*supported))
}

/// Returns the fault with this condition if the value is not supported.
fn unless_among(
    alloc: Global,
    values: &[u16],
    condition: u16,
    value: i64,
) -> Result<Option<Fault>, AllocError>
    ensures { IfOk result (λ f. f ≡
        (if is_number_among values.now value then None else Some (fault condition (signed_decimal value)))) }
{
    if is_number_among(values, value) {
        return Ok(None);
    }
    Ok(Some(Fault {
        condition: i64::from(condition),
        info: decimal(alloc, value)?,
    }))
}

/// Returns the fault of an attribute whose type is not supported, or whose value is complex: 113.
fn unsupported_type(alloc: Global, kind: i64) -> Result<Option<Fault>, AllocError>
    ensures { IfOk result (λ f. f ≡ Some (fault 113 (signed_decimal kind))) }
{
    Ok(Some(Fault {
        condition: 113,
        info: decimal(alloc, kind)?,
    }))
}

/// Returns the fault of an attribute whose value is a number. The types 1 to 6 are Use, Relation, Position, Structure,
/// Truncation and Completeness; no other is supported.
fn number_fault(alloc: Global, kind: i64, value: i64) -> Result<Option<Fault>, AllocError>
    ensures { IfOk result (λ f. f ≡ number_fault kind value (attribute_row kind)) }
{
    match kind {
        1 => unless_among(alloc, &[4, 7, 12, 21, 31, 1003, 1016], 114, value),
        2 => unless_among(alloc, &[3], 117, value),
        3 => unless_among(alloc, &[3], 119, value),
        4 => unless_among(alloc, &[1, 2], 118, value),
        5 => unless_among(alloc, &[1, 100], 120, value),
        6 => unless_among(alloc, &[1], 122, value),
        _ => unsupported_type(alloc, kind),
    }
}

/// Returns the fault of an attribute's type and value.
fn value_fault(alloc: Global, kind: i64, value: &AttrValue) -> Result<Option<Fault>, AllocError>
    ensures { IfOk result (λ f. f ≡ value_fault kind value.now) }
{
    match value {
        AttrValue::Number(value) => number_fault(alloc, kind, *value),
        AttrValue::Complex(_) => unsupported_type(alloc, kind),
    }
}

/// Returns fault 121 if the attribute set is not bib-1.
fn set_fault(alloc: Global, set: &Oid) -> Result<Option<Fault>, AllocError>
    ensures { IfOk result (λ f. f ≡ set_fault (Some set.now)) }
{
    if set.arcs() == BIB_1.as_slice() {
        return Ok(None);
    }
    Ok(Some(Fault {
        condition: 121,
        info: dotted(alloc, set)?,
    }))
}

/// Returns the fault of an attribute's own set, if it names one.
fn attr_set_fault(alloc: Global, attr: &Attr) -> Result<Option<Fault>, AllocError>
    ensures { IfOk result (λ f. f ≡ set_fault attr.now.attr_set) }
{
    match &attr.attr_set {
        None => Ok(None),
        Some(set) => set_fault(alloc, set),
    }
}

/// Returns the first fault of an attribute: that of its set, then that of its type and value.
fn attr_fault(alloc: Global, attr: &Attr) -> Result<Option<Fault>, AllocError>
    ensures { IfOk result (λ f. f ≡ attr_fault attr.now) }
{
    match attr_set_fault(alloc, attr)? {
        Some(fault) => Ok(Some(fault)),
        None => value_fault(alloc, attr.kind, &attr.value),
    }
}

/// Returns the first fault of a term's attributes.
fn attrs_fault(alloc: Global, attrs: &[Attr]) -> Result<Option<Fault>, AllocError>
    ensures { IfOk result (λ f. f ≡ attrs_fault attrs.now) }
{
    let mut left = attrs;
    while let [attr, later @ ..] = left {
        if let Some(fault) = attr_fault(alloc, attr)? {
            return Ok(Some(fault));
        }
        left = later;
    }
    Ok(None)
}

/// Returns fault 100 for a term of a type that is kept as its element.
fn term_fault(term: &TermValue) -> Option<Fault>
    ensures { result ≡ term_fault term.now }
{
    match term {
        TermValue::General(_) | TermValue::Numeric(_) | TermValue::Text(_) => None,
        TermValue::Other(_) => Some(Fault {
            condition: 100,
            info: Bytes::from_static(b"term"),
        }),
    }
}

/// Returns the first fault of an operand: that of its attributes, then that of its term.
fn operand_fault(
    alloc: Global,
    attrs: &[Attr],
    term: &TermValue,
) -> Result<Option<Fault>, AllocError>
    ensures { IfOk result (λ f. f ≡ tree_fault (OfTerm attrs.now term.now)) }
{
    match attrs_fault(alloc, attrs)? {
        Some(fault) => Ok(Some(fault)),
        None => Ok(term_fault(term)),
    }
}

/// Returns fault 18: an operand is a result set.
fn result_set_fault(name: &Bytes) -> Result<Option<Fault>, AllocError>
    ensures { IfOk result (λ f. f ≡ Some (fault 18 name.now)) }
{
    Ok(Some(Fault {
        condition: 18,
        info: name.clone()?,
    }))
}

/// Returns the first fault of a tree, from the left. An operator's comes before those of its operands.
fn tree_fault(alloc: Global, rpn: &Rpn) -> Result<Option<Fault>, AllocError>
    ensures { IfOk result (λ f. f ≡ tree_fault (rpn_tree rpn.now)) }
{
    match rpn {
        Rpn::Term { attrs, term } => operand_fault(alloc, attrs.as_slice(), term),
        Rpn::ResultSet { name } => result_set_fault(name),
        Rpn::SetAttrs { name, .. } => result_set_fault(name),
        Rpn::And(left, right) | Rpn::Or(left, right) | Rpn::Not(left, right) => {
            match tree_fault(alloc, left)? {
                Some(fault) => Ok(Some(fault)),
                None => tree_fault(alloc, right),
            }
        }
        Rpn::Prox(..) => Ok(Some(Fault {
            condition: 110,
            info: Bytes::new(),
        })),
    }
}

/// Returns the first fault of a type-1 query: that of its attribute set, then those of its tree from the left.
pub(crate) fn query_fault(alloc: Global, query: &Query) -> Result<Option<Fault>, AllocError>
    ensures { IfOk result (λ f. f ≡ query_fault query.now) }
{
    match set_fault(alloc, &query.attr_set)? {
        Some(fault) => Ok(Some(fault)),
        None => tree_fault(alloc, &query.root),
    }
}

/// Returns whether some database has the name.
fn is_known(databases: &[Indexed], name: &Bytes) -> bool
    ensures { result ≡ is_known databases.now name.now }
{
    databases
        .iter()
        .any(|database| database.name().as_slice() == name.as_slice())
}

/// Returns the first of the names that no database has.
fn unknown<'a>(databases: &[Indexed], names: &'a [Bytes]) -> Option<&'a Bytes>
    ensures { option_map (λ name. name.now) result ≡ find (is_unknown databases.now) names.now }
{
    names.iter().find(|name| !is_known(databases, name))
}

/// Returns fault 235 if there is no name, or if no database has one of them. It names the first such name.
pub(crate) fn names_fault(
    databases: &[Indexed],
    names: &[Bytes],
) -> Result<Option<Fault>, AllocError>
    ensures { IfOk result (λ f. f ≡ names_fault databases.now names.now) }
{
    if names.is_empty() {
        return Ok(Some(Fault {
            condition: 235,
            info: Bytes::new(),
        }));
    }
    match unknown(databases, names) {
        Some(name) => Ok(Some(Fault {
            condition: 235,
            info: name.clone()?,
        })),
        None => Ok(None),
    }
}

/// Returns the first fault of a type-1 query for databases: that of their names, then that of the query.
pub(crate) fn match_fault(
    alloc: Global,
    databases: &[Indexed],
    names: &[Bytes],
    query: &Query,
) -> Result<Option<Fault>, AllocError>
    ensures { IfOk result (λ f. f ≡ match_fault databases.now names.now query.now) }
{
    match names_fault(databases, names)? {
        Some(fault) => Ok(Some(fault)),
        None => query_fault(alloc, query),
    }
}
