// Which queries have a text.
ghost use Rattle.std.specs.Prelude.{◌≡◌, ◌∷◌, List, true, not, nat_le, IfOk, OnOk};
ghost use Rattle.std.specs.List.{list_any};
ghost use Rattle.std.specs.Option.{option_map};
ghost use Rattle.zquery_rpn.specs.declared.query.Attr.{Attr};
ghost use Rattle.zquery.specs.InForce.{alike};
ghost use Rattle.zquery_rpn.specs.Trees.{height};
ghost use Rattle.zquery_rpn.specs.QueryTrees.{rpn_tree};
ghost use Rattle.zquery.specs.Notation.Printing.{is_attr_number, is_own_set, plain_value, plain_attr, plain_attrs, plain_term, plain_tree, printable};
ghost use Rattle.zquery.specs.Notation.Apart.{AreAttrKeys};
ghost use Rattle.zquery.specs.Lawful.{IsLawfulSet, AreLawfulAttrs, IsLawfulTerm, IsLawfulTree};

use std::alloc::{AllocError, Global};
use std::collections::BTreeSet;
use zber::Oid;
use zquery_rpn::{Attr, AttrValue, Query, Rpn, TermValue};

/// The greatest height of a query that has a text.
const HIGHEST: u32 = 32;

/// Whether the number can be the type or the value of an attribute: it is at least 0 and at most 2,147,483,647.
fn is_attr_number(number: i64) -> bool
    ensures { result ≡ is_attr_number number }
{
    0 <= number && number <= 2_147_483_647
}

/// Whether an attribute's set is the query's own.
fn is_own_set(own: &Oid, set: &Option<Oid>) -> bool
    ensures value { result ≡ is_own_set own.now set.now }
    ensures lawful { IsLawfulSet set.now }
{
    match set {
        None => false,
        Some(set) => own.arcs() == set.arcs(),
    }
}

/// Whether the notation has a text for the value.
fn is_plain_value(value: &AttrValue) -> bool
    ensures { result ≡ plain_value value.now }
{
    match value {
        AttrValue::Number(number) => is_attr_number(*number),
        AttrValue::Complex(_) => false,
    }
}

/// Whether the notation has a text for the attribute.
fn is_plain(own: &Oid, attr: &Attr) -> bool
    ensures value { result ≡ plain_attr own.now attr.now }
    ensures lawful { IsLawfulSet attr.now.attr_set }
{
    !is_own_set(own, &attr.attr_set) && is_attr_number(attr.kind) && is_plain_value(&attr.value)
}

/// Returns the set and the type of an attribute.
fn set_and_type(attr: &Attr) -> (Option<&[u32]>, i64)
    ensures set { option_map (λ s. s.now) result.0 ≡ attr.now.attr_set }
    ensures kind { result.1 ≡ attr.now.kind }
{
    let set = match &attr.attr_set {
        None => None,
        Some(set) => Some(set.arcs()),
    };
    (set, attr.kind)
}

/// Adds the set and type of an attribute. Returns whether no attribute that was added before has the same set and type.
/// Returns `AllocError` if no memory is found.
fn put_apart<'a>(
    attr: &'a Attr,
    seen: &mut BTreeSet<(Option<&'a [u32]>, i64), Global>,
) -> Result<bool, AllocError>
    ensures apart { (others : List Attr) → AreAttrKeys seen.old others
        → IfOk result (λ apart. apart ≡ not (list_any (alike attr.now) others)) }
    ensures keys { (others : List Attr) → AreAttrKeys seen.old others
        → OnOk result (AreAttrKeys seen.new (attr.now ∷ others)) }
{
    Ok(seen.insert(set_and_type(attr))?)
}

/// Whether the notation has a text for each attribute, and no two of them have the same set and type. Returns
/// `AllocError` if no memory is found.
fn are_plain(alloc: Global, own: &Oid, attrs: &[Attr]) -> Result<bool, AllocError>
    ensures value { IfOk result (λ plain. plain ≡ plain_attrs own.now attrs.now) }
    ensures lawful { IfOk result (λ plain. plain ≡ true → AreLawfulAttrs attrs.now) }
{
    let mut seen = BTreeSet::new(alloc);
    let mut left = attrs;
    while let [others @ .., attr] = left {
        if !is_plain(own, attr) || !put_apart(attr, &mut seen)? {
            return Ok(false);
        }
        left = others;
    }
    Ok(true)
}

/// Whether the notation has a text for the term.
fn is_plain_term(term: &TermValue) -> bool
    ensures value { result ≡ plain_term term.now }
    ensures lawful { IsLawfulTerm term.now }
{
    match term {
        TermValue::General(_) | TermValue::Text(_) => true,
        TermValue::Numeric(number) => {
            let _number = *number;
            true
        }
        TermValue::Other(_) => false,
    }
}

/// Whether the tree's height is at most `room`. It goes down `room` levels at most.
fn fits(rpn: &Rpn, room: u32) -> bool
    ensures { result ≡ nat_le (height (rpn_tree rpn.now)) room }
{
    if room == 0 {
        return false;
    }
    match rpn {
        Rpn::Term { .. } | Rpn::ResultSet { .. } | Rpn::SetAttrs { .. } => true,
        Rpn::And(a, b) => fits(a, room - 1) && fits(b, room - 1),
        Rpn::Or(a, b) => fits(a, room - 1) && fits(b, room - 1),
        Rpn::Not(a, b) => fits(a, room - 1) && fits(b, room - 1),
        Rpn::Prox(_, a, b) => fits(a, room - 1) && fits(b, room - 1),
    }
}

/// Whether the notation has a text for each part of the tree. Returns `AllocError` if no memory is found.
fn is_plain_tree(alloc: Global, own: &Oid, rpn: &Rpn) -> Result<bool, AllocError>
    ensures value { IfOk result (λ plain. plain ≡ plain_tree own.now (rpn_tree rpn.now)) }
    ensures lawful { IfOk result (λ plain. plain ≡ true → IsLawfulTree (rpn_tree rpn.now)) }
{
    match rpn {
        Rpn::Term { attrs, term } => {
            Ok(are_plain(alloc, own, attrs.as_slice())? && is_plain_term(term))
        }
        Rpn::ResultSet { .. } => Ok(true),
        Rpn::SetAttrs { attrs, .. } => {
            Ok(attrs.len() > 0 && are_plain(alloc, own, attrs.as_slice())?)
        }
        Rpn::And(a, b) => Ok(is_plain_tree(alloc, own, a)? && is_plain_tree(alloc, own, b)?),
        Rpn::Or(a, b) => Ok(is_plain_tree(alloc, own, a)? && is_plain_tree(alloc, own, b)?),
        Rpn::Not(a, b) => Ok(is_plain_tree(alloc, own, a)? && is_plain_tree(alloc, own, b)?),
        Rpn::Prox(..) => Ok(false),
    }
}

/// Whether the query has a text. Returns `AllocError` if no memory is found.
pub(crate) fn is_printable(alloc: Global, query: &Query) -> Result<bool, AllocError>
    ensures value { IfOk result (λ is_printable. is_printable ≡ printable query.now) }
    ensures lawful { IfOk result (λ is_printable. is_printable ≡ true → IsLawfulTree query.now.root) }
{
    Ok(fits(&query.root, HIGHEST) && is_plain_tree(alloc, &query.attr_set, &query.root)?)
}
