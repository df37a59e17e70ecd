// Queries printed in the prefix notation.
ghost use Rattle.std.specs.Prelude.{◌≡◌, ◌++◌, true, false, codes, Some, Err, OnOk, OnErr};
ghost use Rattle.std.specs.Fmt.{signed_decimal};
ghost use Rattle.std.specs.List.{flat_map};
ghost use Rattle.zber.specs.Oids.{IsOid};
ghost use Rattle.zquery.specs.declared.notation.print.PrintError.TheVariants.{NotPrintable, Memory};
ghost use Rattle.zquery_rpn.specs.QueryTrees.{rpn_tree};
ghost use Rattle.zquery.specs.Notation.Texts.{IsText};
ghost use Rattle.zquery.specs.Notation.Printing.{escaped, in_quotes, set_text, value_text, attr_text, term_text, operator_text, tree_text, opening_text, query_text, printable};

use crate::notation::printable::is_printable;
use crate::notation::value::BIB_1;
use std::alloc::{AllocError, Global};
use thiserror::Error;
use zber::Oid;
use zber::text::{put_number, put_oid};
use zquery_rpn::{Attr, AttrValue, Operator, Query, Rpn, TermValue};

/// Why a query is not printed.
#[derive(Clone, Copy, Debug, PartialEq, Eq, Error)]
pub enum PrintError {
    /// The notation has no text for the query.
    #[error("not printable")]
    NotPrintable,
    /// No memory was found.
    #[error("out of memory")]
    Memory,
}

impl From<AllocError> for PrintError {
    ghost from_gives = { λ _ e. e ≡ Memory };

    fn from(_: AllocError) -> PrintError {
        PrintError::Memory
    }
}

fn put_escaped(out: &mut Vec<u8>, octet: u8) -> Result<(), AllocError>
    ensures { OnOk result (out.new.items ≡ out.old.items ++ escaped octet) }
{
    if octet == b'"' || octet == b'\\' {
        out.push(b'\\')?;
    }
    out.push(octet)?;
    Ok(())
}

fn put_quoted(out: &mut Vec<u8>, text: &[u8]) -> Result<(), AllocError>
    ensures { OnOk result (out.new.items ≡ out.old.items ++ in_quotes text.now) }
{
    out.push(b'"')?;
    for octet in text {
        put_escaped(out, *octet)?;
    }
    out.push(b'"')?;
    Ok(())
}

fn put_own_set(alloc: Global, out: &mut Vec<u8>, oid: &Oid) -> Result<(), AllocError>
    ensures { OnOk result (out.new.items ≡ out.old.items ++ set_text (Some oid.now)) }
{
    put_oid(alloc, oid, out)?;
    out.push(b' ')?;
    Ok(())
}

fn put_set(alloc: Global, out: &mut Vec<u8>, set: &Option<Oid>) -> Result<(), AllocError>
    ensures { OnOk result (out.new.items ≡ out.old.items ++ set_text set.now) }
{
    match set {
        None => Ok(()),
        Some(oid) => put_own_set(alloc, out, oid),
    }
}

fn put_value(alloc: Global, out: &mut Vec<u8>, value: &AttrValue) -> Result<(), AllocError>
    ensures { OnOk result (out.new.items ≡ out.old.items ++ value_text value.now) }
{
    match value {
        AttrValue::Number(number) => put_number(alloc, *number, out),
        AttrValue::Complex(_) => Ok(()),
    }
}

fn put_numbers(alloc: Global, out: &mut Vec<u8>, attr: &Attr) -> Result<(), AllocError>
    ensures { OnOk result (out.new.items ≡ out.old.items
        ++ (signed_decimal attr.now.kind ++ (codes "=" ++ (value_text attr.now.value ++ codes " ")))) }
{
    put_number(alloc, attr.kind, out)?;
    out.push(b'=')?;
    put_value(alloc, out, &attr.value)?;
    out.push(b' ')?;
    Ok(())
}

fn put_attr(alloc: Global, out: &mut Vec<u8>, attr: &Attr) -> Result<(), AllocError>
    ensures { OnOk result (out.new.items ≡ out.old.items ++ attr_text attr.now) }
{
    out.extend_from_slice(b"@attr ")?;
    put_set(alloc, out, &attr.attr_set)?;
    put_numbers(alloc, out, attr)
}

fn put_attrs(alloc: Global, out: &mut Vec<u8>, attrs: &[Attr]) -> Result<(), AllocError>
    ensures { OnOk result (out.new.items ≡ out.old.items ++ flat_map attr_text attrs.now) }
{
    for attr in attrs {
        put_attr(alloc, out, attr)?;
    }
    Ok(())
}

fn put_term(alloc: Global, out: &mut Vec<u8>, term: &TermValue) -> Result<(), AllocError>
    ensures { OnOk result (out.new.items ≡ out.old.items ++ term_text term.now) }
{
    match term {
        TermValue::General(text) => put_quoted(out, text.as_slice()),
        TermValue::Numeric(number) => {
            out.extend_from_slice(b"@term numeric ")?;
            let text = format!(in alloc; "{number}")?;
            put_quoted(out, text.as_bytes())
        }
        TermValue::Text(text) => {
            out.extend_from_slice(b"@term string ")?;
            put_quoted(out, text.as_slice())
        }
        TermValue::Other(_) => Ok(()),
    }
}

fn put_name(out: &mut Vec<u8>, name: &[u8]) -> Result<(), AllocError>
    ensures { OnOk result (out.new.items ≡ out.old.items ++ (codes "@set " ++ in_quotes name.now)) }
{
    out.extend_from_slice(b"@set ")?;
    put_quoted(out, name)
}

fn put_operator(out: &mut Vec<u8>, operator: Operator) -> Result<(), AllocError>
    ensures { OnOk result (out.new.items ≡ out.old.items ++ operator_text operator) }
{
    match operator {
        Operator::And => out.extend_from_slice(b"@and "),
        Operator::Or => out.extend_from_slice(b"@or "),
        Operator::Not => out.extend_from_slice(b"@not "),
    }
}

#[cycle(put)]
fn put_both(
    alloc: Global,
    out: &mut Vec<u8>,
    operator: Operator,
    left: &Rpn,
    right: &Rpn,
) -> Result<(), AllocError>
    ensures { OnOk result (out.new.items ≡ out.old.items
        ++ (operator_text operator
        ++ (tree_text (rpn_tree left.now) ++ (codes " " ++ tree_text (rpn_tree right.now))))) }
{
    put_operator(out, operator)?;
    put_tree(alloc, out, left)?;
    out.push(b' ')?;
    put_tree(alloc, out, right)
}

/// Appends the text of a tree. It recurs down the tree, whose height is small.
#[cycle(put)]
fn put_tree(alloc: Global, out: &mut Vec<u8>, rpn: &Rpn) -> Result<(), AllocError>
    ensures { OnOk result (out.new.items ≡ out.old.items ++ tree_text (rpn_tree rpn.now)) }
{
    match rpn {
        Rpn::Term { attrs, term } => {
            put_attrs(alloc, out, attrs.as_slice())?;
            put_term(alloc, out, term)
        }
        Rpn::ResultSet { name } => put_name(out, name.as_slice()),
        Rpn::SetAttrs { name, attrs } => {
            put_attrs(alloc, out, attrs.as_slice())?;
            put_name(out, name.as_slice())
        }
        Rpn::And(left, right) => put_both(alloc, out, Operator::And, left, right),
        Rpn::Or(left, right) => put_both(alloc, out, Operator::Or, left, right),
        Rpn::Not(left, right) => put_both(alloc, out, Operator::Not, left, right),
        Rpn::Prox(..) => Ok(()),
    }
}

/// Appends `@attrset` and the query's set, unless this is bib-1.
fn put_opening(alloc: Global, out: &mut Vec<u8>, own: &Oid) -> Result<(), AllocError>
    ensures ok { OnOk result (out.new.items ≡ out.old.items ++ opening_text own.now) }
    ensures oid { IsOid own.now }
{
    if own.arcs() == BIB_1.as_slice() {
        return Ok(());
    }
    out.extend_from_slice(b"@attrset ")?;
    put_own_set(alloc, out, own)
}

fn put_query(alloc: Global, out: &mut Vec<u8>, query: &Query) -> Result<(), AllocError>
    ensures ok { OnOk result (out.new.items ≡ out.old.items ++ query_text query.now) }
    ensures oid { IsOid query.now.attr_set }
{
    put_opening(alloc, out, &query.attr_set)?;
    put_tree(alloc, out, &query.root)
}

/// Appends the text of a query in the prefix notation. `parse_pqf` reads the query back from it.
///
/// An operand's attributes stand before it, and a term's type stands before it if it is not general. A term, and the
/// name of a result set, is in quotes. `@attrset` gives the query's set, unless this is bib-1.
///
/// Returns `NotPrintable` if the notation has no text for the query. That is so if the query has
/// - proximity, a complex value, or a term that is kept as an element;
/// - an attribute whose type or value is below 0 or above 2,147,483,647;
/// - an attribute whose own set is the query's;
/// - two attributes of one operand with the same set and type;
/// - a result set with an empty list of attributes;
/// - a height above 32.
///
/// Returns `Memory` if no memory is found. After an error `out` is unchanged.
pub fn print_pqf(alloc: Global, query: &Query, out: &mut Vec<u8>) -> Result<(), PrintError>
    ensures ok { OnOk result (out.new.items ≡ out.old.items ++ query_text query.now) }
    ensures printable { OnOk result (printable query.now ≡ true) }
    ensures reads { OnOk result (IsText (query_text query.now) query.now) }
    ensures refused { result ≡ Err NotPrintable → printable query.now ≡ false }
    ensures err { OnErr result (out.new.items ≡ out.old.items) }
{
    if !is_printable(alloc, query)? {
        return Err(PrintError::NotPrintable);
    }
    let mut text = Vec::new(alloc);
    put_query(alloc, &mut text, query)?;
    out.extend_from_slice(&text)?;
    Ok(())
}
