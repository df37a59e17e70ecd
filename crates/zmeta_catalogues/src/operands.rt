//! The attributes of a catalogue's prefix, and queries of a catalogue.

ghost use Rattle.std.specs.Prelude.{◌≡◌, ◌++◌, true, false, codes, IfOk, IfErr, IfSome, IfNone};
ghost use Rattle.zquery.specs.Notation.Sets.{bib1};
ghost use Rattle.zquery.specs.Notation.Texts.{IsText};
ghost use Rattle.zquery_rpn.specs.declared.query.TermValue.TheVariants.{General};
ghost use Rattle.zmeta_world.specs.Worlds.{IsQueryOf};
ghost use Rattle.zmeta_catalogues.specs.Operands.{tried, operand_query, prefix_stop, stop_of, IsOtherQuery, IsOtherStop, IsOperandStop, IsPrefix, IsPrefixStop, IsQueryStop};

use crate::fault::{FaultKind, Key, SettingFault, Stop, fault};
use std::alloc::{AllocError, Global};
use zber::{Oid, Seq};
use zquery::laws::one_answer;
use zquery::{Attr, PqfError, PqfErrorKind, Query, Rpn, TermValue, parse_pqf};

/// The arcs of the attribute set bib-1 (Z39.50-2003, ATR).
const BIB_1: [u32; 6] = [1, 2, 840, 10003, 3, 1];

/// Returns the attribute set bib-1, or `AllocError` if no memory is found.
pub(crate) fn bib_1(alloc: Global) -> Result<Oid, AllocError>
    ensures { IfOk result (λ set. set ≡ bib1) }
{
    match Oid::from_arcs(alloc, &BIB_1) {
        Ok(set) => Ok(set),
        Err(_) => Err(AllocError),
    }
}

/// Returns whether this is the operand that prefixes are tried with.
fn is_tried(term: &TermValue) -> bool
    ensures yes { result ≡ true → term.now ≡ General tried }
    ensures no { result ≡ false → term.now ≡ General tried → ⊥ }
{
    match term {
        TermValue::General(text) => text.as_slice() == b"x".as_slice(),
        _ => false,
    }
}

/// Returns the attributes of a query that is the operand which prefixes are tried with, and nothing else.
fn tried_attributes(query: Query) -> Option<Seq<Attr>>
    ensures some { IfSome result (λ attrs. query ≡ operand_query attrs) }
    ensures none { IfNone result (IsOtherQuery query) }
{
    let Query { attr_set, root } = query;
    if attr_set.arcs() != BIB_1.as_slice() {
        return None;
    }
    match root {
        Rpn::Term { attrs, term } => { if is_tried(&term) { Some(attrs) } else { None } }
        _ => None,
    }
}

/// Returns the attributes of a query that is the operand which prefixes are tried with, and nothing else. `Prefix` if
/// it is another query.
fn attributes_in(key: Key, query: Query) -> Result<Seq<Attr>, Stop>
    ensures ok { IfOk result (λ attrs. query ≡ operand_query attrs) }
    ensures err { IfErr result (IsOtherStop key query) }
{
    match tried_attributes(query) {
        Some(attrs) => Ok(attrs),
        None => Err(fault(key, FaultKind::Prefix)),
    }
}

/// Returns why a text with the operand is refused, for an error of the prefix notation.
fn prefix_stop(key: Key, error: PqfError) -> Stop
    ensures { result ≡ prefix_stop key error }
{
    match error.kind {
        PqfErrorKind::Memory => Stop::Memory,
        _ => fault(key, FaultKind::Prefix),
    }
}

/// Returns the attributes of the operand that a text stands for.
///
/// `Prefix` if it does not stand for the operand which prefixes are tried with. `Memory` if no memory is found.
fn operand_attributes(alloc: Global, key: Key, text: &[u8]) -> Result<Seq<Attr>, Stop>
    ensures ok { IfOk result (λ attrs. IsText text.now (operand_query attrs)) }
    ensures err { IfErr result (IsOperandStop key text.now) }
{
    one_answer();
    match parse_pqf(alloc, text) {
        Ok(query) => attributes_in(key, query),
        Err(error) => Err(prefix_stop(key, error)),
    }
}

/// Returns a prefix with the operand behind it, or `AllocError` if no memory is found.
fn tried_text(alloc: Global, prefix: &[u8]) -> Result<Vec<u8>, AllocError>
    ensures { IfOk result (λ text. text.items ≡ prefix.now ++ codes " x") }
{
    let mut text = Vec::from_slice(alloc, prefix)?;
    text.extend_from_slice(b" x")?;
    Ok(text)
}

/// Returns the attributes that the prefix of a term is, as `@attr 1=4`.
///
/// `Prefix` if an operand behind the text does not stand for itself with attributes of the set bib-1: if the text is
/// not attributes alone. `Memory` if no memory is found.
#[tactic(auto, using(crate::proofs::Prefixes::tried_prefix, crate::proofs::Prefixes::tried_stop))]
pub(crate) fn attributes_of(alloc: Global, key: Key, prefix: &[u8]) -> Result<Seq<Attr>, Stop>
    ensures ok { IfOk result (IsPrefix prefix.now) }
    ensures err { IfErr result (IsPrefixStop key prefix.now) }
{
    let text = tried_text(alloc, prefix)?;
    let attrs = operand_attributes(alloc, key, text.as_slice())?;
    Ok(attrs)
}

/// Returns why the reading of a query stops, for an error of the prefix notation.
fn stop_of(key: Key, error: PqfError) -> Stop
    ensures { result ≡ stop_of key error }
{
    match error.kind {
        PqfErrorKind::Memory => Stop::Memory,
        kind => Stop::Fault(SettingFault {
            key,
            kind: FaultKind::Query { kind, at: error.at },
        }),
    }
}

/// Reads a query in the prefix notation.
///
/// `Query` if the text is no query, with the reason. `Memory` if no memory is found.
pub(crate) fn read_query(alloc: Global, key: Key, text: &[u8]) -> Result<Query, Stop>
    ensures ok { IfOk result (IsQueryOf text.now) }
    ensures err { IfErr result (IsQueryStop key text.now) }
{
    match parse_pqf(alloc, text) {
        Ok(query) => Ok(query),
        Err(error) => Err(stop_of(key, error)),
    }
}
