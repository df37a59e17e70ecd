// What the tokens within a query's parts mean.
ghost use Rattle.std.specs.Prelude.{◌≡◌, ◌≤◌, IfOk, IfSome, position};
ghost use Rattle.zquery.specs.Notation.Values.{is_equals, has_equals, most, numbers_of, term_kind_of, value_of};
ghost use Rattle.zquery.specs.Notation.Sets.{bib1, oid_of_text, set_of};

use crate::notation::number::{integer, number};
use crate::notation::word::TermKind;
use bytes::Bytes;
use std::alloc::{AllocError, Global};
use zber::{Oid, OidError};
use zquery_rpn::TermValue;

/// The greatest type and the greatest value of an attribute.
const MOST: u64 = 2_147_483_647;

/// The arcs of the attribute set bib-1 (Z39.50-2003, ATR).
pub(crate) const BIB_1: [u32; 6] = [1, 2, 840, 10003, 3, 1];

/// Whether the text has an equals sign. An attribute's type and value have one; a set has none.
#[tactic(auto, unfolding(crate::specs::Notation::Values::has_equals))]
pub(crate) fn has_equals(text: &[u8]) -> bool
    ensures { result ≡ has_equals text.now }
{
    text.iter().any(|octet| *octet == b'=')
}

fn equals_at(text: &[u8]) -> Option<usize>
    ensures { result ≡ position is_equals text.now }
{
    text.iter().position(|octet| *octet == b'=')
}

/// Returns an attribute's type and value: the numbers before and behind the first equals sign. Returns `None` if there
/// is no equals sign, or if one of the two is no number up to `MOST`.
pub(crate) fn numbers(text: &[u8]) -> Option<(u64, u64)>
    ensures value { result ≡ numbers_of text.now }
    ensures small { IfSome result (λ n. (n.0 ≤ most) × (n.1 ≤ most)) }
{
    let Some(at) = equals_at(text) else {
        return None;
    };
    match (number(&text[..at], MOST), number(&text[at + 1..], MOST)) {
        (Some(kind), Some(value)) => Some((kind, value)),
        _ => None,
    }
}

/// Returns the attribute set bib-1, or `AllocError` if no memory is found.
pub(crate) fn bib_1(alloc: Global) -> Result<Oid, AllocError>
    ensures { IfOk result (λ o. o ≡ bib1) }
{
    match Oid::from_arcs(alloc, &BIB_1) {
        Ok(oid) => Ok(oid),
        Err(_) => Err(AllocError),
    }
}

/// Returns the object identifier whose arcs, in decimal with dots between them, are the text. Returns `None` for any
/// other text, and `AllocError` if no memory is found.
pub fn oid_named(alloc: Global, text: &[u8]) -> Result<Option<Oid>, AllocError>
    ensures { IfOk result (λ o. o ≡ oid_of_text text.now) }
{
    match Oid::parse_dotted(alloc, text) {
        Ok(oid) => Ok(Some(oid)),
        Err(e) if e == OidError::Memory => Err(AllocError),
        Err(_) => Ok(None),
    }
}

/// Returns the attribute set of this name: `bib-1`, in any case, or an object identifier. Returns `None` for any other
/// text, and `AllocError` if no memory is found.
#[tactic(auto, unfolding(crate::specs::Notation::Sets::set_of))]
pub(crate) fn set_named(alloc: Global, text: &[u8]) -> Result<Option<Oid>, AllocError>
    ensures { IfOk result (λ s. s ≡ set_of text.now) }
{
    if text.eq_ignore_ascii_case(b"bib-1") {
        return Ok(Some(bib_1(alloc)?));
    }
    oid_named(alloc, text)
}

/// Returns the type of term of this name: `general`, `numeric` or `string`. Returns `None` for any other text.
#[tactic(auto, unfolding(crate::specs::Notation::Values::term_kind_of))]
pub(crate) fn kind(text: &[u8]) -> Option<TermKind>
    ensures { result ≡ term_kind_of text.now }
{
    if text == b"general".as_slice() {
        Some(TermKind::GeneralTerm)
    } else if text == b"numeric".as_slice() {
        Some(TermKind::NumericTerm)
    } else if text == b"string".as_slice() {
        Some(TermKind::TextTerm)
    } else {
        None
    }
}

/// Parses a token as a term of this type. Returns `None` if the type is numeric and the text is no number of 64 bits.
/// Returns `AllocError` if no memory is found.
#[tactic(auto, unfolding(crate::specs::Notation::Values::value_of))]
pub(crate) fn value(kind: TermKind, text: &Bytes) -> Result<Option<TermValue>, AllocError>
    ensures { IfOk result (λ v. v ≡ value_of kind text.now) }
{
    match kind {
        TermKind::GeneralTerm => Ok(Some(TermValue::General(text.clone()?))),
        TermKind::TextTerm => Ok(Some(TermValue::Text(text.clone()?))),
        TermKind::NumericTerm => match integer(text.as_slice()) {
            Some(number) => Ok(Some(TermValue::Numeric(number))),
            None => Ok(None),
        },
    }
}
