//! Records as most saved files have them, read where they stand: octets in an EXTERNAL, with a syntax of Z39.50.
ghost use Rattle.std.specs.Prelude.{◌≡◌, ◌≤◌, ◌++◌, ℕ, pos, List, true, length, IfSome, IfOk};
ghost use Rattle.zknow.specs.declared.fact.Fact.{Fact};
ghost use Rattle.zknow_merge.specs.Canonical.{framed};
ghost use Rattle.zknow_merge.specs.Plain.{IsPlainExternal, IsPlainBody, IsPlainRecord, AreNumbers, IsPlain};
ghost use Rattle.zknow_merge.specs.Sources.{IsNextHead};

use crate::canonical::{is_syntax, take, take_number, whole};
use crate::front::LONGEST;
use crate::head::Head;
use bytes::BytesMut;
use std::alloc::{AllocError, Global};

/// Whether these are the contents octets of an EXTERNAL that has octets, and a syntax of Z39.50 (X.690, 8.18).
#[tactic(auto, using(crate::proofs::PlainTheory::external_is))]
fn is_external(octets: &[u8]) -> bool
    ensures { result ≡ true → IsPlainExternal octets.now }
{
    let Some((oid, rest)) = take(octets, 0x06) else {
        return false;
    };
    let Some(_) = whole(rest, 0x81) else {
        return false;
    };
    is_syntax(oid)
}

/// Whether this is the record of a NamePlusRecord: a retrieval record that is such an EXTERNAL.
#[tactic(auto, using(crate::proofs::PlainTheory::body_is))]
fn is_body(octets: &[u8]) -> bool
    ensures { result ≡ true → IsPlainBody octets.now }
{
    let Some(explicit) = whole(octets, 0xa1) else {
        return false;
    };
    let Some(retrieval) = whole(explicit, 0xa1) else {
        return false;
    };
    let Some(external) = whole(retrieval, 0x28) else {
        return false;
    };
    is_external(external)
}

/// Whether this is the element of a NamePlusRecord with such a record.
#[tactic(auto, using(crate::proofs::PlainTheory::whole_record_is, crate::proofs::PlainTheory::named_record_is))]
fn is_record(octets: &[u8]) -> bool
    ensures { result ≡ true → IsPlainRecord octets.now }
{
    let Some(contents) = whole(octets, 0x30) else {
        return false;
    };
    match take(contents, 0x80) {
        Some((_, rest)) => is_body(rest),
        None => is_body(contents),
    }
}

/// The numbers that contents octets of a fact begin with, and the octets behind them.
#[derive(Clone, Copy)]
struct Numbers<'a> {
    target: u32,
    set: u32,
    position: u32,
    rest: &'a [u8],
}

/// Returns the target, the set and the position that contents octets begin with.
#[tactic(auto, using(crate::proofs::PlainTheory::numbers_are))]
fn numbers_in(octets: &[u8]) -> Option<Numbers<'_>>
    ensures { IfSome result (λ n. AreNumbers octets.now n.target n.set n.position n.rest.now) }
{
    let (target, rest) = take_number(octets, 0x80)?;
    let (set, rest) = take_number(rest, 0x81)?;
    let (position, rest) = take_number(rest, 0x82)?;
    Some(Numbers {
        target,
        set,
        position,
        rest,
    })
}

/// Returns the element of a record's fact that octets begin with, and its contents octets. Returns `None` if it is
/// another element, or if it has more than `LONGEST` octets.
#[tactic(auto, using(crate::proofs::PlainTheory::front_is, crate::proofs::PlainTheory::front_begins))]
fn take_fact<'a>(octets: &'a [u8]) -> Option<(&'a [u8], &'a [u8])>
    ensures contents { IfSome result (λ r. r.0.now ≡ framed 162 r.1.now) }
    ensures begins { IfSome result (λ r. (after : List ℕ) × (octets.now ≡ r.0.now ++ after)) }
    ensures small { IfSome result (λ r. length r.0.now ≤ 4194304) }
{
    let (contents, rest) = take(octets, 0xa2)?;
    let (element, _) = octets.split_at(octets.len() - rest.len());
    if element.len() > LONGEST as usize {
        return None;
    }
    Some((element, contents))
}

/// Returns the element of a plain record's fact that octets begin with, and its numbers and the record's element.
/// Returns `None` if they begin with another element, or if it is not canonical.
#[tactic(auto, using(crate::proofs::PlainTheory::plain_is))]
fn plain_in(octets: &[u8]) -> Option<(&[u8], Numbers<'_>)>
    ensures { IfSome result (λ r. IsPlain octets.now r.0.now r.1.target r.1.set r.1.position r.1.rest.now) }
{
    let (element, contents) = take_fact(octets)?;
    let numbers = numbers_in(contents)?;
    if numbers.position == 0 {
        return None;
    }
    if !is_record(numbers.rest) {
        return None;
    }
    Some((element, numbers))
}

/// Returns the head of a plain record's fact, by its element, its numbers and the record's element.
///
/// `AllocError` if no memory is found.
fn plain_record_head(
    alloc: Global,
    element: &[u8],
    numbers: &Numbers<'_>,
) -> Result<Head, AllocError>
    ensures kind { IfOk result (λ h. h.kind ≡ 2) }
    ensures target { IfOk result (λ h. h.target ≡ numbers.now.target) }
    ensures set { IfOk result (λ h. h.set ≡ numbers.now.set) }
    ensures number { IfOk result (λ h. h.number ≡ pos numbers.now.position) }
    ensures octets { IfOk result (λ h. h.octets.items ≡ numbers.now.rest.now) }
    ensures element { IfOk result (λ h. h.element.items ≡ element.now) }
{
    Ok(Head {
        kind: 2,
        target: numbers.target,
        set: numbers.set,
        number: i64::from(numbers.position),
        octets: Vec::from_slice(alloc, numbers.rest)?,
        element: Vec::from_slice(alloc, element)?,
    })
}

/// Returns the head of a plain record's fact that octets begin with. `None` if they begin with another element, or with
/// one that is not canonical; `AllocError` if no memory is found.
pub(crate) fn plain_head(alloc: Global, octets: &BytesMut) -> Result<Option<Head>, AllocError>
    ensures { IfOk result (λ o. IfSome o (λ h. (f : Fact) × IsNextHead octets.now.items h f)) }
{
    let Some((element, numbers)) = plain_in(octets.as_slice()) else {
        return Ok(None);
    };
    match plain_record_head(alloc, element, &numbers) {
        Ok(head) => Ok(Some(head)),
        Err(error) => Err(error),
    }
}
