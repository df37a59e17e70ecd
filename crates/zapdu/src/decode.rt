//! Reads elements as APDUs, records and diagnostics.
ghost use Rattle.std.specs.Prelude.{◌≡◌, IfOk, IfSome, IfNone};
ghost use Rattle.zasn.specs.Results.{ReadingResult, OwnReadingResult, CountedReadingResult};
ghost use Rattle.zapdu.specs.declared.productions.record.Record.{Record};
ghost use Rattle.zapdu.specs.declared.productions.diagnostic.DiagRec.{DiagRec};
ghost use Rattle.zapdu.specs.Productions.Records.{WritesRecord};
ghost use Rattle.zapdu.specs.Productions.Diagnostics.{WritesDiag};
ghost use Rattle.zapdu.specs.Writes.{kind_at, IsDecodeResult, apdu_at};

use crate::apdu::{Apdu, ApduError, Kind};
use crate::productions::close::Close;
use crate::productions::diagnostic::DiagRec;
use crate::productions::init_request::InitRequest;
use crate::productions::init_response::InitResponse;
use crate::productions::present_request::PresentRequest;
use crate::productions::present_response::PresentResponse;
use crate::productions::record::Record;
use crate::productions::search_request::SearchRequest;
use crate::productions::search_response::SearchResponse;
use std::alloc::{AllocError, Global};
use zasn::{OwnParts, PartError, Parts, Production, Tagged, Taken};
use zber::{Body, Node, Tag};

/// Returns the kind of APDU that has this tag, if there is one.
fn kind_of_tag(tag: Tag) -> Option<Kind>
    ensures { result ≡ kind_at tag }
{
    if tag == Tag::context(20) {
        Some(Kind::InitRequest)
    } else if tag == Tag::context(21) {
        Some(Kind::InitResponse)
    } else if tag == Tag::context(22) {
        Some(Kind::SearchRequest)
    } else if tag == Tag::context(23) {
        Some(Kind::SearchResponse)
    } else if tag == Tag::context(24) {
        Some(Kind::PresentRequest)
    } else if tag == Tag::context(25) {
        Some(Kind::PresentResponse)
    } else if tag == Tag::context(48) {
        Some(Kind::Close)
    } else {
        None
    }
}

/// Reads these elements as those of an APDU of this kind.
fn apdu_of(alloc: Global, kind: Kind, parts: &mut Parts<'_>) -> Result<Apdu, PartError>
    ensures { ReadingResult (apdu_at kind parts.old) result parts.new }
{
    match kind {
        Kind::InitRequest => {
            let apdu = InitRequest::read(alloc, parts)?;
            Ok(Apdu::InitRequest(apdu))
        }
        Kind::InitResponse => {
            let apdu = InitResponse::read(alloc, parts)?;
            Ok(Apdu::InitResponse(apdu))
        }
        Kind::SearchRequest => {
            let apdu = SearchRequest::read(alloc, parts)?;
            Ok(Apdu::SearchRequest(apdu))
        }
        Kind::SearchResponse => {
            let apdu = SearchResponse::read(alloc, parts)?;
            Ok(Apdu::SearchResponse(apdu))
        }
        Kind::PresentRequest => {
            let apdu = PresentRequest::read(alloc, parts)?;
            Ok(Apdu::PresentRequest(apdu))
        }
        Kind::PresentResponse => {
            let apdu = PresentResponse::read(alloc, parts)?;
            Ok(Apdu::PresentResponse(apdu))
        }
        Kind::Close => {
            let apdu = Close::read(alloc, parts)?;
            Ok(Apdu::Close(apdu))
        }
    }
}

fn take_search_response(alloc: Global, parts: &mut OwnParts) -> Result<Apdu, PartError>
    ensures { OwnReadingResult (apdu_at Kind.SearchResponse parts.old) result parts.new }
{
    let apdu = SearchResponse::take(alloc, parts)?;
    Ok(Apdu::SearchResponse(apdu))
}

fn take_present_response(alloc: Global, parts: &mut OwnParts) -> Result<Apdu, PartError>
    ensures { OwnReadingResult (apdu_at Kind.PresentResponse parts.old) result parts.new }
{
    let apdu = PresentResponse::take(alloc, parts)?;
    Ok(Apdu::PresentResponse(apdu))
}

/// Reads these elements as those of an APDU of this kind. Returns the APDU, or the error, with the number of elements
/// that are left. The responses that can have records take the elements over.
fn take_apdu(alloc: Global, kind: Kind, nodes: Vec<Node>) -> (Result<Apdu, PartError>, usize)
    ensures { CountedReadingResult (apdu_at kind nodes.items) result.0 result.1 }
{
    match kind {
        Kind::SearchResponse => {
            let mut parts = OwnParts::new(nodes);
            let answer = take_search_response(alloc, &mut parts);
            (answer, parts.len())
        }
        Kind::PresentResponse => {
            let mut parts = OwnParts::new(nodes);
            let answer = take_present_response(alloc, &mut parts);
            (answer, parts.len())
        }
        _ => {
            let mut parts = Parts::new(nodes.as_slice());
            let answer = apdu_of(alloc, kind, &mut parts);
            (answer, parts.len())
        }
    }
}

/// Returns the APDU that the element stands for (Z39.50-2003, 4.1).
///
/// Returns `NotApdu` if the element is primitive or has the tag of no APDU. Returns `Malformed` if its elements are not
/// those of an APDU of its kind. Returns `Memory` if no memory is found.
pub fn from_node(alloc: Global, node: &Node) -> Result<Apdu, ApduError>
    ensures { IsDecodeResult node.now result }
{
    let Body::Cons(nodes) = &node.body else {
        return Err(ApduError::NotApdu);
    };
    let Some(kind) = kind_of_tag(node.tag) else {
        return Err(ApduError::NotApdu);
    };
    let mut parts = Parts::new(nodes.as_slice());
    let all = parts.len();
    match apdu_of(alloc, kind, &mut parts) {
        Ok(apdu) => Ok(apdu),
        Err(PartError::Misfit) => {
            let left = parts.len();
            let at = all.saturating_sub(left);
            Err(ApduError::Malformed { kind, at })
        }
        Err(PartError::Memory) => Err(ApduError::Memory),
    }
}

/// Returns the APDU that the element stands for, and consumes the element. Records in syntaxes of elements are moved
/// into the APDU; `from_node` copies them. Results and errors are those of `from_node`.
pub fn from_element(alloc: Global, node: Node) -> Result<Apdu, ApduError>
    ensures { IsDecodeResult node result }
{
    let Some(kind) = kind_of_tag(node.tag) else {
        return Err(ApduError::NotApdu);
    };
    match node.body {
        Body::Prim(_) => Err(ApduError::NotApdu),
        Body::Cons(nodes) => {
            let all = nodes.as_slice().len();
            let (answer, left) = take_apdu(alloc, kind, nodes);
            let at = all.saturating_sub(left);
            match answer {
                Ok(apdu) => Ok(apdu),
                Err(PartError::Misfit) => Err(ApduError::Malformed { kind, at }),
                Err(PartError::Memory) => Err(ApduError::Memory),
            }
        }
    }
}

/// Returns the value that the element stands for. Returns `None` if it stands for none, and `AllocError` if no memory
/// is found.
fn tagged_of<T: Tagged>(alloc: Global, node: &Node) -> Result<Option<T>, AllocError>
    ensures some { IfOk result (λ o. IfSome o (λ v. T.place.writes v node.now)) }
    ensures none { IfOk result (λ o. IfNone o ((v : T) → T.place.writes v node.now → ⊥)) }
{
    if !T::has(node.tag) {
        return Ok(None);
    }
    match T::of_element(alloc, node) {
        Ok(value) => Ok(Some(value)),
        Err(PartError::Misfit) => Ok(None),
        Err(PartError::Memory) => Err(AllocError),
    }
}

/// Returns the record that the element stands for (Z39.50-2003, 4.1: NamePlusRecord). Returns `None` if it stands for
/// none, and `AllocError` if no memory is found.
pub fn record_of(alloc: Global, node: &Node) -> Result<Option<Record>, AllocError>
    ensures some { IfOk result (λ o. IfSome o (λ r. WritesRecord r node.now)) }
    ensures none { IfOk result (λ o. IfNone o ((r : Record) → WritesRecord r node.now → ⊥)) }
{
    tagged_of(alloc, node)
}

/// Returns the diagnostic that the element stands for (Z39.50-2003, 4.1: DiagRec). Returns `None` if it stands for
/// none, and `AllocError` if no memory is found.
pub fn diag_of(alloc: Global, node: &Node) -> Result<Option<DiagRec>, AllocError>
    ensures some { IfOk result (λ o. IfSome o (λ d. WritesDiag d node.now)) }
    ensures none { IfOk result (λ o. IfNone o ((d : DiagRec) → WritesDiag d node.now → ⊥)) }
{
    tagged_of(alloc, node)
}
