//! Faults and failed connections in words: what is wrong, and what to write.
ghost use Rattle.std.specs.Prelude.{◌≡◌, [], IfOk};
ghost use Rattle.std.specs.Option.{option_map, unwrap_or};
ghost use Rattle.zmeta_args.specs.Texts.{now_of};
ghost use Rattle.zmeta_explain.specs.Mistakes.{mistake_words};
ghost use Rattle.zmeta_devices.specs.Explained.{terms_words, words_of_query, fault_words, words_line, stop_line};

use crate::fault::Fault;
use bytes::Bytes;
use std::alloc::{AllocError, Global};
use zknow_stops::Stop;
use zmeta_explain::{Mistake, Stopped, put_stop_words, put_words};
use zquery::PqfErrorKind;

/// Returns the octets of a text: none if it is not known.
fn octets_of(text: Option<&str>) -> &[u8]
    ensures { result.now ≡ unwrap_or (now_of text.entry) [] }
{
    match text {
        Some(text) => text.as_bytes(),
        None => b"".as_slice(),
    }
}

/// Returns what is wrong with a query that terms make.
fn terms_mistake(kind: PqfErrorKind, at: usize) -> Mistake<'static>
    ensures { mistake_words result ≡ terms_words kind at }
{
    match kind {
        PqfErrorKind::Empty => Mistake::EmptyTerm,
        PqfErrorKind::TooDeep => Mistake::ManyTerms,
        kind => Mistake::Query {
            text: b"".as_slice(),
            kind,
            at,
        },
    }
}

/// Returns what is wrong with a query: one of this text, or one that terms make.
fn query_mistake<'a>(kind: PqfErrorKind, at: usize, text: Option<&'a str>) -> Mistake<'a>
    ensures { mistake_words result ≡ words_of_query kind at (now_of text.entry) }
{
    match text {
        Some(text) => Mistake::Query {
            text: text.as_bytes(),
            kind,
            at,
        },
        None => terms_mistake(kind, at),
    }
}

/// Returns what is wrong, if there are words for it.
fn mistake_of<'a>(fault: &Fault<'a>) -> Option<Mistake<'a>>
    ensures { option_map mistake_words result ≡ fault_words fault.now }
{
    let mistake = match fault {
        Fault::Read(path) => Mistake::Read(path.as_bytes()),
        Fault::Write(path) => Mistake::Write(path.as_bytes()),
        Fault::Overwrite(_) => return None,
        Fault::Hex => Mistake::Hex,
        Fault::Frame { kind, at } => Mistake::Frame {
            kind: *kind,
            at: *at,
        },
        Fault::NotApdu => Mistake::NotApdu,
        Fault::Malformed { kind, at } => Mistake::Malformed {
            kind: *kind,
            at: *at,
        },
        Fault::Query { kind, at, text } => query_mistake(*kind, *at, *text),
        Fault::NotPrintable => Mistake::NotPrintable,
        Fault::NotKnowledge { path, at } => Mistake::NotSaved {
            path: path.as_bytes(),
            at: *at,
        },
        Fault::NotCanonical { path, at } => Mistake::NotCanonical {
            path: path.as_bytes(),
            at: *at,
        },
        Fault::NamesDiffer => Mistake::NamesDiffer,
        Fault::Line(_) => return None,
        Fault::Wanted(text) => Mistake::Records(octets_of(*text)),
        Fault::Syntax(text) => Mistake::Syntax(octets_of(*text)),
        Fault::NoQuestion(name) => Mistake::NoQuestion(name.as_bytes()),
        Fault::NoCatalogue(name) => Mistake::NoCatalogue(name.as_bytes()),
        Fault::NotOid(text) => Mistake::NotOid(text.as_bytes()),
        Fault::Serve => Mistake::Serve,
        Fault::Memory => Mistake::Memory,
    };
    Some(mistake)
}

/// Returns the line that tells a fault in words: nothing if there are no words for it.
pub(crate) fn words_line(alloc: Global, fault: &Fault<'_>) -> Result<Vec<u8>, AllocError>
    ensures { IfOk result (λ line. line.items ≡ words_line fault.now) }
{
    let mut line = Vec::new(alloc);
    let Some(mistake) = mistake_of(fault) else {
        return Ok(line);
    };
    line.extend_from_slice(b"zmeta: ")?;
    put_words(alloc, &mistake, &mut line)?;
    line.extend_from_slice(b"\n")?;
    Ok(line)
}

/// Returns the octets of an address: none for a target in memory.
fn address_octets(address: Option<&Bytes>) -> &[u8]
    ensures { result.now ≡ unwrap_or (option_map (λ address. address.now) address.entry) [] }
{
    match address {
        Some(address) => address.as_slice(),
        None => b"".as_slice(),
    }
}

/// Returns the line that tells in words why a connection to the target of this name stopped: nothing if it did not.
pub fn stop_line(
    alloc: Global,
    name: &Bytes,
    address: Option<&Bytes>,
    stop: Option<Stop>,
) -> Result<Vec<u8>, AllocError>
    ensures { IfOk result (λ line. line.items
        ≡ stop_line name.now (option_map (λ address. address.now) address.entry) stop) }
{
    let mut line = Vec::new(alloc);
    let Some(stop) = stop else {
        return Ok(line);
    };
    let stopped = Stopped {
        name: name.as_slice(),
        address: address_octets(address),
        detail: stop.detail,
    };
    line.extend_from_slice(b"zmeta: ")?;
    put_stop_words(alloc, &stopped, &mut line)?;
    line.extend_from_slice(b"\n")?;
    Ok(line)
}
