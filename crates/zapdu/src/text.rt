//! Prints the texts of octets, diagnostics and records.
ghost use Rattle.std.specs.Prelude.{◌≡◌, ◌≤◌, ◌<◌, ◌∷◌, [], ◌++◌, length, take, drop, IsTrue, IfOk, Bool, OnOk, OnErr, Option, MatchOption, Some, None};
ghost use Rattle.std.specs.List.{flat_map};
ghost use Rattle.hex.specs.Hex.{encode_lower};
ghost use Rattle.zber.specs.Canonical.{canonical};
ghost use Rattle.zapdu.specs.Productions.Records.{whole_record};
ghost use Rattle.zapdu.specs.Text.{quoted_octet, first_set, quoted, quoted_or_dash, ber_text, default_diag_text, diag_text, octets_alone, octets_text, retrieval_text, record_text};

use crate::productions::diagnostic::{DefaultDiag, DiagRec, Info};
use crate::productions::external::{Content, External};
use crate::productions::record::{Record, RecordBody};
use bytes::Bytes;
use std::alloc::{AllocError, Global};
use std::simd::prelude::*;
use zasn::{BuildError, Tagged};
use zber::text::{put_number, put_oid};
use zber::{Duplicate, Node, Oid};

/// Appends an octet as it stands in quotes: behind a backslash, as `\x` and two hexadecimal digits, or unchanged.
#[tactic(auto, unfolding(crate::specs::Text::quoted_octet))]
fn put_octet(octet: u8, out: &mut Vec<u8>) -> Result<(), AllocError>
    ensures { OnOk result (out.new.items ≡ out.old.items ++ quoted_octet octet) }
{
    if octet == b'"' || octet == b'\\' {
        out.extend_from_slice(&[b'\\', octet])
    } else if 32 <= octet && octet <= 126 {
        out.extend_from_slice(&[octet])
    } else {
        let mut digits = [0; 2];
        match hex::encode_to_slice([octet], &mut digits) {
            Ok(()) => out.extend_from_slice(&[b'\\', b'x', digits[0], digits[1]]),
            Err(_) => unreachable!(),
        }
    }
}

/// Appends the octets in hexadecimal, two lower-case digits each. Returns `AllocError` if no memory is found; `out` is
/// then unchanged.
pub fn put_hex(alloc: Global, octets: &[u8], out: &mut Vec<u8>) -> Result<(), AllocError>
    ensures ok { OnOk result (out.new.items ≡ out.old.items ++ encode_lower octets.now) }
    ensures err { OnErr result (out.new.items ≡ out.old.items) }
{
    let text = hex::encode(alloc, octets)?;
    out.extend_from_slice(text.as_bytes())
}

/// The octets before the text of most records: what it is, its syntax and its database.
const HEAD: usize = 64;

/// How many octets are looked at in one step.
const AT_ONCE: usize = 16;

/// Returns the place of the lowest bit that is set, or that of the first octet behind a block.
#[inline(always)]
fn first_set(mask: u64) -> usize
    ensures { result ≡ first_set mask }
{
    if mask == 0 {
        AT_ONCE
    } else {
        mask.trailing_zeros() as usize
    }
}

/// Returns how many octets at the front of a block stand unchanged in quotes.
#[inline(always)]
fn plain_in(block: &[u8; AT_ONCE]) -> usize
    ensures within { result ≤ AT_ONCE }
    ensures plain { flat_map quoted_octet (take result block.now) ≡ take result block.now }
{
    let octets = u8x16::from_array(*block);
    let stops = octets.simd_lt(u8x16::splat(b' '))
        | octets.simd_gt(u8x16::splat(b'~'))
        | octets.simd_eq(u8x16::splat(b'"'))
        | octets.simd_eq(u8x16::splat(b'\\'));
    first_set(stops.to_bitmask())
}

/// Appends the octets of a block up to and with the first that does not stand unchanged in quotes. Returns how many
/// these are. All are copied, and then cut: that costs less than to copy some.
fn put_front(block: &[u8; AT_ONCE], out: &mut Vec<u8>) -> Result<usize, AllocError>
    ensures whole { IfOk result (λ n.
        out.new.items ++ flat_map quoted_octet (drop n block.now) ≡ out.old.items ++ flat_map quoted_octet block.now) }
    ensures some { IfOk result (λ n. (0 < n) × (n ≤ AT_ONCE)) }
{
    let before = out.len();
    let front = plain_in(block);
    out.extend_from_slice(block)?;
    if front == AT_ONCE {
        return Ok(front);
    }
    out.truncate(before + front);
    put_octet(block[front], out)?;
    Ok(front + 1)
}

/// Appends some octets, one at least if there are any. Returns the others.
fn put_run<'a>(octets: &'a [u8], out: &mut Vec<u8>) -> Result<&'a [u8], AllocError>
    ensures whole { IfOk result (λ rest.
        out.new.items ++ flat_map quoted_octet rest.now ≡ out.old.items ++ flat_map quoted_octet octets.now) }
    ensures shorter { IfOk result (λ rest. 0 < length octets.now → length rest.now < length octets.now) }
{
    if let Some(block) = octets.first_chunk::<AT_ONCE>() {
        let count = put_front(block, out)?;
        return Ok(&octets[count..]);
    }
    match octets {
        [] => Ok(octets),
        [octet, rest @ ..] => {
            put_octet(*octet, out)?;
            Ok(rest)
        }
    }
}

fn put_quoted(octets: &[u8], out: &mut Vec<u8>) -> Result<(), AllocError>
    ensures { OnOk result (out.new.items ≡ out.old.items ++ quoted octets.now) }
{
    // a quarter more than the octets, for some that do not stand unchanged
    out.reserve((octets.len() / 4).saturating_add(octets.len()))?;
    out.extend_from_slice(b"\"")?;
    let mut rest = octets;
    while !rest.is_empty() {
        rest = put_run(rest, out)?;
    }
    out.extend_from_slice(b"\"")
}

fn put_quoted_or_dash(text: &Option<Bytes>, out: &mut Vec<u8>) -> Result<(), AllocError>
    ensures { OnOk result (out.new.items ≡ out.old.items ++ quoted_or_dash text.now) }
{
    match text {
        None => out.extend_from_slice(b"-"),
        Some(text) => put_quoted(text.as_slice(), out),
    }
}

/// Appends the element's canonical encoding in hexadecimal. Returns `AllocError` if no memory is found; `out` is then
/// unchanged.
pub fn put_node(alloc: Global, node: &Node, out: &mut Vec<u8>) -> Result<(), AllocError>
    ensures ok { OnOk result (out.new.items ≡ out.old.items ++ encode_lower (canonical node.now)) }
    ensures err { OnErr result (out.new.items ≡ out.old.items) }
{
    let mut octets = Vec::new(alloc);
    node.canonical(alloc, &mut octets)?;
    put_hex(alloc, octets.as_slice(), out)
}

/// Appends `ber` and the canonical encoding of the value's element; only `ber` if no element stands for the value.
fn put_given_ber<T: Tagged>(alloc: Global, value: T, out: &mut Vec<u8>) -> Result<(), AllocError>
    ensures { OnOk result (out.new.items ≡ out.old.items ++ ber_text (T.place.spelling value)) }
{
    out.extend_from_slice(b"ber ")?;
    match value.into_element(alloc) {
        Ok(node) => put_node(alloc, &node, out),
        Err(BuildError::NotSpellable) => Ok(()),
        Err(BuildError::Memory) => Err(AllocError),
    }
}

/// Does the same for a value that stays.
fn put_ber<T: Tagged + Duplicate>(
    alloc: Global,
    value: &T,
    out: &mut Vec<u8>,
) -> Result<(), AllocError>
    ensures { OnOk result (out.new.items ≡ out.old.items ++ ber_text (T.place.spelling value.now)) }
{
    let copy = value.duplicate(alloc)?;
    put_given_ber(alloc, copy, out)
}

#[tactic(auto, unfolding(crate::specs::Text::default_diag_text))]
fn put_default(alloc: Global, diag: &DefaultDiag, out: &mut Vec<u8>) -> Result<(), AllocError>
    ensures { OnOk result (out.new.items ≡ out.old.items ++ default_diag_text diag.now) }
{
    put_oid(alloc, &diag.diag_set, out)?;
    out.extend_from_slice(b" ")?;
    put_number(alloc, diag.condition, out)?;
    out.extend_from_slice(b" ")?;
    match &diag.info {
        Info::V2(text) => put_quoted(text.as_slice(), out),
        Info::V3(text) => put_quoted(text.as_slice(), out),
    }
}

#[tactic(auto, unfolding(crate::specs::Text::diag_text))]
fn put_diag(alloc: Global, diag: &DiagRec, out: &mut Vec<u8>) -> Result<(), AllocError>
    ensures { OnOk result (out.new.items ≡ out.old.items ++ diag_text diag.now) }
{
    match diag {
        DiagRec::Default(value) => put_default(alloc, value, out),
        DiagRec::Ext(_) => put_ber(alloc, diag, out),
    }
}

/// Returns the syntax of a record and its octets if the EXTERNAL has only a direct reference and octet-aligned contents
/// (Z39.50-2003, 3.6; X.690, 8.18). Returns `None` for any other EXTERNAL. It takes no memory.
pub fn octet_aligned(external: &External) -> Option<(&Oid, &Bytes)>
    ensures { let v = external.now in
        MatchOption result (octets_alone v.direct v.indirect v.descriptor v.content ≡ None)
        (λ p. octets_alone v.direct v.indirect v.descriptor v.content ≡ Some (p.0.now, p.1.now)) }
{
    match (
        &external.direct,
        &external.indirect,
        &external.descriptor,
        &external.content,
    ) {
        (Some(oid), None, None, Content::Aligned(octets)) => Some((oid, octets)),
        _ => None,
    }
}

fn put_octets(alloc: Global, hex: bool, octets: &[u8], out: &mut Vec<u8>) -> Result<(), AllocError>
    ensures { OnOk result (out.new.items ≡ out.old.items ++ octets_text hex octets.now) }
{
    if hex {
        put_hex(alloc, octets, out)
    } else {
        put_quoted(octets, out)
    }
}

fn put_retrieval(
    alloc: Global,
    value: &Record,
    external: &External,
    hex: bool,
    out: &mut Vec<u8>,
) -> Result<(), AllocError>
    ensures { let v = external.now in
        OnOk result (out.new.items ≡ out.old.items
        ++ retrieval_text hex value.now (octets_alone v.direct v.indirect v.descriptor v.content)) }
{
    match octet_aligned(external) {
        Some((oid, octets)) => {
            out.extend_from_slice(b"rec ")?;
            put_oid(alloc, oid, out)?;
            out.extend_from_slice(b" ")?;
            put_quoted_or_dash(&value.name, out)?;
            out.extend_from_slice(b" ")?;
            put_octets(alloc, hex, octets.as_slice(), out)
        }
        None => put_ber(alloc, value, out),
    }
}

fn put_record(alloc: Global, value: &Record, hex: bool, out: &mut Vec<u8>) -> Result<(), AllocError>
    ensures { OnOk result (out.new.items ≡ out.old.items ++ record_text hex value.now) }
{
    match &value.body {
        RecordBody::Retrieval(external) => put_retrieval(alloc, value, external, hex, out),
        RecordBody::Surrogate(diag) => {
            out.extend_from_slice(b"diag ")?;
            put_quoted_or_dash(&value.name, out)?;
            out.extend_from_slice(b" ")?;
            put_diag(alloc, diag, out)
        }
        RecordBody::Fragment(_) => put_ber(alloc, value, out),
    }
}

/// Whether the record is printed as `ber`, in each mode.
fn is_ber(value: &Record) -> bool
    ensures { IsTrue result → (hex : Bool) → record_text hex value.now ≡ ber_text (whole_record.spelling value.now) }
{
    match &value.body {
        RecordBody::Retrieval(external) => octet_aligned(external).is_none(),
        RecordBody::Surrogate(_) => false,
        RecordBody::Fragment(_) => true,
    }
}

fn put_given_record(
    alloc: Global,
    value: Record,
    hex: bool,
    out: &mut Vec<u8>,
) -> Result<(), AllocError>
    ensures { OnOk result (out.new.items ≡ out.old.items ++ record_text hex value) }
{
    if is_ber(&value) {
        put_given_ber(alloc, value, out)
    } else {
        put_record(alloc, &value, hex, out)
    }
}

/// Appends the octets in quotes. The octets 20 to 7E stand unchanged, with a backslash before `"` and before a
/// backslash; others stand as `\x` and two lower-case hexadecimal digits. Returns `AllocError` if no memory is found;
/// `out` is then unchanged.
pub fn quote(alloc: Global, octets: &[u8], out: &mut Vec<u8>) -> Result<(), AllocError>
    ensures ok { OnOk result (out.new.items ≡ out.old.items ++ quoted octets.now) }
    ensures err { OnErr result (out.new.items ≡ out.old.items) }
{
    let mut text = Vec::new(alloc);
    put_quoted(octets, &mut text)?;
    out.extend_from_slice(&text)
}

/// Appends a diagnostic: `OID CONDITION "INFO"`, or `ber` and the canonical encoding of an EXTERNAL in hexadecimal.
/// Returns `AllocError` if no memory is found; `out` is then unchanged.
pub fn print_diag(alloc: Global, diag: &DiagRec, out: &mut Vec<u8>) -> Result<(), AllocError>
    ensures ok { OnOk result (out.new.items ≡ out.old.items ++ diag_text diag.now) }
    ensures err { OnErr result (out.new.items ≡ out.old.items) }
{
    let mut text = Vec::new(alloc);
    put_diag(alloc, diag, &mut text)?;
    out.extend_from_slice(&text)
}

/// Appends a diagnostic in the default format: `OID CONDITION "INFO"`. Returns `AllocError` if no memory is found;
/// `out` is then unchanged.
pub fn print_default_diag(
    alloc: Global,
    diag: &DefaultDiag,
    out: &mut Vec<u8>,
) -> Result<(), AllocError>
    ensures ok { OnOk result (out.new.items ≡ out.old.items ++ default_diag_text diag.now) }
    ensures err { OnErr result (out.new.items ≡ out.old.items) }
{
    let mut text = Vec::new(alloc);
    put_default(alloc, diag, &mut text)?;
    out.extend_from_slice(&text)
}

/// Appends a record: `rec OID DB TEXT` if it is octets in a named syntax, `diag DB DIAG` if it is a surrogate, and
/// otherwise `ber` and its canonical encoding in hexadecimal. No digits follow `ber` if no element stands for a record
/// that a program built. DB is in quotes, or `-`. TEXT is in quotes, or hexadecimal if `hex` is set. Returns
/// `AllocError` if no memory is found; `out` is then unchanged.
pub fn print_record(
    alloc: Global,
    value: &Record,
    hex: bool,
    out: &mut Vec<u8>,
) -> Result<(), AllocError>
    ensures ok { OnOk result (out.new.items ≡ out.old.items ++ record_text hex value.now) }
    ensures err { OnErr result (out.new.items ≡ out.old.items) }
{
    let mut text = Vec::with_capacity(alloc, HEAD)?;
    put_record(alloc, value, hex, &mut text)?;
    out.extend_from_slice(&text)
}

/// Appends a record as `print_record` does, and consumes it. If a record prints as `ber`, `print_record` copies its
/// elements; this call does not.
pub fn print_given_record(
    alloc: Global,
    value: Record,
    hex: bool,
    out: &mut Vec<u8>,
) -> Result<(), AllocError>
    ensures ok { OnOk result (out.new.items ≡ out.old.items ++ record_text hex value) }
    ensures err { OnErr result (out.new.items ≡ out.old.items) }
{
    let mut text = Vec::new(alloc);
    put_given_record(alloc, value, hex, &mut text)?;
    out.extend_from_slice(&text)
}
