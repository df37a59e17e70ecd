//! What the tables of vectors share: a table is a text with a row on each line, and octets stand in it as hexadecimal
//! digits.
ghost use Rattle.std.specs.Prelude.{◌≡◌, ◌↔◌, true, Ok, IsTrue, IsOkAnd, string_bytes};

use crate::unread::{Unread, read};
use std::alloc::{AllocError, Global};
use std::test::Fail;
use zber::{Framer, Node};

/// The longest message that is read.
pub const LIMIT: u32 = 2_097_152;

/// Fails with the first row of a table that does not hold, or of which that cannot be told; a row that begins with `#`
/// says what those below it are.
pub fn each_row(
    alloc: Global,
    rows: &str,
    holds: fn(Global, &str) -> Result<bool, Unread>,
) -> Result<(), Fail>
    requires { IsAlwaysCallable holds }
{
    for row in rows.lines() {
        if !row.starts_with('#') && !is_true(holds(alloc, row)) {
            return Err(Fail::new(row));
        }
    }
    Ok(())
}

/// The two parts of a row, which a mark divides; the second is empty where there is none.
pub fn split_row<'a>(row: &'a str, mark: &str) -> (&'a str, &'a str) {
    row.split_once(mark).unwrap_or((row, ""))
}

/// The first so many octets of a text, and the others.
pub fn split_text(text: &str, at: usize) -> (&str, &str) {
    text.split_at_checked(at).unwrap_or((text, ""))
}

/// The two parts of a row, which its first space divides.
pub fn pair(row: &str) -> (&str, &str) {
    row.split_once(' ').unwrap_or((row, ""))
}

/// The two parts of a row, which an arrow divides.
pub fn halves(row: &str) -> (&str, &str) {
    split_row(row, " => ")
}

/// Whether it was found to hold: not where it could not be told.
pub fn is_true<E: Drop>(value: Result<bool, E>) -> bool
    ensures { IsTrue result ↔ (value ≡ Ok true) }
{
    value.unwrap_or(false)
}

/// Whether a text is there, and is the due one.
pub fn tells<E: Drop>(text: Result<String, E>, due: &str) -> bool
    ensures { IsTrue result ↔ IsOkAnd text (λ t. string_bytes t ≡ due.now) }
{
    match text {
        Ok(text) => text.as_str() == due,
        Err(_) => false,
    }
}

/// Whether octets are there, and are the due ones.
pub fn spells<E: Drop>(octets: Result<Vec<u8>, E>, due: &[u8]) -> bool
    ensures { IsTrue result ↔ IsOkAnd octets (λ v. v.items ≡ due.now) }
{
    match octets {
        Ok(octets) => octets.as_slice() == due,
        Err(_) => false,
    }
}

/// The octets that digits spell; `-` stands for none.
pub fn octets(alloc: Global, digits: &str) -> Result<Vec<u8>, Unread> {
    if digits == "-" {
        Ok(Vec::new(alloc))
    } else {
        read(hex::decode(alloc, digits))
    }
}

/// The digits of octets; `-` stands for none.
pub fn digits(alloc: Global, octets: &[u8]) -> Result<String, AllocError> {
    if octets.is_empty() {
        String::from_str(alloc, "-")
    } else {
        hex::encode(alloc, octets)
    }
}

/// The first message of octets.
pub fn message(alloc: Global, octets: &[u8]) -> Result<Node, Unread> {
    let mut framer = Framer::new(alloc, LIMIT);
    let fed = framer.feed(octets).is_ok();
    match framer.next() {
        Ok(Some(node)) if fed => Ok(node),
        _ => Err(Unread),
    }
}

/// The element that digits spell.
pub fn element(alloc: Global, digits: &str) -> Result<Node, Unread> {
    let Ok(octets) = octets(alloc, digits) else {
        return Err(Unread);
    };
    message(alloc, octets.as_slice())
}

/// The digits of an element's canonical encoding.
pub fn encoding(alloc: Global, node: &Node) -> Result<String, AllocError> {
    let mut octets = Vec::new(alloc);
    if node.canonical(alloc, &mut octets).is_err() {
        return Err(AllocError);
    }
    digits(alloc, octets.as_slice())
}

/// The octets of a text in which `%` and two digits stand for one octet.
pub fn unescape(alloc: Global, text: &str) -> Result<Vec<u8>, Unread> {
    let mut out = Vec::new(alloc);
    let mut digits = 0u8;
    for part in text.split('%') {
        let (escaped, plain) = split_text(part, digits as usize);
        if put_octets(alloc, escaped, &mut out).is_err()
            || out.extend_from_slice(plain.as_bytes()).is_err()
        {
            return Err(Unread);
        }
        digits = 2;
    }
    Ok(out)
}

fn put_octets(alloc: Global, digits: &str, out: &mut Vec<u8>) -> Result<(), Unread> {
    let Ok(octets) = hex::decode(alloc, digits) else {
        return Err(Unread);
    };
    read(out.extend_from_slice(octets.as_slice()))
}
