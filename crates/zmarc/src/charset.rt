//! The characters that octets mean, and the text that is shown of them.
ghost use Rattle.std.specs.Prelude.{◌≡◌, ◌++◌, map, OnOk, OnErr, IfOk, string_bytes};
ghost use Rattle.std.specs.Str.{chars, is_utf8};
ghost use Rattle.std.specs.Str.Lossy.{utf8_lossy};
ghost use Rattle.zmarc.specs.Marc8.{ascii};
ghost use Rattle.zmarc.specs.Shown.{IsSafeText};
ghost use Rattle.zmarc.specs.Charsets.{is_beyond_ascii, is_utf8_beyond_ascii, latin1, characters, charset_at, text};

use crate::marc8::{map_ascii, read_marc8};
use crate::shown::put_chars;
use std::alloc::{AllocError, Global};
use unicode_normalization::slice::extend_nfc;

/// Sets of characters that records are written in.
#[derive(Clone, Copy, PartialEq, Eq)]
pub enum Charset {
    /// UTF-8.
    Utf8,
    /// MARC-8 as far as ASCII and ANSEL go, with 88 and 89, the marks round what is left out in sorting.
    Marc8,
    /// ASCII, with 88 and 89, the marks round what is left out in sorting.
    Ascii,
    /// ISO 8859-1, with 88 and 89, the marks round what is left out in sorting.
    Latin1,
}

/// Whether there are octets above those of ASCII.
fn is_beyond_ascii(octets: &[u8]) -> bool
    ensures { result ≡ is_beyond_ascii octets.now }
{
    octets.iter().any(|octet| *octet > 0x7F)
}

/// Whether the octets are UTF-8.
fn is_utf8(octets: &[u8]) -> bool
    ensures { result ≡ is_utf8 octets.now }
{
    str::from_utf8(octets).is_ok()
}

/// Whether the octets are UTF-8, and more than ASCII.
pub(crate) fn is_utf8_beyond_ascii(octets: &[u8]) -> bool
    ensures { result ≡ is_utf8_beyond_ascii octets.now }
{
    is_beyond_ascii(octets) && is_utf8(octets)
}

/// Reads the characters of octets of ASCII, each by itself.
fn read_ascii(alloc: Global, octets: &[u8]) -> Result<Vec<char>, AllocError>
    ensures { IfOk result (λ read. read.items ≡ map ascii octets.now) }
{
    let mut read = Vec::new(alloc);
    for octet in octets {
        read.push(map_ascii(*octet))?;
    }
    Ok(read)
}

/// Reads the characters of octets of UTF-8, with U+FFFD for what is none.
fn read_utf8(alloc: Global, octets: &[u8]) -> Result<Vec<char>, AllocError>
    ensures { IfOk result (λ read. read.items ≡ chars (utf8_lossy octets.now)) }
{
    let text = String::from_utf8_lossy(alloc, octets)?;
    let mut read = Vec::new(alloc);
    for c in text.as_str().chars() {
        read.push(c)?;
    }
    Ok(read)
}

/// The character of an octet of ISO 8859-1, or a mark for sorting.
fn map_latin1(octet: u8) -> char
    ensures { result ≡ latin1 octet }
{
    match octet {
        0x88 => '\u{98}',
        0x89 => '\u{9c}',
        _ => char::from(octet),
    }
}

/// Reads the characters of octets of ISO 8859-1, each by itself.
fn read_latin1(alloc: Global, octets: &[u8]) -> Result<Vec<char>, AllocError>
    ensures { IfOk result (λ read. read.items ≡ map latin1 octets.now) }
{
    let mut read = Vec::new(alloc);
    for octet in octets {
        read.push(map_latin1(*octet))?;
    }
    Ok(read)
}

/// Reads the characters of octets in a set. **They are not safe to print**: `put_text` appends what is shown of them.
/// It fails only if no memory is found.
pub fn read_characters(
    alloc: Global,
    charset: Charset,
    octets: &[u8],
) -> Result<Vec<char>, AllocError>
    ensures { IfOk result (λ read. read.items ≡ characters charset octets.now) }
{
    match charset {
        Charset::Utf8 => read_utf8(alloc, octets),
        Charset::Marc8 => read_marc8(alloc, octets),
        Charset::Ascii => read_ascii(alloc, octets),
        Charset::Latin1 => read_latin1(alloc, octets),
    }
}

/// Returns the set that the records of a target are in, if it is known: entry `target` of `charsets`. A target without
/// an entry has none.
pub fn charset_at(charsets: &[Option<Charset>], target: u32) -> Option<Charset>
    ensures { result ≡ charset_at charsets.now target }
{
    match charsets.get(target as usize) {
        Some(charset) => *charset,
        None => None,
    }
}

/// Appends the text that is shown of octets: their characters in NFC, of which those that are not safe for a terminal
/// are shown as U+FFFD or as a space, or not at all (`put_brief` says which).
///
/// An octet that means nothing in ASCII or ANSEL is shown as U+FFFD, and so is what is no UTF-8 (as `from_utf8_lossy`
/// has it). In ISO 8859-1 each octet is a character; 80 to 9F are control characters. In MARC-8 a mark goes behind the
/// letter that it stands before. EC and FB, the second halves of marks that span two letters, are not shown. An escape
/// sequence to a set other than ASCII and ANSEL is shown as one U+FFFD, and what stands in that set is not shown; ESC (
/// B and ESC s lead back, and are not shown. U+FFFD stands before marks at the end, which have no letter.
///
/// It fails only if no memory is found; then `line` is as it was.
#[tactic(auto, unfolding(crate::specs::Charsets::text), using(crate::proofs::SafeTheory::text_is_safe))]
pub fn put_text(
    alloc: Global,
    charset: Charset,
    octets: &[u8],
    line: &mut String,
) -> Result<(), AllocError>
    ensures ok { OnOk result (string_bytes line.new ≡ string_bytes line.old ++ text charset octets.now) }
    ensures err { OnErr result (string_bytes line.new ≡ string_bytes line.old) }
    ensures safe { IsSafeText (text charset octets.now) }
{
    let read = read_characters(alloc, charset, octets)?;
    let mut composed = Vec::new(alloc);
    extend_nfc(&mut composed, &read)?;
    put_chars(&composed, line)
}
