//! The character sets of catalogues.

ghost use Rattle.std.specs.Prelude.{◌≡◌, IfOk};
ghost use Rattle.std.specs.Str.{chars};
ghost use Rattle.zmeta_catalogues.specs.Charsets.{is_latin1, latin1, octets_in, charset_named};

use bytes::Bytes;
use std::alloc::{AllocError, Global};

/// The character set of a catalogue: of the queries to it, and of its records.
#[derive(Clone, Copy, PartialEq, Eq)]
pub enum Charset {
    /// UTF-8.
    Utf8,
    /// ISO 8859-1: one octet a character.
    Latin1,
}

/// Returns the character set of this name: `utf-8` or `latin-1`.
pub(crate) fn charset_named(text: &str) -> Option<Charset>
    ensures { result ≡ charset_named text.now }
{
    if text == "utf-8" {
        Some(Charset::Utf8)
    } else if text == "latin-1" {
        Some(Charset::Latin1)
    } else {
        None
    }
}

/// Returns whether the character is one of ISO 8859-1.
fn is_latin1(letter: char) -> bool
    ensures { result ≡ is_latin1 letter }
{
    letter as u32 <= 255
}

/// Returns the octets of the text in ISO 8859-1, if all its characters are of it. `AllocError` if no memory is found.
fn latin1(alloc: Global, text: &str) -> Result<Option<Bytes>, AllocError>
    ensures { IfOk result (λ octets. octets ≡ latin1 (chars text.now)) }
{
    let mut octets = Vec::new(alloc);
    'letters: for letter in text.chars() {
        if !is_latin1(letter) {
            return Ok(None);
        }
        octets.push(letter as u32 as u8)?;
    }
    Ok(Some(Bytes::from_vec(octets)?))
}

/// Returns the octets of the text in this character set, if the set has all characters of the text; in UTF-8, if none
/// is given. `AllocError` if no memory is found.
pub(crate) fn octets_in(
    alloc: Global,
    charset: Option<Charset>,
    text: &str,
) -> Result<Option<Bytes>, AllocError>
    ensures { IfOk result (λ octets. octets ≡ octets_in charset text.now) }
{
    match charset {
        None | Some(Charset::Utf8) => Ok(Some(Bytes::copy_from_slice(alloc, text.as_bytes())?)),
        Some(Charset::Latin1) => latin1(alloc, text),
    }
}
