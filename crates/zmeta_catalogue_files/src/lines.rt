//! The lines of catalogues: what a file says of each.

ghost use Rattle.std.specs.Prelude.{◌≡◌, ◌++◌, [], IfOk, OnOk};
ghost use Rattle.std.specs.List.{flat_map};
ghost use Rattle.zmeta_catalogue_files.specs.Lines.{is_bare, are_bare, is_word, word_text, keyed, word_part, text_part, number_part, charset_name, charset_part, database_part, words_part, numbers_part, terms_part, place_part, catalogue_line, catalogue_lines};

use bytes::Bytes;
use std::alloc::{AllocError, Global};
use zapdu::quote;
use zmeta_catalogues::{Catalogue, Charset, Key, Settings, Terms};

/// Returns whether the octet stands for itself in a word.
fn is_bare(octet: u8) -> bool
    ensures { result ≡ is_bare octet }
{
    b'!' <= octet && octet <= b'~' && octet != b'"' && octet != b'\\'
}

/// Returns whether each of the octets stands for itself in a word.
fn are_bare(octets: &[u8]) -> bool
    ensures { result ≡ are_bare octets.now }
{
    octets.iter().all(|octet| is_bare(*octet))
}

/// Returns whether the octets are a word: there is one, and each stands for itself.
fn is_word(octets: &[u8]) -> bool
    ensures { result ≡ is_word octets.now }
{
    0 < octets.len() && are_bare(octets)
}

/// Appends a text: as it is, if it is a word, or else in quotes.
#[tactic(auto, unfolding(crate::specs::Lines::word_text))]
fn put_word(alloc: Global, octets: &[u8], out: &mut Vec<u8>) -> Result<(), AllocError>
    ensures { OnOk result (out.new.items ≡ out.old.items ++ word_text octets.now) }
{
    if is_word(octets) {
        out.extend_from_slice(octets)
    } else {
        quote(alloc, octets, out)
    }
}

/// Appends a space, a key and a space.
fn put_key(key: Key, out: &mut Vec<u8>) -> Result<(), AllocError>
    ensures { OnOk result (out.new.items ≡ out.old.items ++ keyed key []) }
{
    out.extend_from_slice(b" ")?;
    out.extend_from_slice(key.name().as_bytes())?;
    out.extend_from_slice(b" ")
}

/// Appends a word of this key, if there is one.
fn put_setting(
    alloc: Global,
    key: Key,
    text: &Option<Bytes>,
    out: &mut Vec<u8>,
) -> Result<(), AllocError>
    ensures { OnOk result (out.new.items ≡ out.old.items ++ word_part key text.now) }
{
    let Some(text) = text else {
        return Ok(());
    };
    put_key(key, out)?;
    put_word(alloc, text.as_slice(), out)
}

/// Appends a text of this key in quotes, if there is one.
fn put_text(
    alloc: Global,
    key: Key,
    text: &Option<Bytes>,
    out: &mut Vec<u8>,
) -> Result<(), AllocError>
    ensures { OnOk result (out.new.items ≡ out.old.items ++ text_part key text.now) }
{
    let Some(text) = text else {
        return Ok(());
    };
    put_key(key, out)?;
    quote(alloc, text.as_slice(), out)
}

/// Appends a number of this key, if there is one.
fn put_number(
    alloc: Global,
    key: Key,
    number: Option<u32>,
    out: &mut Vec<u8>,
) -> Result<(), AllocError>
    ensures { OnOk result (out.new.items ≡ out.old.items ++ number_part key number) }
{
    let Some(number) = number else {
        return Ok(());
    };
    put_key(key, out)?;
    let digits = number.to_string(alloc)?;
    out.extend_from_slice(digits.as_bytes())
}

/// Returns the name of a charset.
fn charset_name(charset: Charset) -> &'static [u8]
    ensures { result.now ≡ charset_name charset }
{
    match charset {
        Charset::Utf8 => b"utf-8",
        Charset::Latin1 => b"latin-1",
    }
}

/// Appends the charset, if one is given.
fn put_charset(charset: Option<Charset>, out: &mut Vec<u8>) -> Result<(), AllocError>
    ensures { OnOk result (out.new.items ≡ out.old.items ++ charset_part charset) }
{
    let Some(charset) = charset else {
        return Ok(());
    };
    put_key(Key::Charset, out)?;
    out.extend_from_slice(charset_name(charset))
}

/// Appends the settings whose values are words.
fn put_words(alloc: Global, settings: &Settings, out: &mut Vec<u8>) -> Result<(), AllocError>
    ensures { OnOk result (out.new.items ≡ out.old.items ++ words_part settings.now) }
{
    put_setting(alloc, Key::Syntax, &settings.syntax, out)?;
    put_setting(alloc, Key::Elements, &settings.elements, out)?;
    put_setting(alloc, Key::Records, &settings.records, out)
}

/// Appends the other settings.
fn put_numbers(alloc: Global, settings: &Settings, out: &mut Vec<u8>) -> Result<(), AllocError>
    ensures { OnOk result (out.new.items ≡ out.old.items ++ numbers_part settings.now) }
{
    put_number(alloc, Key::Step, settings.step, out)?;
    put_number(alloc, Key::Window, settings.window, out)?;
    put_charset(settings.charset, out)?;
    put_number(alloc, Key::Patience, settings.patience, out)?;
    put_number(alloc, Key::Connect, settings.connect, out)
}

/// Appends how a catalogue is asked, as far as it says so.
fn put_terms(alloc: Global, terms: &Terms, out: &mut Vec<u8>) -> Result<(), AllocError>
    ensures { OnOk result (out.new.items ≡ out.old.items ++ terms_part terms.now) }
{
    put_text(alloc, Key::Title, &terms.title, out)?;
    put_text(alloc, Key::Author, &terms.author, out)?;
    put_text(alloc, Key::Subject, &terms.subject, out)?;
    put_text(alloc, Key::Any, &terms.any, out)?;
    put_text(alloc, Key::Isbn, &terms.isbn, out)?;
    put_text(alloc, Key::Issn, &terms.issn, out)?;
    put_text(alloc, Key::Year, &terms.year, out)
}

/// Appends the names of databases.
fn put_databases(alloc: Global, names: &[Bytes], out: &mut Vec<u8>) -> Result<(), AllocError>
    ensures { OnOk result (out.new.items ≡ out.old.items ++ flat_map database_part names.now) }
{
    for name in names {
        out.extend_from_slice(b" ")?;
        quote(alloc, name.as_slice(), out)?;
    }
    Ok(())
}

/// Appends where a catalogue is: the number of its line, its name, its address and its databases.
fn put_place(alloc: Global, catalogue: &Catalogue, out: &mut Vec<u8>) -> Result<(), AllocError>
    ensures { OnOk result (out.new.items ≡ out.old.items ++ place_part catalogue.now) }
{
    let line = catalogue.line.to_string(alloc)?;
    out.extend_from_slice(line.as_bytes())?;
    out.extend_from_slice(b" ")?;
    quote(alloc, catalogue.name.as_slice(), out)?;
    out.extend_from_slice(b" ")?;
    put_word(alloc, catalogue.address.as_slice(), out)?;
    put_databases(alloc, catalogue.databases.as_slice(), out)
}

/// Appends the line of a catalogue.
fn put_catalogue(alloc: Global, catalogue: &Catalogue, out: &mut Vec<u8>) -> Result<(), AllocError>
    ensures { OnOk result (out.new.items ≡ out.old.items ++ catalogue_line catalogue.now) }
{
    put_place(alloc, catalogue, out)?;
    put_words(alloc, &catalogue.settings, out)?;
    put_numbers(alloc, &catalogue.settings, out)?;
    put_terms(alloc, &catalogue.terms, out)?;
    put_text(alloc, Key::Query, &catalogue.query, out)?;
    out.extend_from_slice(b"\n")
}

/// Appends the lines of catalogues, in order.
fn put_catalogues(
    alloc: Global,
    catalogues: &[Catalogue],
    out: &mut Vec<u8>,
) -> Result<(), AllocError>
    ensures { OnOk result (out.new.items ≡ out.old.items ++ catalogue_lines catalogues.now) }
{
    for catalogue in catalogues {
        put_catalogue(alloc, catalogue, out)?;
    }
    Ok(())
}

/// Returns the lines of catalogues, in order. Octets that a terminal would act on stand as `\x` and two digits.
pub(crate) fn catalogue_lines(
    alloc: Global,
    catalogues: &[Catalogue],
) -> Result<Vec<u8>, AllocError>
    ensures { IfOk result (λ text. text.items ≡ catalogue_lines catalogues.now) }
{
    let mut text = Vec::new(alloc);
    put_catalogues(alloc, catalogues, &mut text)?;
    Ok(text)
}
