//! The terms of a search in the prefix notation.

ghost use Rattle.std.specs.Prelude.{◌≡◌, ◌<◌, ◌++◌, length, IfOk, OnOk};
ghost use Rattle.std.specs.List.{flat_map, list_any};
ghost use Rattle.std.specs.Option.{option_map};
ghost use Rattle.zmeta_searches.specs.Terms.{asked_octets, terms_shown, asked, listed};
ghost use Rattle.zmeta_searches.specs.Texts.{attr_text, escaped, isbn_octet, isbn_text, term_text, ands, has_blank, joined_terms, terms_text, terms_query};

use crate::terms::{Access, SearchTerm, is_blank, more_of, uncut, use_of};
use std::alloc::{AllocError, Global};
use zber::text::put_number;

/// Appends an attribute, and a space.
fn put_attr(alloc: Global, kind: u32, value: u32, text: &mut Vec<u8>) -> Result<(), AllocError>
    ensures { OnOk result (text.new.items ≡ text.old.items ++ attr_text (kind, value)) }
{
    text.extend_from_slice(b"@attr ")?;
    put_number(alloc, kind as i64, text)?;
    text.extend_from_slice(b"=")?;
    put_number(alloc, value as i64, text)?;
    text.extend_from_slice(b" ")
}

/// Appends an attribute, if there is one.
fn put_more(
    alloc: Global,
    attribute: Option<(u32, u32)>,
    text: &mut Vec<u8>,
) -> Result<(), AllocError>
    ensures { OnOk result (text.new.items ≡ text.old.items ++ flat_map attr_text (listed attribute)) }
{
    match attribute {
        Some((kind, value)) => put_attr(alloc, kind, value, text),
        None => Ok(()),
    }
}

/// Appends an octet between quotes.
fn put_octet(octet: u8, text: &mut Vec<u8>) -> Result<(), AllocError>
    ensures { OnOk result (text.new.items ≡ text.old.items ++ escaped octet) }
{
    if octet == b'"' || octet == b'\\' {
        text.push(b'\\')?;
    }
    text.push(octet)?;
    Ok(())
}

/// Appends octets between quotes.
fn put_octets(octets: &[u8], text: &mut Vec<u8>) -> Result<(), AllocError>
    ensures { OnOk result (text.new.items ≡ text.old.items ++ flat_map escaped octets.now) }
{
    for octet in octets {
        put_octet(*octet, text)?;
    }
    Ok(())
}

/// Appends an octet of an ISBN between quotes: a hyphen adds none.
fn put_isbn_octet(octet: u8, text: &mut Vec<u8>) -> Result<(), AllocError>
    ensures { OnOk result (text.new.items ≡ text.old.items ++ isbn_octet octet) }
{
    if octet == b'-' {
        return Ok(());
    }
    put_octet(octet, text)
}

/// Appends the octets of an ISBN between quotes, without its hyphens.
fn put_isbn(octets: &[u8], text: &mut Vec<u8>) -> Result<(), AllocError>
    ensures { OnOk result (text.new.items ≡ text.old.items ++ isbn_text octets.now) }
{
    for octet in octets {
        put_isbn_octet(*octet, text)?;
    }
    Ok(())
}

/// Appends the octets that a term asks for, between quotes.
#[tactic(auto, using(crate::proofs::Isbns::isbn_text_of))]
fn put_asked(term: SearchTerm<'_>, text: &mut Vec<u8>) -> Result<(), AllocError>
    ensures { OnOk result (text.new.items
        ≡ text.old.items ++ flat_map escaped (asked_octets term.entry.access term.entry.text.now)) }
{
    let octets = term.text.as_bytes();
    if term.access == Access::Isbn {
        return put_isbn(octets, text);
    }
    put_octets(uncut(term.access, octets), text)
}

/// Appends a term with its attributes, and a space.
fn put_term(alloc: Global, term: SearchTerm<'_>, text: &mut Vec<u8>) -> Result<(), AllocError>
    ensures { OnOk result (text.new.items
        ≡ text.old.items ++ term_text (asked term.entry.access term.entry.text.now)) }
{
    put_attr(alloc, 1, use_of(term.access), text)?;
    put_more(alloc, more_of(term.access, term.text.as_bytes()), text)?;
    text.extend_from_slice(b"\"")?;
    put_asked(term, text)?;
    text.extend_from_slice(b"\" ")
}

/// Appends this many operators.
fn put_ands(n: usize, text: &mut Vec<u8>) -> Result<(), AllocError>
    ensures { OnOk result (text.new.items ≡ text.old.items ++ ands n) }
{
    for _ in 0..n {
        text.extend_from_slice(b"@and ")?;
    }
    Ok(())
}

/// Appends all terms.
fn put_all(alloc: Global, terms: &[SearchTerm<'_>], text: &mut Vec<u8>) -> Result<(), AllocError>
    ensures { OnOk result (text.new.items ≡ text.old.items ++ flat_map term_text (terms_shown terms.now)) }
{
    for term in terms {
        put_term(alloc, *term, text)?;
    }
    Ok(())
}

/// Returns whether nothing is left of one of the terms.
fn has_blank(terms: &[SearchTerm<'_>]) -> bool
    ensures { result ≡ has_blank terms.now }
{
    terms.iter().any(|term| is_blank(*term))
}

/// Returns the terms joined by `@and`.
fn joined_text(alloc: Global, terms: &[SearchTerm<'_>]) -> Result<Vec<u8>, AllocError>
    requires { 0 < length terms.now }
    ensures { IfOk result (λ text. text.items ≡ joined_terms (terms_shown terms.now)) }
{
    let mut text = Vec::new(alloc);
    put_ands(terms.len() - 1, &mut text)?;
    put_all(alloc, terms, &mut text)?;
    Ok(text)
}

/// Returns the terms joined: where nothing is left of one of them, the empty text, which is no query.
#[tactic(auto, unfolding(crate::specs::Texts::terms_text), using(crate::proofs::Blanks::any_blank_shown))]
fn terms_text(alloc: Global, terms: &[SearchTerm<'_>]) -> Result<Vec<u8>, AllocError>
    requires { 0 < length terms.now }
    ensures { IfOk result (λ text. text.items ≡ terms_text (terms_shown terms.now)) }
{
    if has_blank(terms) {
        return Ok(Vec::new(alloc));
    }
    joined_text(alloc, terms)
}

/// Returns the query that the terms make, if there are any.
pub(crate) fn terms_query(
    alloc: Global,
    terms: &[SearchTerm<'_>],
) -> Result<Option<Vec<u8>>, AllocError>
    ensures { IfOk result (λ text. option_map (λ text. text.items) text ≡ terms_query (terms_shown terms.now)) }
{
    if terms.is_empty() {
        return Ok(None);
    }
    let text = terms_text(alloc, terms)?;
    Ok(Some(text))
}
