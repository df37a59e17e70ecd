//! Tokens of a world file.

ghost use Rattle.std.specs.Prelude.{◌≡◌, ◌++◌, OnOk};
ghost use Rattle.std.specs.Fmt.{decimal};
ghost use Rattle.std.specs.List.{flat_map};
ghost use Rattle.zber.specs.Dotted.{dotted};
ghost use Rattle.zber.specs.Oids.{IsOid};
ghost use Rattle.zquery.specs.Notation.Printing.{escaped, in_quotes};
ghost use Rattle.zmeta_conversions.specs.Worlds.{has_feed, ended, syntax_text, number_text, IsSyntax};

use bytes::Bytes;
use std::alloc::{AllocError, Global};
use zber::Oid;
use zber::text::put_oid;

/// Appends an octet between quotes.
fn put_octet(octet: u8, out: &mut Vec<u8>) -> Result<(), AllocError>
    ensures { OnOk result (out.new.items ≡ out.old.items ++ escaped octet) }
{
    if octet == b'"' || octet == b'\\' {
        out.push(b'\\')?;
    }
    out.push(octet)?;
    Ok(())
}

/// Appends a token in quotes.
pub(crate) fn put_quoted(octets: &[u8], out: &mut Vec<u8>) -> Result<(), AllocError>
    ensures { OnOk result (out.new.items ≡ out.old.items ++ in_quotes octets.now) }
{
    out.push(b'"')?;
    for octet in octets {
        put_octet(*octet, out)?;
    }
    out.push(b'"')?;
    Ok(())
}

/// Appends texts in quotes.
pub(crate) fn put_all_quoted(texts: &[Bytes], out: &mut Vec<u8>) -> Result<(), AllocError>
    ensures { OnOk result (out.new.items ≡ out.old.items ++ flat_map in_quotes texts.now) }
{
    for text in texts {
        put_quoted(text.as_slice(), out)?;
    }
    Ok(())
}

/// Appends a number in decimal.
pub(crate) fn put_count(alloc: Global, number: u64, out: &mut Vec<u8>) -> Result<(), AllocError>
    ensures { OnOk result (out.new.items ≡ out.old.items ++ decimal number) }
{
    let digits = number.to_string(alloc)?;
    out.extend_from_slice(digits.as_bytes())
}

/// Appends the arcs of an object identifier, with dots between them.
fn put_arcs(alloc: Global, oid: &Oid, out: &mut Vec<u8>) -> Result<(), AllocError>
    ensures text { OnOk result (out.new.items ≡ out.old.items ++ dotted oid.now) }
    ensures oid { IsOid oid.now }
{
    let _arcs = oid.arcs();
    put_oid(alloc, oid, out)
}

/// Appends a record syntax with dots, or a hyphen for none.
#[tactic(auto, using(crate::proofs::Reasons::is_syntax, crate::proofs::Reasons::no_syntax))]
pub(crate) fn put_syntax(
    alloc: Global,
    syntax: &Option<Oid>,
    out: &mut Vec<u8>,
) -> Result<(), AllocError>
    ensures text { OnOk result (out.new.items ≡ out.old.items ++ syntax_text syntax.now) }
    ensures oid { IsSyntax syntax.now }
{
    match syntax {
        Some(oid) => put_arcs(alloc, oid, out),
        None => out.extend_from_slice(b"-"),
    }
}

/// Appends the line of a number, with its end.
pub(crate) fn put_number_line(
    alloc: Global,
    word: &[u8],
    number: u32,
    out: &mut Vec<u8>,
) -> Result<(), AllocError>
    ensures { OnOk result (out.new.items ≡ out.old.items ++ ended (number_text word.now number)) }
{
    out.extend_from_slice(word)?;
    out.extend_from_slice(b" ")?;
    put_count(alloc, number as u64, out)?;
    out.extend_from_slice(b"\n")
}

/// Returns whether a line feed is among the octets.
pub(crate) fn has_feed(octets: &[u8]) -> bool
    ensures { result ≡ has_feed octets.now }
{
    octets.iter().any(|octet| *octet == b'\n')
}
