//! The line that is shown of a record.
ghost use Rattle.std.specs.Prelude.{◌≡◌, ◌++◌, OnOk, OnErr, IfOk, string_bytes};
ghost use Rattle.std.specs.Option.{option_copied};
ghost use Rattle.zmarc.specs.Charsets.{text};
ghost use Rattle.zmarc.specs.Records.{is_record};
ghost use Rattle.zmarc.specs.Shown.{IsSafeText};
ghost use Rattle.zmarc.specs.References.{behind_each};
ghost use Rattle.zmarc.specs.Briefs.{names_utf8, declares_utf8, own_charset, charset, with_piece, joined, brief};

use crate::charset::{Charset, is_utf8_beyond_ascii, put_text};
use crate::format::{Format, Reading};
use crate::pieces::gather_pieces;
use crate::records::{cut_own_octets, is_record};
use crate::subfields::subfield_in;
use std::alloc::{AllocError, Global};

/// Whether positions 26 and 27 of the coded data of UNIMARC are `50`, UTF-8; not where there are no data.
fn names_utf8(coded: Option<&[u8]>) -> bool
    ensures { result ≡ names_utf8 (option_copied coded.entry) }
{
    match coded {
        Some(field) => field.len() >= 28 && &field[26..28] == b"50".as_slice(),
        None => false,
    }
}

/// Whether the record says that it is in UTF-8: in MARC 21 by an `a` at position 9 of the leader, in UNIMARC by the
/// data of 100 `$a`.
fn declares_utf8(octets: &[u8], format: Format) -> bool
    ensures { result ≡ declares_utf8 format octets.now }
{
    match format {
        Format::Marc21 => octets.len() >= 10 && octets[9] == b'a',
        Format::Unimarc => names_utf8(subfield_in(octets, b"100", b'a')),
    }
}

/// The character set that a record is read in by itself: UTF-8 where it says so, and where its own octets
/// (`cut_own_octets`) are UTF-8 as a whole, with octets beyond ASCII; else that of its format.
fn find_charset(octets: &[u8], format: Format) -> Charset
    ensures { result ≡ own_charset format octets.now }
{
    if declares_utf8(octets, format) || is_utf8_beyond_ascii(cut_own_octets(octets)) {
        Charset::Utf8
    } else {
        format.other_charset()
    }
}

/// The character set that a record is read in: the one that is known from elsewhere, else its own.
pub(crate) fn choose_charset(octets: &[u8], reading: Reading) -> Charset
    ensures { result ≡ charset reading octets.now }
{
    match reading.charset {
        Some(known) => known,
        None => find_charset(octets, reading.format),
    }
}

/// Appends a piece as it is shown, with a space before it where the line has anything.
fn put_piece(
    alloc: Global,
    charset: Charset,
    piece: &[u8],
    line: &mut String,
) -> Result<(), AllocError>
    ensures { OnOk result (string_bytes line.new ≡ with_piece (string_bytes line.old) (text charset piece.now)) }
{
    if !line.is_empty() {
        line.push(' ')?;
    }
    put_text(alloc, charset, piece, line)
}

/// Appends pieces as they are shown, each with a space before it where the line has anything by then.
pub(crate) fn put_pieces(
    alloc: Global,
    charset: Charset,
    pieces: &[&[u8]],
    line: &mut String,
) -> Result<(), AllocError>
    ensures { OnOk result (string_bytes line.new
        ≡ joined charset (string_bytes line.old) (behind_each pieces.now)) }
{
    for piece in pieces {
        put_piece(alloc, charset, piece, line)?;
    }
    Ok(())
}

/// Appends the line that is shown of a record to `out`, and tells whether the octets are a record.
///
/// The line has these pieces, in this order, as far as the record has them. Each stands behind a space, unless the line
/// is empty so far. The year is asked for by `find_year`.
///
/// - The title: of the first field 245 (UNIMARC: 200) the subfields `$a`, `$b`, `$n`, `$p` and `$c` (UNIMARC: `$a`,
///   `$e`, `$f` and `$g`) that are not empty, in the order of the field. In UNIMARC `:`, `/` or `;` stands before `$e`,
///   `$f` or `$g`.
/// - Where that field is missing, or its first `$c` (UNIMARC: `$f`) is missing or empty: a slash and the main heading,
///   which is the first of 100, 110 and 111 `$a` (UNIMARC: 700 and 710 `$a`) that `subfield_in` finds.
/// - `ISBN` and a number: what stands before the first space of a `$a` of 020 (UNIMARC: 010), if a digit is in it. Of
///   each such field the first `$a` is looked at, and the first of them that has a number gives it.
///
/// The octets are read in the set of characters that `reading` has. If it has none, they are read as UTF-8 where the
/// record says that it is in UTF-8 (MARC 21: `a` at position 9 of the leader; UNIMARC: `50` at positions 26 and 27 of
/// 100 `$a`), and where the octets of the record are UTF-8 as a whole, with octets above 7F. Else they are read as
/// MARC-8 (UNIMARC: ASCII; see `Charset`). The octets of the record are as many as positions 0 to 4 of its leader tell;
/// where these are no five digits, or tell less than 24 or more than `octets` has, they are all of `octets`.
///
/// The line is UTF-8 and safe to print on a terminal, whatever the octets are: it has no control character (C0, delete,
/// C1), and so no line feed, no separator of lines or paragraphs (U+2028, U+2029), no character that turns the
/// direction of text (U+061C, U+200E, U+200F, U+202A to U+202E, U+2066 to U+2069), and neither U+200B nor U+FEFF. Each
/// of these is shown as U+FFFD; but a tab, a line feed and a carriage return are shown as a space, and U+0098 and
/// U+009C, the marks round what is left out in sorting, are not shown at all. Before that the characters of each piece
/// are composed as in NFC.
///
/// `octets` is one record of ISO 2709, and the format of `reading` says which tags and codes it has. What stands behind
/// a record changes nothing of its line where the record is written as ISO 2709 has it, its leader tells its length,
/// and all octets are fewer than 2^32 (`laws::behind_laws`).
///
/// Returns `false`, and appends nothing, where the octets are no record (`is_record`). Returns `true` and
/// may append nothing where the record has nothing to be shown. It fails only if no memory is found; then `out` is as
/// it was.
#[tactic(auto, unfolding(crate::specs::Briefs::brief), using(crate::proofs::SafeTheory::brief_is_safe))]
pub fn put_brief(
    alloc: Global,
    octets: &[u8],
    reading: Reading,
    out: &mut String,
) -> Result<bool, AllocError>
    ensures ok { OnOk result (string_bytes out.new ≡ string_bytes out.old ++ brief reading octets.now) }
    ensures read { IfOk result (λ read. read ≡ is_record octets.now) }
    ensures err { OnErr result (string_bytes out.new ≡ string_bytes out.old) }
    ensures safe { IsSafeText (brief reading octets.now) }
{
    if !is_record(octets) {
        return Ok(false);
    }
    let pieces = gather_pieces(alloc, octets, reading.format)?;
    let mut line = String::new(alloc);
    put_pieces(alloc, choose_charset(octets, reading), &pieces, &mut line)?;
    out.push_str(line.as_str())?;
    Ok(true)
}
