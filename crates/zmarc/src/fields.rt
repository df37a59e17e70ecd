//! Fields of a record, each as a text of its own: its year, its title, who made it, its ISBN.
ghost use Rattle.std.specs.Prelude.{◌≡◌, ◌++◌, [], OnOk, OnErr, string_bytes};
ghost use Rattle.std.specs.List.{flat_map};
ghost use Rattle.std.specs.Option.{option_copied};
ghost use Rattle.zmarc.specs.Briefs.{charset, joined};
ghost use Rattle.zmarc.specs.Fields.{is_mark, without_marks, without_end_marks, title_alone_part, title_alone, author};
ghost use Rattle.zmarc.specs.Fields.{shown_of, year_text, title_text, author_text, isbn_text};
ghost use Rattle.zmarc.specs.References.{behind_each};
ghost use Rattle.zmarc.specs.Shown.{IsSafeText};
ghost use Rattle.zmarc.specs.Subfields.{subfields};

use crate::brief::{choose_charset, put_pieces};
use crate::charset::put_text;
use crate::format::{Format, Reading};
use crate::isbn::find_isbn;
use crate::pieces::{find_heading, take_part};
use crate::records::{first_field, is_record};
use crate::subfields::{split_next_part, subfield_in};
use crate::year::find_year;
use std::alloc::{AllocError, Global};

/// Whether an octet is a space, or a mark that ISBD has between the parts of a description.
fn is_mark(octet: u8) -> bool
    ensures { result ≡ is_mark octet }
{
    octet == b' '
        || octet == b'/'
        || octet == b':'
        || octet == b';'
        || octet == b','
        || octet == b'='
}

/// Octets without the spaces and marks at their end.
fn cut_end_marks(octets: &[u8]) -> &[u8]
    ensures { result.now ≡ without_marks octets.now }
{
    let mut len = octets.len();
    while len > 0 {
        if !is_mark(octets[len - 1]) {
            return &octets[..len];
        }
        len -= 1;
    }
    &octets[..len]
}

/// Leaves the spaces and marks at the end of the last piece off, and the pieces at the end that have nothing else.
fn leave_end_marks<'a>(found: &mut Vec<&'a [u8]>) -> Result<(), AllocError>
    ensures { OnOk result (behind_each found.new.items ≡ without_end_marks (behind_each found.old.items)) }
{
    while let Some(last) = found.pop() {
        let kept = cut_end_marks(last);
        if !kept.is_empty() {
            found.push(kept)?;
            return Ok(());
        }
    }
    Ok(())
}

/// Takes what is shown of a subfield of the title; nothing of the statement of responsibility.
fn take_alone_part<'a>(
    format: Format,
    code: u8,
    data: &'a [u8],
    found: &mut Vec<&'a [u8]>,
) -> Result<(), AllocError>
    ensures { OnOk result (behind_each found.new.items
        ≡ behind_each found.old.items ++ title_alone_part format (record { code = code; octets = «data».now })) }
{
    if !format.title_alone_codes().contains(&code) {
        return Ok(());
    }
    take_part(format, code, data, found)
}

/// Takes what is shown of the subfields of the title, in the order of the field.
fn take_alone_parts<'a>(
    format: Format,
    field: &'a [u8],
    found: &mut Vec<&'a [u8]>,
) -> Result<(), AllocError>
    ensures { OnOk result (behind_each found.new.items
        ≡ behind_each found.old.items ++ flat_map (title_alone_part format) (subfields field.now)) }
{
    let mut rest = field;
    while let Some((part, behind)) = split_next_part(rest) {
        if let [code, data @ ..] = part {
            take_alone_part(format, *code, data, found)?;
        }
        rest = behind;
    }
    Ok(())
}

/// Takes what is shown of the title: of the first field that has its tag.
#[tactic(auto, unfolding(crate::specs::Fields::title_alone))]
fn take_title_alone<'a>(
    octets: &'a [u8],
    format: Format,
    found: &mut Vec<&'a [u8]>,
) -> Result<(), AllocError>
    ensures { OnOk result (behind_each found.new.items
        ≡ behind_each found.old.items ++ title_alone format octets.now) }
{
    match first_field(octets, format.title_tag()) {
        Some(field) => take_alone_parts(format, field, found),
        None => Ok(()),
    }
}

/// Who made it: the main heading, else the statement of responsibility.
#[tactic(auto, unfolding(crate::specs::Fields::author))]
fn find_author(octets: &[u8], format: Format) -> Option<&[u8]>
    ensures { option_copied result ≡ author format octets.now }
{
    if let Some(found) = find_heading(octets, format) {
        return Some(found);
    }
    subfield_in(octets, format.title_tag(), format.maker_code())
}

/// Appends pieces as the line of the record shows them. Where no memory is found, the text is as it was.
fn put_joined(
    alloc: Global,
    octets: &[u8],
    reading: Reading,
    pieces: &[&[u8]],
    out: &mut String,
) -> Result<(), AllocError>
    ensures ok { OnOk result (string_bytes out.new
        ≡ string_bytes out.old ++ joined (charset reading octets.now) [] (behind_each pieces.now)) }
    ensures err { OnErr result (string_bytes out.new ≡ string_bytes out.old) }
{
    let mut text = String::new(alloc);
    put_pieces(alloc, choose_charset(octets, reading), pieces, &mut text)?;
    out.push_str(text.as_str())
}

/// Appends octets, where there are any, as the line of the record shows them. Where no memory is found, the text is as
/// it was.
fn put_found(
    alloc: Global,
    octets: &[u8],
    reading: Reading,
    found: Option<&[u8]>,
    out: &mut String,
) -> Result<(), AllocError>
    ensures ok { OnOk result (string_bytes out.new
        ≡ string_bytes out.old ++ shown_of reading octets.now (option_copied found.entry)) }
    ensures err { OnErr result (string_bytes out.new ≡ string_bytes out.old) }
{
    match found {
        Some(piece) => put_text(alloc, choose_charset(octets, reading), piece, out),
        None => Ok(()),
    }
}

/// Appends the year of a record, four digits (`find_year`), to `out`.
///
/// Appends nothing where the record has none, and where the octets are no record (`is_record`). It fails only if no
/// memory is found; then `out` is as it was.
#[tactic(auto, unfolding(crate::specs::Fields::year_text), using(crate::proofs::SafeFields::year_is_safe))]
pub fn put_year(
    alloc: Global,
    octets: &[u8],
    reading: Reading,
    out: &mut String,
) -> Result<(), AllocError>
    ensures ok { OnOk result (string_bytes out.new ≡ string_bytes out.old ++ year_text reading octets.now) }
    ensures err { OnErr result (string_bytes out.new ≡ string_bytes out.old) }
    ensures safe { IsSafeText (year_text reading octets.now) }
{
    if !is_record(octets) {
        return Ok(());
    }
    let found = find_year(alloc, octets, reading.format)?;
    put_found(alloc, octets, reading, found, out)
}

/// Appends the title of a record to `out`, without the statement of responsibility: of the first field 245 (UNIMARC:
/// 200) the subfields `$a`, `$b`, `$n` and `$p` (UNIMARC: `$a` and `$e`), as the line of the record has them
/// (`put_brief`).
///
/// The spaces and the marks `/`, `:`, `;`, `,` and `=` at the end are left off: ISBD has them between the title and
/// what stands behind it. A full stop stays, since it may belong to an abbreviation.
///
/// The text is safe to print on a terminal, whatever the octets are (`put_brief` says what that is, and which set of
/// characters the record is read in). Appends nothing where the record has no title, and where the octets are no record
/// (`is_record`). It fails only if no memory is found; then `out` is as it was.
#[tactic(auto, unfolding(crate::specs::Fields::title_text), using(crate::proofs::SafeFields::title_is_safe))]
pub fn put_title(
    alloc: Global,
    octets: &[u8],
    reading: Reading,
    out: &mut String,
) -> Result<(), AllocError>
    ensures ok { OnOk result (string_bytes out.new ≡ string_bytes out.old ++ title_text reading octets.now) }
    ensures err { OnErr result (string_bytes out.new ≡ string_bytes out.old) }
    ensures safe { IsSafeText (title_text reading octets.now) }
{
    if !is_record(octets) {
        return Ok(());
    }
    let mut pieces = Vec::new(alloc);
    take_title_alone(octets, reading.format, &mut pieces)?;
    leave_end_marks(&mut pieces)?;
    put_joined(alloc, octets, reading, &pieces, out)
}

/// Appends who made what a record describes to `out`: the main heading, which is the first of 100, 110 and 111 `$a`
/// (UNIMARC: 700 and 710 `$a`) that `subfield_in` finds, else the statement of responsibility, 245 `$c` (UNIMARC: 200
/// `$f`). The marks at the end are left off, as those of a title are (`put_title`).
///
/// The text is safe to print on a terminal, as a title is. Appends nothing where the record has neither, and where the
/// octets are no record (`is_record`). It fails only if no memory is found; then `out` is as it was.
#[tactic(auto, unfolding(crate::specs::Fields::author_text), using(crate::proofs::SafeFields::author_is_safe))]
pub fn put_author(
    alloc: Global,
    octets: &[u8],
    reading: Reading,
    out: &mut String,
) -> Result<(), AllocError>
    ensures ok { OnOk result (string_bytes out.new ≡ string_bytes out.old ++ author_text reading octets.now) }
    ensures err { OnErr result (string_bytes out.new ≡ string_bytes out.old) }
    ensures safe { IsSafeText (author_text reading octets.now) }
{
    if !is_record(octets) {
        return Ok(());
    }
    match find_author(octets, reading.format) {
        Some(found) => put_found(alloc, octets, reading, Some(cut_end_marks(found)), out),
        None => Ok(()),
    }
}

/// Appends the number of the ISBN of a record to `out`, without the word: what the line of the record has behind `ISBN`
/// (`put_brief`).
///
/// The text is safe to print on a terminal, as a title is. Appends nothing where the record has none, and where the
/// octets are no record (`is_record`). It fails only if no memory is found; then `out` is as it was.
#[tactic(auto, unfolding(crate::specs::Fields::isbn_text), using(crate::proofs::SafeFields::isbn_is_safe))]
pub fn put_isbn(
    alloc: Global,
    octets: &[u8],
    reading: Reading,
    out: &mut String,
) -> Result<(), AllocError>
    ensures ok { OnOk result (string_bytes out.new ≡ string_bytes out.old ++ isbn_text reading octets.now) }
    ensures err { OnErr result (string_bytes out.new ≡ string_bytes out.old) }
    ensures safe { IsSafeText (isbn_text reading octets.now) }
{
    if !is_record(octets) {
        return Ok(());
    }
    let found = find_isbn(alloc, octets, reading.format)?;
    put_found(alloc, octets, reading, found, out)
}
