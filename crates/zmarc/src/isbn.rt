//! The ISBN of a record.
ghost use Rattle.std.specs.Prelude.{◌≡◌, ◌==◌, ◌++◌, OnOk, IfOk};
ghost use Rattle.std.specs.Char.{is_ascii_digit};
ghost use Rattle.std.specs.List.{before_first, list_any};
ghost use Rattle.std.specs.Option.{option_copied};
ghost use Rattle.zmarc.specs.Isbns.{leading_number, isbn_of_field, isbn_number, isbn};
ghost use Rattle.zmarc.specs.References.{behind_each};
ghost use Rattle.zmarc.specs.Subfields.{first_given};

use crate::format::Format;
use crate::records::gather_tagged_fields;
use crate::subfields::find_subfield;
use std::alloc::{AllocError, Global};

/// What stands before the first space; all octets where there is none.
fn cut_before_space(octets: &[u8]) -> &[u8]
    ensures { result.now ≡ before_first (λ x. x == 0x20) octets.now }
{
    match octets.iter().position(|octet| *octet == b' ') {
        Some(at) => &octets[..at],
        None => octets,
    }
}

/// Whether there is a digit among the octets.
fn has_digit(octets: &[u8]) -> bool
    ensures { result ≡ list_any is_ascii_digit octets.now }
{
    octets.iter().any(|octet| octet.is_ascii_digit())
}

/// What stands before the first space, if there is a digit in it.
#[tactic(auto, unfolding(crate::specs::Isbns::leading_number))]
fn cut_leading_number(octets: &[u8]) -> Option<&[u8]>
    ensures { option_copied result ≡ leading_number octets.now }
{
    let word = cut_before_space(octets);
    if has_digit(word) { Some(word) } else { None }
}

/// That of the first `$a` of a field.
fn find_isbn_of_field(field: &[u8]) -> Option<&[u8]>
    ensures { option_copied result ≡ isbn_of_field field.now }
{
    match find_subfield(b'a', field) {
        Some(found) => cut_leading_number(found),
        None => None,
    }
}

/// That of the first field that has one.
fn find_isbn_of_fields<'a>(fields: &[&'a [u8]]) -> Option<&'a [u8]>
    ensures { option_copied result ≡ first_given isbn_of_field (behind_each fields.now) }
{
    for field in fields {
        if let Some(found) = find_isbn_of_field(field) {
            return Some(found);
        }
    }
    None
}

/// The number of the first field, of all that have the tag, whose first `$a` begins with one: with a word that has a
/// digit.
#[tactic(auto, unfolding(crate::specs::Isbns::isbn_number))]
pub(crate) fn find_isbn(
    alloc: Global,
    octets: &[u8],
    format: Format,
) -> Result<Option<&[u8]>, AllocError>
    ensures { IfOk result (λ found. option_copied found ≡ isbn_number format octets.now) }
{
    let fields = gather_tagged_fields(alloc, octets, format.isbn_tag())?;
    Ok(find_isbn_of_fields(&fields))
}

/// Takes the word `ISBN` and the number, where the record has one.
#[tactic(auto, unfolding(crate::specs::Isbns::isbn))]
pub(crate) fn take_isbn<'a>(
    alloc: Global,
    octets: &'a [u8],
    format: Format,
    found: &mut Vec<&'a [u8]>,
) -> Result<(), AllocError>
    ensures { OnOk result (behind_each found.new.items ≡ behind_each found.old.items ++ isbn format octets.now) }
{
    if let Some(number) = find_isbn(alloc, octets, format)? {
        found.push(b"ISBN")?;
        found.push(number)?;
    }
    Ok(())
}
