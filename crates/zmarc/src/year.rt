//! The year of a record.
ghost use Rattle.std.specs.Prelude.{◌≡◌, drop, IfOk};
ghost use Rattle.std.specs.Option.{option_copied};
ghost use Rattle.zmarc.specs.References.{behind_each};
ghost use Rattle.zmarc.specs.Subfields.{first_given};
ghost use Rattle.zmarc.specs.Years.{four_digits, first_year, year_of_field, year_in, coded_year, year};

use crate::format::Format;
use crate::numbers::read_number;
use crate::records::{first_field, gather_tagged_fields};
use crate::subfields::{find_subfield, subfield_in};
use std::alloc::{AllocError, Global};

/// The first four octets, if there are as many and they are digits.
#[tactic(auto, unfolding(crate::specs::Years::four_digits))]
fn cut_four_digits(octets: &[u8]) -> Option<&[u8]>
    ensures { option_copied result ≡ four_digits octets.now }
{
    if octets.len() >= 4 && read_number(&octets[..4]).is_some() {
        Some(&octets[..4])
    } else {
        None
    }
}

/// The first four digits that stand side by side.
#[tactic(auto, unfolding(crate::specs::Years::first_year))]
fn find_first_year(octets: &[u8]) -> Option<&[u8]>
    ensures { option_copied result ≡ first_year octets.now }
{
    for at in 0..octets.len() {
        if let Some(found) = cut_four_digits(&octets[at..]) {
            return Some(found);
        }
    }
    None
}

/// Returns the first four digits side by side in the first subfield of a field that has this code.
fn find_year_of_field(code: u8, field: &[u8]) -> Option<&[u8]>
    ensures { option_copied result ≡ year_of_field code field.now }
{
    match find_subfield(code, field) {
        Some(found) => find_first_year(found),
        None => None,
    }
}

/// Returns the first four digits side by side in the first subfield with this code, of the first of the fields that has
/// some there.
fn find_year_of_fields<'a>(code: u8, fields: &[&'a [u8]]) -> Option<&'a [u8]>
    ensures { option_copied result ≡ first_given (year_of_field code) (behind_each fields.now) }
{
    for field in fields {
        if let Some(found) = find_year_of_field(code, field) {
            return Some(found);
        }
    }
    None
}

/// Returns the first four digits side by side in the first subfield with this code, of the first field with this tag
/// that has some there.
#[tactic(auto, unfolding(crate::specs::Years::year_in))]
fn find_year_in<'a>(
    alloc: Global,
    octets: &'a [u8],
    tag: &[u8],
    code: u8,
) -> Result<Option<&'a [u8]>, AllocError>
    ensures { IfOk result (λ found. option_copied found ≡ year_in tag.now code octets.now) }
{
    let fields = gather_tagged_fields(alloc, octets, tag)?;
    Ok(find_year_of_fields(code, &fields))
}

/// The four octets from a position on, if there are as many and they are digits.
fn cut_digits_at(octets: &[u8], at: usize) -> Option<&[u8]>
    ensures { option_copied result ≡ four_digits (drop at octets.now) }
{
    if at <= octets.len() {
        cut_four_digits(&octets[at..])
    } else {
        None
    }
}

/// The first date of the coded field, if it is four digits (MARC 21: 008, positions 7 to 10; UNIMARC: 100 `$a`,
/// positions 9 to 12).
fn find_coded_year(octets: &[u8], format: Format) -> Option<&[u8]>
    ensures { option_copied result ≡ coded_year format octets.now }
{
    match format {
        Format::Marc21 => match first_field(octets, b"008") {
            Some(field) => cut_digits_at(field, 7),
            None => None,
        },
        Format::Unimarc => match subfield_in(octets, b"100", b'a') {
            Some(field) => cut_digits_at(field, 9),
            None => None,
        },
    }
}

/// Finds the year of a record, in four digits: the first four that stand side by side where the record tells of its
/// publication (MARC 21: 264 `$c`, 260 `$c`, 260 `$g`; UNIMARC: 214 `$d`, 210 `$d`, in this order), else the first date
/// of the coded field, if it is four digits (MARC 21: 008, positions 7 to 10; UNIMARC: 100 `$a`, positions 9 to 12). Of
/// each field that has such a tag the first such subfield is looked at, and the first of them that has four digits side
/// by side gives the year. Returns `None` where the record has neither, and fails only if no memory is found.
///
/// Ask it of a record alone (`is_record`), which is not looked at here: of other octets the time it takes may grow with
/// the square of their number.
#[tactic(auto, unfolding(crate::specs::Years::year))]
pub fn find_year(alloc: Global, octets: &[u8], format: Format) -> Result<Option<&[u8]>, AllocError>
    ensures { IfOk result (λ found. option_copied found ≡ year format octets.now) }
{
    match format {
        Format::Marc21 => {
            if let Some(found) = find_year_in(alloc, octets, b"264", b'c')? {
                return Ok(Some(found));
            }
            if let Some(found) = find_year_in(alloc, octets, b"260", b'c')? {
                return Ok(Some(found));
            }
            if let Some(found) = find_year_in(alloc, octets, b"260", b'g')? {
                return Ok(Some(found));
            }
        }
        Format::Unimarc => {
            if let Some(found) = find_year_in(alloc, octets, b"214", b'd')? {
                return Ok(Some(found));
            }
            if let Some(found) = find_year_in(alloc, octets, b"210", b'd')? {
                return Ok(Some(found));
            }
        }
    }
    Ok(find_coded_year(octets, format))
}
