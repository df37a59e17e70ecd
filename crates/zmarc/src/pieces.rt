//! What is shown of a record: its own octets, with marks and words between them.
ghost use Rattle.std.specs.Prelude.{◌≡◌, ◌++◌, OnOk, IfOk};
ghost use Rattle.std.specs.List.{flat_map};
ghost use Rattle.std.specs.Option.{option_copied};
ghost use Rattle.zmarc.specs.References.{behind_each};
ghost use Rattle.zmarc.specs.Subfields.{subfields};
ghost use Rattle.zmarc.specs.Briefs.{title_part, title, heading, maker, pieces};

use crate::format::Format;
use crate::isbn::take_isbn;
use crate::records::first_field;
use crate::subfields::{split_next_part, subfield_in};
use std::alloc::{AllocError, Global};

/// Takes what is shown of a subfield of the title: the mark of ISBD that stands before it, and its data. It takes
/// nothing where they are empty, and of a subfield that is not shown.
pub(crate) fn take_part<'a>(
    format: Format,
    code: u8,
    data: &'a [u8],
    found: &mut Vec<&'a [u8]>,
) -> Result<(), AllocError>
    ensures { OnOk result (behind_each found.new.items
        ≡ behind_each found.old.items ++ title_part format (record { code = code; octets = «data».now })) }
{
    if !format.title_codes().contains(&code) || data.is_empty() {
        return Ok(());
    }
    if let Some(mark) = format.mark_before(code) {
        found.push(mark)?;
    }
    found.push(data)?;
    Ok(())
}

/// Takes what is shown of the subfields of the title, in the order of the field.
fn take_parts<'a>(
    format: Format,
    field: &'a [u8],
    found: &mut Vec<&'a [u8]>,
) -> Result<(), AllocError>
    ensures { OnOk result (behind_each found.new.items
        ≡ behind_each found.old.items ++ flat_map (title_part format) (subfields field.now)) }
{
    let mut rest = field;
    while let Some((part, behind)) = split_next_part(rest) {
        if let [code, data @ ..] = part {
            take_part(format, *code, data, found)?;
        }
        rest = behind;
    }
    Ok(())
}

/// Takes what is shown of the title: of the first field that has its tag.
#[tactic(auto, unfolding(crate::specs::Briefs::title))]
fn take_title<'a>(
    octets: &'a [u8],
    format: Format,
    found: &mut Vec<&'a [u8]>,
) -> Result<(), AllocError>
    ensures { OnOk result (behind_each found.new.items ≡ behind_each found.old.items ++ title format octets.now) }
{
    match first_field(octets, format.title_tag()) {
        Some(field) => take_parts(format, field, found),
        None => Ok(()),
    }
}

/// The main heading: the first that the record has of those that its format may have.
#[tactic(auto, unfolding(crate::specs::Briefs::heading))]
pub(crate) fn find_heading(octets: &[u8], format: Format) -> Option<&[u8]>
    ensures { option_copied result ≡ heading format octets.now }
{
    match format {
        Format::Marc21 => {
            if let Some(found) = subfield_in(octets, b"100", b'a') {
                return Some(found);
            }
            if let Some(found) = subfield_in(octets, b"110", b'a') {
                return Some(found);
            }
            subfield_in(octets, b"111", b'a')
        }
        Format::Unimarc => {
            if let Some(found) = subfield_in(octets, b"700", b'a') {
                return Some(found);
            }
            subfield_in(octets, b"710", b'a')
        }
    }
}

/// Takes a slash and the main heading, where the record has one, and the title does not say who made it.
#[tactic(auto, unfolding(crate::specs::Briefs::maker))]
fn take_maker<'a>(
    octets: &'a [u8],
    format: Format,
    found: &mut Vec<&'a [u8]>,
) -> Result<(), AllocError>
    ensures { OnOk result (behind_each found.new.items ≡ behind_each found.old.items ++ maker format octets.now) }
{
    if subfield_in(octets, format.title_tag(), format.maker_code()).is_some() {
        return Ok(());
    }
    if let Some(name) = find_heading(octets, format) {
        found.push(b"/")?;
        found.push(name)?;
    }
    Ok(())
}

/// What is shown of a record: its title, who made it, and its ISBN.
#[tactic(auto, unfolding(crate::specs::Briefs::pieces))]
pub(crate) fn gather_pieces(
    alloc: Global,
    octets: &[u8],
    format: Format,
) -> Result<Vec<&[u8]>, AllocError>
    ensures { IfOk result (λ found. behind_each found.items ≡ pieces format octets.now) }
{
    let mut found = Vec::new(alloc);
    take_title(octets, format, &mut found)?;
    take_maker(octets, format, &mut found)?;
    take_isbn(alloc, octets, format, &mut found)?;
    Ok(found)
}
