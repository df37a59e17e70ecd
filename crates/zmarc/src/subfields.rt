//! Subfields: a delimiter, a code of one octet, and data (ISO 2709 with the identifier length 2).
ghost use Rattle.std.specs.Prelude.{◌≡◌, ◌<◌, ◌∷◌, [], length, MatchOption};
ghost use Rattle.std.specs.Option.{option_copied};
ghost use Rattle.zmarc.specs.Lines.{indicators};
ghost use Rattle.zmarc.specs.Subfields.{parts, first_subfield, subfield_in};

use crate::records::first_field;

/// What stands before the code of a subfield.
const DELIMITER: u8 = 0x1F;

/// What stands before the first delimiter, the indicators; all octets where there is none.
pub(crate) fn cut_indicators(field: &[u8]) -> &[u8]
    ensures { result.now ≡ indicators field.now }
{
    match field.iter().position(|octet| *octet == DELIMITER) {
        Some(at) => &field[..at],
        None => field,
    }
}

/// What stands behind the first delimiter, up to the next, and what stands from that next one on; nothing where there
/// is no delimiter.
pub(crate) fn split_next_part(field: &[u8]) -> Option<(&[u8], &[u8])>
    ensures { MatchOption result (parts field.now ≡ [])
        (λ r. (parts field.now ≡ r.0.now ∷ parts r.1.now) × (length r.1.now < length field.now)) }
{
    let at = field.iter().position(|octet| *octet == DELIMITER)?;
    let behind = &field[at + 1..];
    match behind.iter().position(|octet| *octet == DELIMITER) {
        Some(end) => Some(behind.split_at(end)),
        None => Some((behind, &[])),
    }
}

/// The data of the first subfield that has this code.
#[tactic(auto, unfolding(crate::specs::Subfields::first_subfield))]
pub(crate) fn find_subfield(code: u8, field: &[u8]) -> Option<&[u8]>
    ensures { option_copied result ≡ first_subfield code field.now }
{
    let mut rest = field;
    while let Some((part, behind)) = split_next_part(rest) {
        if let [first, found @ ..] = part
            && *first == code
        {
            return Some(found);
        }
        rest = behind;
    }
    None
}

/// Finds the data of the first subfield that has this code, in the first field that has this tag (`first_field`). The
/// data are the record's own octets, without the delimiter and the code: nothing is copied, and nothing makes them safe
/// to print.
///
/// Returns `None` where there is no such field, where that field has no such subfield, and where the data of the
/// first such subfield are empty.
#[tactic(auto, unfolding(crate::specs::Subfields::subfield_in))]
pub fn subfield_in<'a>(octets: &'a [u8], tag: &[u8], code: u8) -> Option<&'a [u8]>
    ensures { option_copied result ≡ subfield_in tag.now code octets.now }
{
    let field = first_field(octets, tag)?;
    let found = find_subfield(code, field)?;
    if found.is_empty() { None } else { Some(found) }
}
