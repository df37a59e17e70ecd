//! Octets written as hexadecimal digits.
ghost use Rattle.std.specs.Prelude.{◌≡◌, ◌≤◌, ℕ, [], length, IfOk, IfErr, IfSome, IfNone};
ghost use Rattle.zmeta_offline.specs.Digits.{digits, digit_value, IsOctetOf, HasNoSpaceFirst, HasOctetFirst, HasNoOctets, IsDecoded};

use std::alloc::Global;
use zmeta_devices::fault::Fault;

/// The value of each octet as a digit in either case. The value is 16 for ASCII white space, and 17 for any other
/// octet.
static VALUES: [u8; 256] = [
    17, 17, 17, 17, 17, 17, 17, 17, 17, 16, 16, 17, 16, 16, 17, 17, 17, 17, 17, 17, 17, 17, 17, 17,
    17, 17, 17, 17, 17, 17, 17, 17, 16, 17, 17, 17, 17, 17, 17, 17, 17, 17, 17, 17, 17, 17, 17, 17,
    0, 1, 2, 3, 4, 5, 6, 7, 8, 9, 17, 17, 17, 17, 17, 17, 17, 10, 11, 12, 13, 14, 15, 17, 17, 17,
    17, 17, 17, 17, 17, 17, 17, 17, 17, 17, 17, 17, 17, 17, 17, 17, 17, 17, 17, 17, 17, 17, 17, 10,
    11, 12, 13, 14, 15, 17, 17, 17, 17, 17, 17, 17, 17, 17, 17, 17, 17, 17, 17, 17, 17, 17, 17, 17,
    17, 17, 17, 17, 17, 17, 17, 17, 17, 17, 17, 17, 17, 17, 17, 17, 17, 17, 17, 17, 17, 17, 17, 17,
    17, 17, 17, 17, 17, 17, 17, 17, 17, 17, 17, 17, 17, 17, 17, 17, 17, 17, 17, 17, 17, 17, 17, 17,
    17, 17, 17, 17, 17, 17, 17, 17, 17, 17, 17, 17, 17, 17, 17, 17, 17, 17, 17, 17, 17, 17, 17, 17,
    17, 17, 17, 17, 17, 17, 17, 17, 17, 17, 17, 17, 17, 17, 17, 17, 17, 17, 17, 17, 17, 17, 17, 17,
    17, 17, 17, 17, 17, 17, 17, 17, 17, 17, 17, 17, 17, 17, 17, 17, 17, 17, 17, 17, 17, 17, 17, 17,
    17, 17, 17, 17, 17, 17, 17, 17, 17, 17, 17, 17, 17, 17,
];

#[inline]
fn digit_value(octet: u8) -> u8
    ensures { result ≡ digit_value octet }
{
    VALUES[octet as usize]
}

/// Returns the octet that two digits write.
#[inline]
fn octet_of(high: u8, low: u8) -> Option<u8>
    ensures some { IfSome result (λ octet. IsOctetOf high low octet) }
    ensures none { IfNone result ((octet : ℕ) → IsOctetOf high low octet → ⊥) }
{
    let (first, second) = (digit_value(high), digit_value(low));
    if first < 16 && second < 16 {
        Some(first * 16 + second)
    } else {
        None
    }
}

/// Returns the text behind the white space at its front.
fn skip_space(text: &[u8]) -> &[u8]
    ensures same { digits result.now ≡ digits text.now }
    ensures within { length result.now ≤ length text.now }
    ensures front { HasNoSpaceFirst result.now }
{
    let mut rest = text;
    while let [first, behind @ ..] = rest {
        if !first.is_ascii_whitespace() {
            return rest;
        }
        rest = behind;
    }
    rest
}

/// Returns the first octet and the text behind its digits, or `None` if only white space is left.
fn next_apart(text: &[u8]) -> Result<Option<(u8, &[u8])>, Fault<'static>>
    ensures end { IfOk result (λ o. IfNone o (digits text.now ≡ [])) }
    ensures octet { IfOk result (λ o. IfSome o (λ p. HasOctetFirst text.now p.0 p.1.now)) }
    ensures refused { IfErr result (λ f. (f ≡ Fault.Hex) × HasNoOctets text.now) }
{
    let [high, behind @ ..] = skip_space(text) else {
        return Ok(None);
    };
    let [low, rest @ ..] = skip_space(behind) else {
        return Err(Fault::Hex);
    };
    match octet_of(*high, *low) {
        Some(octet) => Ok(Some((octet, rest))),
        None => Err(Fault::Hex),
    }
}

/// As `next_apart`, but first tries two digits side by side, as most are.
#[inline]
fn next_octet(text: &[u8]) -> Result<Option<(u8, &[u8])>, Fault<'static>>
    ensures end { IfOk result (λ o. IfNone o (digits text.now ≡ [])) }
    ensures octet { IfOk result (λ o. IfSome o (λ p. HasOctetFirst text.now p.0 p.1.now)) }
    ensures refused { IfErr result (λ f. (f ≡ Fault.Hex) × HasNoOctets text.now) }
{
    if let [high, low, rest @ ..] = text
        && let Some(octet) = octet_of(*high, *low)
    {
        return Ok(Some((octet, rest)));
    }
    next_apart(text)
}

/// Decodes hexadecimal digits in either case. Ignores ASCII white space everywhere: space, tab, line feed, form
/// feed and carriage return.
///
/// `Hex` if the rest of the text is not an even number of digits. `Memory` if no memory is found.
pub(crate) fn decode(alloc: Global, text: &[u8]) -> Result<Vec<u8>, Fault<'static>>
    ensures { IsDecoded text.now result }
{
    let mut octets = Vec::with_capacity(alloc, text.len() / 2)?;
    let mut rest = text;
    while let Some(next) = next_octet(rest)? {
        octets.push_reserved(next.0);
        rest = next.1;
    }
    Ok(octets)
}
