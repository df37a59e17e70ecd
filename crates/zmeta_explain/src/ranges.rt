//! What is wrong with wanted positions, in words.
ghost use Rattle.std.specs.Prelude.{◌≡◌};
ghost use Rattle.std.specs.List.{list_all};
ghost use Rattle.zmeta_explain.specs.Ranges.{first_number, last_number, is_above, is_zero, is_down, has_zero, is_want_octet, is_no_want, want_advice};

use crate::places::{before_hyphen, behind, from_hyphen};
use zquery::number;

/// The highest position that a request can name.
const HIGHEST: u64 = 2_147_483_647;

/// Returns the number in front of the first hyphen.
fn first_number(text: &[u8]) -> Option<u64>
    ensures { result ≡ first_number text.now }
{
    number(before_hyphen(text), HIGHEST)
}

/// Returns the number behind the first hyphen.
fn last_number(text: &[u8]) -> Option<u64>
    ensures { result ≡ last_number text.now }
{
    number(behind(from_hyphen(text), 1), HIGHEST)
}

fn is_above(first: Option<u64>, last: Option<u64>) -> bool
    ensures { result ≡ is_above first last }
{
    match first {
        Some(high) => match last {
            Some(low) => low < high,
            None => false,
        },
        None => false,
    }
}

fn is_zero(number: Option<u64>) -> bool
    ensures { result ≡ is_zero number }
{
    match number {
        Some(n) => n == 0,
        None => false,
    }
}

/// Tells whether a text is a range that counts down.
fn is_down(text: &[u8]) -> bool
    ensures { result ≡ is_down text.now }
{
    is_above(first_number(text), last_number(text))
}

/// Tells whether a text is a range from 0 on.
fn has_zero(text: &[u8]) -> bool
    ensures { result ≡ has_zero text.now }
{
    is_zero(first_number(text)) && last_number(text).is_some()
}

fn is_want_octet(octet: u8) -> bool
    ensures { result ≡ is_want_octet octet }
{
    octet.is_ascii_digit() || octet == b'-' || octet == b','
}

fn are_want_octets(text: &[u8]) -> bool
    ensures { result ≡ list_all is_want_octet text.now }
{
    text.iter().all(|octet| is_want_octet(*octet))
}

/// Tells whether a text cannot be wanted positions: it has other octets, or is a range that counts down or from 0 on.
pub(crate) fn is_no_want(text: &[u8]) -> bool
    ensures { result ≡ is_no_want text.now }
{
    !are_want_octets(text) || is_down(text) || has_zero(text)
}

/// Returns what to write in place of a text that names no positions.
pub(crate) fn want_advice(text: &[u8]) -> &'static str
    ensures { result.now ≡ want_advice text.now }
{
    if is_down(text) {
        "write the lower number of a range first"
    } else if has_zero(text) {
        "count them from 1"
    } else {
        "write a number, or ranges that ascend"
    }
}
