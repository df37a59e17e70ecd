//! Prints the fields of an APDU's line.
ghost use Rattle.std.specs.Prelude.{◌≡◌, ◌++◌, OnOk};
ghost use Rattle.zapdu_lines.specs.Fields.{reference_text, numbers_text, number_text, bits_text, truth_text, name_field, start_text};

use bytes::Bytes;
use std::alloc::{AllocError, Global};
use zapdu::{Kind, put_hex, quote};
use zber::Bits;
use zber::text::put_number;

/// Appends the kind's name, a space and the reference id.
#[tactic(auto, unfolding(crate::specs::Fields::start_text))]
pub(crate) fn put_start(
    alloc: Global,
    kind: Kind,
    reference: &Option<Bytes>,
    text: &mut Vec<u8>,
) -> Result<(), AllocError>
    ensures { OnOk result (text.new.items ≡ text.old.items ++ start_text kind reference.now) }
{
    text.extend_from_slice(kind.name().as_bytes())?;
    text.extend_from_slice(b" ")?;
    put_reference(alloc, reference, text)
}

/// Appends a space and the bits as digits.
pub(crate) fn put_bits(bits: &Bits, text: &mut Vec<u8>) -> Result<(), AllocError>
    ensures { OnOk result (text.new.items ≡ text.old.items ++ bits_text bits.now) }
{
    text.extend_from_slice(b" ")?;
    for bit in bits.as_slice() {
        text.push(if *bit { b'1' } else { b'0' })?;
    }
    Ok(())
}

/// Appends a space and `true` or `false`.
pub(crate) fn put_truth(value: bool, text: &mut Vec<u8>) -> Result<(), AllocError>
    ensures { OnOk result (text.new.items ≡ text.old.items ++ truth_text value) }
{
    if value {
        text.extend_from_slice(b" true")
    } else {
        text.extend_from_slice(b" false")
    }
}

/// Appends a space and the name in quotes, or a dash if there is none.
pub(crate) fn put_name(
    alloc: Global,
    name: &Option<Bytes>,
    text: &mut Vec<u8>,
) -> Result<(), AllocError>
    ensures { OnOk result (text.new.items ≡ text.old.items ++ name_field name.now) }
{
    text.extend_from_slice(b" ")?;
    match name {
        None => text.extend_from_slice(b"-"),
        Some(octets) => quote(alloc, octets.as_slice(), text),
    }
}

/// Appends the reference id in hexadecimal, or a dash if there is none.
pub(crate) fn put_reference(
    alloc: Global,
    reference: &Option<Bytes>,
    text: &mut Vec<u8>,
) -> Result<(), AllocError>
    ensures { OnOk result (text.new.items ≡ text.old.items ++ reference_text reference.now) }
{
    match reference {
        None => text.extend_from_slice(b"-"),
        Some(octets) => put_hex(alloc, octets.as_slice(), text),
    }
}

/// Appends the numbers, each behind a space.
pub(crate) fn put_numbers(
    alloc: Global,
    numbers: &[i64],
    text: &mut Vec<u8>,
) -> Result<(), AllocError>
    ensures { OnOk result (text.new.items ≡ text.old.items ++ numbers_text numbers.now) }
{
    for number in numbers {
        put_field(alloc, *number, text)?;
    }
    Ok(())
}

/// Appends a space and the number.
fn put_field(alloc: Global, number: i64, text: &mut Vec<u8>) -> Result<(), AllocError>
    ensures { OnOk result (text.new.items ≡ text.old.items ++ number_text number) }
{
    text.push(b' ')?;
    put_number(alloc, number, text)
}
