//! Values of elements as texts.
use std::alloc::{AllocError, Global};
use zber::{Bits, Node, ValueError};
use zber_rows::rows::digits;

// Why there is none.
pub(crate) fn refusal(alloc: Global, error: ValueError) -> Result<String, AllocError> {
    format!(in alloc; "{error:?}")
}

/// The digits of the octet string that an element says, or why it says none.
pub fn string(alloc: Global, node: &Node) -> Result<String, AllocError> {
    match node.as_octets(alloc) {
        Ok(octets) => digits(alloc, octets.as_slice()),
        Err(error) => refusal(alloc, error),
    }
}

/// The first so many bits, as digits; and a plus sign where the one past the end is set.
pub fn bit_digits(alloc: Global, bits: &Bits, count: usize) -> Result<String, AllocError> {
    let mut text = String::new(alloc);
    for i in 0..count {
        if text.push(if bits.bit(i) { '1' } else { '0' }).is_err() {
            return Err(AllocError);
        }
    }
    if count == 0 && text.push('-').is_err() {
        return Err(AllocError);
    }
    if bits.bit(bits.len()) && text.push('+').is_err() {
        return Err(AllocError);
    }
    Ok(text)
}
