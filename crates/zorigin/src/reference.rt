//! Reference ids.
ghost use Rattle.std.specs.Prelude.{◌≡◌, IfOk};
ghost use Rattle.zorigin.specs.References.{reference_id, operation_number};

use bytes::Bytes;
use std::alloc::{AllocError, Global};

/// Returns the reference id of an operation: its number in four octets, the most significant first. Returns
/// `AllocError` if no memory is found.
pub(crate) fn reference_id(alloc: Global, op: u32) -> Result<Bytes, AllocError>
    ensures { IfOk result (λ id. id ≡ reference_id op) }
{
    let octets = [
        (op / 16_777_216) as u8,
        (op / 65_536 % 256) as u8,
        (op / 256 % 256) as u8,
        (op % 256) as u8,
    ];
    Bytes::copy_from_slice(alloc, &octets)
}

/// The number in a reference id, or `None` if it does not have four octets.
pub(crate) fn operation_number(id: &Bytes) -> Option<u32>
    ensures { result ≡ operation_number id.now }
{
    match id.as_slice() {
        [a, b, c, d] => Some(
            16_777_216 * u32::from(*a)
                + 65_536 * u32::from(*b)
                + 256 * u32::from(*c)
                + u32::from(*d),
        ),
        _ => None,
    }
}
