//! Canonical encodings.
ghost use Rattle.std.specs.Prelude.{◌≡◌, IfOk};
ghost use Rattle.zknow.specs.Encodings.{encoding};

use std::alloc::{AllocError, Global};
use zasn::{BuildError, Tagged};

/// Returns the canonical encoding of the value's element, empty if it has none. Returns `AllocError` if no memory is
/// found.
pub(crate) fn encode<T: Tagged>(alloc: Global, value: &T) -> Result<Vec<u8>, AllocError>
    ensures { IfOk result (λ octets. octets.items ≡ encoding T.place value.now) }
{
    let mut octets = Vec::new(alloc);
    match value.to_element(alloc) {
        Ok(element) => {
            element.canonical(alloc, &mut octets)?;
            Ok(octets)
        }
        Err(BuildError::NotSpellable) => Ok(octets),
        Err(BuildError::Memory) => Err(AllocError),
    }
}
