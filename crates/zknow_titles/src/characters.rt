//! The characters of a text.
ghost use Rattle.std.specs.Prelude.{◌≡◌, ◌++◌, OnOk, IfOk, string_bytes};
ghost use Rattle.std.specs.Str.{chars, encode_utf8_all};

use std::alloc::{AllocError, Global};

/// Returns the characters of a text.
pub(crate) fn read_chars(alloc: Global, text: &str) -> Result<Vec<char>, AllocError>
    ensures { IfOk result (λ read. read.items ≡ chars text.now) }
{
    let mut read = Vec::new(alloc);
    for c in text.chars() {
        read.push(c)?;
    }
    Ok(read)
}

/// Appends characters.
pub(crate) fn put_chars(read: &[char], line: &mut String) -> Result<(), AllocError>
    ensures { OnOk result (string_bytes line.new ≡ string_bytes line.old ++ encode_utf8_all read.now) }
{
    for c in read {
        line.push(*c)?;
    }
    Ok(())
}
