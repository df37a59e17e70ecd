//! Printed texts of numbers and object identifiers, and the modes of printing octets.
ghost use Rattle.std.specs.Prelude.{◌≡◌, ◌++◌, OnOk, OnErr};
ghost use Rattle.std.specs.Fmt.{signed_decimal};
ghost use Rattle.zber.specs.Dotted.{dotted};

use crate::oid::Oid;
use std::alloc::{AllocError, Global};

/// How the octets of a record are printed.
#[derive(Clone, Copy, PartialEq, Eq, Drop)]
pub enum Mode {
    /// In quotes.
    Text,
    /// In hexadecimal.
    Hex,
}

/// Appends the number in decimal, with a minus sign if it is negative. Returns an error if no memory is found; nothing
/// is appended.
pub fn put_number(alloc: Global, number: i64, out: &mut Vec<u8>) -> Result<(), AllocError>
    ensures ok { OnOk result (out.new.items ≡ out.old.items ++ signed_decimal number) }
    ensures err { OnErr result (out.new.items ≡ out.old.items) }
{
    let text = number.to_string(alloc)?;
    out.extend_from_slice(text.as_bytes())
}

/// Appends the arcs in decimal, with a dot between each two, as in `1.2.840.10003.5.10`. Returns an error if no memory
/// is found; nothing is appended.
pub fn put_oid(alloc: Global, oid: &Oid, out: &mut Vec<u8>) -> Result<(), AllocError>
    ensures ok { OnOk result (out.new.items ≡ out.old.items ++ dotted oid.now) }
    ensures err { OnErr result (out.new.items ≡ out.old.items) }
{
    let text = oid.text(alloc)?;
    out.extend_from_slice(text.as_bytes())
}
