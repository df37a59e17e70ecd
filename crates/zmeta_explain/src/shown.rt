//! Texts of a user, as they stand among words: printable, and cut if they are long.
ghost use Rattle.std.specs.Prelude.{◌≡◌, ◌++◌, OnOk};
ghost use Rattle.std.specs.List.{list_all};
ghost use Rattle.zmeta_explain.specs.Shown.{shown_text, is_bare_octet, is_bare, name_text};

use std::alloc::{AllocError, Global};
use zapdu::quote;

/// How many octets of a text are shown.
const MOST_SHOWN: usize = 40;

/// How many octets a name without quotes has at most.
const MOST_BARE: usize = 60;

/// Appends a text in quotes, and two dots if it is cut.
pub(crate) fn put_shown(alloc: Global, text: &[u8], line: &mut Vec<u8>) -> Result<(), AllocError>
    ensures { OnOk result (line.new.items ≡ line.old.items ++ shown_text text.now) }
{
    if text.len() <= MOST_SHOWN {
        return quote(alloc, text, line);
    }
    quote(alloc, text.split_at(MOST_SHOWN).0, line)?;
    line.extend_from_slice(b"..")
}

fn is_bare_octet(octet: u8) -> bool
    ensures { result ≡ is_bare_octet octet }
{
    octet.is_ascii_alphanumeric()
        || octet == b'.'
        || octet == b'-'
        || octet == b'_'
        || octet == b'/'
        || octet == b':'
}

fn are_bare(text: &[u8]) -> bool
    ensures { result ≡ list_all is_bare_octet text.now }
{
    text.iter().all(|octet| is_bare_octet(*octet))
}

/// Tells whether a name stands without quotes: letters of ASCII, digits and `.-_/:`, and not too many.
fn is_bare(text: &[u8]) -> bool
    ensures { result ≡ is_bare text.now }
{
    !text.is_empty() && text.len() <= MOST_BARE && are_bare(text)
}

/// Appends the name of a host, a file or a syntax: as it is, if it has 1 to 60 octets, each a letter of ASCII, a digit
/// or one of `.-_/:`; else in quotes and cut behind 40 octets.
pub(crate) fn put_name(alloc: Global, text: &[u8], line: &mut Vec<u8>) -> Result<(), AllocError>
    ensures { OnOk result (line.new.items ≡ line.old.items ++ name_text text.now) }
{
    if is_bare(text) {
        return line.extend_from_slice(text);
    }
    put_shown(alloc, text, line)
}
