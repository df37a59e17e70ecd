//! Texts and keys of TOML.

ghost use Rattle.std.specs.Prelude.{◌≡◌, ◌++◌, ◌<◌, OnOk};
ghost use Rattle.std.specs.List.{list_all};
ghost use Rattle.std.specs.Str.{is_utf8};
ghost use Rattle.zmeta_conversions.specs.Catalogues.{hex_digit, control_text, is_control, string_octet, string_text, is_bare, key_text, is_text};

use std::alloc::AllocError;

/// Returns the hexadecimal digit of a number.
fn hex_digit(number: u8) -> u8
    requires { number < 16 }
    ensures { result ≡ hex_digit number }
{
    if number < 10 {
        48 + number
    } else {
        87 + number
    }
}

/// Appends a control character, by its number.
fn put_control(octet: u8, out: &mut Vec<u8>) -> Result<(), AllocError>
    ensures { OnOk result (out.new.items ≡ out.old.items ++ control_text octet) }
{
    out.extend_from_slice(b"\\u00")?;
    out.push(hex_digit(octet / 16))?;
    out.push(hex_digit(octet % 16))?;
    Ok(())
}

/// Returns whether the octet is a control character.
fn is_control(octet: u8) -> bool
    ensures { result ≡ is_control octet }
{
    octet < 32 || octet == 127
}

/// Appends an octet between quotes.
#[tactic(auto, unfolding(crate::specs::Catalogues::string_octet))]
fn put_octet(octet: u8, out: &mut Vec<u8>) -> Result<(), AllocError>
    ensures { OnOk result (out.new.items ≡ out.old.items ++ string_octet octet) }
{
    if octet == b'"' || octet == b'\\' {
        out.push(b'\\')?;
        out.push(octet)?;
        return Ok(());
    }
    if is_control(octet) {
        return put_control(octet, out);
    }
    out.push(octet)?;
    Ok(())
}

/// Appends octets as a text of TOML, in quotes. The octets are UTF-8.
pub(crate) fn put_string(octets: &[u8], out: &mut Vec<u8>) -> Result<(), AllocError>
    ensures { OnOk result (out.new.items ≡ out.old.items ++ string_text octets.now) }
{
    out.push(b'"')?;
    for octet in octets {
        put_octet(*octet, out)?;
    }
    out.push(b'"')?;
    Ok(())
}

/// Returns whether the octet stands in a key without quotes.
#[tactic(auto, unfolding(crate::specs::Catalogues::is_bare))]
fn is_bare(octet: u8) -> bool
    ensures { result ≡ is_bare octet }
{
    (48 <= octet && octet <= 57)
        || (65 <= octet && octet <= 90)
        || (97 <= octet && octet <= 122)
        || octet == 45
        || octet == 95
}

/// Returns whether each octet stands in a key without quotes.
fn are_bare(octets: &[u8]) -> bool
    ensures { result ≡ list_all is_bare octets.now }
{
    octets.iter().all(|octet| is_bare(*octet))
}

/// Appends a key of TOML: as it is, if TOML takes it so, or else in quotes.
pub(crate) fn put_key(name: &[u8], out: &mut Vec<u8>) -> Result<(), AllocError>
    ensures { OnOk result (out.new.items ≡ out.old.items ++ key_text name.now) }
{
    if name.len() != 0 && are_bare(name) {
        out.extend_from_slice(name)
    } else {
        put_string(name, out)
    }
}

/// Returns whether the octets are UTF-8.
pub(crate) fn is_utf8(octets: &[u8]) -> bool
    ensures { result ≡ is_utf8 octets.now }
{
    str::from_utf8(octets).is_ok()
}

/// Returns whether the octets are UTF-8, and not none.
pub(crate) fn is_text(octets: &[u8]) -> bool
    ensures { result ≡ is_text octets.now }
{
    octets.len() != 0 && is_utf8(octets)
}
