//! The address of a catalogue.

ghost use Rattle.std.specs.Prelude.{◌≡◌, ◌<◌, ◌++◌, codes, length, map, position, IfOk, IfSome};
ghost use Rattle.std.specs.List.{slice_split};
ghost use Rattle.std.specs.Option.{option_map};
ghost use Rattle.toml.specs.View.{view};
ghost use Rattle.zmeta_catalogues.specs.Values.{Reads};
ghost use Rattle.zmeta_catalogues.specs.Addresses.{is_colon, is_closing, is_bracketed, is_port, address_in, address_behind, bracketed_address, plain_address, address_text, address_by, address_of};

use crate::fault::{FaultKind, Key, Stop, fault};
use bytes::Bytes;
use std::alloc::{AllocError, Global};
use toml::Value;
use zquery::number;

/// Cuts a text at its colons.
fn parts_of<'a>(alloc: Global, text: &'a [u8]) -> Result<Vec<&'a [u8]>, AllocError>
    ensures { IfOk result (λ parts. map (λ p. p.now) parts.items ≡ slice_split is_colon text.now) }
{
    text.split(|octet| *octet == b':').collect(alloc)
}

/// Returns whether the text is the number of a port, from 1 to 65,535.
fn is_port(text: &[u8]) -> bool
    ensures { result ≡ is_port text.now }
{
    match number(text, 65_535) {
        Some(number) => 1 <= number,
        None => false,
    }
}

/// Returns the address of a host, with port 210.
fn at_port_210(alloc: Global, host: &[u8]) -> Result<Bytes, AllocError>
    ensures { IfOk result (λ address. address ≡ host.now ++ codes ":210") }
{
    let mut address = Vec::from_slice(alloc, host)?;
    address.extend_from_slice(b":210")?;
    Ok(Bytes::from_vec(address)?)
}

/// Returns the address of a text with these parts between its colons, if it is one.
fn address_in(alloc: Global, text: &[u8], parts: &[&[u8]]) -> Result<Option<Bytes>, AllocError>
    ensures { IfOk result (λ address. address ≡ address_in text.now (map (λ p. p.now) parts.now)) }
{
    match parts {
        [host] if !host.is_empty() => Ok(Some(at_port_210(alloc, text)?)),
        [host, port] if !host.is_empty() && is_port(port) => {
            Ok(Some(Bytes::copy_from_slice(alloc, text)?))
        }
        _ => Ok(None),
    }
}

/// Returns the address that a text without brackets writes, as `host:port`, if it is one. Without a port it gets port
/// 210.
#[tactic(auto, unfolding(crate::specs::Addresses::plain_address))]
fn plain_address(alloc: Global, text: &[u8]) -> Result<Option<Bytes>, AllocError>
    ensures { IfOk result (λ address. address ≡ plain_address text.now) }
{
    let parts = parts_of(alloc, text)?;
    address_in(alloc, text, parts.as_slice())
}

/// Returns the place of the first closing bracket.
fn closing_place(text: &[u8]) -> Option<usize>
    ensures at { result ≡ position is_closing text.now }
    ensures within { IfSome result (λ at. at < length text.now) }
{
    text.iter().position(|octet| *octet == b']')
}

/// Returns the address of a text with these octets behind its closing bracket, if it is one.
fn address_behind(alloc: Global, text: &[u8], behind: &[u8]) -> Result<Option<Bytes>, AllocError>
    ensures { IfOk result (λ address. address ≡ address_behind text.now behind.now) }
{
    match behind {
        [] => Ok(Some(at_port_210(alloc, text)?)),
        [b':', port @ ..] if is_port(port) => {
            let address = Bytes::copy_from_slice(alloc, text)?;
            Ok(Some(address))
        }
        _ => Ok(None),
    }
}

/// Returns the address that a text with a bracket at its front writes, as `[2001:db8::1]:210`, if it is one. Without a
/// port it gets port 210.
#[tactic(auto, unfolding(crate::specs::Addresses::bracketed_address))]
fn bracketed_address(alloc: Global, text: &[u8]) -> Result<Option<Bytes>, AllocError>
    ensures { IfOk result (λ address. address ≡ bracketed_address text.now) }
{
    let Some(at) = closing_place(text) else {
        return Ok(None);
    };
    if at <= 1 {
        return Ok(None);
    }
    address_behind(alloc, text, &text[at + 1..])
}

/// Returns whether the text begins with a bracket.
fn is_bracketed(text: &[u8]) -> bool
    ensures { result ≡ is_bracketed text.now }
{
    match text {
        [first, ..] => *first == b'[',
        [] => false,
    }
}

/// Returns the address that the text writes, if it is one. Without a port it gets port 210.
fn address_text(alloc: Global, text: &[u8]) -> Result<Option<Bytes>, AllocError>
    ensures { IfOk result (λ address. address ≡ address_text text.now) }
{
    if is_bracketed(text) {
        bracketed_address(alloc, text)
    } else {
        plain_address(alloc, text)
    }
}

/// Reads the address of a text.
fn address_by(alloc: Global, text: Option<&str>) -> Result<Bytes, Stop>
    ensures { Reads (address_by (option_map (λ text. text.now) text.entry)) result }
{
    let Some(text) = text else {
        return Err(fault(Key::Address, FaultKind::Type));
    };
    match address_text(alloc, text.as_bytes())? {
        Some(address) => Ok(address),
        None => Err(fault(Key::Address, FaultKind::Text)),
    }
}

/// Reads the address of a catalogue: `host:port`, or an address of IPv6 in brackets in place of the host. The port is
/// from 1 to 65,535; 210 if there is none.
pub(crate) fn address_of(alloc: Global, value: Option<&Value>) -> Result<Bytes, Stop>
    ensures { Reads (address_of (option_map (λ value. view value.now) value.entry)) result }
{
    match value {
        Some(value) => address_by(alloc, value.as_str()),
        None => Err(fault(Key::Address, FaultKind::Missing)),
    }
}
