//! The lines that report failed connections.
ghost use Rattle.std.specs.Prelude.{◌≡◌, ◌<◌, ◌^◌, ◌++◌, length, OnOk, OnErr, IfOk};
ghost use Rattle.zmeta_commands.specs.Finished.{failure_line, told_line, told_at, address_at, stop_at, AreLinesFrom};
ghost use Rattle.std.specs.Option.{option_map};
ghost use Rattle.zoom.specs.State.TheVariants as states;

use bytes::Bytes;
use std::alloc::{AllocError, Global};
use zapdu::quote;
use zknow_stops::Stop;
use zmeta_devices::explained::stop_line;
use zoom::{Meta, Reason, State};

/// What is told in words of connections.
#[derive(Clone, Copy)]
pub struct Told<'a> {
    /// Whether it is told.
    pub explains: bool,
    /// The address of each question, or `None`.
    pub addresses: &'a [Option<Bytes>],
    /// Why each connection stopped.
    pub stops: &'a [Option<Stop>],
}

/// Appends the line of a connection if it failed: the name of its target, and the reason. Appends nothing if no
/// memory is found.
pub fn put_failure(
    alloc: Global,
    name: &Bytes,
    state: State,
    text: &mut Vec<u8>,
) -> Result<(), AllocError>
    ensures line { OnOk result (text.new.items ≡ text.old.items ++ failure_line name.now state) }
    ensures kept { OnErr result (text.new.items ≡ text.old.items) }
{
    let State::Failed(reason) = state else {
        return Ok(());
    };
    let line = line_of(alloc, name, reason)?;
    text.extend_from_slice(line.as_slice())
}

/// Appends the line that tells in words why a connection stopped, if that is to be told. Appends nothing if no memory
/// is found.
fn put_told(
    alloc: Global,
    name: &Bytes,
    c: usize,
    told: &Told<'_>,
    text: &mut Vec<u8>,
) -> Result<(), AllocError>
    ensures { OnOk result (text.new.items ≡ text.old.items ++ told_line (told_at told.now) c name.now) }
{
    if !told.explains {
        return Ok(());
    }
    let line = stop_line(
        alloc,
        name,
        address_at(told.addresses, c),
        stop_at(told.stops, c),
    )?;
    text.extend_from_slice(line.as_slice())
}

/// Returns the address of a question, if it has one.
fn address_at(addresses: &[Option<Bytes>], c: usize) -> Option<&Bytes>
    ensures { option_map (λ address. address.now) result ≡ address_at addresses.entry.now c }
{
    match addresses.get(c) {
        Some(Some(address)) => Some(address),
        _ => None,
    }
}

/// Returns why a connection stopped, if it did.
fn stop_at(stops: &[Option<Stop>], c: usize) -> Option<Stop>
    ensures { result ≡ stop_at stops.now c }
{
    stops.get(c).copied().unwrap_or(None)
}

/// Appends what is told of one connection. What is appended if no memory is found is not said.
fn put_lines(
    alloc: Global,
    name: &Bytes,
    c: usize,
    state: State,
    told: &Told<'_>,
    text: &mut Vec<u8>,
) -> Result<(), AllocError>
    ensures { OnOk result (text.new.items ≡ text.old.items
        ++ (failure_line name.now state ++ told_line (told_at told.now) c name.now)) }
{
    put_failure(alloc, name, state, text)?;
    put_told(alloc, name, c, told, text)
}

/// Returns the line of a failed connection.
fn line_of(alloc: Global, name: &Bytes, reason: Reason) -> Result<Vec<u8>, AllocError>
    ensures { IfOk result (λ line. line.items ≡ failure_line name.now (states.Failed reason)) }
{
    let mut line = Vec::new(alloc);
    line.extend_from_slice(b"zmeta: target ")?;
    quote(alloc, name.as_slice(), &mut line)?;
    line.extend_from_slice(b": ")?;
    line.extend_from_slice(reason.name().as_bytes())?;
    line.extend_from_slice(b"\n")?;
    Ok(line)
}

/// Returns the lines of the failed connections, in order, with the names of their targets. Behind each stands the line
/// that tells in words why it stopped, if that is to be told.
pub fn failure_lines(
    alloc: Global,
    meta: &Meta,
    names: &[Bytes],
    told: &Told<'_>,
) -> Result<Vec<u8>, AllocError>
    requires few { length meta.now.pool.connections < 2 ^ 32 }
    requires named { length names.now ≡ length meta.now.pool.connections }
    ensures { IfOk result (λ text. AreLinesFrom (told_at told.now) meta.now 0 names.now text.items) }
{
    let mut text = Vec::new(alloc);
    for (c, name) in names.iter().enumerate() {
        put_lines(alloc, name, c, meta.state(c as u32), told, &mut text)?;
    }
    Ok(text)
}
