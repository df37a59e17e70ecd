//! Feeds the entries of a trace to an asking.
ghost use Rattle.std.specs.Prelude.{◌≡◌, true, OnOk};
ghost use Rattle.zoom_trace.specs.Replays.{IsFedWith, FeedResult, NumberedResult, ReplayResult, connection_of, is_within, size_of};

use crate::entry::{TraceEntry, Traced};
use crate::fault::{EntryError, TraceError};
use std::alloc::AllocError;
use zoom_asking::Asking;

/// The number of the connection of which an entry speaks.
fn connection_of(what: &Traced) -> Option<u32>
    ensures { result ≡ connection_of what.now }
{
    match what {
        Traced::Reported { c, .. }
        | Traced::Received { c, .. }
        | Traced::Wanted { c, .. }
        | Traced::Sent { c, .. }
        | Traced::Noticed { c, .. } => Some(*c),
        Traced::Began { .. } | Traced::Ticked | Traced::GaveUp => None,
    }
}

/// Whether an entry speaks of no connection, or of one of so many.
fn is_within(count: usize, entry: &TraceEntry) -> bool
    ensures { result ≡ is_within count entry.now }
{
    match connection_of(&entry.what) {
        Some(c) => (c as usize) < count,
        None => true,
    }
}

/// Reports to an asking what an entry says was reported.
#[tactic(auto, using(crate::proofs::Fed::fed_report, crate::proofs::Fed::fed_nothing))]
fn report(asking: &mut Asking, entry: &TraceEntry) -> Result<(), AllocError>
    requires { is_within (size_of asking.old) entry.now ≡ true }
    ensures after { OnOk result (IsFedWith entry.now asking.old asking.new) }
    ensures size { size_of asking.new ≡ size_of asking.old }
{
    match &entry.what {
        Traced::Reported { c, report } => asking.report(entry.at, *c, *report),
        Traced::Received { c, octets } => asking.octets(entry.at, *c, octets.as_slice()),
        Traced::Ticked => asking.tick(entry.at),
        Traced::GaveUp => asking.give_up(entry.at),
        _ => Ok(()),
    }
}

/// Reports to an asking what an entry says was reported. `Refused` if the entry speaks of a connection that the asking
/// does not have; the asking is unchanged. After `Memory`, no call promises more of the asking.
pub fn feed(asking: &mut Asking, entry: &TraceEntry) -> Result<(), EntryError>
    ensures fed { FeedResult entry.now asking.old asking.new result }
    ensures size { size_of asking.new ≡ size_of asking.old }
{
    if !is_within(asking.connections(), entry) {
        return Err(EntryError::Refused);
    }
    report(asking, entry)?;
    Ok(())
}

/// The same for the entry of a number. `Refused` gives that number.
fn feed_numbered(asking: &mut Asking, number: u64, entry: &TraceEntry) -> Result<(), TraceError>
    ensures fed { NumberedResult number entry.now asking.old asking.new result }
    ensures size { size_of asking.new ≡ size_of asking.old }
{
    match feed(asking, entry) {
        Ok(()) => Ok(()),
        Err(EntryError::Refused) => Err(TraceError::Refused { line: number }),
        Err(EntryError::Memory) => Err(TraceError::Memory),
    }
}

/// Reports to an asking what entries say was reported, in their order. `Refused` gives the first entry, from 1, that
/// speaks of a connection that the asking does not have; those before were fed. After `Memory`, no call promises more
/// of the asking.
pub fn replay(asking: &mut Asking, entries: &[TraceEntry]) -> Result<(), TraceError>
    ensures fed { ReplayResult entries.now asking.old asking.new result }
    ensures size { size_of asking.new ≡ size_of asking.old }
{
    for (index, entry) in entries.iter().enumerate() {
        match feed_numbered(asking, index as u64 + 1, entry) {
            Ok(()) => {}
            Err(error) => return Err(error),
        }
    }
    Ok(())
}
