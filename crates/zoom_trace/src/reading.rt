//! Reads the line of an entry: its words and numbers, whatever stands between them. Then the line has to be the one
//! that is written of the entry.
ghost use Rattle.std.specs.Prelude.{◌≡◌, IfSome, IfOk, IsTrue, ◌↔◌};
ghost use Rattle.hex.specs.Hex.{IsBytes};
ghost use Rattle.zoom_trace.specs.Lines.{line_of, IsWritable, IsWritableTraced, IsWritableReport, IsWritableTask, IsWritableGiven};
ghost use Rattle.zoom_trace.specs.Reading.{count_in, report_of, task_of, notice_of, octets_of, traced_by, traced_on, traced_of_all, traced_of, entry_of, octets_in, manner_in, number_given, octets_given, text_given, given_by};
ghost use Rattle.zoom_trace.specs.Results.{FoundResult, EntryResult};

use crate::cutting::{number_in, word};
use crate::entry::{Given, TraceEntry, Traced};
use crate::fault::EntryError;
use crate::notice::Notice;
use crate::writing::put_line;
use bytes::Bytes;
use hex::FromHexError;
use std::alloc::{AllocError, Global};
use zoom_asking::{Manner, Report, Task};

/// Returns the number behind a report or a task.
fn count_in(text: &[u8]) -> Option<usize>
    ensures { result ≡ count_in text.now }
{
    let (number, _) = number_in(text, b'}', u64::MAX)?;
    Some(number as usize)
}

/// Returns the report with a name.
#[tactic(auto, unfolding(crate::specs::Reading::report_of))]
fn report_of(name: &[u8], rest: &[u8]) -> Option<Report>
    ensures value { result ≡ report_of name.now rest.now }
    ensures writable { IfSome result IsWritableReport }
{
    if name == b"resolved".as_slice() {
        Some(Report::Resolved(count_in(rest)?))
    } else if name == b"connected".as_slice() {
        Some(Report::Connected(count_in(rest)?))
    } else if name == b"unreachable".as_slice() {
        Some(Report::Unreachable(count_in(rest)?))
    } else if name == b"noSocket".as_slice() {
        Some(Report::NoSocket(count_in(rest)?))
    } else if name == b"taken".as_slice() {
        Some(Report::Taken)
    } else if name == b"end".as_slice() {
        Some(Report::End)
    } else if name == b"unreadable".as_slice() {
        Some(Report::Unreadable)
    } else if name == b"unwritable".as_slice() {
        Some(Report::Unwritable)
    } else {
        None
    }
}

/// Returns the task with a name.
#[tactic(auto, unfolding(crate::specs::Reading::task_of))]
fn task_of(name: &[u8], rest: &[u8]) -> Option<Task>
    ensures value { result ≡ task_of name.now rest.now }
    ensures writable { IfSome result IsWritableTask }
{
    if name == b"connect".as_slice() {
        Some(Task::Connect(count_in(rest)?))
    } else if name == b"send".as_slice() {
        Some(Task::Send)
    } else if name == b"read".as_slice() {
        Some(Task::Read)
    } else if name == b"leave".as_slice() {
        Some(Task::Leave(count_in(rest)?))
    } else {
        None
    }
}

/// Returns the notice with a name.
#[tactic(auto, unfolding(crate::specs::Reading::notice_of))]
fn notice_of(name: &[u8]) -> Option<Notice>
    ensures { result ≡ notice_of name.now }
{
    if name == b"nothing".as_slice() {
        Some(Notice::Nothing)
    } else if name == b"noPort".as_slice() {
        Some(Notice::NoPort)
    } else if name == b"noName".as_slice() {
        Some(Notice::NoName)
    } else if name == b"noFamily".as_slice() {
        Some(Notice::NoFamily)
    } else if name == b"refused".as_slice() {
        Some(Notice::Refused)
    } else if name == b"noRoute".as_slice() {
        Some(Notice::NoRoute)
    } else if name == b"ended".as_slice() {
        Some(Notice::Ended)
    } else if name == b"reset".as_slice() {
        Some(Notice::Reset)
    } else {
        None
    }
}

/// Returns the octets that a text has in hexadecimal.
#[tactic(auto, using(crate::proofs::Refusing::decoded))]
fn octets_of(alloc: Global, text: &[u8]) -> Result<Bytes, EntryError>
    ensures found { FoundResult (octets_of text.now) result }
    ensures writable { IfOk result IsBytes }
{
    match hex::decode(alloc, text) {
        Ok(octets) => Ok(Bytes::from_vec(octets)?),
        Err(FromHexError::OutOfMemory) => Err(EntryError::Memory),
        Err(_) => Err(EntryError::Refused),
    }
}

/// Returns what a member of this name tells of a connection.
#[tactic(auto, unfolding(crate::specs::Reading::traced_by))]
fn traced_by(
    alloc: Global,
    c: u32,
    name: &[u8],
    value: &[u8],
    rest: &[u8],
) -> Result<Traced, EntryError>
    ensures found { FoundResult (traced_by c name.now value.now rest.now) result }
    ensures writable { IfOk result IsWritableTraced }
{
    if name == b"report".as_slice() {
        let report = report_of(value, rest).ok_or(EntryError::Refused)?;
        Ok(Traced::Reported { c, report })
    } else if name == b"action".as_slice() {
        let task = task_of(value, rest).ok_or(EntryError::Refused)?;
        Ok(Traced::Wanted { c, task })
    } else if name == b"received".as_slice() {
        let octets = octets_of(alloc, value)?;
        Ok(Traced::Received { c, octets })
    } else if name == b"sent".as_slice() {
        let octets = octets_of(alloc, value)?;
        Ok(Traced::Sent { c, octets })
    } else if name == b"notice".as_slice() {
        let notice = notice_of(value).ok_or(EntryError::Refused)?;
        Ok(Traced::Noticed { c, notice })
    } else {
        Err(EntryError::Refused)
    }
}

/// Returns what a text tells of a connection, from the connection's number on.
fn traced_on(alloc: Global, text: &[u8]) -> Result<Traced, EntryError>
    ensures found { FoundResult (traced_on text.now) result }
    ensures writable { IfOk result IsWritableTraced }
{
    let Some((c, rest)) = number_in(text, b',', u64::from(u32::MAX)) else {
        return Err(EntryError::Refused);
    };
    let Some((name, rest)) = word(rest) else {
        return Err(EntryError::Refused);
    };
    let Some((value, rest)) = word(rest) else {
        return Err(EntryError::Refused);
    };
    traced_by(alloc, c as u32, name, value, rest)
}

/// Returns the octets of a member, behind its name.
fn octets_in(alloc: Global, text: &[u8]) -> Result<Bytes, EntryError>
    ensures found { FoundResult (octets_in text.now) result }
    ensures writable { IfOk result IsBytes }
{
    let Some((digits, _)) = word(text) else {
        return Err(EntryError::Refused);
    };
    octets_of(alloc, digits)
}

/// Returns the manner of a member, behind its name.
fn manner_in(text: &[u8]) -> Option<Manner>
    ensures { result ≡ manner_in text.now }
{
    let (name, _) = word(text)?;
    if name == b"atOnce".as_slice() {
        Some(Manner::AtOnce)
    } else if name == b"inOrder".as_slice() {
        Some(Manner::InOrder)
    } else {
        None
    }
}

/// Returns the number or the manner that the search was given in a member of this name.
#[tactic(auto, unfolding(crate::specs::Reading::number_given))]
fn number_given(name: &[u8], rest: &[u8]) -> Option<Given>
    ensures value { result ≡ number_given name.now rest.now }
    ensures writable { IfSome result IsWritableGiven }
{
    if name == b"version".as_slice() {
        Some(Given::Version(count_in(rest)? as u64))
    } else if name == b"connect".as_slice() {
        Some(Given::Connect(count_in(rest)? as u64))
    } else if name == b"patience".as_slice() {
        Some(Given::Patience(count_in(rest)? as u64))
    } else if name == b"total".as_slice() {
        Some(Given::Total(count_in(rest)? as u64))
    } else if name == b"manner".as_slice() {
        Some(Given::Manner(manner_in(rest)?))
    } else {
        None
    }
}

/// Returns the octets that the search was given in a member of this name.
#[tactic(auto, unfolding(crate::specs::Reading::octets_given))]
fn octets_given(name: &[u8], octets: Bytes) -> Option<Given>
    requires { IsBytes octets }
    ensures value { result ≡ octets_given name.now octets }
    ensures writable { IfSome result IsWritableGiven }
{
    if name == b"world".as_slice() {
        Some(Given::World(octets))
    } else if name == b"query".as_slice() {
        Some(Given::Query(octets))
    } else if name == b"records".as_slice() {
        Some(Given::Records(octets))
    } else if name == b"elements".as_slice() {
        Some(Given::Elements(octets))
    } else if name == b"syntax".as_slice() {
        Some(Given::Syntax(octets))
    } else if name == b"only".as_slice() {
        Some(Given::Only(octets))
    } else {
        None
    }
}

/// The same of octets in hexadecimal.
fn text_given(alloc: Global, name: &[u8], rest: &[u8]) -> Result<Given, EntryError>
    ensures found { FoundResult (text_given name.now rest.now) result }
    ensures writable { IfOk result IsWritableGiven }
{
    let octets = octets_in(alloc, rest)?;
    octets_given(name, octets).ok_or(EntryError::Refused)
}

/// Returns what the search was given in a member of this name.
fn given_by(alloc: Global, name: &[u8], rest: &[u8]) -> Result<Given, EntryError>
    ensures found { FoundResult (given_by name.now rest.now) result }
    ensures writable { IfOk result IsWritableGiven }
{
    match number_given(name, rest) {
        Some(given) => Ok(given),
        None => text_given(alloc, name, rest),
    }
}

/// Returns what a text tells of all connections.
fn traced_of_all(text: &[u8]) -> Option<Traced>
    ensures value { result ≡ traced_of_all text.now }
    ensures writable { IfSome result IsWritableTraced }
{
    let (value, _) = word(text)?;
    if value == b"tick".as_slice() {
        Some(Traced::Ticked)
    } else if value == b"giveUp".as_slice() {
        Some(Traced::GaveUp)
    } else {
        None
    }
}

/// Returns what a text tells, from behind the time on.
#[tactic(auto, unfolding(crate::specs::Reading::traced_of))]
fn traced_of(alloc: Global, text: &[u8]) -> Result<Traced, EntryError>
    ensures found { FoundResult (traced_of text.now) result }
    ensures writable { IfOk result IsWritableTraced }
{
    let Some((name, rest)) = word(text) else {
        return Err(EntryError::Refused);
    };
    if name == b"connection".as_slice() {
        traced_on(alloc, rest)
    } else if name == b"report".as_slice() {
        traced_of_all(rest).ok_or(EntryError::Refused)
    } else {
        let given = given_by(alloc, name, rest)?;
        Ok(Traced::Began { given })
    }
}

/// Returns the entry with the words and numbers of a line.
#[tactic(auto, unfolding(crate::specs::Reading::entry_of))]
fn entry_of(alloc: Global, line: &[u8]) -> Result<TraceEntry, EntryError>
    ensures found { FoundResult (entry_of line.now) result }
    ensures writable { IfOk result IsWritable }
{
    let Some((at, rest)) = number_in(line, b',', u64::MAX) else {
        return Err(EntryError::Refused);
    };
    let what = traced_of(alloc, rest)?;
    Ok(TraceEntry { at, what })
}

/// Whether two texts are the same.
fn are_same(one: &[u8], other: &[u8]) -> bool
    ensures { IsTrue result ↔ (one.now ≡ other.now) }
{
    one == other
}

/// Whether a line is the one that is written of an entry.
fn is_line_of(alloc: Global, line: &[u8], entry: &TraceEntry) -> Result<bool, AllocError>
    ensures { IfOk result (λ is. IsTrue is ↔ (line.now ≡ line_of entry.now)) }
{
    let mut written = Vec::new(alloc);
    put_line(alloc, entry, &mut written)?;
    Ok(are_same(line, written.as_slice()))
}

/// Reads a line, without its line feed. `Refused` if it is not the line that `put_entry` writes of an entry.
#[tactic(auto, using(crate::proofs::Refusing::no_entry, crate::proofs::Refusing::other_line))]
pub fn read_entry(alloc: Global, line: &[u8]) -> Result<TraceEntry, EntryError>
    ensures { EntryResult line.now result }
{
    let entry = match entry_of(alloc, line) {
        Ok(entry) => entry,
        Err(error) => return Err(error),
    };
    if is_line_of(alloc, line, &entry)? {
        Ok(entry)
    } else {
        Err(EntryError::Refused)
    }
}
