//! Writes the line of an entry, member by member.
ghost use Rattle.std.specs.Prelude.{◌≡◌, ◌++◌, OnOk, OnErr, codes};
ghost use Rattle.std.specs.Fmt.{decimal};
ghost use Rattle.zoom_trace.specs.Lines.{number_member, text_member, octets_member, connection_member, counted, report_members, task_members, manner_name, notice_name, given_members, traced_members, line_of, ended_line, carried_line, trace_of};
ghost use Rattle.zoom_trace.specs.Recording.{received, sent};

use crate::entry::{Given, TraceEntry, Traced};
use crate::notice::Notice;
use std::alloc::{AllocError, Global};
use zapdu::put_hex;
use zoom_asking::{Manner, Report, Task};

/// Appends a number in decimal.
fn put_decimal(alloc: Global, number: u64, out: &mut Vec<u8>) -> Result<(), AllocError>
    ensures { OnOk result (out.new.items ≡ out.old.items ++ decimal number) }
{
    let text = number.to_string(alloc)?;
    out.extend_from_slice(text.as_bytes())
}

/// Appends a member with a number.
#[tactic(auto, unfolding(crate::specs::Lines::number_member))]
fn put_number(alloc: Global, name: &[u8], number: u64, out: &mut Vec<u8>) -> Result<(), AllocError>
    ensures { OnOk result (out.new.items ≡ out.old.items ++ number_member name.now number) }
{
    out.extend_from_slice(b",\"")?;
    out.extend_from_slice(name)?;
    out.extend_from_slice(b"\":")?;
    put_decimal(alloc, number, out)
}

/// Appends a member with a text that needs no escapes.
#[tactic(auto, unfolding(crate::specs::Lines::text_member))]
fn put_text(name: &[u8], text: &[u8], out: &mut Vec<u8>) -> Result<(), AllocError>
    ensures { OnOk result (out.new.items ≡ out.old.items ++ text_member name.now text.now) }
{
    out.extend_from_slice(b",\"")?;
    out.extend_from_slice(name)?;
    out.extend_from_slice(b"\":\"")?;
    out.extend_from_slice(text)?;
    out.extend_from_slice(b"\"")
}

/// Appends a member with octets.
#[tactic(auto, unfolding(crate::specs::Lines::text_member))]
fn put_octets(
    alloc: Global,
    name: &[u8],
    octets: &[u8],
    out: &mut Vec<u8>,
) -> Result<(), AllocError>
    ensures { OnOk result (out.new.items ≡ out.old.items ++ octets_member name.now octets.now) }
{
    out.extend_from_slice(b",\"")?;
    out.extend_from_slice(name)?;
    out.extend_from_slice(b"\":\"")?;
    put_hex(alloc, octets, out)?;
    out.extend_from_slice(b"\"")
}

/// Appends a member with a name, and one with a number.
fn put_counted(
    alloc: Global,
    kind: &[u8],
    name: &[u8],
    label: &[u8],
    number: usize,
    out: &mut Vec<u8>,
) -> Result<(), AllocError>
    ensures { OnOk result (out.new.items ≡ out.old.items ++ counted kind.now name.now label.now number) }
{
    put_text(kind, name, out)?;
    put_number(alloc, label, number as u64, out)
}

/// Appends the members of a report.
#[tactic(auto, unfolding(crate::specs::Lines::report_members))]
fn put_report(alloc: Global, report: Report, out: &mut Vec<u8>) -> Result<(), AllocError>
    ensures { OnOk result (out.new.items ≡ out.old.items ++ report_members report) }
{
    match report {
        Report::Resolved(n) => put_counted(alloc, b"report", b"resolved", b"addresses", n, out),
        Report::Connected(k) => put_counted(alloc, b"report", b"connected", b"attempt", k, out),
        Report::Unreachable(k) => put_counted(alloc, b"report", b"unreachable", b"attempt", k, out),
        Report::NoSocket(k) => put_counted(alloc, b"report", b"noSocket", b"attempt", k, out),
        Report::Taken => put_text(b"report", b"taken", out),
        Report::End => put_text(b"report", b"end", out),
        Report::Unreadable => put_text(b"report", b"unreadable", out),
        Report::Unwritable => put_text(b"report", b"unwritable", out),
    }
}

/// Appends the members of a task.
#[tactic(auto, unfolding(crate::specs::Lines::task_members))]
fn put_task(alloc: Global, task: Task, out: &mut Vec<u8>) -> Result<(), AllocError>
    ensures { OnOk result (out.new.items ≡ out.old.items ++ task_members task) }
{
    match task {
        Task::Connect(k) => put_counted(alloc, b"action", b"connect", b"attempt", k, out),
        Task::Send => put_text(b"action", b"send", out),
        Task::Read => put_text(b"action", b"read", out),
        Task::Leave(k) => put_counted(alloc, b"action", b"leave", b"attempt", k, out),
    }
}

/// Appends the member with the number of a connection.
fn put_connection(alloc: Global, c: u32, out: &mut Vec<u8>) -> Result<(), AllocError>
    ensures { OnOk result (out.new.items ≡ out.old.items ++ connection_member c) }
{
    put_number(alloc, b"connection", u64::from(c), out)
}

/// Appends the name of a manner.
fn put_manner(manner: Manner, out: &mut Vec<u8>) -> Result<(), AllocError>
    ensures { OnOk result (out.new.items ≡ out.old.items ++ text_member (codes "manner") (manner_name manner)) }
{
    match manner {
        Manner::AtOnce => put_text(b"manner", b"atOnce", out),
        Manner::InOrder => put_text(b"manner", b"inOrder", out),
    }
}

/// Returns the name of a notice.
fn name_of(notice: Notice) -> &'static [u8]
    ensures { result.now ≡ notice_name notice }
{
    match notice {
        Notice::Nothing => b"nothing",
        Notice::NoPort => b"noPort",
        Notice::NoName => b"noName",
        Notice::NoFamily => b"noFamily",
        Notice::Refused => b"refused",
        Notice::NoRoute => b"noRoute",
        Notice::Ended => b"ended",
        Notice::Reset => b"reset",
    }
}

/// Appends the member of what the search was given.
#[tactic(auto, unfolding(crate::specs::Lines::given_members))]
fn put_given(alloc: Global, given: &Given, out: &mut Vec<u8>) -> Result<(), AllocError>
    ensures { OnOk result (out.new.items ≡ out.old.items ++ given_members given.now) }
{
    match given {
        Given::Version(n) => put_number(alloc, b"version", *n, out),
        Given::World(octets) => put_octets(alloc, b"world", octets.as_slice(), out),
        Given::Query(octets) => put_octets(alloc, b"query", octets.as_slice(), out),
        Given::Records(octets) => put_octets(alloc, b"records", octets.as_slice(), out),
        Given::Elements(octets) => put_octets(alloc, b"elements", octets.as_slice(), out),
        Given::Syntax(octets) => put_octets(alloc, b"syntax", octets.as_slice(), out),
        Given::Only(octets) => put_octets(alloc, b"only", octets.as_slice(), out),
        Given::Manner(manner) => put_manner(*manner, out),
        Given::Connect(n) => put_number(alloc, b"connect", *n, out),
        Given::Patience(n) => put_number(alloc, b"patience", *n, out),
        Given::Total(n) => put_number(alloc, b"total", *n, out),
    }
}

/// Appends the members behind the time.
#[tactic(auto, unfolding(crate::specs::Lines::traced_members))]
fn put_traced(alloc: Global, what: &Traced, out: &mut Vec<u8>) -> Result<(), AllocError>
    ensures { OnOk result (out.new.items ≡ out.old.items ++ traced_members what.now) }
{
    match what {
        Traced::Began { given } => put_given(alloc, given, out),
        Traced::Reported { c, report } => {
            put_connection(alloc, *c, out)?;
            put_report(alloc, *report, out)
        }
        Traced::Received { c, octets } => {
            put_connection(alloc, *c, out)?;
            put_octets(alloc, b"received", octets.as_slice(), out)
        }
        Traced::Ticked => put_text(b"report", b"tick", out),
        Traced::GaveUp => put_text(b"report", b"giveUp", out),
        Traced::Wanted { c, task } => {
            put_connection(alloc, *c, out)?;
            put_task(alloc, *task, out)
        }
        Traced::Sent { c, octets } => {
            put_connection(alloc, *c, out)?;
            put_octets(alloc, b"sent", octets.as_slice(), out)
        }
        Traced::Noticed { c, notice } => {
            put_connection(alloc, *c, out)?;
            put_text(b"notice", name_of(*notice), out)
        }
    }
}

/// Appends the line of an entry, without a line feed.
#[tactic(auto, unfolding(crate::specs::Lines::line_of))]
pub(crate) fn put_line(
    alloc: Global,
    entry: &TraceEntry,
    out: &mut Vec<u8>,
) -> Result<(), AllocError>
    ensures { OnOk result (out.new.items ≡ out.old.items ++ line_of entry.now) }
{
    out.extend_from_slice(b"{\"at\":")?;
    put_decimal(alloc, entry.at, out)?;
    put_traced(alloc, &entry.what, out)?;
    out.extend_from_slice(b"}")
}

/// Appends the line of an entry, and a line feed. After `AllocError` a front of them may be appended.
pub(crate) fn put_ended(
    alloc: Global,
    entry: &TraceEntry,
    out: &mut Vec<u8>,
) -> Result<(), AllocError>
    ensures { OnOk result (out.new.items ≡ out.old.items ++ ended_line entry.now) }
{
    put_line(alloc, entry, out)?;
    out.push(b'\n')?;
    Ok(())
}

/// Appends the line of octets that came or were sent on a connection, and a line feed.
fn put_carried(
    alloc: Global,
    at: u64,
    c: u32,
    name: &[u8],
    octets: &[u8],
    out: &mut Vec<u8>,
) -> Result<(), AllocError>
    ensures { OnOk result (out.new.items ≡ out.old.items ++ carried_line at c name.now octets.now) }
{
    out.extend_from_slice(b"{\"at\":")?;
    put_decimal(alloc, at, out)?;
    put_connection(alloc, c, out)?;
    put_octets(alloc, name, octets, out)?;
    out.extend_from_slice(b"}\n")
}

/// Appends the line of octets that came on a connection, and a line feed. The octets are not copied before.
#[tactic(auto, unfolding(crate::specs::Lines::line_of, crate::specs::Lines::traced_members))]
pub(crate) fn put_received(
    alloc: Global,
    at: u64,
    c: u32,
    octets: &[u8],
    out: &mut Vec<u8>,
) -> Result<(), AllocError>
    ensures { OnOk result (out.new.items ≡ out.old.items ++ trace_of (received at c octets.now)) }
{
    put_carried(alloc, at, c, b"received", octets, out)
}

/// The same of octets that were handed out to be sent.
#[tactic(auto, unfolding(crate::specs::Lines::line_of, crate::specs::Lines::traced_members))]
pub(crate) fn put_sent(
    alloc: Global,
    at: u64,
    c: u32,
    octets: &[u8],
    out: &mut Vec<u8>,
) -> Result<(), AllocError>
    ensures { OnOk result (out.new.items ≡ out.old.items ++ trace_of (sent at c octets.now)) }
{
    put_carried(alloc, at, c, b"sent", octets, out)
}

/// Appends the line of an entry, and a line feed. Returns `AllocError` if no memory is found; nothing is appended.
pub fn put_entry(alloc: Global, entry: &TraceEntry, out: &mut Vec<u8>) -> Result<(), AllocError>
    ensures ok { OnOk result (out.new.items ≡ out.old.items ++ ended_line entry.now) }
    ensures err { OnErr result (out.new.items ≡ out.old.items) }
{
    let mut line = Vec::new(alloc);
    put_line(alloc, entry, &mut line)?;
    line.push(b'\n')?;
    out.extend_from_slice(&line)
}
