//! What a trace has of a search.

use crate::notice::Notice;
use bytes::Bytes;
use zoom_asking::{Manner, Report, Task};

/// What a search was given, before it began. Octets are as they were given; times are nanoseconds.
#[derive(Drop)]
pub enum Given {
    /// The version of the format.
    Version(u64),
    /// The world file.
    World(Bytes),
    /// The query that is put to every question.
    Query(Bytes),
    /// The positions that every question wants.
    Records(Bytes),
    /// The element set name of every question.
    Elements(Bytes),
    /// The record syntax of every question.
    Syntax(Bytes),
    /// The name of a host that was chosen.
    Only(Bytes),
    /// How hosts are talked with.
    Manner(Manner),
    /// How long a host may take to connect.
    Connect(u64),
    /// How long a host may be silent.
    Patience(u64),
    /// How long all may take.
    Total(u64),
}

/// What was reported to an asking, what it wanted to be done, or what was noticed of a host. `c` is the number of a
/// connection.
#[derive(Drop)]
pub enum Traced {
    /// The search was given this.
    Began { given: Given },
    /// Something was reported of a connection.
    Reported { c: u32, report: Report },
    /// Octets came on a connection.
    Received { c: u32, octets: Bytes },
    /// Nothing happened but that time passed.
    Ticked,
    /// The caller gave up.
    GaveUp,
    /// Something was to be done for a connection.
    Wanted { c: u32, task: Task },
    /// Octets of a connection were handed out to be sent.
    Sent { c: u32, octets: Bytes },
    /// This was noticed of the host of a connection. It is not reported.
    Noticed { c: u32, notice: Notice },
}

/// An entry of a trace: what was reported, wanted or noticed, and when.
#[derive(Drop)]
pub struct TraceEntry {
    /// Nanoseconds of the caller's clock.
    pub at: u64,
    pub what: Traced,
}
