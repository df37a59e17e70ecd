//! Questions to a target, and the settings for asking them.

use bytes::Bytes;
use zber::{Oid, Seq};
use zplan::Range;
use zquery::Query;

/// One question to one catalogue: a search, and records of its result set (Z39.50-2003, 3.2.2.1 and 3.2.3.1).
/// `IsAskable` states its limits.
#[derive(Drop)]
pub struct Question {
    /// The databases to search.
    pub databases: Seq<Bytes>,
    /// The query of the search.
    pub query: Query,
    /// The preferred record syntax; it has at most 1,000 arcs.
    pub syntax: Option<Oid>,
    /// The element set name of the records.
    pub elements: Option<Bytes>,
    /// The positions of the wanted records: from 1 to 2,147,483,647, at most 1,000,000 of them. Positions above
    /// the number of records found are left out. The ranges ascend, and neither touch nor overlap.
    pub wanted: Seq<Range>,
}

/// How catalogues are asked. `AreFit` states the limits.
#[derive(Drop)]
pub struct MetaSettings {
    /// The client's implementationName; at most 2,000,000 octets.
    pub name: Bytes,
    /// The most positions that one Present asks for, 1 to 1,000.
    pub step: u32,
    /// The most Presents of one connection that wait for their answers at a time, 1 to 64. If concurrent
    /// operations are not in force, one Present waits at a time.
    pub window: u32,
}
