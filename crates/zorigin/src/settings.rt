//! The settings of an origin, and what a search asks for.

use bytes::Bytes;
use zber::{Oid, Seq};
use zquery::Query;

/// The settings of one connection.
#[derive(Drop)]
pub struct Settings {
    /// The origin's implementationName. If it has at most 2,000,000 octets, the Init can always be sent.
    pub name: Bytes,
}

/// What a search asks for (Z39.50-2003, 3.2.2.1).
#[derive(Drop)]
pub struct Ask {
    /// The databases that are searched.
    pub databases: Seq<Bytes>,
    /// The query of the search.
    pub query: Query,
    /// The preferred record syntax, of the search and of each Present of the set.
    pub syntax: Option<Oid>,
    /// The element set name, of the search and of each Present of the set.
    pub elements: Option<Bytes>,
    /// smallSetUpperBound: if at most so many records are found, all are to come with the response. Not negative.
    pub small: i64,
    /// largeSetLowerBound: if at least so many records are found, none is to come with the response. Above `small`.
    pub large: i64,
    /// mediumSetPresentNumber: how many records are to come with the response between these bounds. Not negative.
    pub medium: i64,
}
