//! The states of an origin, and what it keeps of searches.

use crate::refusal::Refused;
use bytes::Bytes;
use zber::Oid;

/// The state of an origin. Of several that are true it is the last one here.
#[derive(Clone, Copy, PartialEq, Eq)]
pub enum State {
    /// Init was not called.
    Fresh,
    /// Init was called, and the reply has not come.
    Initialising,
    /// The target accepted the association (Z39.50-2003, 3.2.1.1).
    Ready {
        /// Version 3 is in force.
        v3: bool,
        /// Concurrent operations are in force.
        concurrent: bool,
        /// Named result sets are in force.
        named: bool,
    },
    /// Close was called. The origin still takes the replies to outstanding operations.
    Closing,
    /// The target rejected the association, or the target's Close was taken.
    Closed,
    /// A reply was refused, for this reason.
    Failed(Refused),
}

/// The options and version in force: those that the origin offered and the response to Init has.
#[derive(Clone, Copy, PartialEq, Eq)]
pub(crate) struct InForce {
    pub search: bool,
    pub present: bool,
    pub v3: bool,
    pub concurrent: bool,
    pub named: bool,
}

/// The outcome of a search.
#[derive(Clone, Copy, PartialEq, Eq)]
pub(crate) enum Outcome {
    /// searchStatus was true. The set has so many records.
    Found(i64),
    /// searchStatus was false.
    Failed,
}

/// A search that was admitted.
#[derive(Drop)]
pub(crate) struct Searched {
    pub op: u32,
    pub set: u32,
    pub syntax: Option<Oid>,
    pub elements: Option<Bytes>,
    /// `None` while its reply has not come.
    pub outcome: Option<Outcome>,
}
