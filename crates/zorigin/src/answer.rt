//! Operations, and the replies to them.

use bytes::Bytes;
use std::alloc::{AllocError, Global};
use zapdu::Apdu;
use zber::{Duplicate, Seq};
use zplan::Range;

/// What an operation asks for.
#[derive(Drop)]
pub enum What {
    /// The association itself.
    Init,
    /// A result set.
    Search,
    /// Records of the set.
    Present {
        /// The ranges of their positions: one at least; each begins after the end of the one before.
        ranges: Seq<Range>,
    },
}

/// An operation that was admitted.
#[derive(Drop)]
pub struct Asked {
    /// Its number, which its reference id has; 0 for Init.
    pub op: u32,
    /// Its result set; 0 for Init.
    pub set: u32,
    /// What it asks for.
    pub what: What,
}

impl Duplicate for What {
    fn duplicate(&self, alloc: Global) -> Result<Self, AllocError> {
        match self {
            What::Init => Ok(What::Init),
            What::Search => Ok(What::Search),
            What::Present { ranges } => Ok(What::Present {
                ranges: Seq::from_vec(Vec::from_slice(alloc, ranges.as_slice())?),
            }),
        }
    }
}

impl Duplicate for Asked {
    fn duplicate(&self, alloc: Global) -> Result<Self, AllocError> {
        Ok(Asked {
            op: self.op,
            set: self.set,
            what: self.what.duplicate(alloc)?,
        })
    }
}

/// An accepted reply with the operation that it is to.
#[derive(Drop)]
pub struct Answer {
    /// The operation.
    pub asked: Asked,
    /// The reply, unchanged.
    pub reply: Apdu,
}

/// The result for an APDU that was accepted.
#[derive(Drop)]
pub enum Taken {
    /// The target accepted the association.
    Opened(Answer),
    /// The target rejected the association; the origin is Closed.
    Rejected(Answer),
    /// The answer to a search or a Present.
    Answered(Answer),
    /// The target's Close; the origin is Closed.
    Closed,
}

/// A request to be sent.
#[derive(Drop)]
pub struct Sent {
    /// The request.
    pub apdu: Apdu,
    /// Its canonical encoding. A framer of messages of at most 2,097,152 octets returns the request's element from it,
    /// whatever octets come after it.
    pub octets: Bytes,
}
