//! Calls on a connection.
ghost use Rattle.std.specs.Prelude.{◌≡◌, IfOk, OnErr};
ghost use Rattle.zorigin.specs.Log.{IsResultOfCall, OriginAfterCall};
ghost use Rattle.zorigin.specs.Sending.{IsReadBack};
ghost use Rattle.zoom_pool.specs.CallsOf.{call_of};

use zber::Seq;
use zorigin::{Ask, CallRefused, Origin, Range, Sent};

/// A call on one connection.
#[derive(Drop)]
pub enum Call {
    /// Asks for the association (Z39.50-2003, 3.2.1.1). Its operation has number 0.
    Init,
    /// Searches (Z39.50-2003, 3.2.2.1).
    Search {
        /// The number of the operation.
        op: u32,
        /// The number of the result set that the search makes; not 0.
        set: u32,
        /// What the search asks for.
        ask: Ask,
    },
    /// Asks for `n` records of a result set from position `start` on (Z39.50-2003, 3.2.3.1).
    Present {
        /// The number of the operation.
        op: u32,
        /// The number of the result set.
        set: u32,
        /// The first position, 1 or more.
        start: i64,
        /// The number of records, 1 or more.
        n: i64,
    },
    /// Asks for the records of a result set at the positions of all ranges, in their order (Z39.50-2003, 3.2.3.1).
    PresentRanges {
        /// The number of the operation.
        op: u32,
        /// The number of the result set.
        set: u32,
        /// The ranges, at least one; two or more only if version 3 is in force. Each begins after the end of the
        /// one before.
        ranges: Seq<Range>,
    },
    /// Ends the association (Z39.50-2003, 3.2.11.1).
    Close,
}

/// Makes the call on the origin, and returns what it sends. A refused call leaves the origin unchanged.
pub(crate) fn sent_for(origin: &mut Origin, call: &Call) -> Result<Sent, CallRefused>
    ensures returned { IsResultOfCall origin.old (call_of call.now) result }
    ensures after { OriginAfterCall origin.old (call_of call.now) result origin.new }
    ensures framed { IfOk result IsReadBack }
    ensures err { OnErr result (origin.new ≡ origin.old) }
{
    match call {
        Call::Init => origin.init(),
        Call::Search { op, set, ask } => origin.search(*op, *set, ask),
        Call::Present { op, set, start, n } => origin.present(*op, *set, *start, *n),
        Call::PresentRanges { op, set, ranges } => {
            origin.present_ranges(*op, *set, ranges.as_slice())
        }
        Call::Close => origin.close(),
    }
}
