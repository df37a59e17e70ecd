//! Result sets.
ghost use Rattle.std.specs.Prelude.{◌≡◌, ◌<◌, length, OnOk, OnErr};
ghost use Rattle.zknow.specs.Known.{IsKnownOf, counts_at, records_at};
ghost use Rattle.zorigin.specs.Standings.{Present};
ghost use Rattle.zorigin.specs.Ranges.{one_range};
ghost use Rattle.zorigin.specs.Log.{IsMadeCall};
ghost use Rattle.zoom_pool.specs.CallsOf.{call_of};
ghost use Rattle.zoom_pool.specs.Links.{SameElse};
ghost use Rattle.zoom_pool.specs.Transcripts.{Called};
ghost use Rattle.zoom_pool.specs.PoolSteps.{Recorded, IsCallResult, IsRequestPut};

use crate::call::Call;
use crate::pool::Pool;
use zapdu::Record;
use zber::Seq;
use zknow::Known;
use zorigin::{CallRefused, Range};

/// A result set of one connection (Z39.50-2003, 3.1.5). It is a name: creating one asks for nothing.
#[derive(Clone, Copy, PartialEq, Eq)]
pub struct ResultSet {
    /// The number of the connection. `present` and `present_ranges` require it to be below the pool's
    /// `connections()`.
    pub c: u32,
    /// The number of the result set.
    pub set: u32,
}

fn present_call(op: u32, set: u32, start: i64, n: i64) -> Call
    ensures { call_of result ≡ Present op set (one_range start n) }
{
    Call::Present { op, set, start, n }
}

fn ranges_call(op: u32, set: u32, ranges: Seq<Range>) -> Call
    ensures { call_of result ≡ Present op set ranges }
{
    Call::PresentRanges { op, set, ranges }
}

impl ResultSet {
    /// Returns what is known of the number of its records. It takes no memory.
    pub fn size(self, pool: &Pool) -> Known<'_, i64>
        ensures { IsKnownOf result (counts_at self.c self.set pool.now.knowledge) }
    {
        pool.knowledge().count(self.c, self.set)
    }

    /// Returns what is known of the record at a position, from 1 on. If accepted replies differ, there are two or
    /// more records, in the order of their canonical encodings. It takes no memory.
    pub fn row(self, pool: &Pool, position: i64) -> Known<'_, Record>
        ensures { IsKnownOf result (records_at self.c self.set position pool.now.knowledge) }
    {
        pool.knowledge().at(self.c, self.set, position)
    }

    /// Asks for `n` of its records from position `start` on, by a call with operation number `op`. It is refused
    /// as that call is; the pool is then unchanged.
    pub fn present(self, pool: &mut Pool, op: u32, start: i64, n: i64) -> Result<(), CallRefused>
        requires { self.c < length pool.old.connections }
        // if memory is found
        ensures returned { IsCallResult self.c (Present op self.set (one_range start n)) pool.old result }
        ensures after { IsMadeCall result
            → Recorded self.c (Called (Present op self.set (one_range start n))) pool.old pool.new }
        // on success
        ensures put { OnOk result (IsRequestPut self.c (Present op self.set (one_range start n)) pool.old pool.new) }
        // if it is refused
        ensures err { OnErr result (pool.new ≡ pool.old) }
        // in each case
        ensures rest { SameElse self.c pool.old pool.new }
    {
        let call = present_call(op, self.set, start, n);
        let answer = pool.call(self.c, &call);
        drop(call);
        answer
    }

    /// Asks for its records at the positions of all ranges, in their order, by a call with operation number `op`.
    /// It is refused as that call is; the pool is then unchanged.
    pub fn present_ranges(
        self,
        pool: &mut Pool,
        op: u32,
        ranges: Seq<Range>,
    ) -> Result<(), CallRefused>
        requires { self.c < length pool.old.connections }
        // if memory is found
        ensures returned { IsCallResult self.c (Present op self.set ranges) pool.old result }
        ensures after { IsMadeCall result → Recorded self.c (Called (Present op self.set ranges)) pool.old pool.new }
        // on success
        ensures put { OnOk result (IsRequestPut self.c (Present op self.set ranges) pool.old pool.new) }
        // if it is refused
        ensures err { OnErr result (pool.new ≡ pool.old) }
        // in each case
        ensures rest { SameElse self.c pool.old pool.new }
    {
        let call = ranges_call(op, self.set, ranges);
        let answer = pool.call(self.c, &call);
        drop(call);
        answer
    }
}
