//! Calls: each returns the request to be sent, or why it is refused.
ghost use Rattle.std.specs.Prelude.{◌≡◌, None, Err, IfOk, OnErr};
ghost use Rattle.zorigin.specs.Standings.{Init, Search, Present, Close};
ghost use Rattle.zorigin.specs.Ranges.{one_range};
ghost use Rattle.zorigin.specs.Calls.{early_refusal, call_result, IsSendResultFor};
ghost use Rattle.zorigin.specs.Changes.{called_at};
ghost use Rattle.zorigin.specs.Log.{IsGivenResult, IsResultOfCall, IsAdmissible, OriginAfterCall, IsMadeCall};
ghost use Rattle.zorigin.specs.Sending.{IsReadBack};

use crate::answer::Sent;
use crate::origin::Origin;
use crate::refusal::CallRefused;
use crate::refusing::{is_ready, search_of};
use crate::request::{close_request, init_request, present_request, search_request};
use crate::sending::send;
use crate::settings::Ask;
use crate::state::State;
use zplan::Range;

impl Origin {
    /// The request of Init, whatever the state. Returns `Unsendable`, or `Memory` if no memory is found.
    fn init_sent(&self) -> Result<Sent, CallRefused>
        ensures exact { IsSendResultFor self.now Init result }
        ensures framed { IfOk result IsReadBack }
    {
        let apdu = init_request(self.alloc, &self.settings)?;
        send(self.alloc, apdu)
    }

    /// The request of a search, whatever the state. Returns `Unsendable`, or `Memory` if no memory is found.
    fn search_sent(&self, op: u32, set: u32, ask: &Ask) -> Result<Sent, CallRefused>
        ensures exact { IsSendResultFor self.now (Search op set ask.now) result }
        ensures framed { IfOk result IsReadBack }
    {
        let apdu = search_request(self.alloc, self.force.named, op, set, ask)?;
        send(self.alloc, apdu)
    }

    /// The request of a Present, whatever the state. Returns `SetUnknown` if no search made the set or no range is
    /// asked for, else `Unsendable`, or `Memory` if no memory is found.
    fn present_sent(&self, op: u32, set: u32, ranges: &[Range]) -> Result<Sent, CallRefused>
        ensures exact { IsSendResultFor self.now (Present op set ranges.now) result }
        ensures framed { IfOk result IsReadBack }
    {
        let Some(searched) = search_of(&self.searches, set) else {
            return Err(CallRefused::SetUnknown);
        };
        let [first, others @ ..] = ranges else {
            return Err(CallRefused::SetUnknown);
        };
        let apdu = present_request(self.alloc, self.force.named, op, *first, others, searched)?;
        send(self.alloc, apdu)
    }

    fn make_init(&mut self) -> Result<Sent, CallRefused>
        ensures returned { IsGivenResult (call_result self.old Init) result }
        ensures after { IsMadeCall result → self.new ≡ called_at self.old Init }
        ensures memory { result ≡ Err CallRefused.Memory → early_refusal self.old Init ≡ None }
        ensures framed { IfOk result IsReadBack }
        ensures err { OnErr result (self.new ≡ self.old) }
    {
        if let Some(reason) = self.init_refusal() {
            return Err(reason);
        }
        let sent = self.init_sent()?;
        match self.admit_init() {
            Ok(()) => Ok(sent),
            Err(_) => {
                drop(sent);
                Err(CallRefused::Memory)
            }
        }
    }

    fn make_search(&mut self, op: u32, set: u32, ask: &Ask) -> Result<Sent, CallRefused>
        ensures returned { IsGivenResult (call_result self.old (Search op set ask.now)) result }
        ensures after { IsMadeCall result → self.new ≡ called_at self.old (Search op set ask.now) }
        ensures memory { result ≡ Err CallRefused.Memory → early_refusal self.old (Search op set ask.now) ≡ None }
        ensures framed { IfOk result IsReadBack }
        ensures err { OnErr result (self.new ≡ self.old) }
    {
        if let Some(reason) = self.search_refusal(op, set, ask) {
            return Err(reason);
        }
        let sent = self.search_sent(op, set, ask)?;
        match self.admit_search(op, set, ask) {
            Ok(()) => Ok(sent),
            Err(_) => {
                drop(sent);
                Err(CallRefused::Memory)
            }
        }
    }

    fn make_present(&mut self, op: u32, set: u32, ranges: &[Range]) -> Result<Sent, CallRefused>
        ensures returned { IsGivenResult (call_result self.old (Present op set ranges.now)) result }
        ensures after { IsMadeCall result → self.new ≡ called_at self.old (Present op set ranges.now) }
        ensures memory { result ≡ Err CallRefused.Memory → early_refusal self.old (Present op set ranges.now) ≡ None }
        ensures framed { IfOk result IsReadBack }
        ensures err { OnErr result (self.new ≡ self.old) }
    {
        if let Some(reason) = self.present_refusal(op, set, ranges) {
            return Err(reason);
        }
        let sent = self.present_sent(op, set, ranges)?;
        match self.admit_present(op, set, ranges) {
            Ok(()) => Ok(sent),
            Err(_) => {
                drop(sent);
                Err(CallRefused::Memory)
            }
        }
    }

    fn make_close(&mut self) -> Result<Sent, CallRefused>
        ensures returned { IsGivenResult (call_result self.old Close) result }
        ensures after { IsMadeCall result → self.new ≡ called_at self.old Close }
        ensures memory { result ≡ Err CallRefused.Memory → early_refusal self.old Close ≡ None }
        ensures framed { IfOk result IsReadBack }
        ensures err { OnErr result (self.new ≡ self.old) }
    {
        if !is_ready(self.state) {
            return Err(CallRefused::WrongState);
        }
        let sent = send(self.alloc, close_request())?;
        self.state = State::Closing;
        Ok(sent)
    }

    /// Asks for the association, as operation 0 (Z39.50-2003, 3.2.1.1). The request offers versions 1 to 3, the options
    /// search, present, concurrent operations and named result sets, and sizes of 1,048,576 octets. It has the origin's
    /// name.
    ///
    /// Returns `WrongState` if the state is not Fresh, `Unsendable` if the name is too long, and `Memory` if no memory
    /// is found. The origin is then unchanged.
    pub fn init(&mut self) -> Result<Sent, CallRefused>
        ensures returned { IsResultOfCall self.old Init result }
        ensures after { OriginAfterCall self.old Init result self.new }
        ensures memory { result ≡ Err CallRefused.Memory → IsAdmissible self.old Init }
        ensures framed { IfOk result IsReadBack }
        ensures err { OnErr result (self.new ≡ self.old) }
    {
        self.make_init()
    }

    /// Searches, as operation `op`, and makes result set `set` (Z39.50-2003, 3.2.2.1). If named result sets are in
    /// force, the name of the set is its number in decimal, else `default`. A set of that name is replaced.
    ///
    /// `CallRefused` lists when the call is refused, in its order. The origin is then unchanged.
    pub fn search(&mut self, op: u32, set: u32, ask: &Ask) -> Result<Sent, CallRefused>
        ensures returned { IsResultOfCall self.old (Search op set ask.now) result }
        ensures after { OriginAfterCall self.old (Search op set ask.now) result self.new }
        ensures memory { result ≡ Err CallRefused.Memory → IsAdmissible self.old (Search op set ask.now) }
        ensures framed { IfOk result IsReadBack }
        ensures err { OnErr result (self.new ≡ self.old) }
    {
        self.make_search(op, set, ask)
    }

    /// Asks, as operation `op`, for `n` records of the set from position `start` on. It does what `present_ranges` does
    /// for this one range.
    ///
    /// `CallRefused` lists when the call is refused, in its order. The origin is then unchanged.
    pub fn present(&mut self, op: u32, set: u32, start: i64, n: i64) -> Result<Sent, CallRefused>
        ensures returned { IsResultOfCall self.old (Present op set (one_range start n)) result }
        ensures after { OriginAfterCall self.old (Present op set (one_range start n)) result self.new }
        ensures memory { result ≡ Err CallRefused.Memory → IsAdmissible self.old (Present op set (one_range start n)) }
        ensures framed { IfOk result IsReadBack }
        ensures err { OnErr result (self.new ≡ self.old) }
    {
        self.present_ranges(op, set, &[Range { start, n }])
    }

    /// Asks, as operation `op`, for the records of the set at the positions of all ranges, in their order (Z39.50-2003,
    /// 3.2.3.1). Positions count from 1. The syntax and the element set are those of the set's search. The first range
    /// is sent as resultSetStartPoint and numberOfRecordsRequested, the others as additionalRanges.
    ///
    /// `CallRefused` lists when the call is refused, in its order. The origin is then unchanged.
    pub fn present_ranges(
        &mut self,
        op: u32,
        set: u32,
        ranges: &[Range],
    ) -> Result<Sent, CallRefused>
        ensures returned { IsResultOfCall self.old (Present op set ranges.now) result }
        ensures after { OriginAfterCall self.old (Present op set ranges.now) result self.new }
        ensures memory { result ≡ Err CallRefused.Memory → IsAdmissible self.old (Present op set ranges.now) }
        ensures framed { IfOk result IsReadBack }
        ensures err { OnErr result (self.new ≡ self.old) }
    {
        self.make_present(op, set, ranges)
    }

    /// Ends the association, with reason 0 (finished) and no reference id (Z39.50-2003, 3.2.11.1). The origin still
    /// takes the replies to outstanding operations.
    ///
    /// Returns `WrongState` if the state is not Ready, and `Memory` if no memory is found. The origin is then
    /// unchanged.
    pub fn close(&mut self) -> Result<Sent, CallRefused>
        ensures returned { IsResultOfCall self.old Close result }
        ensures after { OriginAfterCall self.old Close result self.new }
        ensures memory { result ≡ Err CallRefused.Memory → IsAdmissible self.old Close }
        ensures framed { IfOk result IsReadBack }
        ensures err { OnErr result (self.new ≡ self.old) }
    {
        self.make_close()
    }
}
