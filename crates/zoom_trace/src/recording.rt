//! An asking whose history is written down.
ghost use Rattle.std.specs.Prelude.{◌≡◌, ◌<◌, ◌≤◌, ◌^◌, ◌∷◌, [], length, drop, OnOk};
ghost use Rattle.hex.specs.Hex.{IsBytes};
ghost use Rattle.zoom_trace.specs.declared.entry.Traced.TheVariants as traced;
ghost use Rattle.zoom_trace.specs.Lines.{AreWritable};
ghost use Rattle.zoom_trace.specs.Reading.{entry_at};
ghost use Rattle.zoom_trace.specs.Recording.{began, total_given, reported, received, sent};
ghost use Rattle.zoom_trace.specs.Tracing.{IsTracedIf};

use crate::entry::{Given, TraceEntry, Traced};
use crate::notice::Notice;
use crate::tracing::Tracer;
use std::alloc::{AllocError, Global};
use std::io::Write;
use zoom_asking::{Action, AskedHost, Asking, Manner, Report, Task};
use zoom_pool::Meta;

/// An asking, and the trace of it, if one is written. Each call does to the asking what its own call of that name does,
/// and puts the line of that into the trace. Times are nanoseconds of its caller's clock.
///
/// `report`, `octets` and `outgoing` require their `c` to be below `connections()`. A call returns `AllocError` if no
/// memory is found. After that no call promises more.
#[derive(Drop)]
pub struct Recorder<W> {
    alloc: Global,
    asking: Asking,
    trace: Option<Tracer<W>>,
}

impl<W: Write + Drop> Recorder<W> {
    ghost use Rattle.std.specs.Prelude.{◌≡◌, ◌<◌, ◌++◌, ◌∷◌, [], length, IfOk, IfNone, OnOk, option_to_list};
    ghost use Rattle.zoom_asking.specs.Askings.{IsWakeAt, IsOverAt, unsent_at};
    ghost use Rattle.zoom_trace.specs.declared.entry.Traced.TheVariants as traced;
    ghost use Rattle.zoom_trace.specs.Reading.{entry_at};
    ghost use Rattle.zoom_trace.specs.Recording.{opening, wanted, reported, received, sent, noticed, IsRecordedWith};
    ghost use Rattle.zoom_trace.specs.Tracing.{IsWrittenOut};

    /// Records what is reported to an asking from now on, if there is a trace.
    pub fn new(alloc: Global, asking: Asking, trace: Option<Tracer<W>>) -> Recorder<W>
        ensures asking { result.asking ≡ asking }
        ensures trace { result.trace ≡ trace }
    {
        Recorder {
            alloc,
            asking,
            trace,
        }
    }

    /// Puts down how hosts are asked: the manner, and how long to wait for each and for all.
    pub fn begin(
        &mut self,
        now: u64,
        manner: Manner,
        host: AskedHost,
        total: Option<u64>,
    ) -> Result<(), AllocError>
        ensures recorded { OnOk result (IsRecordedWith W.contents (opening now manner host total) self.old self.new) }
        ensures asking { self.new.asking ≡ self.old.asking }
    {
        let AskedHost { connect, patience } = host;
        number_fits(now);
        number_fits(connect);
        number_fits(patience);
        total_fits(now, total);
        note_given(&mut self.trace, self.alloc, now, Given::Manner(manner))?;
        note_given(&mut self.trace, self.alloc, now, Given::Connect(connect))?;
        note_given(&mut self.trace, self.alloc, now, Given::Patience(patience))?;
        note_total(&mut self.trace, self.alloc, now, total)?;
        Ok(())
    }

    /// What happened on a connection.
    pub fn report(&mut self, now: u64, c: u32, what: Report) -> Result<(), AllocError>
        requires { c < length self.old.asking.meta.pool.connections }
        ensures { OnOk result (IsRecordedWith W.contents (reported now c what) self.old self.new) }
    {
        report_fits(now, c, what);
        self.asking.report(now, c, what)?;
        note(
            &mut self.trace,
            self.alloc,
            now,
            Traced::Reported { c, report: what },
        )?;
        Ok(())
    }

    /// Octets came on a connection.
    pub fn octets(&mut self, now: u64, c: u32, piece: &[u8]) -> Result<(), AllocError>
        requires { c < length self.old.asking.meta.pool.connections }
        ensures { OnOk result (IsRecordedWith W.contents (received now c piece.now) self.old self.new) }
    {
        self.asking.octets(now, c, piece)?;
        note_received(&mut self.trace, self.alloc, now, c, piece)?;
        Ok(())
    }

    /// Nothing happened but that time passed.
    pub fn tick(&mut self, now: u64) -> Result<(), AllocError>
        ensures { OnOk result (IsRecordedWith W.contents (entry_at now traced.Ticked ∷ []) self.old self.new) }
    {
        self.asking.tick(now)?;
        note(&mut self.trace, self.alloc, now, Traced::Ticked)?;
        Ok(())
    }

    /// The caller gives up: what is not over stops.
    pub fn give_up(&mut self, now: u64) -> Result<(), AllocError>
        ensures { OnOk result (IsRecordedWith W.contents (entry_at now traced.GaveUp ∷ []) self.old self.new) }
    {
        self.asking.give_up(now)?;
        note(&mut self.trace, self.alloc, now, Traced::GaveUp)?;
        Ok(())
    }

    /// What is to be done next, the oldest first. `None` if nothing is to be done.
    #[tactic(auto, using(crate::proofs::TracedLines::none_if))]
    pub fn next_action(&mut self, now: u64) -> Result<Option<Action>, AllocError>
        ensures recorded { IfOk result (λ action. IsRecordedWith W.contents (wanted now action) self.old self.new) }
        ensures action { IfOk result
            (λ action. self.old.asking.clock.queue.items ≡ option_to_list action ++ self.new.asking.clock.queue.items) }
        ensures none { IfOk result (λ action. IfNone action (self.old.asking.clock.queue.items ≡ [])) }
        ensures meta { self.new.asking.meta ≡ self.old.asking.meta }
        ensures unsent { self.new.asking.unsent ≡ self.old.asking.unsent }
    {
        let Some(action) = self.asking.next_action() else {
            return Ok(None);
        };
        action_fits(now, action.c, action.task);
        let what = Traced::Wanted {
            c: action.c,
            task: action.task,
        };
        note(&mut self.trace, self.alloc, now, what)?;
        Ok(Some(action))
    }

    /// Appends the octets that wait to be sent on a connection to `out`, and forgets them.
    pub fn outgoing(&mut self, now: u64, c: u32, out: &mut Vec<u8>) -> Result<(), AllocError>
        requires { c < length self.old.asking.meta.pool.connections }
        ensures recorded { OnOk result
            (IsRecordedWith W.contents (sent now c (unsent_at self.old.asking c)) self.old self.new) }
        ensures gives { OnOk result (out.new.items ≡ out.old.items ++ unsent_at self.old.asking c) }
        ensures none { OnOk result (unsent_at self.new.asking c ≡ []) }
        ensures meta { self.new.asking.meta ≡ self.old.asking.meta }
        ensures clock { self.new.asking.clock ≡ self.old.asking.clock }
    {
        let waited = out.len();
        self.asking.outgoing(c, out)?;
        let fresh = behind(out, waited);
        octets_fit(fresh);
        note_sent(&mut self.trace, self.alloc, now, c, fresh)?;
        Ok(())
    }

    /// This was noticed of the host of a connection. The asking is not told.
    pub fn notice(&mut self, now: u64, c: u32, notice: Notice) -> Result<(), AllocError>
        ensures recorded { OnOk result (IsRecordedWith W.contents (noticed now c notice) self.old self.new) }
        ensures asking { self.new.asking ≡ self.old.asking }
    {
        note(
            &mut self.trace,
            self.alloc,
            now,
            Traced::Noticed { c, notice },
        )?;
        Ok(())
    }

    /// Writes the lines that wait, if there is a trace. It takes no memory.
    #[tactic(auto, using(crate::proofs::Recorded::with_none))]
    pub fn write_out(&mut self)
        ensures recorded { IsRecordedWith W.contents [] self.old self.new }
        ensures none { IsWrittenOut self.new.trace }
        ensures asking { self.new.asking ≡ self.old.asking }
    {
        let Some(trace) = &mut self.trace else {
            return;
        };
        trace.write_out();
    }

    /// The first time at which a tick does something. `None` if no limit runs, or no clock of 64 bits gets there.
    pub fn wake_at(&self) -> Option<u64>
        ensures { IsWakeAt self.now.asking result }
    {
        self.asking.wake_at()
    }

    /// Whether each connection is over, or was not chosen.
    pub fn is_over(&self) -> bool
        ensures { IsOverAt self.now.asking result }
    {
        self.asking.is_over()
    }

    /// How many connections there are.
    pub fn connections(&self) -> usize
        ensures { result ≡ length self.now.asking.meta.pool.connections }
    {
        self.asking.connections()
    }

    /// What is known, and how the connections stand.
    pub fn meta(&self) -> &Meta
        ensures { result.now ≡ self.now.asking.meta }
    {
        self.asking.meta()
    }

    /// What is known, and the trace, once nothing is asked any more.
    pub fn into_parts(self) -> (Meta, Option<Tracer<W>>)
        ensures meta { result.0 ≡ self.asking.meta }
        ensures trace { result.1 ≡ self.trace }
    {
        let Recorder {
            alloc: _,
            asking,
            trace,
        } = self;
        (asking.into_meta(), trace)
    }
}

/// Puts down an entry, if there is a trace.
fn note<W: Write>(
    trace: &mut Option<Tracer<W>>,
    alloc: Global,
    at: u64,
    what: Traced,
) -> Result<(), AllocError>
    ensures { OnOk result (IsTracedIf W.contents (entry_at at what ∷ []) trace.old trace.new) }
{
    match trace {
        Some(trace) => trace.put(alloc, &TraceEntry { at, what }),
        None => Ok(()),
    }
}

/// A number of 64 bits. It does nothing.
fn number_fits(n: u64)
    ensures { n < 2 ^ 64 }
{
    let _ = n;
}

/// The number of an address. It does nothing.
fn place_fits(k: usize)
    ensures { k < 2 ^ 64 }
{
    let _ = k;
}

/// The numbers of a report are those of its type. It does nothing.
fn report_fits(at: u64, c: u32, report: Report)
    ensures { AreWritable (reported at c report) }
{
    number_fits(at);
    let _ = c;
    match report {
        Report::Resolved(n) => place_fits(n),
        Report::Connected(k) => place_fits(k),
        Report::Unreachable(k) => place_fits(k),
        Report::NoSocket(k) => place_fits(k),
        Report::Taken | Report::End | Report::Unreadable | Report::Unwritable => {}
    }
}

/// The numbers of an action are those of its type. It does nothing.
fn action_fits(at: u64, c: u32, task: Task)
    ensures { AreWritable (entry_at at (traced.Wanted c task) ∷ []) }
{
    number_fits(at);
    let _ = c;
    match task {
        Task::Connect(k) => place_fits(k),
        Task::Send | Task::Read => {}
        Task::Leave(k) => place_fits(k),
    }
}

/// Puts down how long all may take, if that has a limit, and if there is a trace.
#[tactic(auto, using(crate::proofs::TracedLines::none_if))]
fn note_total<W: Write>(
    trace: &mut Option<Tracer<W>>,
    alloc: Global,
    at: u64,
    total: Option<u64>,
) -> Result<(), AllocError>
    ensures { OnOk result (IsTracedIf W.contents (total_given at total) trace.old trace.new) }
{
    match total {
        Some(total) => note_given(trace, alloc, at, Given::Total(total)),
        None => Ok(()),
    }
}

/// The numbers of a limit are those of its type. It does nothing.
fn total_fits(at: u64, total: Option<u64>)
    ensures { AreWritable (total_given at total) }
{
    number_fits(at);
    match total {
        Some(total) => number_fits(total),
        None => {}
    }
}

/// Puts down what the search was given, if there is a trace.
fn note_given<W: Write>(
    trace: &mut Option<Tracer<W>>,
    alloc: Global,
    at: u64,
    given: Given,
) -> Result<(), AllocError>
    ensures { OnOk result (IsTracedIf W.contents (began at given ∷ []) trace.old trace.new) }
{
    note(trace, alloc, at, Traced::Began { given })
}

/// Puts down octets that came on a connection, if there is a trace.
fn note_received<W: Write>(
    trace: &mut Option<Tracer<W>>,
    alloc: Global,
    at: u64,
    c: u32,
    octets: &[u8],
) -> Result<(), AllocError>
    ensures { OnOk result (IsTracedIf W.contents (received at c octets.now) trace.old trace.new) }
{
    match trace {
        Some(trace) => trace.put_received(alloc, at, c, octets),
        None => Ok(()),
    }
}

/// The octets behind those that waited.
fn behind(out: &Vec<u8>, waited: usize) -> &[u8]
    requires { waited ≤ length out.now.items }
    ensures { result.now ≡ drop waited out.now.items }
{
    &out.as_slice()[waited..]
}

/// Octets are those of their type. It does nothing.
fn octets_fit(octets: &[u8])
    ensures { IsBytes octets.now }
{
    let _ = octets.len();
}

/// Puts down octets that were handed out to be sent, if there is a trace.
fn note_sent<W: Write>(
    trace: &mut Option<Tracer<W>>,
    alloc: Global,
    at: u64,
    c: u32,
    octets: &[u8],
) -> Result<(), AllocError>
    ensures { OnOk result (IsTracedIf W.contents (sent at c octets.now) trace.old trace.new) }
{
    match trace {
        Some(trace) => trace.put_sent(alloc, at, c, octets),
        None => Ok(()),
    }
}
