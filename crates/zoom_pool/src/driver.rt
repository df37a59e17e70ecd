//! The driver of one connection, which asks one question.
ghost use Rattle.std.specs.Prelude.{◌≡◌, ◌<◌, ◌≤◌, [], length, map, IfOk, OnErr};
ghost use Rattle.zplan.specs.Ranges.{AreWanted};
ghost use Rattle.zorigin.specs.declared.settings.Settings.{Settings};
ghost use Rattle.zorigin.specs.Log.{is_close_call};
ghost use Rattle.zoom_pool.specs.CallsOf.{call_of};
ghost use Rattle.zoom_questions.specs.Askable.{HasFewArcs};
ghost use Rattle.zoom_pool.specs.Steering.{errand_with};
ghost use Rattle.zoom_pool.specs.Drivers.{IsDriver, SameDriver, NextCallResult, NoteSentStep, NoteRefusedStep, NoteReplyStep, PrepareStep, RefusedLaw, is_rejection_of};

use crate::call::Call;
use crate::driving::{driven_laws, due_laws};
use crate::phase::{Phase, give, note_taken, send};
use crate::state::State;
use std::alloc::{AllocError, Global};
use std::marker::Model;
use zber::Seq;
use zoom_questions::Question;
use zorigin::laws::orderly_logs;
use zorigin::{Ask, Taken};
use zplan::laws::{agenda_laws, bound_laws, next_laws, number_law};
use zplan::{Range, Schedule};

/// The driver of one connection: it knows which call is next. Contracts hold for each log of the connection's
/// origin that the driver can know.
#[derive(Drop)]
pub(crate) struct Driver {
    alloc: Global,
    ask: Ask,
    wanted: Seq<Range>,
    step: u32,
    window: u32,
    phase: Phase,
    skipped: bool,
    complete: bool,
}

impl Model for Driver {
    ghost use Rattle.std.specs.Prelude.{◌<◌};
    ghost use Rattle.std.specs.Coded.{codes};
    ghost use Rattle.zquery.specs.Coding.{coded_query};
    ghost use Rattle.zplan.specs.Ranges.{AreWanted, positions};
    ghost use Rattle.zoom_pool.specs.Drivers.{DriverState, left_in};

    ghost Value = { DriverState };

    ghost coded = { Prim.hlevel (codes, coded_query) };

    ghost view = { λ d. record {
      errand = record { ask = d.ask; wanted = positions d.wanted; step = d.step; window = d.window };
      phase = d.phase;
      left = left_in d.window d.phase;
      skipped = d.skipped;
      complete = d.complete;
    } };

    ghost invariant = { λ d. AreWanted d.wanted × (0 < d.step) × (0 < d.window) };
}

fn is_close(call: &Call) -> bool
    ensures { result ≡ is_close_call (call_of call.now) }
{
    matches!(call, Call::Close)
}

fn is_rejection(taken: &Taken) -> bool
    ensures { result ≡ is_rejection_of taken.now }
{
    matches!(taken, Taken::Rejected(_))
}

impl Driver {
    /// Creates the driver of a connection in state Fresh.
    pub(crate) fn new(alloc: Global, question: Question, step: u32, window: u32) -> Self
        // the question
        requires wanted { AreWanted question.wanted }
        requires syntax { HasFewArcs question.syntax }
        // the step and the window
        requires step { 0 < step }
        requires most { step ≤ 1000 }
        requires window { 0 < window }
        // the driver
        ensures { (settings : Settings)
            → length settings.name ≤ 2000000 → IsDriver (errand_with question step window) settings [] result }
    {
        Driver {
            alloc,
            ask: Ask {
                databases: question.databases,
                query: question.query,
                syntax: question.syntax,
                elements: question.elements,
                small: 0,
                large: 1,
                medium: 0,
            },
            wanted: question.wanted,
            step,
            window,
            phase: Phase::Fresh,
            skipped: false,
            complete: false,
        }
    }

    /// Makes the schedule, if the count is known. If no memory is found, nothing changes.
    fn prepare(&mut self) -> Result<(), AllocError>
        ensures ok { IfOk result (λ _. PrepareStep self.old self.new) }
        ensures err { OnErr result (self.new ≡ self.old) }
    {
        let (three, count) = match &self.phase {
            Phase::Counted { three, count } => (*three, *count),
            _ => return Ok(()),
        };
        let schedule = Schedule::new(self.alloc, self.wanted.as_slice(), count, self.step, three)?;
        self.phase = Phase::Asking(schedule);
        Ok(())
    }

    /// Returns the call that is next in this state of the connection, or `None`. A search that is not offered or
    /// cannot be sent is returned too; it is skipped once it is refused. The caller makes the call, and reports it
    /// with `note_sent` or `note_refused`. An error only if no memory is found.
    pub(crate) fn next_call(&mut self, state: State) -> Result<Option<Call>, AllocError>
        ensures stays { SameDriver self.old self.new }
        ensures ok { IfOk result (λ given. NextCallResult state given self.new) }
    {
        self.prepare()?;
        agenda_laws();
        next_laws();
        driven_laws();
        due_laws();
        bound_laws();
        give(&mut self.phase, self.alloc, &self.ask, state, self.window)
    }

    /// Notes that the origin admitted the call that was given. It takes no memory.
    pub(crate) fn note_sent(&mut self, call: &Call)
        ensures { NoteSentStep (call_of call.now) self.old self.new }
    {
        agenda_laws();
        driven_laws();
        number_law();
        send(&mut self.phase, call);
        let closes = is_close(call);
        self.complete = closes || self.complete;
    }

    /// Notes that the origin refused the call that was given, for another reason than `Memory`. The call was the
    /// search, which is skipped. It takes no memory.
    pub(crate) fn note_refused(&mut self)
        ensures { NoteRefusedStep self.old self.new }
    {
        self.phase = Phase::Done;
        self.skipped = true;
    }

    /// Notes a reply that the origin took. It takes no memory.
    pub(crate) fn note_reply(&mut self, taken: &Taken)
        ensures { NoteReplyStep taken.now self.old self.new }
    {
        agenda_laws();
        driven_laws();
        number_law();
        orderly_logs();
        note_taken(&mut self.phase, taken);
        let rejects = is_rejection(taken);
        self.complete = rejects || self.complete;
    }

    /// Whether its search was refused as `NotOffered` or `Unsendable`. It takes no memory.
    pub(crate) fn is_skipped(&self) -> bool
        ensures { result ≡ self.now.skipped }
    {
        self.skipped
    }

    /// Whether the association was rejected, or its Close was admitted. It takes no memory.
    pub(crate) fn is_complete(&self) -> bool
        ensures { result ≡ self.now.complete }
    {
        self.complete
    }
}

/// A reply that the origin refuses changes nothing that a driver knows.
pub(crate) fn refused_law()
    ensures { RefusedLaw }
{}
