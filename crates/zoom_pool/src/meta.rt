//! Connections that are driven, each for one question.
ghost use Rattle.std.specs.Prelude.{◌≡◌, ◌<◌, ◌≤◌, ◌^◌, [], ◌++◌, length, OnOk, OnErr, IfOk, Some, Err};
ghost use Rattle.zoom_pool.specs.declared.state.State.TheVariants as states;
ghost use Rattle.zoom_pool.specs.CallsOf.{call_of};
ghost use Rattle.zoom_pool.specs.Transcripts.{Fed, InputEnded, HandedOut, Stopped, HasFoundMemory};
ghost use Rattle.zoom_pool.specs.Learned.{AreStillKnown};
ghost use Rattle.zoom_pool.specs.Links.{waiting_at, stop_at, IsStopAt, SameOthers, SameElse};
ghost use Rattle.zoom_pool.specs.PoolSteps.{IsStateAt, IsTakeResult, HasHandedOutAll};
ghost use Rattle.zoom_questions.specs.Askable.{AreFit, AreAskable};
ghost use Rattle.zoom_pool.specs.Metas.{MetaAfter, MetaRecorded, MetaTakeStep, MetaIncompleteTake, DriveResult, AdvanceResult, IssueResult, NoteTakeStep, IsTranscriptValueUpTo, AreNewDrivers, is_skipped, is_complete, IsFinishedUpTo};

use crate::call::Call;
use crate::driver::{Driver, refused_law};
use crate::laws::{one_input, one_transcript};
use crate::pool::Pool;
use crate::state::{Reason, State, is_stopped};
use crate::step::{Outcome, Step, TakeError, step_of};
use std::alloc::{AllocError, Global};
use std::marker::Model;
use zber::Seq;
use zknow::Knowledge;
use zoom_questions::{MetaSettings, Question};
use zorigin::CallRefused;
use zorigin::laws::sent_requests;

/// More than one drive can need: an Init, a search, a Close, the 64 Presents that may wait, and one last look.
const MOST_LOOKS: u32 = 70;

/// What looking for the next call did.
#[derive(Clone, Copy, PartialEq, Eq)]
pub(crate) enum Advance {
    /// The call was made, and the origin admitted it.
    Admitted,
    /// The call was the search, and the origin refused it: it is skipped.
    Skipped,
    /// No call is next.
    Idle,
}

/// A pool of connections, each of which is driven for one question (Z39.50-2003, 3.2). It decides which calls are
/// made. Its caller carries octets, takes messages, and calls `drive` after each take. Takes alone change what is
/// known. Each call that has a `c` requires it to be below `connections()`.
#[derive(Drop)]
pub struct Meta {
    pool: Pool,
    drivers: Vec<Driver>,
}

impl Model for Meta {
    ghost use Rattle.std.specs.Prelude.{◌≡◌, length};
    ghost use Rattle.std.specs.Coded.{codes};
    ghost use Rattle.zber.specs.Coding.{coded_element};
    ghost use Rattle.zquery.specs.Coding.{coded_query};
    ghost use Rattle.zknow.specs.contracts.fact.Fact as fact;
    ghost use Rattle.zoom_pool.specs.Metas.{MetaLinks};

    ghost Value = { MetaLinks };

    ghost coded = { Prim.hlevel (codes, coded_element, coded_query, fact.the_row.coded) };

    ghost view = { λ m. record { pool = m.pool; drivers = m.drivers.items } };

    ghost invariant = { λ m. length m.drivers.items ≡ length m.pool.connections };
}

impl Meta {
    /// Creates a connection in state Fresh for each question, with nothing known. It requires fewer than 2^32
    /// questions that can be asked (`AreAskable`), and settings within their limits (`AreFit`). An error only if
    /// no memory is found.
    pub fn new(
        alloc: Global,
        questions: Seq<Question>,
        settings: MetaSettings,
    ) -> Result<Self, AllocError>
        requires some { length questions < 2 ^ 32 }
        requires askable { AreAskable questions }
        requires fit { AreFit settings }
        ensures after { IfOk result (λ meta. MetaAfter questions settings [] meta) }
        ensures size { IfOk result (λ meta. length meta.pool.connections ≡ length questions) }
    {
        let pool = Pool::new(alloc, questions.len() as u32, &settings.name)?;
        let drivers = drivers_for(alloc, questions, settings.step, settings.window)?;
        Ok(Meta { pool, drivers })
    }

    /// Returns the number of connections: their numbers are below it. It takes no memory.
    pub fn connections(&self) -> usize
        ensures { result ≡ length self.now.pool.connections }
    {
        self.pool.connections()
    }

    /// Returns the state of a connection. It takes no memory.
    pub fn state(&self, c: u32) -> State
        requires { c < length self.now.pool.connections }
        ensures state { IsStateAt c self.now.pool result }
        ensures stopped { IsStopAt c self.now.pool result }
    {
        self.pool.state(c)
    }

    /// Makes the calls of a connection that are due, and returns how many the origin admitted:
    /// - Init first;
    /// - if the target accepts the association, the search;
    /// - once its count is known, Presents of what is wanted and of what short answers left, by least first
    ///   position, as many as may wait for their answers;
    /// - Close, once nothing is due and nothing is outstanding.
    ///
    /// The origin admits each of them except a search that is not offered or cannot be sent, which is skipped.
    /// After `Ok` no call is next. If the association was accepted and the connection is neither Closed nor
    /// Failed, its search was admitted or is skipped. If no memory is found, the calls already made are kept. What
    /// is known is unchanged.
    pub fn drive(&mut self, c: u32) -> Result<u32, AllocError>
        requires { c < length self.old.pool.connections }
        ensures after { DriveResult c result self.old self.new }
        ensures rest { SameElse c self.old.pool self.new.pool }
    {
        one_transcript();
        let mut admitted: u32 = 0;
        for _ in 0..MOST_LOOKS {
            match self.advance(c)? {
                Advance::Admitted => admitted += 1,
                Advance::Skipped => {}
                Advance::Idle => return Ok(admitted),
            }
        }
        Ok(admitted)
    }

    /// Makes the next call of a connection, if one is next.
    fn advance(&mut self, c: u32) -> Result<Advance, AllocError>
        requires { c < length self.old.pool.connections }
        ensures after { AdvanceResult c result self.old self.new }
        ensures rest { SameElse c self.old.pool self.new.pool }
    {
        one_transcript();
        let state = self.pool.state(c);
        if is_stopped(state) {
            return Ok(Advance::Idle);
        }
        match self.drivers[c as usize].next_call(state)? {
            Some(call) => {
                let stage = self.issue(c, &call);
                drop(call);
                stage
            }
            None => Ok(Advance::Idle),
        }
    }

    /// Makes the call that the driver of the connection gave.
    fn issue(&mut self, c: u32, call: &Call) -> Result<Advance, AllocError>
        requires { c < length self.old.pool.connections }
        ensures after { IssueResult c (call_of call.now) result self.old self.new }
        ensures rest { SameElse c self.old.pool self.new.pool }
    {
        one_transcript();
        sent_requests();
        match self.pool.call(c, call) {
            Ok(()) => {
                self.drivers[c as usize].note_sent(call);
                Ok(Advance::Admitted)
            }
            Err(reason) => match reason {
                CallRefused::Memory => Err(AllocError),
                _ => {
                    self.drivers[c as usize].note_refused();
                    Ok(Advance::Skipped)
                }
            },
        }
    }

    /// Takes the next piece of octets that came on a connection, as `Pool::feed` does. If no memory is found,
    /// nothing changes.
    pub fn feed(&mut self, c: u32, piece: &[u8]) -> Result<(), AllocError>
        requires { c < length self.old.pool.connections }
        ensures after { OnOk result (MetaRecorded c (Fed piece.now) self.old self.new) }
        ensures err { OnErr result (self.new ≡ self.old) }
        ensures waiting { waiting_at self.new.pool c ≡ waiting_at self.old.pool c }
        ensures rest { SameElse c self.old.pool self.new.pool }
    {
        self.pool.feed(c, piece)
    }

    /// Takes one message of a connection, as `Pool::take` does, with the same results and refusals. After a take
    /// that found no memory, all calls on each connection keep their promises, as those of a `Pool` do.
    pub fn take(&mut self, c: u32) -> Result<Step, TakeError>
        requires { c < length self.old.pool.connections }
        // if memory is found
        ensures returned { IsTakeResult c self.old.pool result }
        ensures after { HasFoundMemory result → MetaTakeStep c self.old self.new }
        // if no memory is found
        ensures memory { result ≡ Err TakeError.Memory → MetaIncompleteTake c self.old self.new }
        // in each case
        ensures grows { AreStillKnown self.old.pool.knowledge self.new.pool.knowledge }
        ensures waiting { waiting_at self.new.pool c ≡ waiting_at self.old.pool c }
        ensures others { SameOthers c self.old.pool self.new.pool }
    {
        one_input();
        one_transcript();
        refused_law();
        match self.pool.take_outcome(c) {
            Ok(outcome) => {
                note_take(&mut self.drivers[c as usize], &outcome);
                Ok(step_of(&outcome))
            }
            Err(error) => Err(error),
        }
    }

    /// Notes that no more octets come to a connection, as `Pool::end` does. It takes no memory.
    pub fn end(&mut self, c: u32)
        requires { c < length self.old.pool.connections }
        ensures after { MetaRecorded c InputEnded self.old self.new }
        ensures waiting { waiting_at self.new.pool c ≡ waiting_at self.old.pool c }
        ensures rest { SameElse c self.old.pool self.new.pool }
    {
        self.pool.end(c);
    }

    /// Makes a connection Failed for a reason of the caller's, whatever its state was. The octets that wait, the
    /// other connections and what is known are unchanged. It takes no memory.
    pub fn stop(&mut self, c: u32, reason: Reason)
        requires { c < length self.old.pool.connections }
        // the stop
        ensures after { MetaRecorded c (Stopped reason) self.old self.new }
        ensures stopped { stop_at self.new.pool c ≡ Some (states.Failed reason) }
        // what is unchanged
        ensures waiting { waiting_at self.new.pool c ≡ waiting_at self.old.pool c }
        ensures drivers { self.new.drivers ≡ self.old.drivers }
        ensures rest { SameElse c self.old.pool self.new.pool }
    {
        self.pool.stop(c, reason);
    }

    /// Appends the octets that wait to go out on a connection to `out`, and forgets them, as `Pool::outgoing`
    /// does. If no memory is found, the connections and the content of `out` are unchanged.
    pub fn outgoing(&mut self, c: u32, out: &mut Vec<u8>) -> Result<(), AllocError>
        requires { c < length self.old.pool.connections }
        // on success
        ensures gives { OnOk result (out.new.items ≡ out.old.items ++ waiting_at self.old.pool c) }
        ensures after { OnOk result (MetaRecorded c (HandedOut (waiting_at self.old.pool c)) self.old self.new) }
        ensures all { OnOk result (HasHandedOutAll c self.new.pool) }
        ensures none { OnOk result (waiting_at self.new.pool c ≡ []) }
        // if no memory is found
        ensures err { OnErr result (self.new ≡ self.old) }
        ensures out { OnErr result (out.new.items ≡ out.old.items) }
        // in each case
        ensures rest { SameElse c self.old.pool self.new.pool }
    {
        self.pool.outgoing(c, out)
    }

    /// Returns what is known: the union of the facts of the accepted replies. It takes no memory.
    pub fn knowledge(&self) -> &Knowledge
        ensures { result.now ≡ self.now.pool.knowledge }
    {
        self.pool.knowledge()
    }

    /// Whether every connection is Closed or Failed. It takes no memory.
    pub fn finished(&self) -> bool
        ensures { IsFinishedUpTo self.now result }
    {
        one_transcript();
        self.pool.is_finished()
    }

    /// Whether the question of a connection was skipped: the origin refused its search as `NotOffered` or
    /// `Unsendable`. It takes no memory.
    pub fn skipped(&self, c: u32) -> bool
        requires { c < length self.now.pool.connections }
        ensures { IsTranscriptValueUpTo c self.now is_skipped result }
    {
        self.drivers[c as usize].is_skipped()
    }

    /// Whether the target rejected the association, or the origin admitted the connection's own Close. It takes no
    /// memory.
    pub fn complete(&self, c: u32) -> bool
        requires { c < length self.now.pool.connections }
        ensures { IsTranscriptValueUpTo c self.now is_complete result }
    {
        self.drivers[c as usize].is_complete()
    }
}

/// Notes in the driver what a take did.
fn note_take(driver: &mut Driver, outcome: &Outcome)
    ensures { NoteTakeStep outcome.now driver.old driver.new }
{
    if let Outcome::Took(taken) = outcome {
        driver.note_reply(taken);
    }
}

/// Creates a driver for each question.
fn drivers_for(
    alloc: Global,
    questions: Seq<Question>,
    step: u32,
    window: u32,
) -> Result<Vec<Driver>, AllocError>
    requires askable { AreAskable questions }
    requires steps { 0 < step }
    requires most { step ≤ 1000 }
    requires room { 0 < window }
    ensures { IfOk result (λ drivers. AreNewDrivers questions step window drivers.items) }
{
    let mut drivers = Vec::new(alloc);
    for question in questions.into_vec() {
        drivers.push(Driver::new(alloc, question, step, window))?;
    }
    Ok(drivers)
}
